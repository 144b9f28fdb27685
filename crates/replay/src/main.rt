// Replays a stored sample of the Rust's answers from standard input (differential/sample makes it): each body is read again, and the fields
// and bytes taken, or the number of the refusal, are compared with the Rust's answer.
#![tactic(auto)]

mod answers;
mod compared;

use answers::Answer;
use intake::read_full;
use std::io::Read;

// The bodies that were read, that were refused, and whose answer is not the one that is due.
#[derive(Clone, Copy)]
struct Tally {
    read: u64,
    refused: u64,
    differ: u64,
}

// ---- a record: kind, length of the body, body, number due, and where it is 0 the canonical bytes

fn caex_or_sdmx(kind: u8, body: &[u8], due: &[u8]) -> Answer {
    match kind {
        0 => answers::enter_show(body, due),
        1 => answers::fixture_list(body, due),
        2 => answers::fixture_remove(body, due),
        3 => answers::laser_feed_control(body, due),
        4 => answers::capa(body, due),
        5 => answers::unam(body, due),
        6 => answers::chbk(body, due),
        7 => answers::chls(body, due),
        18 => answers::laser_feed_list(body, due),
        19 => answers::laser_feed_frame(body, due),
        _ => answers::sxus(body, due),
    }
}

fn answer(kind: u8, body: &[u8], due: &[u8]) -> Answer {
    match kind {
        9 => answers::ptch(body, due),
        10 => answers::uptc(body, due),
        11 => answers::sptc(body, due),
        12 => answers::sele(body, due),
        13 => answers::dese(body, due),
        14 => answers::sfra(body, due),
        15 => answers::fram(body, due),
        16 => answers::pnam(body, due),
        17 => answers::ploc(body, due),
        20 => answers::base_header(body, due),
        _ => caex_or_sdmx(kind, body, due),
    }
}

fn agrees(answer: Answer, number: u8, due: &[u8]) -> bool {
    match answer {
        Ok(compared) => number == 0 && compared.is_whole(due),
        Err(refusal) => refusal.number() == number,
    }
}

// ---- counts

impl Tally {
    fn compare(mut self, kind: u8, body: &[u8], number: u8, due: &[u8]) -> Tally {
        let answer = answer(kind, body, due);
        let count = if !agrees(answer, number, due) {
            &mut self.differ
        } else if answer.is_ok() {
            &mut self.read
        } else {
            &mut self.refused
        };
        *count = count.wrapping_add(1);
        self
    }
}

fn replay(tally: Tally, record: &[u8]) -> Tally {
    if record.len() < 4 {
        return tally;
    }
    let end = 3 + usize::from(u16::from_le_bytes([record[1], record[2]]));
    if record.len() <= end {
        return tally;
    }
    tally.compare(record[0], &record[3..end], record[end], &record[end + 1..])
}

// ---- the sample

// The length of the next record; none at the sample's end.
fn record_length(stdin: &mut impl Read) -> Option<u16> {
    let mut head = [0u8; 2];
    if read_full(stdin, &mut head) < 2 {
        return None;
    }
    Some(u16::from_le_bytes(head))
}

// The next record, in the first bytes of the buffer; none where nothing is read.
fn next_record<'a>(stdin: &mut impl Read, buffer: &'a mut [u8; 65536]) -> Option<&'a [u8]> {
    let n = usize::from(record_length(stdin)?);
    let len = read_full(stdin, &mut buffer[..n]);
    if len == 0 {
        return None;
    }
    Some(&buffer[..len])
}

// ---- text: a key and its number, a write each, of which one that fails is not told

fn show(stdout: &impl Print, key: &str, number: u64) {
    let _ = stdout.write_all(key.as_bytes());
    let _ = stdout.print(number);
}

fn main(rt: HostRuntime) {
    let mut stdin = rt.stdin();
    let mut buffer = [0u8; 65536];
    let mut tally = Tally {
        read: 0,
        refused: 0,
        differ: 0,
    };
    for _ in 0..65536 {
        let Some(record) = next_record(&mut stdin, &mut buffer) else {
            break;
        };
        tally = replay(tally, record);
    }
    let Tally {
        read,
        refused,
        differ,
    } = tally;
    let stdout = rt.stdout();
    show(&stdout, "read=", read);
    show(&stdout, " refused=", refused);
    show(&stdout, " differ=", differ);
    let _ = stdout.write_all(b"\n");
}
