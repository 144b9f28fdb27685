// Runs the edges of the scope and of the requests that are not among the proved examples, and those beside them. Standard input has the
// packets to read, one to a line; what is written, and the stream whose unsupported packets are listed, stand below. The file stdout has
// what each must give.
#![tactic(auto)]

ghost use Rattle.std.specs.Prelude.{◌≡◌, ◌≤◌, length, IfSome};

use capabilities::list_unsupported;
use citp::{Cursor, Message, PacketReport, Report};
use fixture::{Fixtures, Identifier, IdentifierType, Identifiers};
use intake::read_full;
use refusal::{Refusal, end_number};
use turns::Kind;
use writer::Writer;

// ---- lines of a label and a number, three writes each: what is written, and, set in, what an edge gives

fn show(stdout: &impl Print, label: &str, number: u64) {
    let _ = print!(stdout; "{label:<24}");
    let _ = print!(stdout; "{number}");
    let _ = println!(stdout);
}

fn show_refused(stdout: &impl Print, number: u8) {
    show(stdout, "  refused", u64::from(number));
}

// 0 at the stream's end.
fn show_stop<T: Copy>(stdout: &impl Print, end: Result<T, Refusal>) {
    show(stdout, "  stop", u64::from(end_number(end)));
}

// ---- a packet read

fn show_identifier(stdout: &impl Print, identifiers: Identifiers, body: &[u8]) {
    let Ok(Some((x, _))) = identifiers.next(body) else {
        return;
    };
    show(
        stdout,
        "  identifier_type",
        u64::from(x.identifier_type.code()),
    );
    show(stdout, "  data_size", x.data_size() as u64);
}

fn show_fixture(stdout: &impl Print, fixtures: Fixtures, body: &[u8]) {
    let Ok(Some((fixture, _))) = fixtures.next(body) else {
        return;
    };
    show_identifier(stdout, fixture.identifiers, body);
}

// Of a fixture list the first identifier of its first fixture, of a laser feed its count.
fn show_message(stdout: &impl Print, message: Message, body: &[u8]) {
    let Message::Caex(message) = message else {
        return;
    };
    match message {
        caex::Message::FixtureList(list) => show_fixture(stdout, list.fixtures, body),
        caex::Message::LaserFeedList(list) => show(
            stdout,
            "  feed_count",
            list.feed_count() as u64,
        ),
        caex::Message::LaserFeedFrame(frame) => show(
            stdout,
            "  point_count",
            frame.point_count() as u64,
        ),
        _ => {}
    }
}

fn show_packet(stdout: &impl Print, p: PacketReport, s: &[u8]) {
    match p.report {
        Report::Message(message, _, added) => {
            show(stdout, "  message, added", added as u64);
            show_message(stdout, message, p.body(s));
        }
        Report::UnknownLayer(_) => show(stdout, "  unknown layer, size", p.size as u64),
        Report::UnknownKind(_, _) => show(stdout, "  unknown kind, size", p.size as u64),
        Report::Fragment(part, _) => show(stdout, "  fragment, part", part as u64),
        Report::Refused(number) => show_refused(stdout, number),
    }
}

fn read(stdout: &impl Print, s: &[u8]) {
    match Cursor::new().step(s) {
        Ok(Some((p, _))) => show_packet(stdout, p, s),
        end => show_stop(stdout, end),
    }
}

// ---- the lines of standard input

// A packet so far, in hexadecimal.
#[derive(Clone, Copy)]
struct Packet {
    bytes: [u8; 600],
    digits: usize,
}

fn value(digit: u8) -> Option<u8>
    ensures { IfSome result (λ v. v ≤ 15) }
{
    match digit {
        b'0'..=b'9' => Some(digit - b'0'),
        b'A'..=b'F' => Some(digit - b'A' + 10),
        _ => None,
    }
}

impl Packet {
    const EMPTY: Packet = Packet {
        bytes: [0; 600],
        digits: 0,
    };

    // What is no digit, or has no room, is passed over.
    fn with_digit(mut self, digit: u8) -> Packet {
        let i = self.digits / 2;
        if let Some(v) = value(digit) {
            if i < 600 {
                self.bytes[i] = 16 * (self.bytes[i] % 16) + v;
                self.digits += 1;
            }
        }
        self
    }

    fn bytes(&self) -> &[u8] {
        &self.bytes[..(self.digits / 2).min(600)]
    }
}

// Each line as it stands, and what the packet gives that is behind its `=`.
#[inline(never)]
fn read_edges(stdout: &impl Print, s: &[u8]) {
    let mut packet: Option<Packet> = None;
    for c in s {
        let _ = stdout.write_all(&[*c]);
        packet = match (*c, packet) {
            (b'\n', Some(whole)) => {
                read(stdout, whole.bytes());
                None
            }
            (b'=', _) => Some(Packet::EMPTY),
            (digit, Some(part)) => Some(part.with_digit(digit)),
            (_, None) => None,
        };
    }
}

// ---- what is written

fn show_written(stdout: &impl Print, answer: Result<usize, Refusal>) {
    match answer {
        Ok(size) => show(stdout, "  written, size", size as u64),
        Err(refusal) => show_refused(stdout, refusal.number()),
    }
}

// Room for the largest packet here.
fn buffer() -> [u8; 131096]
    ensures { 131096 ≡ length result }
{
    [0; 131096]
}

fn identifier_edge(stdout: &impl Print, data_size: usize) {
    let data = [0u8; 65536];
    let mut out = buffer();
    show(stdout, "identifier data", data_size as u64);
    let answer = Identifier::write_to_bytes(
        &mut out,
        0,
        IdentifierType::RDMManufacturerId,
        first(&data, data_size),
    );
    show_written(stdout, answer);
}

// The first so many; all where there are fewer.
fn first<T>(all: &[T], count: usize) -> &[T] {
    &all[..count.min(all.len())]
}

// As many names of one unit, up to the first refusal.
fn give_names(out: &mut [u8], head: Writer, count: usize) -> Result<Writer, Refusal> {
    let mut w = head;
    for _ in 0..count {
        w = w.feed_name(out, &[65])?;
    }
    Ok(w)
}

fn give(out: &mut [u8], kind: Kind, count: usize) -> Result<Writer, Refusal> {
    let w = Writer::new().open(out, kind, 0, 0)?;
    match kind {
        Kind::EnterShow => w.enter_show(out, first(&[65; 256], count)),
        Kind::PNam => w.pnam(out, first(&[65; 256], count)),
        Kind::Fram => w.fram(out, 1, 2, 3, first(&[65; 65536], count)),
        Kind::Capa => w.capa(out, first(&[1; 65536], count)),
        Kind::LaserFeedList => {
            let head = w.laser_feed_list_head(out, 1, count)?;
            give_names(out, head, count)
        }
        _ => w.laser_feed_frame_head(out, 1, 0, 5, count),
    }
}

// What the last call gives; where it is taken, the packet closed, as far as it can be, and read.
fn write(stdout: &impl Print, out: &mut [u8], kind: Kind, count: usize) {
    let given = give(out, kind, count);
    show_written(stdout, given.map(|w| w.at));
    if let Ok(w) = given {
        let _ = w.close(out);
        read(stdout, out);
    }
}

// (within `main` its buffer would stand beside the one of `identifier_edge`, as the packet of `read_edges` would)
#[inline(never)]
fn packet_edge(stdout: &impl Print, items: &str, kind: Kind, count: usize, room: usize)
    requires { room ≤ 131096 }
{
    let mut out = buffer();
    show(stdout, items, count as u64);
    show(stdout, "  room", room as u64);
    write(stdout, &mut out[..room], kind, count);
}

fn write_edges(stdout: &impl Print) {
    // Scope, 'Edges': an identifier 05 00 00 has no data. 'Where a call stops': 12 where a block is too long for its count field.
    identifier_edge(stdout, 0);
    identifier_edge(stdout, 65535);
    identifier_edge(stdout, 65536);
    // 'Edges': 65,535 capabilities are written, 65,536 are 12. A packet of the first has 24 + 2 + 131,070 bytes.
    packet_edge(stdout, "capabilities", Kind::Capa, 65535, 131096);
    packet_edge(stdout, "capabilities", Kind::Capa, 65536, 131096);
    // 'Where a call stops': 13 where the output is shorter than the place after the call, and 12 before 13.
    packet_edge(stdout, "capabilities", Kind::Capa, 65535, 131095);
    packet_edge(stdout, "capabilities", Kind::Capa, 65536, 131095);
    // 'Edges': 256 laser feed names are 12. A packet of 255 has 24 + 5 + 255 * 4 bytes.
    packet_edge(stdout, "laser feed names", Kind::LaserFeedList, 255, 1049);
    packet_edge(stdout, "laser feed names", Kind::LaserFeedList, 256, 1049);
    // The count of points is a u16. They are not given, so the close is refused, and the size field that is read is 0.
    packet_edge(stdout, "laser points", Kind::LaserFeedFrame, 65535, 35);
    packet_edge(stdout, "laser points", Kind::LaserFeedFrame, 65536, 35);
    // Requests, 'Names that fit the display': at most 255 units or bytes, frame_names 65,535; a longer one is 19, and 19 before 13.
    packet_edge(stdout, "show name, units", Kind::EnterShow, 255, 536);
    packet_edge(stdout, "show name, units", Kind::EnterShow, 256, 536);
    packet_edge(stdout, "peer name, bytes", Kind::PNam, 255, 280);
    packet_edge(stdout, "peer name, bytes", Kind::PNam, 256, 280);
    packet_edge(stdout, "frame names, bytes", Kind::Fram, 65535, 65564);
    packet_edge(stdout, "frame names, bytes", Kind::Fram, 65536, 65564);
}

// ---- packets that a receiver does not support

// An unknown packet, a ChLs, an unknown packet, an Sxus and a ChLs: 119 bytes, so a list of five places is always long enough.
const SENT: [u8; 119] = *b"\
CITP\x01\x00\x00\x00\x14\x00\x00\x00\x01\x00\x00\x00MSEX\
CITP\x01\x00\x00\x00\x1A\x00\x00\x00\x01\x00\x00\x00SDMXChLs\x00\x00\
CITP\x01\x00\x00\x00\x14\x00\x00\x00\x01\x00\x00\x00MSEX\
CITP\x01\x00\x00\x00\x1B\x00\x00\x00\x01\x00\x00\x00SDMXSXUS\x03A\x00\
CITP\x01\x00\x00\x00\x1A\x00\x00\x00\x01\x00\x00\x00SDMXChLs\x00\x00";

// What is answered on a list, and what it holds afterwards.
fn list_edge(stdout: &impl Print, capabilities: &[u16], offsets: &mut [usize]) {
    let sent = SENT;
    show(stdout, "offsets, places", offsets.len() as u64);
    let answer = list_unsupported(capabilities, &sent, offsets);
    if let Err(few) = answer {
        show_refused(stdout, few.number());
    }
    let found = answer.unwrap_or_else(|few| few.found);
    show(stdout, "  count", found.count as u64);
    show_stop(stdout, found.end);
    for offset in offsets.iter() {
        show(stdout, "  offset", *offset as u64);
    }
}

fn list_edges(stdout: &impl Print) {
    // Requests, 'Capabilities before channel lists': a list too short is 13 and keeps everything.
    list_edge(stdout, &[], &mut [9; 0]);
    list_edge(stdout, &[], &mut [9; 2]);
    // Else it keeps its remainder: one that is counted for first, and one that is always long enough.
    list_edge(stdout, &[], &mut [9; 3]);
    list_edge(stdout, &[2, 101], &mut [9; 4]);
    list_edge(stdout, &[], &mut [9; 6]);
    // ChLs if 1 is absent, Sxus if 3 is absent.
    list_edge(stdout, &[2, 1], &mut [9; 1]);
    list_edge(stdout, &[3, 103], &mut [9; 3]);
    list_edge(stdout, &[3, 1], &mut [9; 0]);
}

fn main(rt: HostRuntime) {
    let stdout = rt.stdout();
    let mut input = [0u8; 65536];
    let n = read_full(&mut rt.stdin(), &mut input);
    read_edges(&stdout, &input[..n]);
    write_edges(&stdout);
    list_edges(&stdout);
}
