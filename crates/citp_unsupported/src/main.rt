// citp_unsupported RECEIVER SENDER: the packets of a sender's stream that a receiver does not support, by the last Capa of its own stream.
// Each is a file of at most 65,536 bytes.
#![tactic(auto)]

use capabilities::{Unsupported, list_unsupported};
use citp::{Cursor, Message, PacketReport, Report};
use intake::read_all;
use refusal::end_number;
use std::env::FillError;
use std::fmt::{Display, InlineText};
use std::io::ErrorKind;
use std::rt::{Env, Files};
use std::{fs, io, str};

// ---- lines

// A line on standard error, whose failure cannot be told.
fn complain(stderr: &impl Print, what: &str) {
    let _ = println!(stderr; "citp_unsupported: {what}");
}

// A key, its number and the end, a write each, up to one that fails.
fn line(stdout: &impl Print, key: &str, number: impl Display + Copy) -> io::Result<()> {
    stdout.write_all(key.as_bytes())?;
    stdout.print(number)?;
    stdout.write_all(b"\n")
}

fn show(stdout: &impl Print, found: Unsupported, offsets: &[usize]) -> io::Result<()> {
    let count = found.count;
    line(stdout, "offsets.count=", count)?;
    for offset in offsets.iter().take(count) {
        line(stdout, "offsets=", *offset)?;
    }
    line(stdout, "stop=", end_number(found.end))
}

// ---- the receiver's capabilities

// How many capabilities stand in `numbers` after a packet: those of a Capa take the place of the ones before, which were `count`.
fn after(count: usize, p: PacketReport, s: &[u8], numbers: &mut [u16]) -> usize {
    let Report::Message(Message::Sdmx(sdmx::Message::Capa(capa)), _, _) = p.report else {
        return count;
    };
    capa.capabilities.copy(p.body(s), numbers).unwrap_or(count)
}

// How many capabilities the last Capa of a stream has, and whether all of the stream was read.
#[derive(Clone, Copy)]
struct Receiver {
    count: usize,
    whole: bool,
}

// A packet has 20 bytes or more, so the stream ends before the bound.
fn read_capabilities(s: &[u8], numbers: &mut [u16]) -> Receiver {
    let mut receiver = Receiver {
        count: 0,
        whole: true,
    };
    let mut c = Cursor::new();
    for _ in 0..65536 {
        match c.step(s) {
            Ok(Some((p, next))) => {
                receiver.whole &= !matches!(p.report, Report::Refused(_));
                receiver.count = after(receiver.count, p, s, numbers);
                c = next;
            }
            end => {
                receiver.whole &= end.is_ok();
                break;
            }
        }
    }
    receiver
}

// ---- the files

// The system's words, without the number that std puts behind them.
fn words(text: &str) -> &str {
    text.split_once(" (os error ")
        .map_or(text, |(words, _)| words)
}

// What is wrong with a file, whose name need not be text.
fn fail(stderr: &impl Print, name: &[u8], what: &str) {
    let _ = stderr.write_all(b"citp_unsupported: ");
    let _ = stderr.write_all(name);
    let _ = println!(stderr; ": {what}");
}

// The same in the system's words for the call that failed.
fn fail_with(stderr: &impl Print, name: &[u8], error: io::Error) {
    let text = InlineText::<128>::of(error);
    let _ = stderr.write_all(b"citp_unsupported: ");
    let _ = stderr.write_all(name);
    let _ = stderr.write_all(b": cannot be read: ");
    let _ = stderr.write_all(words(text.as_str()).as_bytes());
    let _ = println!(stderr);
}

// The bytes of a file, whose name has to be text.
fn read_named(rt: &impl Files, name: &[u8], buf: &mut [u8]) -> io::Result<usize> {
    let Ok(path) = str::from_utf8(name) else {
        return Err(io::Error::from(ErrorKind::InvalidFilename));
    };
    let mut file = fs::open(rt, path)?;
    read_all(&mut file, buf)
}

// How many bytes a file has; that it cannot be read, or is too long, is told.
fn read_file(rt: &impl Files, stderr: &impl Print, name: &[u8], buf: &mut [u8]) -> Option<usize> {
    match read_named(rt, name, buf) {
        Ok(n) if n <= 65536 => return Some(n),
        Ok(_) => fail(stderr, name, "longer than 65536 bytes"),
        Err(e) => fail_with(stderr, name, e),
    }
    None
}

// ---- the arguments

// Linux's number of the words `File name too long`.
const NAME_TOO_LONG: i32 = 36;

// Whether there are so many arguments behind the program's name, or more.
fn has_argument(env: &impl Env, number: usize) -> bool {
    !matches!(env.arg(number, &mut []), Err(FillError::NotPresent))
}

// The file that an argument names. A name that is too long fills its buffer.
fn read_argument(
    rt: &(impl Env + Files),
    stderr: &impl Print,
    i: usize,
    buf: &mut [u8],
) -> Option<usize> {
    let mut name = [0u8; 4096];
    let Ok(length) = rt.arg(i, &mut name) else {
        fail_with(stderr, &name, io::Error::from_raw_os_error(NAME_TOO_LONG));
        return None;
    };
    read_file(rt, stderr, &name[..length], buf)
}

// ---- the two streams

// The first ones, so many, or all where they are fewer.
fn first<T>(all: &[T], count: usize) -> &[T] {
    &all[..count.min(all.len())]
}

// A Capa has at most 32,755 capabilities, and a stream at most 3,276 packets.
fn list(stdout: &impl Print, stderr: &impl Print, receiver_stream: &[u8], s: &[u8]) {
    let mut numbers = [0u16; 32755];
    let receiver = read_capabilities(receiver_stream, &mut numbers);
    let mut offsets = [0usize; 3276];
    let capabilities = first(&numbers, receiver.count);
    let found = list_unsupported(capabilities, s, &mut offsets).unwrap_or_else(|few| few.found);
    if show(stdout, found, &offsets).is_err() {
        complain(stderr, "standard output: cannot be written");
    }
    // a Capa may be among what cannot be read
    if !receiver.whole {
        complain(
            stderr,
            "not all of the receiver's stream can be read: citp-list shows where",
        );
    }
}

// A buffer has a byte more than a stream may have.
fn main(rt: HostRuntime) {
    let stderr = rt.stderr();
    if !has_argument(&rt, 2) || has_argument(&rt, 3) {
        complain(
            &stderr,
            "two files are due: the receiver's stream and the sender's",
        );
        return;
    }
    let mut receiver = [0u8; 65537];
    let Some(m) = read_argument(&rt, &stderr, 1, &mut receiver) else {
        return;
    };
    let mut sender = [0u8; 65537];
    let Some(n) = read_argument(&rt, &stderr, 2, &mut sender) else {
        return;
    };
    list(
        &rt.stdout(),
        &stderr,
        first(&receiver, m),
        first(&sender, n),
    );
}
