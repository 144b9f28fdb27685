// citp_levels UNIVERSE: the levels of a universe's 512 channels after a stream from standard input, of at most 65,536 bytes: the channel
// blocks and channel lists that the rack refuses, then each channel's level at the stream's end.
#![tactic(auto)]

use citp::{Cursor, Message, PacketReport, Report};
use dimmer::{CHANNELS, Dimmer};
use intake::read_all;
use refusal::{Refusal, end_number};
use std::env::FillError;
use std::fmt::Display;
use std::rt::Env;
use std::{io, str};

// ---- lines

// A line on standard error, whose failure cannot be told.
fn complain(stderr: &impl Print, what: &str) {
    let _ = println!(stderr; "citp_levels: {what}");
}

// A key, its number and the end, a write each, up to one that fails.
fn show(stdout: &impl Print, key: &str, number: impl Display + Copy) -> io::Result<()> {
    stdout.write_all(key.as_bytes())?;
    stdout.print(number)?;
    stdout.write_all(b"\n")
}

fn show_end(
    stdout: &impl Print,
    levels: &[u8; CHANNELS],
    packets: u64,
    stop: u8,
) -> io::Result<()> {
    show(stdout, "levels.count=", CHANNELS)?;
    for level in levels {
        show(stdout, "levels=", *level)?;
    }
    show(stdout, "packets=", packets)?;
    show(stdout, "stop=", stop)
}

// A message is shown where it is refused.
fn show_refused(
    stdout: &impl Print,
    answer: Result<(), Refusal>,
    at: usize,
    kind: &str,
) -> io::Result<()> {
    let Err(refusal) = answer else {
        return Ok(());
    };
    show(stdout, "at=", at)?;
    println!(stdout; "kind={kind}")?;
    show(stdout, "refusal=", refusal.number())
}

// ---- the stream

// A packet sets levels where it is a ChBk or a ChLs.
fn feed(
    stdout: &impl Print,
    dimmer: Dimmer,
    levels: &mut [u8; CHANNELS],
    p: PacketReport,
    s: &[u8],
) -> io::Result<()> {
    let Report::Message(Message::Sdmx(message), _, _) = p.report else {
        return Ok(());
    };
    let body = p.body(s);
    match message {
        sdmx::Message::ChBk(_) => show_refused(stdout, dimmer.chbk(levels, body), p.offset, "ChBk"),
        sdmx::Message::ChLs(_) => show_refused(stdout, dimmer.chls(levels, body), p.offset, "ChLs"),
        _ => Ok(()),
    }
}

// A packet has 20 bytes or more, so the stream ends before the bound.
fn walk(
    stdout: &impl Print,
    stderr: &impl Print,
    s: &[u8],
    universe_index: u8,
    levels: &mut [u8; CHANNELS],
) {
    let dimmer = Dimmer::new(universe_index, levels);
    let mut c = Cursor::new();
    let mut unread = false;
    let mut written = true;
    for packets in 0..65536 {
        match c.step(s) {
            Ok(Some((p, next))) => {
                unread |= matches!(p.report, Report::Refused(_));
                written &= feed(stdout, dimmer, levels, p, s).is_ok();
                c = next;
            }
            end => {
                let stop = end_number(end);
                written &= show_end(stdout, levels, packets, stop).is_ok();
                break;
            }
        }
    }
    if !written {
        complain(stderr, "standard output: cannot be written");
    }
    if unread {
        complain(stderr, "some packets cannot be read: citp-list lists them");
    }
}

// ---- the argument

// Decimal digits, of a number of at most 255.
fn universe_of(argument: &[u8]) -> Option<u8> {
    if !argument.iter().all(|byte| byte.is_ascii_digit()) {
        return None;
    }
    str::from_utf8(argument).ok()?.parse().ok()
}

// Whether there are so many arguments behind the program's name, or more.
fn has_argument(env: &impl Env, number: usize) -> bool {
    !matches!(env.arg(number, &mut []), Err(FillError::NotPresent))
}

// An argument that names no universe, with its bytes as they are.
fn tell_argument(stderr: &impl Print, argument: &[u8]) {
    let _ = stderr.write_all(b"citp_levels: ");
    let _ = stderr.write_all(argument);
    let _ = stderr.write_all(b": not a universe, a decimal number of 0 to 255\n");
}

// The universe of the argument; that it names none is told. One that is too long fills the buffer.
fn read_argument(rt: &impl Env, stderr: &impl Print) -> Option<u8> {
    let mut argument = [0u8; 4096];
    let Ok(length) = rt.arg(1, &mut argument) else {
        tell_argument(stderr, &argument);
        return None;
    };
    let argument = &argument[..length];
    let universe = universe_of(argument);
    if universe.is_none() {
        tell_argument(stderr, argument);
    }
    universe
}

// The buffer has a byte more than a stream may have.
fn main(rt: HostRuntime) {
    let stderr = rt.stderr();
    if !has_argument(&rt, 1) || has_argument(&rt, 2) {
        complain(
            &stderr,
            "one argument is due: the universe, a decimal number of 0 to 255",
        );
        return;
    }
    let Some(universe_index) = read_argument(&rt, &stderr) else {
        return;
    };
    let mut buf = [0u8; 65537];
    match read_all(&mut rt.stdin(), &mut buf) {
        Err(_) => complain(&stderr, "standard input: cannot be read"),
        Ok(65537) => complain(&stderr, "standard input: longer than 65536 bytes"),
        Ok(n) => walk(
            &rt.stdout(),
            &stderr,
            &buf[..n],
            universe_index,
            &mut [0u8; CHANNELS],
        ),
    }
}
