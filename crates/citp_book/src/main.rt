// The patch book of a stream from standard input, of at most 65,536 bytes: the patch messages that it refuses, the entries that it holds at
// the stream's end, the universes that they are in.
#![tactic(auto)]

use book::{Book, Entry};
use citp::{Cursor, Message, PacketReport, Report};
use intake::read_all;
use refusal::{Refusal, end_number};
use std::fmt::Display;

// ---- lines: a key, its number and the end, a write each, of which one that fails is not told

fn show(stdout: &impl Print, key: &str, number: impl Display + Copy) {
    let _ = stdout.write_all(key.as_bytes());
    let _ = stdout.print(number);
    let _ = stdout.write_all(b"\n");
}

// ---- the book at the stream's end

fn show_entries(stdout: &impl Print, book: Book, entries: &[u64]) {
    let held = book.held(entries);
    show(stdout, "entries=", held);
    for k in 0..held {
        let Some(
            Entry {
                fixture_identifier,
                universe,
                channel,
                channel_count,
            },
        ) = book.entry(entries, k)
        else {
            return;
        };
        show(stdout, "fixture_identifier=", fixture_identifier);
        show(stdout, "universe=", universe);
        show(stdout, "channel=", channel);
        show(stdout, "channel_count=", channel_count);
    }
}

// A universe with an entry has a channel taken: every entry has a channel.
fn show_universe(stdout: &impl Print, book: Book, entries: &[u64], universe: u16) {
    let taken = book.taken(entries, universe);
    if taken == 0 {
        return;
    }
    show(stdout, "universe=", universe);
    show(stdout, "taken=", taken);
    match book.first_free(entries, universe) {
        Some(channel) => show(stdout, "first_free=", channel),
        None => {
            let _ = println!(stdout; "first_free=none");
        }
    }
}

fn show_universes(stdout: &impl Print, book: Book, entries: &[u64]) {
    let universes = (0..256)
        .filter(|universe| book.taken(entries, *universe) != 0)
        .count();
    show(stdout, "universes=", universes);
    for universe in 0..256 {
        show_universe(stdout, book, entries, universe);
    }
}

// ---- the stream

// A message's answer, of which a refusal is shown.
fn shown(
    stdout: &impl Print,
    answer: Result<Book, Refusal>,
    at: usize,
    kind: &str,
) -> Option<Book> {
    match answer {
        Ok(book) => Some(book),
        Err(refusal) => {
            show(stdout, "at=", at);
            let _ = println!(stdout; "kind={kind}");
            show(stdout, "refusal=", refusal.number());
            None
        }
    }
}

// The book after a packet, which changes it where it is a Ptch or a UPtc.
fn feed(stdout: &impl Print, book: Book, entries: &mut [u64], p: PacketReport, s: &[u8]) -> Book {
    let Report::Message(Message::Fptc(message, _), _, _) = p.report else {
        return book;
    };
    let body = p.body(s);
    let after = match message {
        fptc::Message::Ptch(_) => shown(stdout, book.patch(entries, body), p.offset, "Ptch"),
        fptc::Message::UPtc(_) => shown(stdout, book.unpatch(entries, body), p.offset, "UPtc"),
        fptc::Message::SPtc(_) => None,
    };
    after.unwrap_or(book)
}

// A line on standard error, whose failure cannot be told.
fn complain(stderr: &impl Print, what: &str) {
    let _ = println!(stderr; "citp_book: {what}");
}

// A packet has 20 bytes or more, so the stream ends before the bound.
fn walk(stdout: &impl Print, stderr: &impl Print, s: &[u8], entries: &mut [u64]) {
    let mut book = Book::new();
    let mut c = Cursor::new();
    let mut unread = false;
    for packets in 0..65536 {
        match c.step(s) {
            Ok(Some((p, next))) => {
                unread |= matches!(p.report, Report::Refused(_));
                book = feed(stdout, book, entries, p, s);
                c = next;
            }
            end => {
                show_entries(stdout, book, entries);
                show_universes(stdout, book, entries);
                show(stdout, "packets=", packets);
                show(stdout, "stop=", end_number(end));
                break;
            }
        }
    }
    if unread {
        complain(stderr, "some packets cannot be read: citp-list lists them");
    }
}

// ---- the input

// The buffer has a byte more than a stream may have.
fn main(rt: HostRuntime) {
    let stderr = rt.stderr();
    let mut buf = [0u8; 65537];
    match read_all(&mut rt.stdin(), &mut buf) {
        Err(_) => complain(&stderr, "standard input: cannot be read"),
        Ok(65537) => complain(&stderr, "standard input: longer than 65536 bytes"),
        Ok(n) => walk(&rt.stdout(), &stderr, &buf[..n], &mut [0u64; 256]),
    }
}
