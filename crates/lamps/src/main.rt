// The lamps of a stream from standard input: for each fixture of its fixture lists a line with its identifier and where it is patched.
#![tactic(auto)]

use citp::{Cursor, Message, PacketReport, Report};
use fixture::{Fixture, FixtureData, Fixtures};
use intake::read_full;
use refusal::end_number;
use std::fmt::Display;

// A key and its number, a write each. One that fails is not told, here and below.
fn show(stdout: &impl Print, key: &str, number: impl Display + Copy) {
    let _ = stdout.write_all(key.as_bytes());
    let _ = stdout.print(number);
}

fn show_lamp(stdout: &impl Print, lamp: Fixture) {
    let Fixture {
        fixture_identifier,
        channel_count,
        data,
        ..
    } = lamp;
    let FixtureData {
        patched,
        universe,
        universe_channel,
        ..
    } = data;
    show(stdout, "lamp=", fixture_identifier);
    show(stdout, " patched=", patched);
    show(stdout, " universe=", universe);
    show(stdout, " channel=", universe_channel);
    show(stdout, " channels=", channel_count);
    let _ = stdout.write_all(b"\n");
}

// The bound is above any count.
fn show_lamps(stdout: &impl Print, list: Fixtures, body: &[u8]) {
    let mut rest = list;
    for _ in 0..65536 {
        let Ok(Some((lamp, more))) = rest.next(body) else {
            return;
        };
        show_lamp(stdout, lamp);
        rest = more;
    }
}

// The fixtures of a packet that is a fixture list.
fn fixtures_of(p: PacketReport) -> Option<Fixtures> {
    let Report::Message(Message::Caex(caex::Message::FixtureList(list)), _, _) = p.report else {
        return None;
    };
    Some(list.fixtures)
}

fn show_end(stdout: &impl Print, packets: u64, stop: u8) {
    show(stdout, "packets=", packets);
    show(stdout, " stop=", stop);
    let _ = stdout.write_all(b"\n");
}

// A packet has 20 bytes or more, so the stream ends before the bound.
fn walk(stdout: &impl Print, s: &[u8]) {
    let mut c = Cursor::new();
    for packets in 0..65536 {
        match c.step(s) {
            Ok(Some((p, next))) => {
                if let Some(list) = fixtures_of(p) {
                    show_lamps(stdout, list, p.body(s));
                }
                c = next;
            }
            end => {
                show_end(stdout, packets, end_number(end));
                return;
            }
        }
    }
}

fn main(rt: HostRuntime) {
    let mut stream = [0u8; 65536];
    let n = read_full(&mut rt.stdin(), &mut stream);
    walk(&rt.stdout(), &stream[..n]);
}
