// The listing of a stream of packets. Lent output holds it from a character on, as far as it reaches; each function answers the place
// behind its text, or the output's end.
#![tactic(auto)]

ghost use Rattle.std.proofs.Math.Option.{none, some};
ghost use Rattle.text.specs.Prints.{Prints};
ghost use Rattle.names.specs.Messages.{message_lines};
ghost use Rattle.citp.specs.Says.{message_kind, message_hint, message_view, report_says, packet_says};
ghost use Rattle.listing.specs.Listing.{message_report, unknown_report, fragment_report, refusal_report};
ghost use Rattle.listing.specs.Listing.{content_lines, report_lines, end_lines, listing, Part};

use caex_messages::put_caex;
use citp::{Cursor, Message, PacketReport, Report};
use messages::put_hinted_message;
use text::{put_chars_line, put_decimal_line, put_hex_line};

// ---- what a packet holds

fn put_message_lines(out: &mut [u8], from: u32, at: usize, m: Message, body: &[u8]) -> usize
    ensures { Prints from (message_lines (message_kind m) (message_hint m) body.now (message_view m)) at out.old result out.new }
{
    match m {
        Message::Pinf(x) => messages::put_message(out, from, at, x, body),
        Message::Sdmx(x) => messages::put_message(out, from, at, x, body),
        Message::Fptc(x, hint) => put_hinted_message(out, from, at, x, hint, body),
        Message::Fsel(x) => messages::put_message(out, from, at, x, body),
        Message::Finf(x) => messages::put_message(out, from, at, x, body),
        Message::Caex(x) => put_caex(out, from, at, x, body),
    }
}

pub fn put_message(
    out: &mut [u8],
    from: u32,
    at: usize,
    m: Message,
    added: usize,
    body: &[u8],
) -> usize
    ensures { Prints from (message_report (message_kind m) (message_hint m) body.now (message_view m) added) at out.old result out.new }
{
    let at = put_chars_line(out, from, at, b"report", b"message");
    let at = put_message_lines(out, from, at, m, body);
    put_decimal_line(out, from, at, b"extra", added)
}

pub fn put_unknown_layer(out: &mut [u8], from: u32, at: usize, cookie: u32) -> usize
    ensures { Prints from (unknown_report cookie none) at out.old result out.new }
{
    let at = put_chars_line(out, from, at, b"report", b"unknown");
    put_hex_line(out, from, at, b"layer", cookie as usize)
}

pub fn put_unknown_kind(
    out: &mut [u8],
    from: u32,
    at: usize,
    cookie: u32,
    content_type: u32,
) -> usize
    ensures { Prints from (unknown_report cookie (some content_type)) at out.old result out.new }
{
    let at = put_unknown_layer(out, from, at, cookie);
    put_hex_line(out, from, at, b"type", content_type as usize)
}

pub fn put_fragment(out: &mut [u8], from: u32, at: usize, part: u16, count: u16) -> usize
    ensures { Prints from (fragment_report part count) at out.old result out.new }
{
    let at = put_chars_line(out, from, at, b"report", b"fragment");
    let at = put_decimal_line(out, from, at, b"part", part as usize);
    put_decimal_line(out, from, at, b"of", count as usize)
}

pub fn put_refusal(out: &mut [u8], from: u32, at: usize, number: u8) -> usize
    ensures { Prints from (refusal_report number) at out.old result out.new }
{
    let at = put_chars_line(out, from, at, b"report", b"refused");
    put_decimal_line(out, from, at, b"refusal", number as usize)
}

fn put_content(out: &mut [u8], from: u32, at: usize, p: PacketReport, s: &[u8]) -> usize
    ensures { Prints from (content_lines s.now p.size (report_says p.report)) at out.old result out.new }
{
    match p.report {
        Report::Message(m, _, added) => put_message(out, from, at, m, added, p.body(s)),
        Report::UnknownLayer(cookie) => put_unknown_layer(out, from, at, cookie),
        Report::UnknownKind(cookie, content_type) => put_unknown_kind(
            out,
            from,
            at,
            cookie,
            content_type,
        ),
        Report::Fragment(part, count) => put_fragment(out, from, at, part, count),
        Report::Refused(number) => put_refusal(out, from, at, number),
    }
}

// ---- a packet, and the stream

// The report of a packet of s.
pub fn put_report(out: &mut [u8], from: u32, at: usize, p: PacketReport, s: &[u8]) -> usize
    ensures { Prints from (report_lines s.now (packet_says p)) at out.old result out.new }
{
    let at = put_decimal_line(out, from, at, b"at", p.offset);
    let at = put_decimal_line(out, from, at, b"size", p.size as usize);
    let at = put_decimal_line(out, from, at, b"request_index", p.request_index as usize);
    put_content(out, from, at, p, s)
}

pub fn put_end(out: &mut [u8], from: u32, at: usize, packets: usize, number: u8) -> usize
    ensures { Prints from (end_lines packets number) at out.old result out.new }
{
    let at = put_decimal_line(out, from, at, b"packets", packets);
    put_decimal_line(out, from, at, b"stop", number as usize)
}

// The listing of the stream s.
pub fn put_listing(out: &mut [u8], from: u32, at: usize, s: &[u8]) -> usize
    ensures { Prints from (listing s.now) at out.old result out.new }
{
    let mut next = at;
    let mut c = Cursor::new();
    let mut packets = 0;
    let number = loop {
        match c.step(s) {
            Ok(Some((p, more))) => {
                next = put_report(out, from, next, p, s);
                c = more;
                packets += 1;
            }
            Ok(None) => break 0,
            Err(refusal) => break refusal.number(),
        }
    };
    put_end(out, from, next, packets, number)
}

// The listing of the stream s from a character on, as much of it as the output holds; answers how many characters these are.
pub fn list_from(out: &mut [u8], from: u32, s: &[u8]) -> usize
    ensures { Part (listing s.now) from out.old result out.new }
{
    put_listing(out, from, 0, s).saturating_sub(from as usize)
}
