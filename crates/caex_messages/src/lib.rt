// The lines of a message of CAEX, put at a place of a listing. Lent output holds it from a character on, as far as it reaches;
// each function answers the place behind its text, or the output's end.
#![tactic(auto)]

ghost use Rattle.std.specs.Prelude.{◌++◌, refl};
ghost use Rattle.std.proofs.Math.Option.{none};
ghost use Rattle.text.specs.Prints.{Prints};
ghost use Rattle.text.specs.Text.{hex, line};
ghost use Rattle.protocol.specs.Kind as kind;
ghost use Rattle.protocol.specs.Kind.{identifier_format, fixture_format, feed_name_format, laser_point_format};
ghost use Rattle.lines.specs.Lines.{Lists};
ghost use Rattle.wire.specs.Says.{ucs2_range};
ghost use Rattle.caex.specs.Says as caex_says;
ghost use Rattle.caex.specs.Says.{message_kind, message_view};
ghost use Rattle.caex.specs.Write.{point_value};
ghost use Rattle.fixture.specs.Says as fixture_says;
ghost use Rattle.fixture.specs.Says.{identifier_view, fixture_view};
ghost use Rattle.names.specs.Names as names;
ghost use Rattle.names.specs.Messages.{message_lines};

use caex::{FixtureList, LaserFeedControl, LaserFeedFrame, LaserFeedList, LaserPoint, Message};
use fixture::{Fixture, FixtureData, FixtureDataStrings, Identifier};
use floats::pattern_of;
use lines::{ItemLines, put_digits, put_list, put_u32_list, put_ucs2};
use messages::{MessageLines, put_message};
use text::{put_decimal_line, put_hex_line};
use wire::Ucs2;

// How the items of the lists are listed.
#[derive(Clone, Copy)]
struct CaexLines;

// ---- identifiers

impl ItemLines<Identifier> for CaexLines {
    ghost form = { (identifier_format, identifier_view) };

    ghost listed = { λ _. names.identifier };

    ghost read_so = { refl };

    fn put(self, out: &mut [u8], from: u32, at: usize, x: Identifier, body: &[u8]) -> usize {
        let at = put_decimal_line(
            out,
            from,
            at,
            b"identifier_type",
            x.identifier_type.code() as usize,
        );
        put_digits(out, from, at, b"data_size", b"data", x.data, body)
    }
}

// ---- the data of a fixture

// Three floats under one name, by their bits.
fn put_vector(out: &mut [u8], from: u32, at: usize, name: &[u8], x: u32, y: u32, z: u32) -> usize
    ensures { Prints from (line name.now (hex 8 x) ++ (line name.now (hex 8 y) ++ line name.now (hex 8 z))) at out.old result out.new }
{
    let at = put_hex_line(out, from, at, name, x as usize);
    let at = put_hex_line(out, from, at, name, y as usize);
    put_hex_line(out, from, at, name, z as usize)
}

// Position and angles.
fn put_floats(out: &mut [u8], from: u32, at: usize, x: FixtureData, body: &[u8]) -> usize
    ensures { Lists from names.floats body.now (fixture_says.data_numbers x).4 at out.old result out.new }
{
    let at = put_vector(
        out,
        from,
        at,
        b"position",
        pattern_of(x.position_x, x.bits.position_x),
        pattern_of(x.position_y, x.bits.position_y),
        pattern_of(x.position_z, x.bits.position_z),
    );
    put_vector(
        out,
        from,
        at,
        b"angles",
        pattern_of(x.angle_x, x.bits.angle_x),
        pattern_of(x.angle_y, x.bits.angle_y),
        pattern_of(x.angle_z, x.bits.angle_z),
    )
}

fn put_fixture_data(
    out: &mut [u8],
    from: u32,
    at: usize,
    x: FixtureData,
    strings: FixtureDataStrings,
    body: &[u8],
) -> usize
    ensures { Lists from names.fixture_data body.now (fixture_says.data_view x strings) at out.old result out.new }
{
    let at = put_decimal_line(out, from, at, b"patched", x.patched as usize);
    let at = put_decimal_line(out, from, at, b"universe", x.universe as usize);
    let at = put_decimal_line(
        out,
        from,
        at,
        b"universe_channel",
        x.universe_channel as usize,
    );
    let at = put_ucs2(out, from, at, b"unit", strings.unit, body);
    let at = put_decimal_line(out, from, at, b"channel", x.channel as usize);
    let at = put_ucs2(out, from, at, b"circuit", strings.circuit, body);
    let at = put_ucs2(out, from, at, b"note", strings.note, body);
    put_floats(out, from, at, x, body)
}

// ---- fixtures

impl ItemLines<Fixture> for CaexLines {
    ghost form = { (fixture_format, fixture_view) };

    ghost listed = { λ _. names.fixture };

    ghost read_so = { refl };

    fn put(self, out: &mut [u8], from: u32, at: usize, x: Fixture, body: &[u8]) -> usize {
        let at = put_decimal_line(
            out,
            from,
            at,
            b"fixture_identifier",
            x.fixture_identifier as usize,
        );
        let at = put_ucs2(
            out,
            from,
            at,
            b"manufacturer_name",
            x.manufacturer_name,
            body,
        );
        let at = put_ucs2(out, from, at, b"fixture_name", x.fixture_name, body);
        let at = put_ucs2(out, from, at, b"mode_name", x.mode_name, body);
        let at = put_decimal_line(out, from, at, b"channel_count", x.channel_count as usize);
        let at = put_decimal_line(out, from, at, b"is_dimmer", x.is_dimmer as usize);
        let at = put_list(
            out,
            from,
            at,
            b"identifier_count",
            x.identifiers,
            body,
            CaexLines,
        );
        put_fixture_data(out, from, at, x.data, x.data_strings, body)
    }
}

// ---- laser feeds

impl ItemLines<Ucs2> for CaexLines {
    ghost form = { (feed_name_format, ucs2_range) };

    ghost listed = { λ _. names.feed_name };

    ghost read_so = { refl };

    fn put(self, out: &mut [u8], from: u32, at: usize, x: Ucs2, body: &[u8]) -> usize {
        put_ucs2(out, from, at, b"feed_names", x, body)
    }
}

impl ItemLines<LaserPoint> for CaexLines {
    ghost form = { (laser_point_format, point_value) };

    ghost listed = { λ _. names.laser_point };

    ghost read_so = { refl };

    fn put(self, out: &mut [u8], from: u32, at: usize, x: LaserPoint, body: &[u8]) -> usize {
        let at = put_decimal_line(out, from, at, b"x_low_byte", x.x_low_byte as usize);
        let at = put_decimal_line(out, from, at, b"y_low_byte", x.y_low_byte as usize);
        let at = put_decimal_line(
            out,
            from,
            at,
            b"xy_high_nibbles",
            x.xy_high_nibbles as usize,
        );
        put_decimal_line(out, from, at, b"color", x.color as usize)
    }
}

fn put_frame(out: &mut [u8], from: u32, at: usize, x: LaserFeedFrame, body: &[u8]) -> usize
    ensures { Lists from (names.listed kind.LaserFeedFrame) body.now (caex_says.laser_feed_frame_view x)
        at out.old result out.new }
{
    let at = put_decimal_line(out, from, at, b"source_key", x.source_key as usize);
    let at = put_decimal_line(out, from, at, b"feed_index", x.feed_index as usize);
    let at = put_decimal_line(out, from, at, b"frame_sequence", x.frame_sequence as usize);
    put_list(out, from, at, b"point_count", x.points, body, CaexLines)
}

// ---- messages

fn put_fixture_list(out: &mut [u8], from: u32, at: usize, x: FixtureList, body: &[u8]) -> usize
    ensures { Lists from (names.listed kind.FixtureList) body.now (caex_says.fixture_list_view x) at out.old result out.new }
{
    let at = put_decimal_line(
        out,
        from,
        at,
        b"message_type",
        x.message_type.code() as usize,
    );
    put_list(out, from, at, b"fixture_count", x.fixtures, body, CaexLines)
}

fn put_control(out: &mut [u8], from: u32, at: usize, x: LaserFeedControl, body: &[u8]) -> usize
    ensures { Lists from (names.listed kind.LaserFeedControl) body.now (caex_says.laser_feed_control_view x) at out.old result out.new }
{
    let at = put_decimal_line(out, from, at, b"feed_index", x.feed_index as usize);
    put_decimal_line(out, from, at, b"frame_rate", x.frame_rate as usize)
}

fn put_feed_list(out: &mut [u8], from: u32, at: usize, x: LaserFeedList, body: &[u8]) -> usize
    ensures { Lists from (names.listed kind.LaserFeedList) body.now (caex_says.laser_feed_list_view x) at out.old result out.new }
{
    let at = put_decimal_line(out, from, at, b"source_key", x.source_key as usize);
    put_list(out, from, at, b"feed_count", x.feed_names, body, CaexLines)
}

// A message by its lines.
#[derive(Clone, Copy)]
struct Listed {
    m: Message,
}

impl MessageLines for Listed {
    ghost kind = { λ x. message_kind x.m };

    ghost view = { λ x. message_view x.m };

    fn name(self) -> &'static [u8] {
        match self.m {
            Message::EnterShow(_) => b"EnterShow",
            Message::FixtureList(_) => b"FixtureList",
            Message::FixtureRemove(_) => b"FixtureRemove",
            Message::LaserFeedControl(_) => b"LaserFeedControl",
            Message::LaserFeedList(_) => b"LaserFeedList",
            Message::LaserFeedFrame(_) => b"LaserFeedFrame",
        }
    }

    fn put_fields(self, out: &mut [u8], from: u32, at: usize, body: &[u8]) -> usize {
        match self.m {
            Message::EnterShow(x) => put_ucs2(out, from, at, b"name", x.name, body),
            Message::FixtureList(x) => put_fixture_list(out, from, at, x, body),
            Message::FixtureRemove(x) => put_u32_list(
                out,
                from,
                at,
                b"fixture_count",
                b"fixture_identifiers",
                x.fixture_identifiers,
                body,
            ),
            Message::LaserFeedControl(x) => put_control(out, from, at, x, body),
            Message::LaserFeedList(x) => put_feed_list(out, from, at, x, body),
            Message::LaserFeedFrame(x) => put_frame(out, from, at, x, body),
        }
    }
}

// A message of CAEX.
pub fn put_caex(out: &mut [u8], from: u32, at: usize, m: Message, body: &[u8]) -> usize
    ensures { Prints from (message_lines (message_kind m) none body.now (message_view m)) at out.old result out.new }
{
    put_message(out, from, at, Listed { m }, body)
}
