// Lists stepped through, lists of numbers and strings copied. `given` is 1 with an item and the cursor behind it; else the list is done, or refused.
ghost use Rattle.std.specs.Prelude.{◌≡◌};
ghost use Rattle.format.specs.Format.{number};
ghost use Rattle.format.specs.View.{stepped, item};
ghost use Rattle.format.specs.Copy.{copy_cstring, copy_ucs2, copy_numbers};
ghost use Rattle.protocol.specs.Kind.{channel_level_format, fixture_format, identifier_format, feed_name_format, laser_point_format};
ghost use Rattle.fixture.specs.Says.{fixture_view};
ghost use Rattle.bridge.specs.List.{flat_u16, flat_u32, flat_channel_level, flat_identifier};
ghost use Rattle.bridge.specs.List.{flat_fixture, flat_feed_name, flat_laser_point, flat_copy};

use caex::{FeedNames, LaserPoint, LaserPoints};
use fixture::{Fixture, Fixtures, Identifiers};
use plain::numbers::{FixtureNumbers, numbers};
use sdmx::{ChannelLevel, ChannelLevels};
use wire::{CString, List, Ucs2, copy_cstring, copy_ucs2};

// ---- numbers

#[repr(C)]
#[derive(Clone, Copy, Default)]
pub struct U16Answer {
    pub number: u8,
    pub given: u8,
    pub left: u16,
    pub value: u16,
    pub at: usize,
}

#[unsafe(no_mangle)]
pub extern "C" fn citp_u16_list_next(body: &[u8], at: usize, left: u16) -> U16Answer
    ensures { result ≡ flat_u16 (stepped (number 2) body.now at left) }
{
    let list = List::<u16, u16>::new(at, left);
    match list.next(body) {
        Ok(Some((value, more))) => U16Answer {
            number: 0,
            given: 1,
            left: more.left,
            value,
            at: more.at,
        },
        Ok(None) => U16Answer::default(),
        Err(r) => U16Answer {
            number: r.number(),
            ..U16Answer::default()
        },
    }
}

#[repr(C)]
#[derive(Clone, Copy, Default)]
pub struct U32Answer {
    pub number: u8,
    pub given: u8,
    pub left: u16,
    pub value: u32,
    pub at: usize,
}

#[unsafe(no_mangle)]
pub extern "C" fn citp_u32_list_next(body: &[u8], at: usize, left: u16) -> U32Answer
    ensures { result ≡ flat_u32 (stepped (number 4) body.now at left) }
{
    let list = List::<u32, u16>::new(at, left);
    match list.next(body) {
        Ok(Some((value, more))) => U32Answer {
            number: 0,
            given: 1,
            left: more.left,
            value,
            at: more.at,
        },
        Ok(None) => U32Answer::default(),
        Err(r) => U32Answer {
            number: r.number(),
            ..U32Answer::default()
        },
    }
}

// ---- channel levels

#[repr(C)]
#[derive(Clone, Copy, Default)]
pub struct ChannelLevelAnswer {
    pub number: u8,
    pub given: u8,
    pub left: u16,
    pub value: ChannelLevel,
    pub at: usize,
}

#[unsafe(no_mangle)]
pub extern "C" fn citp_channel_levels_next(body: &[u8], at: usize, left: u16) -> ChannelLevelAnswer
    ensures { result ≡ flat_channel_level (stepped channel_level_format body.now at left) }
{
    let list = ChannelLevels::new(at, left);
    match list.next(body) {
        Ok(Some((value, more))) => ChannelLevelAnswer {
            number: 0,
            given: 1,
            left: more.left,
            value,
            at: more.at,
        },
        Ok(None) => ChannelLevelAnswer::default(),
        Err(r) => ChannelLevelAnswer {
            number: r.number(),
            ..ChannelLevelAnswer::default()
        },
    }
}

// ---- identifiers

#[repr(C)]
#[derive(Clone, Copy, Default)]
pub struct IdentifierAnswer {
    pub number: u8,
    pub given: u8,
    pub left: u8,
    pub identifier_type: u8,
    pub at: usize,
    pub data_start: usize,
    pub data_len: usize,
}

#[unsafe(no_mangle)]
pub extern "C" fn citp_identifiers_next(body: &[u8], at: usize, left: u8) -> IdentifierAnswer
    ensures { result ≡ flat_identifier (stepped identifier_format body.now at left) }
{
    let list = Identifiers::new(at, left);
    match list.next(body) {
        Ok(Some((x, more))) => {
            IdentifierAnswer {
                number: 0,
                given: 1,
                left: more.left,
                identifier_type: x.identifier_type.code(),
                at: more.at,
                data_start: x.data.start,
                data_len: x.data.len,
            }
        }
        Ok(None) => IdentifierAnswer::default(),
        Err(r) => IdentifierAnswer {
            number: r.number(),
            ..IdentifierAnswer::default()
        },
    }
}

// ---- fixtures

#[repr(C)]
#[derive(Clone, Copy, Default)]
pub struct FixtureAnswer {
    pub number: u8,
    pub given: u8,
    pub is_dimmer: u8,
    pub identifiers_left: u8,
    pub left: u16,
    pub channel_count: u16,
    pub fixture_identifier: u32,
    pub data: FixtureNumbers,
    pub at: usize,
    pub manufacturer_name_start: usize,
    pub manufacturer_name_len: usize,
    pub fixture_name_start: usize,
    pub fixture_name_len: usize,
    pub mode_name_start: usize,
    pub mode_name_len: usize,
    pub identifiers_at: usize,
    pub unit_start: usize,
    pub unit_len: usize,
    pub circuit_start: usize,
    pub circuit_len: usize,
    pub note_start: usize,
    pub note_len: usize,
}

fn fixture(x: Fixture, more: Fixtures) -> FixtureAnswer
    ensures { result ≡ flat_fixture (item (fixture_view x) more.at more.left) }
{
    FixtureAnswer {
        number: 0,
        given: 1,
        is_dimmer: x.is_dimmer,
        identifiers_left: x.identifiers.left,
        left: more.left,
        channel_count: x.channel_count,
        fixture_identifier: x.fixture_identifier,
        data: numbers(x.data),
        at: more.at,
        manufacturer_name_start: x.manufacturer_name.start,
        manufacturer_name_len: x.manufacturer_name.len,
        fixture_name_start: x.fixture_name.start,
        fixture_name_len: x.fixture_name.len,
        mode_name_start: x.mode_name.start,
        mode_name_len: x.mode_name.len,
        identifiers_at: x.identifiers.at,
        unit_start: x.data_strings.unit.start,
        unit_len: x.data_strings.unit.len,
        circuit_start: x.data_strings.circuit.start,
        circuit_len: x.data_strings.circuit.len,
        note_start: x.data_strings.note.start,
        note_len: x.data_strings.note.len,
    }
}

#[unsafe(no_mangle)]
pub extern "C" fn citp_fixtures_next(body: &[u8], at: usize, left: u16) -> FixtureAnswer
    ensures { result ≡ flat_fixture (stepped fixture_format body.now at left) }
{
    let list = Fixtures::new(at, left);
    match list.next(body) {
        Ok(Some((x, more))) => fixture(x, more),
        Ok(None) => FixtureAnswer::default(),
        Err(r) => FixtureAnswer {
            number: r.number(),
            ..FixtureAnswer::default()
        },
    }
}

// ---- feed names

#[repr(C)]
#[derive(Clone, Copy, Default)]
pub struct FeedNameAnswer {
    pub number: u8,
    pub given: u8,
    pub left: u8,
    pub at: usize,
    pub start: usize,
    pub len: usize,
}

#[unsafe(no_mangle)]
pub extern "C" fn citp_feed_names_next(body: &[u8], at: usize, left: u8) -> FeedNameAnswer
    ensures { result ≡ flat_feed_name (stepped feed_name_format body.now at left) }
{
    let list = FeedNames::new(at, left);
    match list.next(body) {
        Ok(Some((x, more))) => FeedNameAnswer {
            number: 0,
            given: 1,
            left: more.left,
            at: more.at,
            start: x.start,
            len: x.len,
        },
        Ok(None) => FeedNameAnswer::default(),
        Err(r) => FeedNameAnswer {
            number: r.number(),
            ..FeedNameAnswer::default()
        },
    }
}

// ---- laser points

#[repr(C)]
#[derive(Clone, Copy, Default)]
pub struct LaserPointAnswer {
    pub number: u8,
    pub given: u8,
    pub left: u16,
    pub value: LaserPoint,
    pub at: usize,
}

#[unsafe(no_mangle)]
pub extern "C" fn citp_laser_points_next(body: &[u8], at: usize, left: u16) -> LaserPointAnswer
    ensures { result ≡ flat_laser_point (stepped laser_point_format body.now at left) }
{
    let list = LaserPoints::new(at, left);
    match list.next(body) {
        Ok(Some((value, more))) => LaserPointAnswer {
            number: 0,
            given: 1,
            left: more.left,
            value,
            at: more.at,
        },
        Ok(None) => LaserPointAnswer::default(),
        Err(r) => LaserPointAnswer {
            number: r.number(),
            ..LaserPointAnswer::default()
        },
    }
}

// ---- copies

#[repr(C)]
#[derive(Clone, Copy, Default)]
pub struct CopyAnswer {
    pub number: u8,
    pub len: usize,
}

#[unsafe(no_mangle)]
pub extern "C" fn citp_copy_cstring(body: &[u8], start: usize, out: &mut [u8]) -> CopyAnswer
    ensures { (result, out.new) ≡ flat_copy (copy_cstring body.now start out.old) }
{
    let string = CString { start, len: 0 };
    match copy_cstring(body, string, out) {
        Ok(len) => CopyAnswer { number: 0, len },
        Err(r) => CopyAnswer {
            number: r.number(),
            len: 0,
        },
    }
}

#[unsafe(no_mangle)]
pub extern "C" fn citp_copy_ucs2(body: &[u8], start: usize, out: &mut [u16]) -> CopyAnswer
    ensures { (result, out.new) ≡ flat_copy (copy_ucs2 body.now start out.old) }
{
    let string = Ucs2 { start, len: 0 };
    match copy_ucs2(body, string, out) {
        Ok(len) => CopyAnswer { number: 0, len },
        Err(r) => CopyAnswer {
            number: r.number(),
            len: 0,
        },
    }
}

#[unsafe(no_mangle)]
pub extern "C" fn citp_u16_list_copy(
    body: &[u8],
    at: usize,
    left: u16,
    out: &mut [u16],
) -> CopyAnswer
    ensures { (result, out.new) ≡ flat_copy (copy_numbers 2 body.now at left out.old) }
{
    let list = List::<u16, u16>::new(at, left);
    match list.copy(body, out) {
        Ok(len) => CopyAnswer { number: 0, len },
        Err(r) => CopyAnswer {
            number: r.number(),
            len: 0,
        },
    }
}

#[unsafe(no_mangle)]
pub extern "C" fn citp_u32_list_copy(
    body: &[u8],
    at: usize,
    left: u16,
    out: &mut [u32],
) -> CopyAnswer
    ensures { (result, out.new) ≡ flat_copy (copy_numbers 4 body.now at left out.old) }
{
    let list = List::<u32, u16>::new(at, left);
    match list.copy(body, out) {
        Ok(len) => CopyAnswer { number: 0, len },
        Err(r) => CopyAnswer {
            number: r.number(),
            len: 0,
        },
    }
}
