// The base header and the bodies read. Numbers by value, strings and lists by their place in the body; `taken` is the number of bytes taken. Where `number` is not 0, the other fields are.
ghost use Rattle.std.specs.Prelude.{◌≡◌};
ghost use Rattle.format.specs.View.{view, seen};
ghost use Rattle.protocol.specs.Layer.{header};
ghost use Rattle.pinf.specs.Says.{pnam, ploc};
ghost use Rattle.finf.specs.Says.{sfra, fram};
ghost use Rattle.fsel.specs.Says.{sele, dese};
ghost use Rattle.fptc.specs.Says.{ptch, uptc, sptc};
ghost use Rattle.sdmx.specs.Says.{capa, unam, chbk, chls, sxus};
ghost use Rattle.caex.specs.Says.{enter_show, fixture_list, fixture_remove, laser_feed_control, laser_feed_list, laser_feed_frame};
ghost use Rattle.bridge.specs.Read.{flat_header, flat_string, flat_fixture_list, flat_list, flat_laser_feed_control, flat_laser_feed_list};
ghost use Rattle.bridge.specs.Read.{flat_laser_feed_frame, flat_universe_string, flat_chbk, flat_ptch, flat_sele, flat_fram, flat_ploc};

use caex::{
    EnterShow, FixtureList, FixtureRemove, LaserFeedControl, LaserFeedFrame, LaserFeedList,
};
use finf::{Fram, SFra};
use fptc::{Ptch, SPtc, UPtc};
use fsel::{DeSe, Sele};
use header::Header;
use pinf::{PLoc, PNam};
use sdmx::{Capa, ChBk, ChLs, Sxus, UNam};
use wire::CString;

// A body that is one string.
#[repr(C)]
#[derive(Clone, Copy, Default)]
pub struct StringBody {
    pub number: u8,
    pub taken: usize,
    pub start: usize,
    pub len: usize,
}

impl StringBody {
    fn of(start: usize, len: usize, taken: usize) -> StringBody
        ensures { result ≡ flat_string (seen (start, len) taken) }
    {
        StringBody {
            number: 0,
            taken,
            start,
            len,
        }
    }
}

// A body that is one list.
#[repr(C)]
#[derive(Clone, Copy, Default)]
pub struct ListBody {
    pub number: u8,
    pub left: u16,
    pub taken: usize,
    pub at: usize,
}

impl ListBody {
    fn of(at: usize, left: u16, taken: usize) -> ListBody
        ensures { result ≡ flat_list (seen (at, left) taken) }
    {
        ListBody {
            number: 0,
            left,
            taken,
            at,
        }
    }
}

// UNam with the universe's name; Sxus with the connection string.
#[repr(C)]
#[derive(Clone, Copy, Default)]
pub struct UniverseStringBody {
    pub number: u8,
    pub universe_index: u8,
    pub taken: usize,
    pub string_start: usize,
    pub string_len: usize,
}

impl UniverseStringBody {
    fn of(universe_index: u8, string: CString, taken: usize) -> UniverseStringBody
        ensures { result ≡ flat_universe_string (seen (universe_index, (string.start, string.len)) taken) }
    {
        UniverseStringBody {
            number: 0,
            universe_index,
            taken,
            string_start: string.start,
            string_len: string.len,
        }
    }
}

#[repr(C)]
#[derive(Clone, Copy, Default)]
pub struct HeaderAnswer {
    pub number: u8,
    pub version_major: u8,
    pub version_minor: u8,
    pub request_index: u16,
    pub message_part_count: u16,
    pub message_part: u16,
    pub cookie: u32,
    pub message_size: u32,
    pub content_type: u32,
    pub taken: usize,
}

#[unsafe(no_mangle)]
pub extern "C" fn citp_header_read(body: &[u8]) -> HeaderAnswer
    ensures { result ≡ flat_header (view header body.now 0) }
{
    match Header::read_from_bytes(body) {
        Ok((m, c)) => HeaderAnswer {
            number: 0,
            version_major: m.version_major,
            version_minor: m.version_minor,
            request_index: m.request_index,
            message_part_count: m.message_part_count,
            message_part: m.message_part,
            cookie: m.cookie,
            message_size: m.message_size,
            content_type: m.content_type,
            taken: c.at,
        },
        Err(r) => HeaderAnswer {
            number: r.number(),
            ..HeaderAnswer::default()
        },
    }
}

#[unsafe(no_mangle)]
pub extern "C" fn citp_enter_show_read(body: &[u8]) -> StringBody
    ensures { result ≡ flat_string (view enter_show body.now 0) }
{
    match EnterShow::read_from_bytes(body) {
        Ok((show, c)) => StringBody::of(show.name.start, show.name.len, c.at),
        Err(r) => StringBody {
            number: r.number(),
            ..StringBody::default()
        },
    }
}

#[repr(C)]
#[derive(Clone, Copy, Default)]
pub struct FixtureListBody {
    pub number: u8,
    pub message_type: u8,
    pub fixtures_left: u16,
    pub taken: usize,
    pub fixtures_at: usize,
}

#[unsafe(no_mangle)]
pub extern "C" fn citp_fixture_list_read(body: &[u8]) -> FixtureListBody
    ensures { result ≡ flat_fixture_list (view fixture_list body.now 0) }
{
    match FixtureList::read_from_bytes(body) {
        Ok((m, c)) => {
            FixtureListBody {
                number: 0,
                message_type: m.message_type.code(),
                fixtures_left: m.fixtures.left,
                taken: c.at,
                fixtures_at: m.fixtures.at,
            }
        }
        Err(r) => FixtureListBody {
            number: r.number(),
            ..FixtureListBody::default()
        },
    }
}

#[unsafe(no_mangle)]
pub extern "C" fn citp_fixture_remove_read(body: &[u8]) -> ListBody
    ensures { result ≡ flat_list (view fixture_remove body.now 0) }
{
    match FixtureRemove::read_from_bytes(body) {
        Ok((m, c)) => ListBody::of(m.fixture_identifiers.at, m.fixture_identifiers.left, c.at),
        Err(r) => ListBody {
            number: r.number(),
            ..ListBody::default()
        },
    }
}

#[repr(C)]
#[derive(Clone, Copy, Default)]
pub struct LaserFeedControlBody {
    pub number: u8,
    pub feed_index: u8,
    pub frame_rate: u8,
    pub taken: usize,
}

#[unsafe(no_mangle)]
pub extern "C" fn citp_laser_feed_control_read(body: &[u8]) -> LaserFeedControlBody
    ensures { result ≡ flat_laser_feed_control (view laser_feed_control body.now 0) }
{
    match LaserFeedControl::read_from_bytes(body) {
        Ok((m, c)) => LaserFeedControlBody {
            number: 0,
            feed_index: m.feed_index,
            frame_rate: m.frame_rate,
            taken: c.at,
        },
        Err(r) => LaserFeedControlBody {
            number: r.number(),
            ..LaserFeedControlBody::default()
        },
    }
}

#[repr(C)]
#[derive(Clone, Copy, Default)]
pub struct LaserFeedListBody {
    pub number: u8,
    pub feed_names_left: u8,
    pub source_key: u32,
    pub taken: usize,
    pub feed_names_at: usize,
}

#[unsafe(no_mangle)]
pub extern "C" fn citp_laser_feed_list_read(body: &[u8]) -> LaserFeedListBody
    ensures { result ≡ flat_laser_feed_list (view laser_feed_list body.now 0) }
{
    match LaserFeedList::read_from_bytes(body) {
        Ok((m, c)) => LaserFeedListBody {
            number: 0,
            feed_names_left: m.feed_names.left,
            source_key: m.source_key,
            taken: c.at,
            feed_names_at: m.feed_names.at,
        },
        Err(r) => LaserFeedListBody {
            number: r.number(),
            ..LaserFeedListBody::default()
        },
    }
}

#[repr(C)]
#[derive(Clone, Copy, Default)]
pub struct LaserFeedFrameBody {
    pub number: u8,
    pub feed_index: u8,
    pub points_left: u16,
    pub source_key: u32,
    pub frame_sequence: u32,
    pub taken: usize,
    pub points_at: usize,
}

#[unsafe(no_mangle)]
pub extern "C" fn citp_laser_feed_frame_read(body: &[u8]) -> LaserFeedFrameBody
    ensures { result ≡ flat_laser_feed_frame (view laser_feed_frame body.now 0) }
{
    match LaserFeedFrame::read_from_bytes(body) {
        Ok((m, c)) => LaserFeedFrameBody {
            number: 0,
            feed_index: m.feed_index,
            points_left: m.points.left,
            source_key: m.source_key,
            frame_sequence: m.frame_sequence,
            taken: c.at,
            points_at: m.points.at,
        },
        Err(r) => LaserFeedFrameBody {
            number: r.number(),
            ..LaserFeedFrameBody::default()
        },
    }
}

#[unsafe(no_mangle)]
pub extern "C" fn citp_capa_read(body: &[u8]) -> ListBody
    ensures { result ≡ flat_list (view capa body.now 0) }
{
    match Capa::read_from_bytes(body) {
        Ok((m, c)) => ListBody::of(m.capabilities.at, m.capabilities.left, c.at),
        Err(r) => ListBody {
            number: r.number(),
            ..ListBody::default()
        },
    }
}

#[unsafe(no_mangle)]
pub extern "C" fn citp_unam_read(body: &[u8]) -> UniverseStringBody
    ensures { result ≡ flat_universe_string (view unam body.now 0) }
{
    match UNam::read_from_bytes(body) {
        Ok((m, c)) => UniverseStringBody::of(m.universe_index, m.universe_name, c.at),
        Err(r) => UniverseStringBody {
            number: r.number(),
            ..UniverseStringBody::default()
        },
    }
}

#[repr(C)]
#[derive(Clone, Copy, Default)]
pub struct ChBkBody {
    pub number: u8,
    pub blind: u8,
    pub universe_index: u8,
    pub first_channel: u16,
    pub taken: usize,
    pub channel_levels_start: usize,
    pub channel_levels_len: usize,
}

#[unsafe(no_mangle)]
pub extern "C" fn citp_chbk_read(body: &[u8]) -> ChBkBody
    ensures { result ≡ flat_chbk (view chbk body.now 0) }
{
    match ChBk::read_from_bytes(body) {
        Ok((m, c)) => ChBkBody {
            number: 0,
            blind: m.blind,
            universe_index: m.universe_index,
            first_channel: m.first_channel,
            taken: c.at,
            channel_levels_start: m.channel_levels.start,
            channel_levels_len: m.channel_levels.len,
        },
        Err(r) => ChBkBody {
            number: r.number(),
            ..ChBkBody::default()
        },
    }
}

#[unsafe(no_mangle)]
pub extern "C" fn citp_chls_read(body: &[u8]) -> ListBody
    ensures { result ≡ flat_list (view chls body.now 0) }
{
    match ChLs::read_from_bytes(body) {
        Ok((m, c)) => ListBody::of(m.channel_levels.at, m.channel_levels.left, c.at),
        Err(r) => ListBody {
            number: r.number(),
            ..ListBody::default()
        },
    }
}

#[unsafe(no_mangle)]
pub extern "C" fn citp_sxus_read(body: &[u8]) -> UniverseStringBody
    ensures { result ≡ flat_universe_string (view sxus body.now 0) }
{
    match Sxus::read_from_bytes(body) {
        Ok((m, c)) => UniverseStringBody::of(m.universe_index, m.connection_string, c.at),
        Err(r) => UniverseStringBody {
            number: r.number(),
            ..UniverseStringBody::default()
        },
    }
}

#[repr(C)]
#[derive(Clone, Copy, Default)]
pub struct PtchBody {
    pub number: u8,
    pub universe: u8,
    pub reserved: u8,
    pub fixture_identifier: u16,
    pub channel: u16,
    pub channel_count: u16,
    pub taken: usize,
    pub fixture_make_start: usize,
    pub fixture_make_len: usize,
    pub fixture_name_start: usize,
    pub fixture_name_len: usize,
}

#[unsafe(no_mangle)]
pub extern "C" fn citp_ptch_read(body: &[u8]) -> PtchBody
    ensures { result ≡ flat_ptch (view ptch body.now 0) }
{
    match Ptch::read_from_bytes(body) {
        Ok((m, c)) => PtchBody {
            number: 0,
            universe: m.universe,
            reserved: m.reserved,
            fixture_identifier: m.fixture_identifier,
            channel: m.channel,
            channel_count: m.channel_count,
            taken: c.at,
            fixture_make_start: m.fixture_make.start,
            fixture_make_len: m.fixture_make.len,
            fixture_name_start: m.fixture_name.start,
            fixture_name_len: m.fixture_name.len,
        },
        Err(r) => PtchBody {
            number: r.number(),
            ..PtchBody::default()
        },
    }
}

#[unsafe(no_mangle)]
pub extern "C" fn citp_uptc_read(body: &[u8]) -> ListBody
    ensures { result ≡ flat_list (view uptc body.now 0) }
{
    match UPtc::read_from_bytes(body) {
        Ok((m, c)) => ListBody::of(m.fixture_identifiers.at, m.fixture_identifiers.left, c.at),
        Err(r) => ListBody {
            number: r.number(),
            ..ListBody::default()
        },
    }
}

#[unsafe(no_mangle)]
pub extern "C" fn citp_sptc_read(body: &[u8]) -> ListBody
    ensures { result ≡ flat_list (view sptc body.now 0) }
{
    match SPtc::read_from_bytes(body) {
        Ok((m, c)) => ListBody::of(m.fixture_identifiers.at, m.fixture_identifiers.left, c.at),
        Err(r) => ListBody {
            number: r.number(),
            ..ListBody::default()
        },
    }
}

#[repr(C)]
#[derive(Clone, Copy, Default)]
pub struct SeleBody {
    pub number: u8,
    pub complete: u8,
    pub reserved: u8,
    pub fixture_identifiers_left: u16,
    pub taken: usize,
    pub fixture_identifiers_at: usize,
}

#[unsafe(no_mangle)]
pub extern "C" fn citp_sele_read(body: &[u8]) -> SeleBody
    ensures { result ≡ flat_sele (view sele body.now 0) }
{
    match Sele::read_from_bytes(body) {
        Ok((m, c)) => SeleBody {
            number: 0,
            complete: m.complete,
            reserved: m.reserved,
            fixture_identifiers_left: m.fixture_identifiers.left,
            taken: c.at,
            fixture_identifiers_at: m.fixture_identifiers.at,
        },
        Err(r) => SeleBody {
            number: r.number(),
            ..SeleBody::default()
        },
    }
}

#[unsafe(no_mangle)]
pub extern "C" fn citp_dese_read(body: &[u8]) -> ListBody
    ensures { result ≡ flat_list (view dese body.now 0) }
{
    match DeSe::read_from_bytes(body) {
        Ok((m, c)) => ListBody::of(m.fixture_identifiers.at, m.fixture_identifiers.left, c.at),
        Err(r) => ListBody {
            number: r.number(),
            ..ListBody::default()
        },
    }
}

#[unsafe(no_mangle)]
pub extern "C" fn citp_sfra_read(body: &[u8]) -> ListBody
    ensures { result ≡ flat_list (view sfra body.now 0) }
{
    match SFra::read_from_bytes(body) {
        Ok((m, c)) => ListBody::of(m.fixture_identifiers.at, m.fixture_identifiers.left, c.at),
        Err(r) => ListBody {
            number: r.number(),
            ..ListBody::default()
        },
    }
}

#[repr(C)]
#[derive(Clone, Copy, Default)]
pub struct FramBody {
    pub number: u8,
    pub frame_filter_count: u8,
    pub frame_gobo_count: u8,
    pub fixture_identifier: u16,
    pub taken: usize,
    pub frame_names_start: usize,
    pub frame_names_len: usize,
}

#[unsafe(no_mangle)]
pub extern "C" fn citp_fram_read(body: &[u8]) -> FramBody
    ensures { result ≡ flat_fram (view fram body.now 0) }
{
    match Fram::read_from_bytes(body) {
        Ok((m, c)) => FramBody {
            number: 0,
            frame_filter_count: m.frame_filter_count,
            frame_gobo_count: m.frame_gobo_count,
            fixture_identifier: m.fixture_identifier,
            taken: c.at,
            frame_names_start: m.frame_names.start,
            frame_names_len: m.frame_names.len,
        },
        Err(r) => FramBody {
            number: r.number(),
            ..FramBody::default()
        },
    }
}

#[unsafe(no_mangle)]
pub extern "C" fn citp_pnam_read(body: &[u8]) -> StringBody
    ensures { result ≡ flat_string (view pnam body.now 0) }
{
    match PNam::read_from_bytes(body) {
        Ok((m, c)) => StringBody::of(m.name.start, m.name.len, c.at),
        Err(r) => StringBody {
            number: r.number(),
            ..StringBody::default()
        },
    }
}

#[repr(C)]
#[derive(Clone, Copy, Default)]
pub struct PLocBody {
    pub number: u8,
    pub listening_tcp_port: u16,
    pub taken: usize,
    pub kind_start: usize,
    pub kind_len: usize,
    pub name_start: usize,
    pub name_len: usize,
    pub state_start: usize,
    pub state_len: usize,
}

#[unsafe(no_mangle)]
pub extern "C" fn citp_ploc_read(body: &[u8]) -> PLocBody
    ensures { result ≡ flat_ploc (view ploc body.now 0) }
{
    match PLoc::read_from_bytes(body) {
        Ok((m, c)) => PLocBody {
            number: 0,
            listening_tcp_port: m.listening_tcp_port,
            taken: c.at,
            kind_start: m.kind.start,
            kind_len: m.kind.len,
            name_start: m.name.start,
            name_len: m.name.len,
            state_start: m.state.start,
            state_len: m.state.len,
        },
        Err(r) => PLocBody {
            number: r.number(),
            ..PLocBody::default()
        },
    }
}
