// The answer of each reader, compared with what the Rust read.
use super::compared::Compared;
use caex::{
    EnterShow, FixtureList, FixtureRemove, LaserFeedControl, LaserFeedFrame, LaserFeedList,
};
use finf::{Fram, SFra};
use fptc::{Ptch, SPtc, UPtc};
use fsel::{DeSe, Sele};
use header::Header;
use pinf::{PLoc, PNam};
use refusal::Refusal;
use sdmx::{Capa, ChBk, ChLs, Sxus, UNam};
use wire::Cursor;

// What was read, compared, or the refusal.
pub(crate) type Answer = Result<Compared, Refusal>;

// The bytes taken.
fn taken(due: &[u8], c: Cursor) -> Compared {
    let x = Compared { at: 0, same: true };
    x.length(due, c.at)
}

pub(crate) fn enter_show(body: &[u8], due: &[u8]) -> Answer {
    let (m, c) = EnterShow::read_from_bytes(body)?;
    let x = taken(due, c);
    Ok(x.ucs2(due, body, m.name))
}

pub(crate) fn fixture_list(body: &[u8], due: &[u8]) -> Answer {
    let (m, c) = FixtureList::read_from_bytes(body)?;
    let x = taken(due, c);
    let message_type = m.message_type;
    let x = x.u8(due, message_type.code());
    let x = x.u16(due, m.fixture_count());
    Ok(x.list(due, body, m.fixtures))
}

pub(crate) fn fixture_remove(body: &[u8], due: &[u8]) -> Answer {
    let (m, c) = FixtureRemove::read_from_bytes(body)?;
    let x = taken(due, c);
    let x = x.u16(due, m.fixture_count());
    Ok(x.list(due, body, m.fixture_identifiers))
}

pub(crate) fn laser_feed_control(body: &[u8], due: &[u8]) -> Answer {
    let (m, c) = LaserFeedControl::read_from_bytes(body)?;
    let x = taken(due, c);
    let x = x.u8(due, m.feed_index);
    Ok(x.u8(due, m.frame_rate))
}

pub(crate) fn laser_feed_list(body: &[u8], due: &[u8]) -> Answer {
    let (m, c) = LaserFeedList::read_from_bytes(body)?;
    let x = taken(due, c);
    let x = x.u32(due, m.source_key);
    let x = x.u8(due, m.feed_count());
    Ok(x.list(due, body, m.feed_names))
}

pub(crate) fn laser_feed_frame(body: &[u8], due: &[u8]) -> Answer {
    let (m, c) = LaserFeedFrame::read_from_bytes(body)?;
    let x = taken(due, c);
    let x = x.u32(due, m.source_key);
    let x = x.u8(due, m.feed_index);
    let x = x.u32(due, m.frame_sequence);
    let x = x.u16(due, m.point_count());
    Ok(x.list(due, body, m.points))
}

pub(crate) fn capa(body: &[u8], due: &[u8]) -> Answer {
    let (m, c) = Capa::read_from_bytes(body)?;
    let x = taken(due, c);
    Ok(x.list(due, body, m.capabilities))
}

pub(crate) fn unam(body: &[u8], due: &[u8]) -> Answer {
    let (m, c) = UNam::read_from_bytes(body)?;
    let x = taken(due, c);
    let x = x.u8(due, m.universe_index);
    Ok(x.cstring(due, body, m.universe_name))
}

pub(crate) fn chbk(body: &[u8], due: &[u8]) -> Answer {
    let (m, c) = ChBk::read_from_bytes(body)?;
    let x = taken(due, c);
    let x = x.u8(due, m.blind);
    let x = x.u8(due, m.universe_index);
    let x = x.u16(due, m.first_channel);
    Ok(x.block(due, body, m.channel_levels))
}

pub(crate) fn chls(body: &[u8], due: &[u8]) -> Answer {
    let (m, c) = ChLs::read_from_bytes(body)?;
    let x = taken(due, c);
    Ok(x.list(due, body, m.channel_levels))
}

pub(crate) fn sxus(body: &[u8], due: &[u8]) -> Answer {
    let (m, c) = Sxus::read_from_bytes(body)?;
    let x = taken(due, c);
    let x = x.u8(due, m.universe_index);
    Ok(x.cstring(due, body, m.connection_string))
}

pub(crate) fn ptch(body: &[u8], due: &[u8]) -> Answer {
    let (m, c) = Ptch::read_from_bytes(body)?;
    let x = taken(due, c);
    let x = x.u16(due, m.fixture_identifier);
    let x = x.u8(due, m.universe);
    let x = x.u8(due, m.reserved);
    let x = x.u16(due, m.channel);
    let x = x.u16(due, m.channel_count);
    let x = x.cstring(due, body, m.fixture_make);
    Ok(x.cstring(due, body, m.fixture_name))
}

pub(crate) fn uptc(body: &[u8], due: &[u8]) -> Answer {
    let (m, c) = UPtc::read_from_bytes(body)?;
    let x = taken(due, c);
    Ok(x.list(due, body, m.fixture_identifiers))
}

pub(crate) fn sptc(body: &[u8], due: &[u8]) -> Answer {
    let (m, c) = SPtc::read_from_bytes(body)?;
    let x = taken(due, c);
    Ok(x.list(due, body, m.fixture_identifiers))
}

pub(crate) fn sele(body: &[u8], due: &[u8]) -> Answer {
    let (m, c) = Sele::read_from_bytes(body)?;
    let x = taken(due, c);
    let x = x.u8(due, m.complete);
    let x = x.u8(due, m.reserved);
    Ok(x.list(due, body, m.fixture_identifiers))
}

pub(crate) fn dese(body: &[u8], due: &[u8]) -> Answer {
    let (m, c) = DeSe::read_from_bytes(body)?;
    let x = taken(due, c);
    Ok(x.list(due, body, m.fixture_identifiers))
}

pub(crate) fn sfra(body: &[u8], due: &[u8]) -> Answer {
    let (m, c) = SFra::read_from_bytes(body)?;
    let x = taken(due, c);
    Ok(x.list(due, body, m.fixture_identifiers))
}

pub(crate) fn fram(body: &[u8], due: &[u8]) -> Answer {
    let (m, c) = Fram::read_from_bytes(body)?;
    let x = taken(due, c);
    let x = x.u16(due, m.fixture_identifier);
    let x = x.u8(due, m.frame_filter_count);
    let x = x.u8(due, m.frame_gobo_count);
    Ok(x.cstring(due, body, m.frame_names))
}

pub(crate) fn pnam(body: &[u8], due: &[u8]) -> Answer {
    let (m, c) = PNam::read_from_bytes(body)?;
    let x = taken(due, c);
    Ok(x.cstring(due, body, m.name))
}

pub(crate) fn ploc(body: &[u8], due: &[u8]) -> Answer {
    let (m, c) = PLoc::read_from_bytes(body)?;
    let x = taken(due, c);
    let x = x.u16(due, m.listening_tcp_port);
    let x = x.cstring(due, body, m.kind);
    let x = x.cstring(due, body, m.name);
    Ok(x.cstring(due, body, m.state))
}

pub(crate) fn base_header(body: &[u8], due: &[u8]) -> Answer {
    let (m, c) = Header::read_from_bytes(body)?;
    let x = taken(due, c);
    let x = x.u32(due, m.cookie);
    let x = x.u8(due, m.version_major);
    let x = x.u8(due, m.version_minor);
    let x = x.u16(due, m.request_index);
    let x = x.u32(due, m.message_size);
    let x = x.u16(due, m.message_part_count);
    let x = x.u16(due, m.message_part);
    Ok(x.u32(due, m.content_type))
}
