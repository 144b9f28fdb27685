// Bodies written alone, at a place of the output. Lists of CAEX are written as their head and item by item.
ghost use Rattle.std.specs.Prelude.{◌≡◌, map};
ghost use Rattle.format.specs.Passed.{in_range};
ghost use Rattle.protocol.specs.Kind.{identifier_format, fixture_data_format, fixture_head, feed_name_format, laser_point_format};
ghost use Rattle.protocol.specs.Layer.{header};
ghost use Rattle.format.specs.Copy.{denied};
ghost use Rattle.put.specs.Put.{put_at, put_head};
ghost use Rattle.caex.specs.Write.{fixture_list_head, laser_feed_list_head, laser_feed_frame_head};
ghost use Rattle.plain.specs.Numbers.{value_of};
ghost use Rattle.plain.specs.Written.{flat_written};
ghost use Rattle.bridge_writer.specs.Write.{by_code};
ghost use Rattle.pinf.specs.Says.{pnam, ploc};
ghost use Rattle.finf.specs.Says.{sfra, fram};
ghost use Rattle.fsel.specs.Says.{sele, dese};
ghost use Rattle.fptc.specs.Says.{ptch, uptc, sptc};
ghost use Rattle.sdmx.specs.Says.{capa, unam, chbk, chls, sxus, level_value};
ghost use Rattle.caex.specs.Says.{enter_show, fixture_remove, laser_feed_control};

use caex::{
    EnterShow, FixtureList, FixtureListMessageType, FixtureRemove, LaserFeedControl,
    LaserFeedFrame, LaserFeedList, LaserPoint,
};
use finf::{Fram, SFra};
use fixture::{Fixture, Identifier, IdentifierType};
use fptc::{Ptch, SPtc, UPtc};
use fsel::{DeSe, Sele};
use header::Header;
use pinf::{PLoc, PNam};
use plain::numbers::{FixtureNumbers, fixture_data};
use plain::written::Put;
use sdmx::{Capa, ChBk, ChLs, ChannelLevel, Sxus, UNam};

#[unsafe(no_mangle)]
pub extern "C" fn citp_header_write(
    out: &mut [u8],
    at: usize,
    cookie: u32,
    version_major: u8,
    version_minor: u8,
    request_index: u16,
    message_size: u32,
    message_part_count: u16,
    message_part: u16,
    content_type: u32,
) -> Put
    ensures { (result, out.new)
        ≡ flat_written at (put_at header
        (cookie, (version_major, (version_minor, (request_index, (message_size, (message_part_count, (message_part, content_type)))))))
        at out.old) }
{
    let h = Header {
        cookie,
        version_major,
        version_minor,
        request_index,
        message_size,
        message_part_count,
        message_part,
        content_type,
    };
    Put::of(at, h.write_to_bytes(out, at))
}

#[unsafe(no_mangle)]
pub extern "C" fn citp_enter_show_write(out: &mut [u8], at: usize, name: &[u16]) -> Put
    ensures { (result, out.new) ≡ flat_written at (put_at enter_show name.now at out.old) }
{
    Put::of(at, EnterShow::write_to_bytes(out, at, name))
}

#[unsafe(no_mangle)]
pub extern "C" fn citp_fixture_remove_write(
    out: &mut [u8],
    at: usize,
    fixture_identifiers: &[u32],
) -> Put
    ensures { (result, out.new) ≡ flat_written at (put_at fixture_remove fixture_identifiers.now at out.old) }
{
    Put::of(
        at,
        FixtureRemove::write_to_bytes(out, at, fixture_identifiers),
    )
}

#[unsafe(no_mangle)]
pub extern "C" fn citp_laser_feed_control_write(
    out: &mut [u8],
    at: usize,
    feed_index: u8,
    frame_rate: u8,
) -> Put
    ensures { (result, out.new) ≡ flat_written at (put_at laser_feed_control (feed_index, frame_rate) at out.old) }
{
    Put::of(
        at,
        LaserFeedControl::write_to_bytes(out, at, feed_index, frame_rate),
    )
}

#[unsafe(no_mangle)]
pub extern "C" fn citp_capa_write(out: &mut [u8], at: usize, capabilities: &[u16]) -> Put
    ensures { (result, out.new) ≡ flat_written at (put_at capa capabilities.now at out.old) }
{
    Put::of(at, Capa::write_to_bytes(out, at, capabilities))
}

#[unsafe(no_mangle)]
pub extern "C" fn citp_unam_write(
    out: &mut [u8],
    at: usize,
    universe_index: u8,
    universe_name: &[u8],
) -> Put
    ensures { (result, out.new) ≡ flat_written at (put_at unam (universe_index, universe_name.now) at out.old) }
{
    Put::of(
        at,
        UNam::write_to_bytes(out, at, universe_index, universe_name),
    )
}

#[unsafe(no_mangle)]
pub extern "C" fn citp_chbk_write(
    out: &mut [u8],
    at: usize,
    blind: u8,
    universe_index: u8,
    first_channel: u16,
    channel_levels: &[u8],
) -> Put
    ensures { (result, out.new) ≡ flat_written at (put_at chbk (blind, (universe_index, (first_channel, channel_levels.now))) at out.old) }
{
    Put::of(
        at,
        ChBk::write_to_bytes(
            out,
            at,
            blind,
            universe_index,
            first_channel,
            channel_levels,
        ),
    )
}

#[unsafe(no_mangle)]
pub extern "C" fn citp_chls_write(out: &mut [u8], at: usize, channel_levels: &[ChannelLevel]) -> Put
    ensures { (result, out.new) ≡ flat_written at (put_at chls (map level_value channel_levels.now) at out.old) }
{
    Put::of(at, ChLs::write_to_bytes(out, at, channel_levels))
}

#[unsafe(no_mangle)]
pub extern "C" fn citp_sxus_write(
    out: &mut [u8],
    at: usize,
    universe_index: u8,
    connection_string: &[u8],
) -> Put
    ensures { (result, out.new) ≡ flat_written at (put_at sxus (universe_index, connection_string.now) at out.old) }
{
    Put::of(
        at,
        Sxus::write_to_bytes(out, at, universe_index, connection_string),
    )
}

#[unsafe(no_mangle)]
pub extern "C" fn citp_ptch_write(
    out: &mut [u8],
    at: usize,
    fixture_identifier: u16,
    universe: u8,
    reserved: u8,
    channel: u16,
    channel_count: u16,
    fixture_make: &[u8],
    fixture_name: &[u8],
) -> Put
    ensures { (result, out.new)
        ≡ flat_written at (put_at ptch
        (fixture_identifier, (universe, (reserved, (channel, (channel_count, (fixture_make.now, fixture_name.now)))))) at out.old) }
{
    Put::of(
        at,
        Ptch::write_to_bytes(
            out,
            at,
            fixture_identifier,
            universe,
            reserved,
            channel,
            channel_count,
            fixture_make,
            fixture_name,
        ),
    )
}

#[unsafe(no_mangle)]
pub extern "C" fn citp_uptc_write(out: &mut [u8], at: usize, fixture_identifiers: &[u16]) -> Put
    ensures { (result, out.new) ≡ flat_written at (put_at uptc fixture_identifiers.now at out.old) }
{
    Put::of(at, UPtc::write_to_bytes(out, at, fixture_identifiers))
}

#[unsafe(no_mangle)]
pub extern "C" fn citp_sptc_write(out: &mut [u8], at: usize, fixture_identifiers: &[u16]) -> Put
    ensures { (result, out.new) ≡ flat_written at (put_at sptc fixture_identifiers.now at out.old) }
{
    Put::of(at, SPtc::write_to_bytes(out, at, fixture_identifiers))
}

#[unsafe(no_mangle)]
pub extern "C" fn citp_sele_write(
    out: &mut [u8],
    at: usize,
    complete: u8,
    reserved: u8,
    fixture_identifiers: &[u16],
) -> Put
    ensures { (result, out.new) ≡ flat_written at (put_at sele (complete, (reserved, fixture_identifiers.now)) at out.old) }
{
    Put::of(
        at,
        Sele::write_to_bytes(out, at, complete, reserved, fixture_identifiers),
    )
}

#[unsafe(no_mangle)]
pub extern "C" fn citp_dese_write(out: &mut [u8], at: usize, fixture_identifiers: &[u16]) -> Put
    ensures { (result, out.new) ≡ flat_written at (put_at dese fixture_identifiers.now at out.old) }
{
    Put::of(at, DeSe::write_to_bytes(out, at, fixture_identifiers))
}

#[unsafe(no_mangle)]
pub extern "C" fn citp_sfra_write(out: &mut [u8], at: usize, fixture_identifiers: &[u16]) -> Put
    ensures { (result, out.new) ≡ flat_written at (put_at sfra fixture_identifiers.now at out.old) }
{
    Put::of(at, SFra::write_to_bytes(out, at, fixture_identifiers))
}

#[unsafe(no_mangle)]
pub extern "C" fn citp_fram_write(
    out: &mut [u8],
    at: usize,
    fixture_identifier: u16,
    frame_filter_count: u8,
    frame_gobo_count: u8,
    frame_names: &[u8],
) -> Put
    ensures { (result, out.new)
        ≡ flat_written at (put_at fram (fixture_identifier, (frame_filter_count, (frame_gobo_count, frame_names.now))) at out.old) }
{
    Put::of(
        at,
        Fram::write_to_bytes(
            out,
            at,
            fixture_identifier,
            frame_filter_count,
            frame_gobo_count,
            frame_names,
        ),
    )
}

#[unsafe(no_mangle)]
pub extern "C" fn citp_pnam_write(out: &mut [u8], at: usize, name: &[u8]) -> Put
    ensures { (result, out.new) ≡ flat_written at (put_at pnam name.now at out.old) }
{
    Put::of(at, PNam::write_to_bytes(out, at, name))
}

#[unsafe(no_mangle)]
pub extern "C" fn citp_ploc_write(
    out: &mut [u8],
    at: usize,
    listening_tcp_port: u16,
    kind: &[u8],
    name: &[u8],
    state: &[u8],
) -> Put
    ensures { (result, out.new) ≡ flat_written at (put_at ploc (listening_tcp_port, (kind.now, (name.now, state.now))) at out.old) }
{
    Put::of(
        at,
        PLoc::write_to_bytes(out, at, listening_tcp_port, kind, name, state),
    )
}

// ---- parts of lists

#[unsafe(no_mangle)]
pub extern "C" fn citp_fixture_list_write_head(
    out: &mut [u8],
    at: usize,
    message_type: u8,
    fixture_count: usize,
) -> Put
    ensures { (result, out.new) ≡ flat_written at (by_code
        (λ t. put_head fixture_list_head t 2 fixture_count at out.old) (λ n. (denied n, out.old)) (in_range 3 9 message_type)) }
{
    match FixtureListMessageType::try_from(message_type) {
        Ok(t) => Put::of(at, FixtureList::write_head(out, at, t, fixture_count)),
        Err(refusal) => Put::of(at, Err(refusal)),
    }
}

#[unsafe(no_mangle)]
pub extern "C" fn citp_fixture_write_head(
    out: &mut [u8],
    at: usize,
    fixture_identifier: u32,
    manufacturer_name: &[u16],
    fixture_name: &[u16],
    mode_name: &[u16],
    channel_count: u16,
    is_dimmer: u8,
    identifier_count: usize,
) -> Put
    ensures { (result, out.new)
        ≡ flat_written at (put_head fixture_head
        (fixture_identifier, (manufacturer_name.now, (fixture_name.now, (mode_name.now, (channel_count, is_dimmer)))))
        1 identifier_count at out.old) }
{
    Put::of(
        at,
        Fixture::write_head(
            out,
            at,
            fixture_identifier,
            manufacturer_name,
            fixture_name,
            mode_name,
            channel_count,
            is_dimmer,
            identifier_count,
        ),
    )
}

#[unsafe(no_mangle)]
pub extern "C" fn citp_identifier_write(
    out: &mut [u8],
    at: usize,
    identifier_type: u8,
    data: &[u8],
) -> Put
    ensures { (result, out.new) ≡ flat_written at (by_code
        (λ t. put_at identifier_format (t, «data».now) at out.old) (λ n. (denied n, out.old)) (in_range 6 10 identifier_type)) }
{
    match IdentifierType::try_from(identifier_type) {
        Ok(t) => Put::of(at, Identifier::write_to_bytes(out, at, t, data)),
        Err(refusal) => Put::of(at, Err(refusal)),
    }
}

#[unsafe(no_mangle)]
pub extern "C" fn citp_fixture_data_write(
    out: &mut [u8],
    at: usize,
    data: FixtureNumbers,
    unit: &[u16],
    circuit: &[u16],
    note: &[u16],
) -> Put
    ensures { (result, out.new) ≡ flat_written at (put_at fixture_data_format (value_of «data» unit.now circuit.now note.now) at out.old) }
{
    let x = fixture_data(data);
    Put::of(at, x.write_to_bytes(out, at, unit, circuit, note))
}

#[unsafe(no_mangle)]
pub extern "C" fn citp_laser_feed_list_write_head(
    out: &mut [u8],
    at: usize,
    source_key: u32,
    feed_count: usize,
) -> Put
    ensures { (result, out.new) ≡ flat_written at (put_head laser_feed_list_head source_key 1 feed_count at out.old) }
{
    Put::of(
        at,
        LaserFeedList::write_head(out, at, source_key, feed_count),
    )
}

#[unsafe(no_mangle)]
pub extern "C" fn citp_laser_feed_list_write_name(
    out: &mut [u8],
    at: usize,
    feed_name: &[u16],
) -> Put
    ensures { (result, out.new) ≡ flat_written at (put_at feed_name_format feed_name.now at out.old) }
{
    Put::of(at, LaserFeedList::write_name(out, at, feed_name))
}

#[unsafe(no_mangle)]
pub extern "C" fn citp_laser_feed_frame_write_head(
    out: &mut [u8],
    at: usize,
    source_key: u32,
    feed_index: u8,
    frame_sequence: u32,
    point_count: usize,
) -> Put
    ensures { (result, out.new)
        ≡ flat_written at (put_head laser_feed_frame_head (source_key, (feed_index, frame_sequence)) 2 point_count at out.old) }
{
    Put::of(
        at,
        LaserFeedFrame::write_head(out, at, source_key, feed_index, frame_sequence, point_count),
    )
}

#[unsafe(no_mangle)]
pub extern "C" fn citp_laser_point_write(
    out: &mut [u8],
    at: usize,
    x_low_byte: u8,
    y_low_byte: u8,
    xy_high_nibbles: u8,
    color: u16,
) -> Put
    ensures { (result, out.new)
        ≡ flat_written at (put_at laser_point_format (x_low_byte, (y_low_byte, (xy_high_nibbles, color))) at out.old) }
{
    let point = LaserPoint {
        x_low_byte,
        y_low_byte,
        xy_high_nibbles,
        color,
    };
    Put::of(at, point.write_to_bytes(out, at))
}
