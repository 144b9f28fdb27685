// The packet writer.
ghost use Rattle.std.specs.Prelude.{◌≡◌, map};
ghost use Rattle.format.specs.Passed.{in_range};
ghost use Rattle.protocol.specs.Kind as kinds;
ghost use Rattle.writing.specs.Call as part;
ghost use Rattle.writing.specs.Call.{opens, give, closes, body, laser_feed_list, laser_feed_frame, laser_point};
ghost use Rattle.writing.specs.Call.{fixture_list, fixture, identifier, fixture_data};
ghost use Rattle.sdmx.specs.Says.{level_value};
ghost use Rattle.bridge_writer.specs.Write.{by_code};
ghost use Rattle.plain.specs.Numbers.{value_of};
ghost use Rattle.plain.specs.State.{kind_at, by_kind, refused_with, called};

use caex::{FixtureListMessageType, LaserPoint};
use fixture::IdentifierType;
use plain::numbers::{FixtureNumbers, fixture_data};
use plain::state::{WriterAnswer, WriterState, kind_of};
use refusal::Refusal;
use sdmx::ChannelLevel;

// ---- open and close

#[unsafe(no_mangle)]
pub extern "C" fn citp_writer_new() -> WriterState
    ensures { result ≡ record { turn = 0; kind = 0; items = 0; identifiers = 0; at = 0 } }
{
    WriterState {
        turn: 0,
        kind: 0,
        items: 0,
        identifiers: 0,
        at: 0,
    }
}

#[unsafe(no_mangle)]
pub extern "C" fn citp_writer_open(
    w: WriterState,
    out: &mut [u8],
    kind: u8,
    request_index: u16,
    content_hint: u32,
) -> WriterAnswer
    ensures { (result, out.new) ≡ by_kind
        (λ k. called (opens k request_index content_hint) w out.old) (refused_with w 14, out.old) (kind_at kind) }
{
    let Some(k) = kind_of(kind) else {
        return w.refused(Refusal::OutOfTurn.number());
    };
    w.answer(w.state().open(out, k, request_index, content_hint))
}

#[unsafe(no_mangle)]
pub extern "C" fn citp_writer_close(w: WriterState, out: &mut [u8]) -> WriterAnswer
    ensures { (result, out.new) ≡ called closes w out.old }
{
    w.answer(w.state().close(out))
}

// ---- flat bodies

#[unsafe(no_mangle)]
pub extern "C" fn citp_writer_enter_show(
    w: WriterState,
    out: &mut [u8],
    name: &[u16],
) -> WriterAnswer
    ensures { (result, out.new) ≡ called (give (body kinds.EnterShow name.now)) w out.old }
{
    w.answer(w.state().enter_show(out, name))
}

#[unsafe(no_mangle)]
pub extern "C" fn citp_writer_fixture_remove(
    w: WriterState,
    out: &mut [u8],
    fixture_identifiers: &[u32],
) -> WriterAnswer
    ensures { (result, out.new) ≡ called (give (body kinds.FixtureRemove fixture_identifiers.now)) w out.old }
{
    w.answer(w.state().fixture_remove(out, fixture_identifiers))
}

#[unsafe(no_mangle)]
pub extern "C" fn citp_writer_laser_feed_control(
    w: WriterState,
    out: &mut [u8],
    feed_index: u8,
    frame_rate: u8,
) -> WriterAnswer
    ensures { (result, out.new) ≡ called (give (body kinds.LaserFeedControl (feed_index, frame_rate))) w out.old }
{
    w.answer(w.state().laser_feed_control(out, feed_index, frame_rate))
}

#[unsafe(no_mangle)]
pub extern "C" fn citp_writer_capa(
    w: WriterState,
    out: &mut [u8],
    capabilities: &[u16],
) -> WriterAnswer
    ensures { (result, out.new) ≡ called (give (body kinds.Capa capabilities.now)) w out.old }
{
    w.answer(w.state().capa(out, capabilities))
}

#[unsafe(no_mangle)]
pub extern "C" fn citp_writer_unam(
    w: WriterState,
    out: &mut [u8],
    universe_index: u8,
    universe_name: &[u8],
) -> WriterAnswer
    ensures { (result, out.new) ≡ called (give (body kinds.UNam (universe_index, universe_name.now))) w out.old }
{
    w.answer(w.state().unam(out, universe_index, universe_name))
}

#[unsafe(no_mangle)]
pub extern "C" fn citp_writer_chbk(
    w: WriterState,
    out: &mut [u8],
    blind: u8,
    universe_index: u8,
    first_channel: u16,
    channel_levels: &[u8],
) -> WriterAnswer
    ensures { (result, out.new) ≡ called (give (body kinds.ChBk (blind, (universe_index, (first_channel, channel_levels.now))))) w out.old }
{
    w.answer(
        w.state()
            .chbk(out, blind, universe_index, first_channel, channel_levels),
    )
}

#[unsafe(no_mangle)]
pub extern "C" fn citp_writer_chls(
    w: WriterState,
    out: &mut [u8],
    channel_levels: &[ChannelLevel],
) -> WriterAnswer
    ensures { (result, out.new) ≡ called (give (body kinds.ChLs (map level_value channel_levels.now))) w out.old }
{
    w.answer(w.state().chls(out, channel_levels))
}

#[unsafe(no_mangle)]
pub extern "C" fn citp_writer_sxus(
    w: WriterState,
    out: &mut [u8],
    universe_index: u8,
    connection_string: &[u8],
) -> WriterAnswer
    ensures { (result, out.new) ≡ called (give (body kinds.Sxus (universe_index, connection_string.now))) w out.old }
{
    w.answer(w.state().sxus(out, universe_index, connection_string))
}

#[unsafe(no_mangle)]
pub extern "C" fn citp_writer_ptch(
    w: WriterState,
    out: &mut [u8],
    fixture_identifier: u16,
    universe: u8,
    reserved: u8,
    channel: u16,
    channel_count: u16,
    fixture_make: &[u8],
    fixture_name: &[u8],
) -> WriterAnswer
    ensures { (result, out.new) ≡ called (give (body kinds.Ptch
        (fixture_identifier, (universe, (reserved, (channel, (channel_count, (fixture_make.now, fixture_name.now)))))))) w out.old }
{
    w.answer(
        w.state().ptch(
            out,
            fixture_identifier,
            universe,
            reserved,
            channel,
            channel_count,
            fixture_make,
            fixture_name,
        ),
    )
}

#[unsafe(no_mangle)]
pub extern "C" fn citp_writer_uptc(
    w: WriterState,
    out: &mut [u8],
    fixture_identifiers: &[u16],
) -> WriterAnswer
    ensures { (result, out.new) ≡ called (give (body kinds.UPtc fixture_identifiers.now)) w out.old }
{
    w.answer(w.state().uptc(out, fixture_identifiers))
}

#[unsafe(no_mangle)]
pub extern "C" fn citp_writer_sptc(
    w: WriterState,
    out: &mut [u8],
    fixture_identifiers: &[u16],
) -> WriterAnswer
    ensures { (result, out.new) ≡ called (give (body kinds.SPtc fixture_identifiers.now)) w out.old }
{
    w.answer(w.state().sptc(out, fixture_identifiers))
}

#[unsafe(no_mangle)]
pub extern "C" fn citp_writer_sele(
    w: WriterState,
    out: &mut [u8],
    complete: u8,
    reserved: u8,
    fixture_identifiers: &[u16],
) -> WriterAnswer
    ensures { (result, out.new) ≡ called (give (body kinds.Sele (complete, (reserved, fixture_identifiers.now)))) w out.old }
{
    w.answer(w.state().sele(out, complete, reserved, fixture_identifiers))
}

#[unsafe(no_mangle)]
pub extern "C" fn citp_writer_dese(
    w: WriterState,
    out: &mut [u8],
    fixture_identifiers: &[u16],
) -> WriterAnswer
    ensures { (result, out.new) ≡ called (give (body kinds.DeSe fixture_identifiers.now)) w out.old }
{
    w.answer(w.state().dese(out, fixture_identifiers))
}

#[unsafe(no_mangle)]
pub extern "C" fn citp_writer_sfra(
    w: WriterState,
    out: &mut [u8],
    fixture_identifiers: &[u16],
) -> WriterAnswer
    ensures { (result, out.new) ≡ called (give (body kinds.SFra fixture_identifiers.now)) w out.old }
{
    w.answer(w.state().sfra(out, fixture_identifiers))
}

#[unsafe(no_mangle)]
pub extern "C" fn citp_writer_fram(
    w: WriterState,
    out: &mut [u8],
    fixture_identifier: u16,
    frame_filter_count: u8,
    frame_gobo_count: u8,
    frame_names: &[u8],
) -> WriterAnswer
    ensures { (result, out.new) ≡ called (give (body kinds.Fram
        (fixture_identifier, (frame_filter_count, (frame_gobo_count, frame_names.now))))) w out.old }
{
    w.answer(
        w.state().fram(
            out,
            fixture_identifier,
            frame_filter_count,
            frame_gobo_count,
            frame_names,
        ),
    )
}

#[unsafe(no_mangle)]
pub extern "C" fn citp_writer_pnam(w: WriterState, out: &mut [u8], name: &[u8]) -> WriterAnswer
    ensures { (result, out.new) ≡ called (give (body kinds.PNam name.now)) w out.old }
{
    w.answer(w.state().pnam(out, name))
}

#[unsafe(no_mangle)]
pub extern "C" fn citp_writer_ploc(
    w: WriterState,
    out: &mut [u8],
    listening_tcp_port: u16,
    kind: &[u8],
    name: &[u8],
    state: &[u8],
) -> WriterAnswer
    ensures { (result, out.new) ≡ called (give (body kinds.PLoc (listening_tcp_port, (kind.now, (name.now, state.now))))) w out.old }
{
    w.answer(w.state().ploc(out, listening_tcp_port, kind, name, state))
}

// ---- a fixture list: its head, then for each fixture head, identifiers, data

#[unsafe(no_mangle)]
pub extern "C" fn citp_writer_fixture_list_head(
    w: WriterState,
    out: &mut [u8],
    message_type: u8,
    fixture_count: usize,
) -> WriterAnswer
    ensures { (result, out.new) ≡ by_code
        (λ t. called (give (fixture_list t fixture_count)) w out.old) (λ n. (refused_with w n, out.old)) (in_range 3 9 message_type) }
{
    match FixtureListMessageType::try_from(message_type) {
        Ok(t) => w.answer(w.state().fixture_list_head(out, t, fixture_count)),
        Err(refusal) => w.refused(refusal.number()),
    }
}

#[unsafe(no_mangle)]
pub extern "C" fn citp_writer_fixture_head(
    w: WriterState,
    out: &mut [u8],
    fixture_identifier: u32,
    manufacturer_name: &[u16],
    fixture_name: &[u16],
    mode_name: &[u16],
    channel_count: u16,
    is_dimmer: u8,
    identifier_count: usize,
) -> WriterAnswer
    ensures { (result, out.new) ≡ called (give (fixture
        (fixture_identifier, (manufacturer_name.now, (fixture_name.now, (mode_name.now, (channel_count, is_dimmer)))))
        identifier_count)) w out.old }
{
    w.answer(
        w.state().fixture_head(
            out,
            fixture_identifier,
            manufacturer_name,
            fixture_name,
            mode_name,
            channel_count,
            is_dimmer,
            identifier_count,
        ),
    )
}

#[unsafe(no_mangle)]
pub extern "C" fn citp_writer_identifier(
    w: WriterState,
    out: &mut [u8],
    identifier_type: u8,
    data: &[u8],
) -> WriterAnswer
    ensures { (result, out.new) ≡ by_code
        (λ t. called (give (identifier (t, «data».now))) w out.old) (λ n. (refused_with w n, out.old)) (in_range 6 10 identifier_type) }
{
    match IdentifierType::try_from(identifier_type) {
        Ok(t) => w.answer(w.state().identifier(out, t, data)),
        Err(refusal) => w.refused(refusal.number()),
    }
}

#[unsafe(no_mangle)]
pub extern "C" fn citp_writer_fixture_data(
    w: WriterState,
    out: &mut [u8],
    data: FixtureNumbers,
    unit: &[u16],
    circuit: &[u16],
    note: &[u16],
) -> WriterAnswer
    ensures { (result, out.new) ≡ called (give (fixture_data (value_of «data» unit.now circuit.now note.now))) w out.old }
{
    let x = fixture_data(data);
    w.answer(w.state().fixture_data(out, x, unit, circuit, note))
}

// ---- laser feeds: a head, then names or points

#[unsafe(no_mangle)]
pub extern "C" fn citp_writer_laser_feed_list_head(
    w: WriterState,
    out: &mut [u8],
    source_key: u32,
    feed_count: usize,
) -> WriterAnswer
    ensures { (result, out.new) ≡ called (give (laser_feed_list source_key feed_count)) w out.old }
{
    w.answer(w.state().laser_feed_list_head(out, source_key, feed_count))
}

#[unsafe(no_mangle)]
pub extern "C" fn citp_writer_feed_name(
    w: WriterState,
    out: &mut [u8],
    feed_name: &[u16],
) -> WriterAnswer
    ensures { (result, out.new) ≡ called (give (part.feed_name feed_name.now)) w out.old }
{
    w.answer(w.state().feed_name(out, feed_name))
}

#[unsafe(no_mangle)]
pub extern "C" fn citp_writer_laser_feed_frame_head(
    w: WriterState,
    out: &mut [u8],
    source_key: u32,
    feed_index: u8,
    frame_sequence: u32,
    point_count: usize,
) -> WriterAnswer
    ensures { (result, out.new) ≡ called (give (laser_feed_frame source_key feed_index frame_sequence point_count)) w out.old }
{
    w.answer(
        w.state()
            .laser_feed_frame_head(out, source_key, feed_index, frame_sequence, point_count),
    )
}

#[unsafe(no_mangle)]
pub extern "C" fn citp_writer_laser_point(
    w: WriterState,
    out: &mut [u8],
    x_low_byte: u8,
    y_low_byte: u8,
    xy_high_nibbles: u8,
    color: u16,
) -> WriterAnswer
    ensures { (result, out.new) ≡ called (give (laser_point (x_low_byte, (y_low_byte, (xy_high_nibbles, color))))) w out.old }
{
    let point = LaserPoint {
        x_low_byte,
        y_low_byte,
        xy_high_nibbles,
        color,
    };
    w.answer(w.state().laser_point(out, point))
}
