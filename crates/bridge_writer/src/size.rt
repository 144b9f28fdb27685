// The sizes of bodies and of parts, in bytes, at most usize::MAX.
ghost use Rattle.std.specs.Prelude.{◌≡◌, replicate};
ghost use Rattle.format.specs.Format.{size};
ghost use Rattle.protocol.specs.Kind.{identifier_format, fixture_data_format, laser_point_format};
ghost use Rattle.put.specs.Put.{capped};
ghost use Rattle.pinf.specs.Says.{pnam, ploc};
ghost use Rattle.finf.specs.Says.{sfra, fram};
ghost use Rattle.fsel.specs.Says.{sele, dese};
ghost use Rattle.fptc.specs.Says.{ptch, uptc, sptc};
ghost use Rattle.sdmx.specs.Says.{capa, unam, chbk, chls, sxus};
ghost use Rattle.caex.specs.Says.{enter_show, fixture_remove, laser_feed_control};

use caex::{EnterShow, FixtureRemove, LaserFeedControl, LaserPoint};
use finf::{Fram, SFra};
use fixture::{FixtureData, Identifier};
use fptc::{Ptch, SPtc, UPtc};
use fsel::{DeSe, Sele};
use pinf::{PLoc, PNam};
use sdmx::{Capa, ChBk, ChLs, Sxus, UNam};

#[unsafe(no_mangle)]
pub extern "C" fn citp_enter_show_size(name: &[u16]) -> usize
    ensures { result ≡ capped (size enter_show name.now) }
{
    EnterShow::size_bytes(name)
}

#[unsafe(no_mangle)]
pub extern "C" fn citp_fixture_remove_size(fixture_identifiers: &[u32]) -> usize
    ensures { result ≡ capped (size fixture_remove fixture_identifiers.now) }
{
    FixtureRemove::size_bytes(fixture_identifiers)
}

#[unsafe(no_mangle)]
pub extern "C" fn citp_laser_feed_control_size() -> usize
    ensures { result ≡ size laser_feed_control (0, 0) }
{
    LaserFeedControl::size_bytes()
}

#[unsafe(no_mangle)]
pub extern "C" fn citp_capa_size(capabilities: &[u16]) -> usize
    ensures { result ≡ capped (size capa capabilities.now) }
{
    Capa::size_bytes(capabilities)
}

#[unsafe(no_mangle)]
pub extern "C" fn citp_unam_size(universe_name: &[u8]) -> usize
    ensures { result ≡ capped (size unam (0, universe_name.now)) }
{
    UNam::size_bytes(universe_name)
}

#[unsafe(no_mangle)]
pub extern "C" fn citp_chbk_size(channel_levels: &[u8]) -> usize
    ensures { result ≡ capped (size chbk (0, (0, (0, channel_levels.now)))) }
{
    ChBk::size_bytes(channel_levels)
}

// Of so many records, whatever they hold.
#[unsafe(no_mangle)]
pub extern "C" fn citp_chls_size(count: usize) -> usize
    ensures { result ≡ capped (size chls (replicate count (0, (0, 0)))) }
{
    ChLs::size_bytes(count)
}

#[unsafe(no_mangle)]
pub extern "C" fn citp_sxus_size(connection_string: &[u8]) -> usize
    ensures { result ≡ capped (size sxus (0, connection_string.now)) }
{
    Sxus::size_bytes(connection_string)
}

#[unsafe(no_mangle)]
pub extern "C" fn citp_ptch_size(fixture_make: &[u8], fixture_name: &[u8]) -> usize
    ensures { result ≡ capped (size ptch (0, (0, (0, (0, (0, (fixture_make.now, fixture_name.now))))))) }
{
    Ptch::size_bytes(fixture_make, fixture_name)
}

#[unsafe(no_mangle)]
pub extern "C" fn citp_uptc_size(fixture_identifiers: &[u16]) -> usize
    ensures { result ≡ capped (size uptc fixture_identifiers.now) }
{
    UPtc::size_bytes(fixture_identifiers)
}

#[unsafe(no_mangle)]
pub extern "C" fn citp_sptc_size(fixture_identifiers: &[u16]) -> usize
    ensures { result ≡ capped (size sptc fixture_identifiers.now) }
{
    SPtc::size_bytes(fixture_identifiers)
}

#[unsafe(no_mangle)]
pub extern "C" fn citp_sele_size(fixture_identifiers: &[u16]) -> usize
    ensures { result ≡ capped (size sele (0, (0, fixture_identifiers.now))) }
{
    Sele::size_bytes(fixture_identifiers)
}

#[unsafe(no_mangle)]
pub extern "C" fn citp_dese_size(fixture_identifiers: &[u16]) -> usize
    ensures { result ≡ capped (size dese fixture_identifiers.now) }
{
    DeSe::size_bytes(fixture_identifiers)
}

#[unsafe(no_mangle)]
pub extern "C" fn citp_sfra_size(fixture_identifiers: &[u16]) -> usize
    ensures { result ≡ capped (size sfra fixture_identifiers.now) }
{
    SFra::size_bytes(fixture_identifiers)
}

#[unsafe(no_mangle)]
pub extern "C" fn citp_fram_size(frame_names: &[u8]) -> usize
    ensures { result ≡ capped (size fram (0, (0, (0, frame_names.now)))) }
{
    Fram::size_bytes(frame_names)
}

#[unsafe(no_mangle)]
pub extern "C" fn citp_pnam_size(name: &[u8]) -> usize
    ensures { result ≡ capped (size pnam name.now) }
{
    PNam::size_bytes(name)
}

#[unsafe(no_mangle)]
pub extern "C" fn citp_ploc_size(kind: &[u8], name: &[u8], state: &[u8]) -> usize
    ensures { result ≡ capped (size ploc (0, (kind.now, (name.now, state.now)))) }
{
    PLoc::size_bytes(kind, name, state)
}

#[unsafe(no_mangle)]
pub extern "C" fn citp_identifier_size(data: &[u8]) -> usize
    ensures { result ≡ capped (size identifier_format (0, «data».now)) }
{
    Identifier::size_bytes(data)
}

#[unsafe(no_mangle)]
pub extern "C" fn citp_fixture_data_size(unit: &[u16], circuit: &[u16], note: &[u16]) -> usize
    ensures { result ≡ capped (size fixture_data_format
        (0, (0, (0, (unit.now, (0, (circuit.now, (note.now, (0, (0, (0, (0, (0, 0))))))))))))) }
{
    FixtureData::size_bytes(unit, circuit, note)
}

#[unsafe(no_mangle)]
pub extern "C" fn citp_laser_point_size() -> usize
    ensures { result ≡ size laser_point_format (0, (0, (0, 0))) }
{
    LaserPoint::size_bytes()
}
