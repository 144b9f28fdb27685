// The numbers of a fixture's data as plain fields.
ghost use Rattle.std.specs.Prelude.{◌≡◌};
ghost use Rattle.fixture.specs.Says.{data_numbers, FloatsRead};
ghost use Rattle.plain.specs.Numbers.{flat_numbers, numbers_in};

use fixture::{FixtureData, FloatBits, Patch};
use floats::pattern_of;

// Floats by their bits.
#[repr(C)]
#[derive(Clone, Copy, Default)]
pub struct FixtureNumbers {
    pub patched: u8,
    pub universe: u8,
    pub universe_channel: u16,
    pub channel: u16,
    pub position_x: u32,
    pub position_y: u32,
    pub position_z: u32,
    pub angle_x: u32,
    pub angle_y: u32,
    pub angle_z: u32,
}

pub fn numbers(x: FixtureData) -> FixtureNumbers
    ensures { result ≡ flat_numbers (data_numbers x) }
{
    FixtureNumbers {
        patched: x.patched,
        universe: x.universe,
        universe_channel: x.universe_channel,
        channel: x.channel,
        position_x: pattern_of(x.position_x, x.bits.position_x),
        position_y: pattern_of(x.position_y, x.bits.position_y),
        position_z: pattern_of(x.position_z, x.bits.position_z),
        angle_x: pattern_of(x.angle_x, x.bits.angle_x),
        angle_y: pattern_of(x.angle_y, x.bits.angle_y),
        angle_z: pattern_of(x.angle_z, x.bits.angle_z),
    }
}

// The floats are those of their bits, which stand beside them.
pub fn fixture_data(x: FixtureNumbers) -> FixtureData
    ensures { (data_numbers result ≡ numbers_in x) × FloatsRead result }
{
    FixtureData::from_bits(
        Patch {
            patched: x.patched,
            universe: x.universe,
            universe_channel: x.universe_channel,
        },
        x.channel,
        FloatBits {
            position_x: x.position_x,
            position_y: x.position_y,
            position_z: x.position_z,
            angle_x: x.angle_x,
            angle_y: x.angle_y,
            angle_z: x.angle_z,
        },
    )
}
