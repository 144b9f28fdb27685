// Writes the stream of a small rig through the packet writer to standard output: 36 lamps on two trusses and the floor, in two universes,
// and the two feeds of a laser controller beside them.
#![tactic(auto)]

use caex::{FixtureListMessageType, LaserPoint};
use fixture::{FixtureData, FloatBits, IdentifierType};
use refusal::Refusal;
use turns::Kind;
use writer::Writer;

const LAMPS: u16 = 36;

// ---- the lamps, in four rows

// A lamp, and the steps to the next of its row. In metres: x across the stage, y up, z upstage. The tilt is in degrees.
#[derive(Clone, Copy)]
struct Lamp {
    make: &'static str,
    name: &'static str,
    mode: &'static str,
    place: &'static str,
    // the maker's ESTA number, low byte first
    manufacturer_id: [u8; 2],
    channel_count: u16,
    is_dimmer: u8,
    // from 1; also its channel on the desk and its circuit
    number: u16,
    // its place on its truss, from 1
    unit: u16,
    unit_step: u16,
    universe: u8,
    channel: u16,
    x: f32,
    x_step: f32,
    y: f32,
    z: f32,
    tilt: f32,
}

// Lamps 1 to 12.
const SOURCE_FOUR: Lamp = Lamp {
    make: "ETC",
    name: "Source Four 26deg",
    mode: "Dimmer",
    place: "front truss",
    manufacturer_id: [0x74, 0x65],
    channel_count: 1,
    is_dimmer: 1,
    number: 1,
    unit: 1,
    unit_step: 1,
    universe: 0,
    channel: 0,
    x: -5.5,
    x_step: 1.0,
    y: 6.5,
    z: -3.0,
    tilt: 45.0,
};

// Lamps 13 to 20.
const MAC_AURA: Lamp = Lamp {
    make: "Martin",
    name: "MAC Aura",
    mode: "Standard",
    place: "back truss",
    manufacturer_id: [0x50, 0x4D],
    channel_count: 14,
    is_dimmer: 0,
    number: 13,
    unit: 1,
    unit_step: 2,
    universe: 0,
    channel: 20,
    x: -5.625,
    x_step: 1.5,
    y: 7.0,
    z: 4.0,
    tilt: 0.0,
};

// Lamps 21 to 28, between the MAC Auras.
const POINTE: Lamp = Lamp {
    make: "Robe",
    name: "Robin Pointe",
    mode: "Mode 1",
    place: "back truss",
    manufacturer_id: [0x53, 0x52],
    channel_count: 24,
    is_dimmer: 0,
    number: 21,
    unit: 2,
    unit_step: 2,
    universe: 1,
    channel: 0,
    x: -4.875,
    x_step: 1.5,
    y: 7.0,
    z: 4.0,
    tilt: 0.0,
};

// Lamps 29 to 36, upright.
const LED_BEAM: Lamp = Lamp {
    make: "Robe",
    name: "Robin LEDBeam 150",
    mode: "Mode 1",
    place: "floor",
    manufacturer_id: [0x53, 0x52],
    channel_count: 22,
    is_dimmer: 0,
    number: 29,
    unit: 1,
    unit_step: 1,
    universe: 1,
    channel: 200,
    x: -4.375,
    x_step: 1.25,
    y: 0.25,
    z: 3.5,
    tilt: 180.0,
};

impl Lamp {
    // The lamp so many further along its row.
    fn after(mut self, n: u16) -> Lamp {
        for _ in 0..n {
            self.number = self.number.wrapping_add(1);
            self.unit = self.unit.wrapping_add(self.unit_step);
            self.channel = self.channel.wrapping_add(self.channel_count);
            self.x += self.x_step;
        }
        self
    }
}

fn lamp_at(n: u16) -> Lamp {
    match n {
        0..=11 => SOURCE_FOUR.after(n),
        12..=19 => MAC_AURA.after(n - 12),
        20..=27 => POINTE.after(n - 20),
        _ => LED_BEAM.after(n - 28),
    }
}

// ---- text

// A name's units, in a buffer that all names here fit.
fn wide<'a>(name: &str, units: &'a mut [u16; 20]) -> &'a [u16] {
    for (unit, byte) in units.iter_mut().zip(name.bytes()) {
        *unit = u16::from(byte);
    }
    &units[..name.len().min(20)]
}

// Two decimal digits.
fn digits(n: u16) -> [u16; 2] {
    [48 + n / 10 % 10, 48 + n % 10]
}

// ---- packets

fn opened(out: &mut [u8], kind: Kind, content_hint: u32) -> Result<Writer, Refusal> {
    Writer::new().open(out, kind, 0, content_hint)
}

// Closes the packet and writes it out.
fn send(stdout: &impl Print, out: &mut [u8], w: Writer) -> Result<(), Refusal> {
    let closed = w.close(out)?;
    if let Some(packet) = out.get(..closed.at) {
        let _ = stdout.write_all(packet);
    }
    Ok(())
}

fn send_pnam(stdout: &impl Print, out: &mut [u8]) -> Result<(), Refusal> {
    let w = opened(out, Kind::PNam, 0)?.pnam(out, b"Small rig desk")?;
    send(stdout, out, w)
}

fn send_enter_show(stdout: &impl Print, out: &mut [u8]) -> Result<(), Refusal> {
    let w = opened(out, Kind::EnterShow, 0)?.enter_show(out, wide("Small rig", &mut [0; 20]))?;
    send(stdout, out, w)
}

fn send_unam(
    stdout: &impl Print,
    out: &mut [u8],
    universe_index: u8,
    universe_name: &[u8],
) -> Result<(), Refusal> {
    let w = opened(out, Kind::UNam, 0)?.unam(out, universe_index, universe_name)?;
    send(stdout, out, w)
}

fn send_sele(stdout: &impl Print, out: &mut [u8]) -> Result<(), Refusal> {
    let w = opened(out, Kind::Sele, 0)?.sele(out, 1, 0, &[1, 2, 3, 4, 5, 6, 7, 8, 9, 10, 11, 12])?;
    send(stdout, out, w)
}

fn send_chbk(
    stdout: &impl Print,
    out: &mut [u8],
    universe_index: u8,
    first_channel: u16,
    levels: &[u8],
) -> Result<(), Refusal> {
    let w = opened(out, Kind::ChBk, 0)?.chbk(out, 0, universe_index, first_channel, levels)?;
    send(stdout, out, w)
}

// ---- the fixture list

// The lamp in the drawing.
fn instance(lamp: Lamp) -> [u8; 16] {
    let mut id = *b"\x6e\x1d\x52\x0b\x8c\x47\x4f\x21\x9a\x35\x0d\xe2\x71\xb8\x44\0";
    id[15] = (lamp.number % 256) as u8;
    id
}

// The floats have no NaN, so their bits beside them do not count.
fn data(lamp: Lamp) -> FixtureData {
    FixtureData {
        patched: 1,
        universe: lamp.universe,
        universe_channel: lamp.channel,
        channel: lamp.number,
        position_x: lamp.x,
        position_y: lamp.y,
        position_z: lamp.z,
        angle_x: lamp.tilt,
        angle_y: 0.0,
        angle_z: 0.0,
        bits: FloatBits {
            position_x: 0,
            position_y: 0,
            position_z: 0,
            angle_x: 0,
            angle_y: 0,
            angle_z: 0,
        },
    }
}

fn write_identifiers(out: &mut [u8], w: Writer, lamp: Lamp) -> Result<Writer, Refusal> {
    let w = w.identifier(
        out,
        IdentifierType::RDMManufacturerId,
        &lamp.manufacturer_id,
    )?;
    w.identifier(out, IdentifierType::CaptureInstanceId, &instance(lamp))
}

fn write_lamp(out: &mut [u8], w: Writer, lamp: Lamp) -> Result<Writer, Refusal> {
    let w = w.fixture_head(
        out,
        u32::from(lamp.number),
        wide(lamp.make, &mut [0; 20]),
        wide(lamp.name, &mut [0; 20]),
        wide(lamp.mode, &mut [0; 20]),
        lamp.channel_count,
        lamp.is_dimmer,
        2,
    )?;
    let w = write_identifiers(out, w, lamp)?;
    w.fixture_data(
        out,
        data(lamp),
        &digits(lamp.unit),
        &digits(lamp.number),
        wide(lamp.place, &mut [0; 20]),
    )
}

fn send_fixture_list(stdout: &impl Print, out: &mut [u8]) -> Result<(), Refusal> {
    let mut w = opened(out, Kind::FixtureList, 0)?.fixture_list_head(
        out,
        FixtureListMessageType::ExistingPatchList,
        usize::from(LAMPS),
    )?;
    for n in 0..LAMPS {
        w = write_lamp(out, w, lamp_at(n))?;
    }
    send(stdout, out, w)
}

// ---- the patch

// A part of a sequence of messages, or its end.
fn content_hint(lamp: Lamp) -> u32 {
    if lamp.number < LAMPS { 1 } else { 2 }
}

fn send_ptch(stdout: &impl Print, out: &mut [u8], lamp: Lamp) -> Result<(), Refusal> {
    let w = opened(out, Kind::Ptch, content_hint(lamp))?.ptch(
        out,
        lamp.number,
        lamp.universe,
        0,
        lamp.channel,
        lamp.channel_count,
        lamp.make.as_bytes(),
        lamp.name.as_bytes(),
    )?;
    send(stdout, out, w)
}

fn send_patch(stdout: &impl Print, out: &mut [u8]) -> Result<(), Refusal> {
    for n in 0..LAMPS {
        send_ptch(stdout, out, lamp_at(n))?;
    }
    Ok(())
}

fn send_universes(stdout: &impl Print, out: &mut [u8]) -> Result<(), Refusal> {
    send_unam(stdout, out, 0, b"Dimmers and wash")?;
    send_unam(stdout, out, 1, b"Spots and beams")
}

// The front dimmers at 70 %, the first MAC Aura open in amber, the second universe dark.
fn send_levels(stdout: &impl Print, out: &mut [u8]) -> Result<(), Refusal> {
    send_chbk(stdout, out, 0, 0, &[178; 12])?;
    send_chbk(
        stdout,
        out,
        0,
        20,
        &[30, 255, 128, 128, 0, 128, 0, 0, 0, 255, 120, 0, 0, 0],
    )?;
    send_chbk(stdout, out, 1, 0, &[0; 376])
}

// ---- the laser controller

// In its list and in its frames.
const SOURCE_KEY: u32 = 0x4C415331;

fn send_laser_feed_list(stdout: &impl Print, out: &mut [u8]) -> Result<(), Refusal> {
    let w = opened(out, Kind::LaserFeedList, 0)?.laser_feed_list_head(out, SOURCE_KEY, 2)?;
    let w = w.feed_name(out, wide("Wall", &mut [0; 20]))?;
    let w = w.feed_name(out, wide("Haze", &mut [0; 20]))?;
    send(stdout, out, w)
}

// In green; x and y have 12 bits.
fn point(x: u16, y: u16) -> LaserPoint {
    LaserPoint {
        x_low_byte: (x % 256) as u8,
        y_low_byte: (y % 256) as u8,
        xy_high_nibbles: (x / 256 % 16 + 16 * (y / 256 % 16)) as u8,
        color: 0x07E0,
    }
}

// From its left corner round to it again.
fn write_triangle(out: &mut [u8], w: Writer) -> Result<Writer, Refusal> {
    let w = w.laser_point(out, point(1000, 1000))?;
    let w = w.laser_point(out, point(3000, 1000))?;
    let w = w.laser_point(out, point(2000, 3000))?;
    w.laser_point(out, point(1000, 1000))
}

// The first frame on the wall.
fn send_laser_feed_frame(stdout: &impl Print, out: &mut [u8]) -> Result<(), Refusal> {
    let w = opened(out, Kind::LaserFeedFrame, 0)?.laser_feed_frame_head(out, SOURCE_KEY, 0, 0, 4)?;
    let w = write_triangle(out, w)?;
    send(stdout, out, w)
}

fn send_rig(stdout: &impl Print, out: &mut [u8]) -> Result<(), Refusal> {
    send_pnam(stdout, out)?;
    send_enter_show(stdout, out)?;
    send_universes(stdout, out)?;
    send_fixture_list(stdout, out)?;
    send_patch(stdout, out)?;
    send_sele(stdout, out)?;
    send_levels(stdout, out)?;
    send_laser_feed_list(stdout, out)?;
    send_laser_feed_frame(stdout, out)
}

// No call is refused: all fits the output, and stands in turn.
fn main(rt: HostRuntime) {
    let _ = send_rig(&rt.stdout(), &mut [0u8; 65536]);
}
