// The FPTC layer: fixture patch.
// A size is at most usize::MAX; its contract has 0 for each number, whose width is fixed.
#![tactic(auto)]

ghost use Rattle.std.specs.Prelude.{◌≡◌};
ghost use Rattle.format.specs.Format.{size};
ghost use Rattle.format.specs.View.{view};
ghost use Rattle.protocol.specs.Layer.{FPTC};
ghost use Rattle.protocol.specs.Step.{read_body};
ghost use Rattle.put.specs.Put.{capped, put_at, Writes};
ghost use Rattle.refusal.specs.Says.{answer_says};
ghost use Rattle.fptc.specs.Says.{ptch, uptc, sptc, ptch_view, uptc_view, sptc_view, message_kind, message_view};
ghost use Rattle.wire.specs.Says.{says, message_says};

use put::{Faults, cstring_size, exact_list_size, put_cstring, put_list, put_u8, put_u16};
use refusal::Refusal;
use wire::{CString, Cursor, List, NAME_LIMIT};

// The layer: its cookie, and the length of its headers with the base header.
#[derive(Clone, Copy)]
pub struct Fptc;

impl Fptc {
    pub const COOKIE: u32 = 0x43545046;

    pub const HEADER_LENGTH: usize = 28;
}

// Patch: a fixture that is introduced or repatched.
#[derive(Clone, Copy)]
pub struct Ptch {
    pub fixture_identifier: u16,
    // 0-based
    pub universe: u8,
    // 4-byte alignment
    pub reserved: u8,
    // 0-based
    pub channel: u16,
    // 1 to 512; not enforced
    pub channel_count: u16,
    // empty if omitted
    pub fixture_make: CString,
    pub fixture_name: CString,
}

impl Ptch {
    pub const CONTENT_TYPE: u32 = 0x68637450;

    pub fn read_from_bytes(body: &[u8]) -> Result<(Ptch, Cursor), Refusal>
        ensures { says ptch_view result ≡ view ptch body.now 0 }
    {
        let (fixture_identifier, c) = Cursor::START.u16(body)?;
        let (universe, c) = c.u8(body)?;
        let (reserved, c) = c.u8(body)?;
        let (channel, c) = c.u16(body)?;
        let (channel_count, c) = c.u16(body)?;
        let (fixture_make, c) = c.cstring(body, NAME_LIMIT)?;
        let (fixture_name, c) = c.cstring(body, NAME_LIMIT)?;
        Ok((
            Ptch {
                fixture_identifier,
                universe,
                reserved,
                channel,
                channel_count,
                fixture_make,
                fixture_name,
            },
            c,
        ))
    }

    #[tactic(auto, unfolding(format::specs::Format::size))]
    pub fn size_bytes(fixture_make: &[u8], fixture_name: &[u8]) -> usize
        ensures { result ≡ capped (size ptch (0, (0, (0, (0, (0, (fixture_make.now, fixture_name.now))))))) }
    {
        cstring_size(fixture_make)
            .saturating_add(cstring_size(fixture_name))
            .saturating_add(8)
    }

    fn put(
        out: &mut [u8],
        at: usize,
        fixture_identifier: u16,
        universe: u8,
        reserved: u8,
        channel: u16,
        channel_count: u16,
        fixture_make: &[u8],
        fixture_name: &[u8],
    ) -> usize
        ensures { Writes ptch
            (fixture_identifier, (universe, (reserved, (channel, (channel_count, (fixture_make.now, fixture_name.now))))))
            at out.old result out.new }
    {
        let at = put_u16(out, at, fixture_identifier);
        let at = put_u8(out, at, universe);
        let at = put_u8(out, at, reserved);
        let at = put_u16(out, at, channel);
        let at = put_u16(out, at, channel_count);
        let at = put_cstring(out, at, fixture_make);
        put_cstring(out, at, fixture_name)
    }

    pub fn write_to_bytes(
        out: &mut [u8],
        at: usize,
        fixture_identifier: u16,
        universe: u8,
        reserved: u8,
        channel: u16,
        channel_count: u16,
        fixture_make: &[u8],
        fixture_name: &[u8],
    ) -> Result<usize, Refusal>
        ensures { (answer_says result, out.new) ≡ put_at ptch
            (fixture_identifier, (universe, (reserved, (channel, (channel_count, (fixture_make.now, fixture_name.now))))))
            at out.old }
    {
        Faults::NONE
            .cstring(fixture_make, NAME_LIMIT)
            .cstring(fixture_name, NAME_LIMIT)
            .weigh(at, Ptch::size_bytes(fixture_make, fixture_name), out.len())?;
        Ok(Ptch::put(
            out,
            at,
            fixture_identifier,
            universe,
            reserved,
            channel,
            channel_count,
            fixture_make,
            fixture_name,
        ))
    }
}

// Unpatch: the fixtures that are unpatched; with none named, all of them.
#[derive(Clone, Copy)]
pub struct UPtc {
    pub fixture_identifiers: List<u16, u16>,
}

impl UPtc {
    pub const CONTENT_TYPE: u32 = 0x63745055;

    pub fn read_from_bytes(body: &[u8]) -> Result<(UPtc, Cursor), Refusal>
        ensures { says uptc_view result ≡ view uptc body.now 0 }
    {
        let (fixture_identifiers, c) = List::read(body, Cursor::START)?;
        Ok((
            UPtc {
                fixture_identifiers,
            },
            c,
        ))
    }

    #[tactic(auto, unfolding(format::specs::Format::size))]
    pub fn size_bytes(fixture_identifiers: &[u16]) -> usize
        ensures { result ≡ capped (size uptc fixture_identifiers.now) }
    {
        exact_list_size(fixture_identifiers)
    }

    pub fn write_to_bytes(
        out: &mut [u8],
        at: usize,
        fixture_identifiers: &[u16],
    ) -> Result<usize, Refusal>
        ensures { (answer_says result, out.new) ≡ put_at uptc fixture_identifiers.now at out.old }
    {
        Faults::NONE
            .list(fixture_identifiers)
            .weigh(at, UPtc::size_bytes(fixture_identifiers), out.len())?;
        Ok(put_list(out, at, fixture_identifiers))
    }
}

// Send patch: asks for the patch of the fixtures named; with none named, for all of it.
#[derive(Clone, Copy)]
pub struct SPtc {
    pub fixture_identifiers: List<u16, u16>,
}

impl SPtc {
    pub const CONTENT_TYPE: u32 = 0x63745053;

    pub fn read_from_bytes(body: &[u8]) -> Result<(SPtc, Cursor), Refusal>
        ensures { says sptc_view result ≡ view sptc body.now 0 }
    {
        let (fixture_identifiers, c) = List::read(body, Cursor::START)?;
        Ok((
            SPtc {
                fixture_identifiers,
            },
            c,
        ))
    }

    #[tactic(auto, unfolding(format::specs::Format::size))]
    pub fn size_bytes(fixture_identifiers: &[u16]) -> usize
        ensures { result ≡ capped (size sptc fixture_identifiers.now) }
    {
        exact_list_size(fixture_identifiers)
    }

    pub fn write_to_bytes(
        out: &mut [u8],
        at: usize,
        fixture_identifiers: &[u16],
    ) -> Result<usize, Refusal>
        ensures { (answer_says result, out.new) ≡ put_at sptc fixture_identifiers.now at out.old }
    {
        Faults::NONE
            .list(fixture_identifiers)
            .weigh(at, SPtc::size_bytes(fixture_identifiers), out.len())?;
        Ok(put_list(out, at, fixture_identifiers))
    }
}

// A message of one kind.
#[derive(Clone, Copy)]
pub enum Message {
    Ptch(Ptch),
    UPtc(UPtc),
    SPtc(SPtc),
}

impl Message {
    // A message with the cursor behind its body; none where its content type is of no kind that is read.
    pub fn read_from_bytes(
        content_type: u32,
        body: &[u8],
    ) -> Result<Option<(Message, Cursor)>, Refusal>
        ensures { message_says message_kind message_view result ≡ read_body FPTC content_type body.now }
    {
        match content_type {
            Ptch::CONTENT_TYPE => {
                let (m, c) = Ptch::read_from_bytes(body)?;
                Ok(Some((Message::Ptch(m), c)))
            }
            UPtc::CONTENT_TYPE => {
                let (m, c) = UPtc::read_from_bytes(body)?;
                Ok(Some((Message::UPtc(m), c)))
            }
            SPtc::CONTENT_TYPE => {
                let (m, c) = SPtc::read_from_bytes(body)?;
                Ok(Some((Message::SPtc(m), c)))
            }
            _ => Ok(None),
        }
    }
}
