// The FINF layer: fixture information.
// A size is at most usize::MAX; its contract has 0 for each number, whose width is fixed.
#![tactic(auto)]

ghost use Rattle.std.specs.Prelude.{◌≡◌};
ghost use Rattle.format.specs.Format.{size};
ghost use Rattle.format.specs.View.{view};
ghost use Rattle.protocol.specs.Layer.{FINF};
ghost use Rattle.protocol.specs.Step.{read_body};
ghost use Rattle.put.specs.Put.{capped, put_at};
ghost use Rattle.refusal.specs.Says.{answer_says};
ghost use Rattle.finf.specs.Says.{sfra, fram, sfra_view, fram_view, message_kind, message_view};
ghost use Rattle.wire.specs.Says.{says, message_says};

use put::{Faults, cstring_size, exact_list_size, put_cstring, put_list, put_u8, put_u16};
use refusal::Refusal;
use wire::{CString, Cursor, List};

// The layer: its cookie, and the length of its headers with the base header.
#[derive(Clone, Copy)]
pub struct Finf;

impl Finf {
    pub const COOKIE: u32 = 0x464E4946;

    pub const HEADER_LENGTH: usize = 24;
}

// Send frames: asks for the frames of the fixtures named.
#[derive(Clone, Copy)]
pub struct SFra {
    pub fixture_identifiers: List<u16, u16>,
}

impl SFra {
    pub const CONTENT_TYPE: u32 = 0x61724653;

    pub fn read_from_bytes(body: &[u8]) -> Result<(SFra, Cursor), Refusal>
        ensures { says sfra_view result ≡ view sfra body.now 0 }
    {
        let (fixture_identifiers, c) = List::read(body, Cursor::START)?;
        Ok((
            SFra {
                fixture_identifiers,
            },
            c,
        ))
    }

    #[tactic(auto, unfolding(format::specs::Format::size))]
    pub fn size_bytes(fixture_identifiers: &[u16]) -> usize
        ensures { result ≡ capped (size sfra fixture_identifiers.now) }
    {
        exact_list_size(fixture_identifiers)
    }

    pub fn write_to_bytes(
        out: &mut [u8],
        at: usize,
        fixture_identifiers: &[u16],
    ) -> Result<usize, Refusal>
        ensures { (answer_says result, out.new) ≡ put_at sfra fixture_identifiers.now at out.old }
    {
        Faults::NONE
            .list(fixture_identifiers)
            .weigh(at, SFra::size_bytes(fixture_identifiers), out.len())?;
        Ok(put_list(out, at, fixture_identifiers))
    }
}

// Frames: the filters and gobos of a fixture.
#[derive(Clone, Copy)]
pub struct Fram {
    pub fixture_identifier: u16,
    pub frame_filter_count: u8,
    pub frame_gobo_count: u8,
    // filters, then gobos, separated by newlines
    pub frame_names: CString,
}

impl Fram {
    pub const CONTENT_TYPE: u32 = 0x6D617246;
    // The bytes of the longest `frame_names`.
    pub const NAMES_LIMIT: usize = 65_535;

    pub fn read_from_bytes(body: &[u8]) -> Result<(Fram, Cursor), Refusal>
        ensures { says fram_view result ≡ view fram body.now 0 }
    {
        let (fixture_identifier, c) = Cursor::START.u16(body)?;
        let (frame_filter_count, c) = c.u8(body)?;
        let (frame_gobo_count, c) = c.u8(body)?;
        let (frame_names, c) = c.cstring(body, Fram::NAMES_LIMIT)?;
        Ok((
            Fram {
                fixture_identifier,
                frame_filter_count,
                frame_gobo_count,
                frame_names,
            },
            c,
        ))
    }

    #[tactic(auto, unfolding(format::specs::Format::size))]
    pub fn size_bytes(frame_names: &[u8]) -> usize
        ensures { result ≡ capped (size fram (0, (0, (0, frame_names.now)))) }
    {
        cstring_size(frame_names).saturating_add(4)
    }

    pub fn write_to_bytes(
        out: &mut [u8],
        at: usize,
        fixture_identifier: u16,
        frame_filter_count: u8,
        frame_gobo_count: u8,
        frame_names: &[u8],
    ) -> Result<usize, Refusal>
        ensures { (answer_says result, out.new)
            ≡ put_at fram (fixture_identifier, (frame_filter_count, (frame_gobo_count, frame_names.now))) at out.old }
    {
        Faults::NONE
            .cstring(frame_names, Fram::NAMES_LIMIT)
            .weigh(at, Fram::size_bytes(frame_names), out.len())?;
        let at = put_u16(out, at, fixture_identifier);
        let at = put_u8(out, at, frame_filter_count);
        let at = put_u8(out, at, frame_gobo_count);
        Ok(put_cstring(out, at, frame_names))
    }
}

// A message of one kind.
#[derive(Clone, Copy)]
pub enum Message {
    SFra(SFra),
    Fram(Fram),
}

impl Message {
    // A message with the cursor behind its body; none where its content type is of no kind that is read.
    pub fn read_from_bytes(
        content_type: u32,
        body: &[u8],
    ) -> Result<Option<(Message, Cursor)>, Refusal>
        ensures { message_says message_kind message_view result ≡ read_body FINF content_type body.now }
    {
        match content_type {
            SFra::CONTENT_TYPE => {
                let (m, c) = SFra::read_from_bytes(body)?;
                Ok(Some((Message::SFra(m), c)))
            }
            Fram::CONTENT_TYPE => {
                let (m, c) = Fram::read_from_bytes(body)?;
                Ok(Some((Message::Fram(m), c)))
            }
            _ => Ok(None),
        }
    }
}
