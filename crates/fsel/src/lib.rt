// The FSEL layer: fixture selection.
// A size is at most usize::MAX; its contract has 0 for each number, whose width is fixed.
#![tactic(auto)]

ghost use Rattle.std.specs.Prelude.{◌≡◌};
ghost use Rattle.format.specs.Format.{size};
ghost use Rattle.format.specs.View.{view};
ghost use Rattle.protocol.specs.Layer.{FSEL};
ghost use Rattle.protocol.specs.Step.{read_body};
ghost use Rattle.put.specs.Put.{capped, put_at};
ghost use Rattle.refusal.specs.Says.{answer_says};
ghost use Rattle.fsel.specs.Says.{sele, dese, sele_view, dese_view, message_kind, message_view};
ghost use Rattle.wire.specs.Says.{says, message_says};

use put::{Faults, exact_list_size, put_list, put_u8};
use refusal::Refusal;
use wire::{Cursor, List};

// The layer: its cookie, and the length of its headers with the base header.
#[derive(Clone, Copy)]
pub struct Fsel;

impl Fsel {
    pub const COOKIE: u32 = 0x4C455346;

    pub const HEADER_LENGTH: usize = 24;
}

// Select: the fixtures to select.
#[derive(Clone, Copy)]
pub struct Sele {
    // nonzero: all other fixtures are deselected
    pub complete: u8,
    // 4-byte alignment
    pub reserved: u8,
    pub fixture_identifiers: List<u16, u16>,
}

impl Sele {
    pub const CONTENT_TYPE: u32 = 0x656C6553;

    pub fn read_from_bytes(body: &[u8]) -> Result<(Sele, Cursor), Refusal>
        ensures { says sele_view result ≡ view sele body.now 0 }
    {
        let (complete, c) = Cursor::START.u8(body)?;
        let (reserved, c) = c.u8(body)?;
        let (fixture_identifiers, c) = List::read(body, c)?;
        Ok((
            Sele {
                complete,
                reserved,
                fixture_identifiers,
            },
            c,
        ))
    }

    #[tactic(auto, unfolding(format::specs::Format::size))]
    pub fn size_bytes(fixture_identifiers: &[u16]) -> usize
        ensures { result ≡ capped (size sele (0, (0, fixture_identifiers.now))) }
    {
        exact_list_size(fixture_identifiers).saturating_add(2)
    }

    pub fn write_to_bytes(
        out: &mut [u8],
        at: usize,
        complete: u8,
        reserved: u8,
        fixture_identifiers: &[u16],
    ) -> Result<usize, Refusal>
        ensures { (answer_says result, out.new) ≡ put_at sele (complete, (reserved, fixture_identifiers.now)) at out.old }
    {
        Faults::NONE
            .list(fixture_identifiers)
            .weigh(at, Sele::size_bytes(fixture_identifiers), out.len())?;
        let at = put_u8(out, at, complete);
        let at = put_u8(out, at, reserved);
        Ok(put_list(out, at, fixture_identifiers))
    }
}

// Deselect: the fixtures to deselect, with none named all of them.
#[derive(Clone, Copy)]
pub struct DeSe {
    pub fixture_identifiers: List<u16, u16>,
}

impl DeSe {
    pub const CONTENT_TYPE: u32 = 0x65536544;

    pub fn read_from_bytes(body: &[u8]) -> Result<(DeSe, Cursor), Refusal>
        ensures { says dese_view result ≡ view dese body.now 0 }
    {
        let (fixture_identifiers, c) = List::read(body, Cursor::START)?;
        Ok((
            DeSe {
                fixture_identifiers,
            },
            c,
        ))
    }

    #[tactic(auto, unfolding(format::specs::Format::size))]
    pub fn size_bytes(fixture_identifiers: &[u16]) -> usize
        ensures { result ≡ capped (size dese fixture_identifiers.now) }
    {
        exact_list_size(fixture_identifiers)
    }

    pub fn write_to_bytes(
        out: &mut [u8],
        at: usize,
        fixture_identifiers: &[u16],
    ) -> Result<usize, Refusal>
        ensures { (answer_says result, out.new) ≡ put_at dese fixture_identifiers.now at out.old }
    {
        Faults::NONE
            .list(fixture_identifiers)
            .weigh(at, DeSe::size_bytes(fixture_identifiers), out.len())?;
        Ok(put_list(out, at, fixture_identifiers))
    }
}

// A message of one kind.
#[derive(Clone, Copy)]
pub enum Message {
    Sele(Sele),
    DeSe(DeSe),
}

impl Message {
    // A message with the cursor behind its body; none where its content type is of no kind that is read.
    pub fn read_from_bytes(
        content_type: u32,
        body: &[u8],
    ) -> Result<Option<(Message, Cursor)>, Refusal>
        ensures { message_says message_kind message_view result ≡ read_body FSEL content_type body.now }
    {
        match content_type {
            Sele::CONTENT_TYPE => {
                let (m, c) = Sele::read_from_bytes(body)?;
                Ok(Some((Message::Sele(m), c)))
            }
            DeSe::CONTENT_TYPE => {
                let (m, c) = DeSe::read_from_bytes(body)?;
                Ok(Some((Message::DeSe(m), c)))
            }
            _ => Ok(None),
        }
    }
}
