// The PINF layer: peer information.
// A size is at most usize::MAX; its contract has 0 for each number, whose width is fixed.
#![tactic(auto)]

ghost use Rattle.std.specs.Prelude.{◌≡◌};
ghost use Rattle.format.specs.Format.{size};
ghost use Rattle.format.specs.View.{view};
ghost use Rattle.protocol.specs.Layer.{PINF};
ghost use Rattle.protocol.specs.Step.{read_body};
ghost use Rattle.put.specs.Put.{Writes, capped, put_at};
ghost use Rattle.refusal.specs.Says.{answer_says};
ghost use Rattle.pinf.specs.Says.{pnam, ploc, pnam_view, ploc_view, message_kind, message_view};
ghost use Rattle.wire.specs.Says.{says, message_says};

use put::{Faults, cstring_size, put_cstring, put_u16};
use refusal::Refusal;
use wire::{CString, Cursor, NAME_LIMIT};

// The old port originally used for broadcast.
pub const OLD_BROADCAST_PORT: u16 = 4810;

// The newer port used for multicast.
pub const MULTICAST_PORT: u16 = 4809;

// The old multicast address prior to early 2014.
pub const OLD_MULTICAST_ADDR: [u8; 4] = [224, 0, 0, 180];

// The official multicast address since early 2014.
pub const MULTICAST_ADDR: [u8; 4] = [239, 224, 0, 180];

// The layer: its cookie, and the length of its headers with the base header.
#[derive(Clone, Copy)]
pub struct Pinf;

impl Pinf {
    pub const COOKIE: u32 = 0x464E4950;

    pub const HEADER_LENGTH: usize = 24;
}

// Peer name: a display name of the peer.
#[derive(Clone, Copy)]
pub struct PNam {
    pub name: CString,
}

impl PNam {
    pub const CONTENT_TYPE: u32 = 0x6D614E50;

    pub fn read_from_bytes(body: &[u8]) -> Result<(PNam, Cursor), Refusal>
        ensures { says pnam_view result ≡ view pnam body.now 0 }
    {
        let (name, c) = Cursor::START.cstring(body, NAME_LIMIT)?;
        Ok((PNam { name }, c))
    }

    #[tactic(auto, unfolding(format::specs::Format::size))]
    pub fn size_bytes(name: &[u8]) -> usize
        ensures { result ≡ capped (size pnam name.now) }
    {
        cstring_size(name)
    }

    pub fn write_to_bytes(out: &mut [u8], at: usize, name: &[u8]) -> Result<usize, Refusal>
        ensures { (answer_says result, out.new) ≡ put_at pnam name.now at out.old }
    {
        Faults::NONE
            .cstring(name, NAME_LIMIT)
            .weigh(at, PNam::size_bytes(name), out.len())?;
        Ok(put_cstring(out, at, name))
    }
}

// Peer location: where and how a peer can be reached.
#[derive(Clone, Copy)]
pub struct PLoc {
    // 0 if the peer is not listening
    pub listening_tcp_port: u16,
    // "LightingConsole", "MediaServer" or "Visualiser"
    pub kind: CString,
    pub name: CString,
    // a state to display, as "Idle" or "Running"
    pub state: CString,
}

impl PLoc {
    pub const CONTENT_TYPE: u32 = 0x636F4C50;

    pub fn read_from_bytes(body: &[u8]) -> Result<(PLoc, Cursor), Refusal>
        ensures { says ploc_view result ≡ view ploc body.now 0 }
    {
        let (listening_tcp_port, c) = Cursor::START.u16(body)?;
        let (kind, c) = c.cstring(body, NAME_LIMIT)?;
        let (name, c) = c.cstring(body, NAME_LIMIT)?;
        let (state, c) = c.cstring(body, NAME_LIMIT)?;
        Ok((
            PLoc {
                listening_tcp_port,
                kind,
                name,
                state,
            },
            c,
        ))
    }

    #[tactic(auto, unfolding(format::specs::Format::size))]
    pub fn size_bytes(kind: &[u8], name: &[u8], state: &[u8]) -> usize
        ensures { result ≡ capped (size ploc (0, (kind.now, (name.now, state.now)))) }
    {
        cstring_size(kind)
            .saturating_add(cstring_size(name))
            .saturating_add(cstring_size(state))
            .saturating_add(2)
    }

    fn put(
        out: &mut [u8],
        at: usize,
        listening_tcp_port: u16,
        kind: &[u8],
        name: &[u8],
        state: &[u8],
    ) -> usize
        ensures { Writes ploc (listening_tcp_port, (kind.now, (name.now, state.now)))
            at out.old result out.new }
    {
        let at = put_u16(out, at, listening_tcp_port);
        let at = put_cstring(out, at, kind);
        let at = put_cstring(out, at, name);
        put_cstring(out, at, state)
    }

    pub fn write_to_bytes(
        out: &mut [u8],
        at: usize,
        listening_tcp_port: u16,
        kind: &[u8],
        name: &[u8],
        state: &[u8],
    ) -> Result<usize, Refusal>
        ensures { (answer_says result, out.new) ≡ put_at ploc (listening_tcp_port, (kind.now, (name.now, state.now))) at out.old }
    {
        Faults::NONE
            .cstring(kind, NAME_LIMIT)
            .cstring(name, NAME_LIMIT)
            .cstring(state, NAME_LIMIT)
            .weigh(at, PLoc::size_bytes(kind, name, state), out.len())?;
        Ok(PLoc::put(out, at, listening_tcp_port, kind, name, state))
    }
}

// A message of one kind.
#[derive(Clone, Copy)]
pub enum Message {
    PNam(PNam),
    PLoc(PLoc),
}

impl Message {
    // A message with the cursor behind its body; none where its content type is of no kind that is read.
    pub fn read_from_bytes(
        content_type: u32,
        body: &[u8],
    ) -> Result<Option<(Message, Cursor)>, Refusal>
        ensures { message_says message_kind message_view result ≡ read_body PINF content_type body.now }
    {
        match content_type {
            PNam::CONTENT_TYPE => {
                let (m, c) = PNam::read_from_bytes(body)?;
                Ok(Some((Message::PNam(m), c)))
            }
            PLoc::CONTENT_TYPE => {
                let (m, c) = PLoc::read_from_bytes(body)?;
                Ok(Some((Message::PLoc(m), c)))
            }
            _ => Ok(None),
        }
    }
}
