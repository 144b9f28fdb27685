// The SDMX layer: DMX channels.
// A size is at most usize::MAX; its contract has 0 for each number, whose width is fixed.
#![tactic(auto)]

ghost use Rattle.std.specs.Prelude.{◌≡◌, map, replicate};
ghost use Rattle.std.proofs.Common.{refl};
ghost use Rattle.format.specs.Format.{size};
ghost use Rattle.format.specs.View.{view};
ghost use Rattle.protocol.specs.Layer.{SDMX};
ghost use Rattle.protocol.specs.Kind.{channel_level_format};
ghost use Rattle.protocol.specs.Step.{read_body};
ghost use Rattle.put.specs.Put.{capped, put_at};
ghost use Rattle.refusal.specs.Says.{answer_says};
ghost use Rattle.sdmx.specs.Says.{capa, unam, chbk, chls, sxus, capa_view, unam_view, chbk_view, chls_view, sxus_view, channel_level_view};
ghost use Rattle.sdmx.specs.Says.{level_value, message_kind, message_view};
ghost use Rattle.wire.specs.Says.{says, message_says};

use put::{
    Faults, InMemory, ToBytes, cstring_size, exact_list_size, put_cstring, put_list, put_u8,
    put_u16,
};
use refusal::Refusal;
use wire::{Block, CString, Cursor, Item, List, NAME_LIMIT};

// The layer: its cookie, and the length of its headers with the base header.
#[derive(Clone, Copy)]
pub struct Sdmx;

impl Sdmx {
    pub const COOKIE: u32 = 0x584D4453;

    pub const HEADER_LENGTH: usize = 24;
}

// Capabilities of the sender.
#[derive(Clone, Copy)]
pub struct Capa {
    pub capabilities: List<u16, u16>,
}

impl Capa {
    pub const CONTENT_TYPE: u32 = 0x61706143;

    // ChLs channel list.
    pub const CHANNEL_LIST: u16 = 1;
    // SXSr external source.
    pub const EXTERNAL_SOURCE: u16 = 2;
    // SXUS per-universe external sources.
    pub const PER_UNIVERSE_EXTERNAL_SOURCES: u16 = 3;

    pub const ART_NET_EXTERNAL_SOURCES: u16 = 101;

    pub const BSR_E131_EXTERNAL_SOURCES: u16 = 102;

    pub const ETC_NET2_EXTERNAL_SOURCES: u16 = 103;
    // The Rust's constant says 103, its comment 104, which alone tells it from ETC Net2.
    pub const MA_NET_EXTERNAL_SOURCES: u16 = 104;

    pub fn read_from_bytes(body: &[u8]) -> Result<(Capa, Cursor), Refusal>
        ensures { says capa_view result ≡ view capa body.now 0 }
    {
        let (capabilities, c) = List::read(body, Cursor::START)?;
        Ok((Capa { capabilities }, c))
    }

    #[tactic(auto, unfolding(format::specs::Format::size))]
    pub fn size_bytes(capabilities: &[u16]) -> usize
        ensures { result ≡ capped (size capa capabilities.now) }
    {
        exact_list_size(capabilities)
    }

    pub fn write_to_bytes(out: &mut [u8], at: usize, capabilities: &[u16]) -> Result<usize, Refusal>
        ensures { (answer_says result, out.new) ≡ put_at capa capabilities.now at out.old }
    {
        Faults::NONE
            .list(capabilities)
            .weigh(at, Capa::size_bytes(capabilities), out.len())?;
        Ok(put_list(out, at, capabilities))
    }
}

// Universe name.
#[derive(Clone, Copy)]
pub struct UNam {
    // 0-based
    pub universe_index: u8,
    pub universe_name: CString,
}

impl UNam {
    pub const CONTENT_TYPE: u32 = 0x6D614E55;

    pub fn read_from_bytes(body: &[u8]) -> Result<(UNam, Cursor), Refusal>
        ensures { says unam_view result ≡ view unam body.now 0 }
    {
        let (universe_index, c) = Cursor::START.u8(body)?;
        let (universe_name, c) = c.cstring(body, NAME_LIMIT)?;
        Ok((
            UNam {
                universe_index,
                universe_name,
            },
            c,
        ))
    }

    #[tactic(auto, unfolding(format::specs::Format::size))]
    pub fn size_bytes(universe_name: &[u8]) -> usize
        ensures { result ≡ capped (size unam (0, universe_name.now)) }
    {
        cstring_size(universe_name).saturating_add(1)
    }

    pub fn write_to_bytes(
        out: &mut [u8],
        at: usize,
        universe_index: u8,
        universe_name: &[u8],
    ) -> Result<usize, Refusal>
        ensures { (answer_says result, out.new) ≡ put_at unam (universe_index, universe_name.now) at out.old }
    {
        Faults::NONE
            .cstring(universe_name, NAME_LIMIT)
            .weigh(at, UNam::size_bytes(universe_name), out.len())?;
        let at = put_u8(out, at, universe_index);
        Ok(put_cstring(out, at, universe_name))
    }
}

// Channel block: levels of consecutive channels.
#[derive(Clone, Copy)]
pub struct ChBk {
    // 1 for blind preview, 0 otherwise; not enforced
    pub blind: u8,
    // 0-based
    pub universe_index: u8,
    // 0-based
    pub first_channel: u16,
    pub channel_levels: Block,
}

impl ChBk {
    pub const CONTENT_TYPE: u32 = 0x6B426843;

    pub fn read_from_bytes(body: &[u8]) -> Result<(ChBk, Cursor), Refusal>
        ensures { says chbk_view result ≡ view chbk body.now 0 }
    {
        let (blind, c) = Cursor::START.u8(body)?;
        let (universe_index, c) = c.u8(body)?;
        let (first_channel, c) = c.u16(body)?;
        let (channel_levels, c) = c.block(body)?;
        Ok((
            ChBk {
                blind,
                universe_index,
                first_channel,
                channel_levels,
            },
            c,
        ))
    }

    #[tactic(auto, unfolding(format::specs::Format::size))]
    pub fn size_bytes(channel_levels: &[u8]) -> usize
        ensures { result ≡ capped (size chbk (0, (0, (0, channel_levels.now)))) }
    {
        exact_list_size(channel_levels).saturating_add(4)
    }

    pub fn write_to_bytes(
        out: &mut [u8],
        at: usize,
        blind: u8,
        universe_index: u8,
        first_channel: u16,
        channel_levels: &[u8],
    ) -> Result<usize, Refusal>
        ensures { (answer_says result, out.new) ≡ put_at chbk (blind, (universe_index, (first_channel, channel_levels.now))) at out.old }
    {
        Faults::NONE
            .list(channel_levels)
            .weigh(at, ChBk::size_bytes(channel_levels), out.len())?;
        let at = put_u8(out, at, blind);
        let at = put_u8(out, at, universe_index);
        let at = put_u16(out, at, first_channel);
        Ok(put_list(out, at, channel_levels))
    }
}

// A record of a channel list.
#[repr(C)]
#[derive(Clone, Copy, Default)]
pub struct ChannelLevel {
    // 0-based
    pub universe_index: u8,
    // 0-based
    pub channel: u16,
    pub channel_level: u8,
}

impl ChannelLevel {
    // The bytes of a record.
    pub const WIDTH: usize = 4;
}

impl Item for ChannelLevel {
    ghost format = { channel_level_format };

    ghost item_view = { channel_level_view };

    fn read(body: &[u8], c: Cursor) -> Result<(ChannelLevel, Cursor), Refusal> {
        let (universe_index, c) = c.u8(body)?;
        let (channel, c) = c.u16(body)?;
        let (channel_level, c) = c.u8(body)?;
        Ok((
            ChannelLevel {
                universe_index,
                channel,
                channel_level,
            },
            c,
        ))
    }

    fn pass(body: &[u8], c: Cursor, n: usize) -> Result<Cursor, Refusal> {
        c.skip_items(body, n, ChannelLevel::WIDTH)
    }
}

impl ToBytes for ChannelLevel {
    ghost format = { channel_level_format };

    ghost value = { level_value };

    ghost WIDTH = { 4 };

    const WIDTH: usize = ChannelLevel::WIDTH;

    fn put(self, out: &mut [u8], at: usize) -> usize {
        let at = put_u8(out, at, self.universe_index);
        let at = put_u16(out, at, self.channel);
        put_u8(out, at, self.channel_level)
    }

    ghost plain = { (tt, (tt, tt)) };

    ghost wide = { refl };
}

impl InMemory for ChannelLevel {
    fn bytes(values: &[ChannelLevel]) -> usize {
        values.len() * ChannelLevel::WIDTH
    }
}

// What is left of a list of records.
pub type ChannelLevels = List<ChannelLevel, u16>;

// Channel list: levels of single channels.
#[derive(Clone, Copy)]
pub struct ChLs {
    pub channel_levels: ChannelLevels,
}

impl ChLs {
    pub const CONTENT_TYPE: u32 = 0x734C6843;

    pub fn read_from_bytes(body: &[u8]) -> Result<(ChLs, Cursor), Refusal>
        ensures { says chls_view result ≡ view chls body.now 0 }
    {
        let (channel_levels, c) = List::read(body, Cursor::START)?;
        Ok((ChLs { channel_levels }, c))
    }

    // Of so many records, whatever they hold.
    pub fn size_bytes(count: usize) -> usize
        ensures { result ≡ capped (size chls (replicate count (0, (0, 0)))) }
    {
        count.saturating_mul(ChannelLevel::WIDTH).saturating_add(2)
    }

    pub fn write_to_bytes(
        out: &mut [u8],
        at: usize,
        channel_levels: &[ChannelLevel],
    ) -> Result<usize, Refusal>
        ensures { (answer_says result, out.new) ≡ put_at chls (map level_value channel_levels.now) at out.old }
    {
        Faults::NONE
            .list(channel_levels)
            .weigh(at, exact_list_size(channel_levels), out.len())?;
        Ok(put_list(out, at, channel_levels))
    }
}

// Set external universe source.
#[derive(Clone, Copy)]
pub struct Sxus {
    // 0-based
    pub universe_index: u8,
    // as "ArtNet/0/0/1" or "BSRE1.31/1/1"
    pub connection_string: CString,
}

impl Sxus {
    pub const CONTENT_TYPE: u32 = 0x53555853;

    pub fn read_from_bytes(body: &[u8]) -> Result<(Sxus, Cursor), Refusal>
        ensures { says sxus_view result ≡ view sxus body.now 0 }
    {
        let (universe_index, c) = Cursor::START.u8(body)?;
        let (connection_string, c) = c.cstring(body, NAME_LIMIT)?;
        Ok((
            Sxus {
                universe_index,
                connection_string,
            },
            c,
        ))
    }

    #[tactic(auto, unfolding(format::specs::Format::size))]
    pub fn size_bytes(connection_string: &[u8]) -> usize
        ensures { result ≡ capped (size sxus (0, connection_string.now)) }
    {
        cstring_size(connection_string).saturating_add(1)
    }

    pub fn write_to_bytes(
        out: &mut [u8],
        at: usize,
        universe_index: u8,
        connection_string: &[u8],
    ) -> Result<usize, Refusal>
        ensures { (answer_says result, out.new) ≡ put_at sxus (universe_index, connection_string.now) at out.old }
    {
        Faults::NONE
            .cstring(connection_string, NAME_LIMIT)
            .weigh(at, Sxus::size_bytes(connection_string), out.len())?;
        let at = put_u8(out, at, universe_index);
        Ok(put_cstring(out, at, connection_string))
    }
}

// A message of one kind.
#[derive(Clone, Copy)]
pub enum Message {
    Capa(Capa),
    UNam(UNam),
    ChBk(ChBk),
    ChLs(ChLs),
    Sxus(Sxus),
}

impl Message {
    // A message with the cursor behind its body; none where its content type is of no kind that is read.
    pub fn read_from_bytes(
        content_type: u32,
        body: &[u8],
    ) -> Result<Option<(Message, Cursor)>, Refusal>
        ensures { message_says message_kind message_view result ≡ read_body SDMX content_type body.now }
    {
        match content_type {
            Capa::CONTENT_TYPE => {
                let (m, c) = Capa::read_from_bytes(body)?;
                Ok(Some((Message::Capa(m), c)))
            }
            UNam::CONTENT_TYPE => {
                let (m, c) = UNam::read_from_bytes(body)?;
                Ok(Some((Message::UNam(m), c)))
            }
            ChBk::CONTENT_TYPE => {
                let (m, c) = ChBk::read_from_bytes(body)?;
                Ok(Some((Message::ChBk(m), c)))
            }
            ChLs::CONTENT_TYPE => {
                let (m, c) = ChLs::read_from_bytes(body)?;
                Ok(Some((Message::ChLs(m), c)))
            }
            Sxus::CONTENT_TYPE => {
                let (m, c) = Sxus::read_from_bytes(body)?;
                Ok(Some((Message::Sxus(m), c)))
            }
            _ => Ok(None),
        }
    }
}
