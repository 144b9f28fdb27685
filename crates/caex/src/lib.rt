// The CAEX layer: shows, fixture lists and laser feeds.
// A size is at most usize::MAX; its contract has 0 for each number, whose width is fixed.
// A list is written as its head with the count of its items, then item by item; a count is given wider than its field.
#![tactic(auto)]

ghost use Rattle.std.specs.Prelude.{◌≡◌};
ghost use Rattle.format.specs.Format.{size};
ghost use Rattle.format.specs.View.{view};
ghost use Rattle.format.specs.Passed.{in_range};
ghost use Rattle.protocol.specs.Kind.{feed_name_format, laser_point_format};
ghost use Rattle.protocol.specs.Layer.{CAEX};
ghost use Rattle.protocol.specs.Step.{read_body};
ghost use Rattle.put.specs.Put.{capped, put_at, put_head};
ghost use Rattle.refusal.specs.Says.{answer_says};
ghost use Rattle.wire.specs.Says.{says, message_says};
ghost use Rattle.fixture.specs.Codes.{code_says};
ghost use Rattle.caex.specs.Codes.{message_type_code};
ghost use Rattle.caex.specs.Says.{enter_show, fixture_list, fixture_remove, laser_feed_control, laser_feed_list, laser_feed_frame};
ghost use Rattle.caex.specs.Says.{enter_show_view, fixture_list_view, fixture_remove_view, laser_feed_control_view, laser_feed_list_view};
ghost use Rattle.caex.specs.Says.{laser_feed_frame_view, message_kind, message_view};
ghost use Rattle.caex.specs.Write.{fixture_list_head, laser_feed_list_head, laser_feed_frame_head, point_value};

use fixture::Fixtures;
use put::{
    Faults, exact_list_size, put_list, put_number_1, put_number_2, put_u8, put_u16, put_u32,
    put_ucs2, ucs2_size,
};
use refusal::Refusal;
use wire::{Cursor, Item, List, NAME_LIMIT, Ucs2};

// The layer: its cookie, and the length of its headers with the base header.
#[derive(Clone, Copy)]
pub struct Caex;

impl Caex {
    pub const COOKIE: u32 = 0x58454143;

    pub const HEADER_LENGTH: usize = 24;
}

// ---- shows

// A show was opened, or is to be synchronized.
#[derive(Clone, Copy)]
pub struct EnterShow {
    pub name: Ucs2,
}

impl EnterShow {
    pub const CONTENT_TYPE: u32 = 0x00020100;

    pub fn read_from_bytes(body: &[u8]) -> Result<(EnterShow, Cursor), Refusal>
        ensures { says enter_show_view result ≡ view enter_show body.now 0 }
    {
        let (name, c) = Cursor::START.ucs2(body, NAME_LIMIT)?;
        Ok((EnterShow { name }, c))
    }

    #[tactic(auto, unfolding(format::specs::Format::size))]
    pub fn size_bytes(name: &[u16]) -> usize
        ensures { result ≡ capped (size enter_show name.now) }
    {
        ucs2_size(name)
    }

    pub fn write_to_bytes(out: &mut [u8], at: usize, name: &[u16]) -> Result<usize, Refusal>
        ensures { (answer_says result, out.new) ≡ put_at enter_show name.now at out.old }
    {
        Faults::NONE
            .ucs2(name, NAME_LIMIT)
            .weigh(at, EnterShow::size_bytes(name), out.len())?;
        Ok(put_ucs2(out, at, name))
    }
}

// ---- lists of fixtures

#[derive(Clone, Copy, PartialEq, Eq, Debug)]
pub enum FixtureListMessageType {
    ExistingPatchList = 0,
    NewFixture = 1,
    ExchangeFixture = 2,
}

impl TryFrom<u8> for FixtureListMessageType {
    type Error = Refusal;

    ghost try_from_gives = { λ code r. code_says message_type_code r ≡ in_range 3 9 code };

    #[tactic(auto, unfolding(format::specs::Passed::in_range))]
    fn try_from(code: u8) -> Result<FixtureListMessageType, Refusal> {
        match code {
            0 => Ok(FixtureListMessageType::ExistingPatchList),
            1 => Ok(FixtureListMessageType::NewFixture),
            2 => Ok(FixtureListMessageType::ExchangeFixture),
            _ => Err(Refusal::MessageType),
        }
    }
}

impl FixtureListMessageType {
    pub fn code(self) -> u8
        ensures { result ≡ message_type_code self }
    {
        self as u8
    }
}

// Fixtures: all that are known, or those that were added, or exchanged for others. A list is a message only if all of it reads.
#[derive(Clone, Copy)]
pub struct FixtureList {
    pub message_type: FixtureListMessageType,
    pub fixtures: Fixtures,
}

impl FixtureList {
    pub const CONTENT_TYPE: u32 = 0x00020201;

    pub fn fixture_count(self) -> u16
        ensures { result ≡ self.fixtures.left }
    {
        self.fixtures.left
    }

    pub fn read_from_bytes(body: &[u8]) -> Result<(FixtureList, Cursor), Refusal>
        ensures { says fixture_list_view result ≡ view fixture_list body.now 0 }
    {
        let (code, c) = Cursor::START.u8(body)?;
        let message_type = FixtureListMessageType::try_from(code)?;
        let (fixtures, c) = Fixtures::read(body, c)?;
        Ok((
            FixtureList {
                message_type,
                fixtures,
            },
            c,
        ))
    }

    // The list up to its fixtures.
    pub fn write_head(
        out: &mut [u8],
        at: usize,
        message_type: FixtureListMessageType,
        fixture_count: usize,
    ) -> Result<usize, Refusal>
        ensures { (answer_says result, out.new) ≡ put_head fixture_list_head (message_type_code message_type) 2 fixture_count at out.old }
    {
        Faults::NONE
            .count(fixture_count, 65536)
            .weigh(at, 3, out.len())?;
        let at = put_u8(out, at, message_type.code());
        Ok(put_number_2(out, at, fixture_count))
    }
}

// Fixtures that were removed.
#[derive(Clone, Copy)]
pub struct FixtureRemove {
    pub fixture_identifiers: List<u32, u16>,
}

impl FixtureRemove {
    pub const CONTENT_TYPE: u32 = 0x00020203;

    pub fn fixture_count(self) -> u16
        ensures { result ≡ self.fixture_identifiers.left }
    {
        self.fixture_identifiers.left
    }

    pub fn read_from_bytes(body: &[u8]) -> Result<(FixtureRemove, Cursor), Refusal>
        ensures { says fixture_remove_view result ≡ view fixture_remove body.now 0 }
    {
        let (fixture_identifiers, c) = List::<u32, u16>::read(body, Cursor::START)?;
        Ok((
            FixtureRemove {
                fixture_identifiers,
            },
            c,
        ))
    }

    pub fn size_bytes(fixture_identifiers: &[u32]) -> usize
        ensures { result ≡ capped (size fixture_remove fixture_identifiers.now) }
    {
        exact_list_size(fixture_identifiers)
    }

    pub fn write_to_bytes(
        out: &mut [u8],
        at: usize,
        fixture_identifiers: &[u32],
    ) -> Result<usize, Refusal>
        ensures { (answer_says result, out.new) ≡ put_at fixture_remove fixture_identifiers.now at out.old }
    {
        Faults::NONE.list(fixture_identifiers).weigh(
            at,
            FixtureRemove::size_bytes(fixture_identifiers),
            out.len(),
        )?;
        Ok(put_list(out, at, fixture_identifiers))
    }
}

// ---- laser feeds

// Whether a laser feed is to be sent.
#[derive(Clone, Copy)]
pub struct LaserFeedControl {
    // 0-based
    pub feed_index: u8,
    // 0 for none
    pub frame_rate: u8,
}

impl LaserFeedControl {
    pub const CONTENT_TYPE: u32 = 0x00030102;

    pub fn read_from_bytes(body: &[u8]) -> Result<(LaserFeedControl, Cursor), Refusal>
        ensures { says laser_feed_control_view result ≡ view laser_feed_control body.now 0 }
    {
        let (feed_index, c) = Cursor::START.u8(body)?;
        let (frame_rate, c) = c.u8(body)?;
        Ok((
            LaserFeedControl {
                feed_index,
                frame_rate,
            },
            c,
        ))
    }

    pub fn size_bytes() -> usize
        ensures { result ≡ size laser_feed_control (0, 0) }
    {
        2
    }

    pub fn write_to_bytes(
        out: &mut [u8],
        at: usize,
        feed_index: u8,
        frame_rate: u8,
    ) -> Result<usize, Refusal>
        ensures { (answer_says result, out.new) ≡ put_at laser_feed_control (feed_index, frame_rate) at out.old }
    {
        Faults::NONE.weigh(at, LaserFeedControl::size_bytes(), out.len())?;
        let at = put_u8(out, at, feed_index);
        Ok(put_u8(out, at, frame_rate))
    }
}

// The laser feeds of a source.
#[derive(Clone, Copy)]
pub struct LaserFeedList {
    // that of its frames
    pub source_key: u32,
    pub feed_names: FeedNames,
}

// What is left of a list of feed names.
pub type FeedNames = List<Ucs2, u8>;

impl LaserFeedList {
    pub const CONTENT_TYPE: u32 = 0x00030101;

    pub fn feed_count(self) -> u8
        ensures { result ≡ self.feed_names.left }
    {
        self.feed_names.left
    }

    pub fn read_from_bytes(body: &[u8]) -> Result<(LaserFeedList, Cursor), Refusal>
        ensures { says laser_feed_list_view result ≡ view laser_feed_list body.now 0 }
    {
        let (source_key, c) = Cursor::START.u32(body)?;
        let (feed_names, c) = FeedNames::read(body, c)?;
        Ok((
            LaserFeedList {
                source_key,
                feed_names,
            },
            c,
        ))
    }

    // The list up to its names.
    pub fn write_head(
        out: &mut [u8],
        at: usize,
        source_key: u32,
        feed_count: usize,
    ) -> Result<usize, Refusal>
        ensures { (answer_says result, out.new) ≡ put_head laser_feed_list_head source_key 1 feed_count at out.old }
    {
        Faults::NONE.count(feed_count, 256).weigh(at, 5, out.len())?;
        let at = put_u32(out, at, source_key);
        Ok(put_number_1(out, at, feed_count))
    }

    // A string alone, as an EnterShow's name is.
    pub fn write_name(out: &mut [u8], at: usize, feed_name: &[u16]) -> Result<usize, Refusal>
        ensures { (answer_says result, out.new) ≡ put_at feed_name_format feed_name.now at out.old }
    {
        EnterShow::write_to_bytes(out, at, feed_name)
    }
}

// A frame of a laser feed.
#[derive(Clone, Copy)]
pub struct LaserFeedFrame {
    // as in LaserFeedList
    pub source_key: u32,
    // 0-based
    pub feed_index: u8,
    // 0-based, to detect frames out of order
    pub frame_sequence: u32,
    pub points: LaserPoints,
}

impl LaserFeedFrame {
    pub const CONTENT_TYPE: u32 = 0x00030200;

    pub fn point_count(self) -> u16
        ensures { result ≡ self.points.left }
    {
        self.points.left
    }

    pub fn read_from_bytes(body: &[u8]) -> Result<(LaserFeedFrame, Cursor), Refusal>
        ensures { says laser_feed_frame_view result ≡ view laser_feed_frame body.now 0 }
    {
        let (source_key, c) = Cursor::START.u32(body)?;
        let (feed_index, c) = c.u8(body)?;
        let (frame_sequence, c) = c.u32(body)?;
        let (points, c) = LaserPoints::read(body, c)?;
        Ok((
            LaserFeedFrame {
                source_key,
                feed_index,
                frame_sequence,
                points,
            },
            c,
        ))
    }

    // The frame up to its points.
    pub fn write_head(
        out: &mut [u8],
        at: usize,
        source_key: u32,
        feed_index: u8,
        frame_sequence: u32,
        point_count: usize,
    ) -> Result<usize, Refusal>
        ensures { (answer_says result, out.new) ≡ put_head laser_feed_frame_head (source_key, (feed_index, frame_sequence)) 2 point_count at out.old }
    {
        Faults::NONE
            .count(point_count, 65536)
            .weigh(at, 11, out.len())?;
        let at = put_u32(out, at, source_key);
        let at = put_u8(out, at, feed_index);
        let at = put_u32(out, at, frame_sequence);
        Ok(put_number_2(out, at, point_count))
    }
}

// A point of a frame.
#[repr(C)]
#[derive(Clone, Copy, Default)]
pub struct LaserPoint {
    pub x_low_byte: u8,
    pub y_low_byte: u8,
    // x in the low nibble, y in the high one
    pub xy_high_nibbles: u8,
    // R5 G6 B5
    pub color: u16,
}

// What is left of a frame's points.
pub type LaserPoints = List<LaserPoint, u16>;

impl Item for LaserPoint {
    ghost format = { laser_point_format };

    ghost item_view = { point_value };

    fn read(body: &[u8], c: Cursor) -> Result<(LaserPoint, Cursor), Refusal> {
        let (x_low_byte, c) = c.u8(body)?;
        let (y_low_byte, c) = c.u8(body)?;
        let (xy_high_nibbles, c) = c.u8(body)?;
        let (color, c) = c.u16(body)?;
        Ok((
            LaserPoint {
                x_low_byte,
                y_low_byte,
                xy_high_nibbles,
                color,
            },
            c,
        ))
    }

    fn pass(body: &[u8], c: Cursor, n: usize) -> Result<Cursor, Refusal> {
        c.skip_items(body, n, LaserPoint::WIDTH)
    }
}

impl LaserPoint {
    // The bytes of a point.
    const WIDTH: usize = 5;

    pub fn size_bytes() -> usize
        ensures { result ≡ size laser_point_format (0, (0, (0, 0))) }
    {
        LaserPoint::WIDTH
    }

    pub fn write_to_bytes(self, out: &mut [u8], at: usize) -> Result<usize, Refusal>
        ensures { (answer_says result, out.new) ≡ put_at laser_point_format (point_value self) at out.old }
    {
        Faults::NONE.weigh(at, LaserPoint::size_bytes(), out.len())?;
        let at = put_u8(out, at, self.x_low_byte);
        let at = put_u8(out, at, self.y_low_byte);
        let at = put_u8(out, at, self.xy_high_nibbles);
        Ok(put_u16(out, at, self.color))
    }
}

// ---- messages

// A message of one kind.
#[derive(Clone, Copy)]
pub enum Message {
    EnterShow(EnterShow),
    FixtureList(FixtureList),
    FixtureRemove(FixtureRemove),
    LaserFeedControl(LaserFeedControl),
    LaserFeedList(LaserFeedList),
    LaserFeedFrame(LaserFeedFrame),
}

impl Message {
    // A message with the cursor behind its body; none where its content type is of no kind that is read.
    pub fn read_from_bytes(
        content_type: u32,
        body: &[u8],
    ) -> Result<Option<(Message, Cursor)>, Refusal>
        ensures { message_says message_kind message_view result ≡ read_body CAEX content_type body.now }
    {
        match content_type {
            EnterShow::CONTENT_TYPE => {
                let (m, c) = EnterShow::read_from_bytes(body)?;
                Ok(Some((Message::EnterShow(m), c)))
            }
            FixtureList::CONTENT_TYPE => {
                let (m, c) = FixtureList::read_from_bytes(body)?;
                Ok(Some((Message::FixtureList(m), c)))
            }
            FixtureRemove::CONTENT_TYPE => {
                let (m, c) = FixtureRemove::read_from_bytes(body)?;
                Ok(Some((Message::FixtureRemove(m), c)))
            }
            LaserFeedControl::CONTENT_TYPE => {
                let (m, c) = LaserFeedControl::read_from_bytes(body)?;
                Ok(Some((Message::LaserFeedControl(m), c)))
            }
            LaserFeedList::CONTENT_TYPE => {
                let (m, c) = LaserFeedList::read_from_bytes(body)?;
                Ok(Some((Message::LaserFeedList(m), c)))
            }
            LaserFeedFrame::CONTENT_TYPE => {
                let (m, c) = LaserFeedFrame::read_from_bytes(body)?;
                Ok(Some((Message::LaserFeedFrame(m), c)))
            }
            _ => Ok(None),
        }
    }
}
