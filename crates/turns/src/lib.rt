// The kinds of message with their figures, whose turn it is in a packet, and the headers with which a packet is opened.
#![tactic(auto)]

ghost use Rattle.std.specs.Prelude.{◌≡◌, false, ◌-◌};
ghost use Rattle.protocol.specs.Layer.{header_length, header, layer_header};
ghost use Rattle.protocol.specs.Kind.{index, layer, content_type};
ghost use Rattle.protocol.specs.Kind as kinds;
ghost use Rattle.protocol.specs.Message.{header_of};
ghost use Rattle.format.specs.Format.{◌&◌};
ghost use Rattle.refusal.specs.Says.{answer_says};
ghost use Rattle.put.specs.Put.{Writes, put_judged};
ghost use Rattle.layers.specs.Says.{layer_is};
ghost use Rattle.writing.specs.Writer.{is_idle, is_body, is_item, is_identifier, is_data, is_close, behind_headers};
ghost use Rattle.writing.specs.Writer.{left, identifiers_left, items_due, parts_due};
ghost use Rattle.turns.specs.Says.{kind_is, turn_is};

use caex::{
    Caex, EnterShow, FixtureList, FixtureRemove, LaserFeedControl, LaserFeedFrame, LaserFeedList,
};
use finf::{Fram, SFra};
use fptc::{Ptch, SPtc, UPtc};
use fsel::{DeSe, Sele};
use header::Header;
use layers::Layer;
use pinf::{PLoc, PNam};
use put::{Faults, put_u32};
use refusal::Refusal;
use sdmx::{Capa, ChBk, ChLs, Sxus, UNam};

#[derive(Clone, Copy, PartialEq, Eq, Debug)]
pub enum Kind {
    EnterShow = 0,
    FixtureList = 1,
    FixtureRemove = 2,
    LaserFeedControl = 3,
    Capa = 4,
    UNam = 5,
    ChBk = 6,
    ChLs = 7,
    Sxus = 8,
    Ptch = 9,
    UPtc = 10,
    SPtc = 11,
    Sele = 12,
    DeSe = 13,
    SFra = 14,
    Fram = 15,
    PNam = 16,
    PLoc = 17,
    LaserFeedList = 18,
    LaserFeedFrame = 19,
}

#[derive(Clone, Copy, PartialEq, Eq, Debug)]
pub enum Turn {
    // fresh or closed
    Idle,
    // open; the body or the list's head is due
    Body(Kind),
    // so many items are due; with none left, close is
    Items(Kind, usize),
    // in a fixture: so many fixtures are due behind it, and so many identifiers, then its data
    Parts(usize, usize),
}

impl Kind {
    pub fn index(self) -> u8
        ensures { result ≡ index (kind_is self) }
    {
        self as u8
    }

    pub fn layer(self) -> Layer
        ensures { layer_is result ≡ layer (kind_is self) }
    {
        match self {
            Kind::PNam | Kind::PLoc => Layer::Pinf,
            Kind::Capa | Kind::UNam | Kind::ChBk | Kind::ChLs | Kind::Sxus => Layer::Sdmx,
            Kind::Ptch | Kind::UPtc | Kind::SPtc => Layer::Fptc,
            Kind::Sele | Kind::DeSe => Layer::Fsel,
            Kind::SFra | Kind::Fram => Layer::Finf,
            Kind::EnterShow
            | Kind::FixtureList
            | Kind::FixtureRemove
            | Kind::LaserFeedControl
            | Kind::LaserFeedList
            | Kind::LaserFeedFrame => Layer::Caex,
        }
    }

    pub fn content_type(self) -> u32
        ensures { result ≡ content_type (kind_is self) }
    {
        match self {
            Kind::EnterShow => EnterShow::CONTENT_TYPE,
            Kind::FixtureList => FixtureList::CONTENT_TYPE,
            Kind::FixtureRemove => FixtureRemove::CONTENT_TYPE,
            Kind::LaserFeedControl => LaserFeedControl::CONTENT_TYPE,
            Kind::Capa => Capa::CONTENT_TYPE,
            Kind::UNam => UNam::CONTENT_TYPE,
            Kind::ChBk => ChBk::CONTENT_TYPE,
            Kind::ChLs => ChLs::CONTENT_TYPE,
            Kind::Sxus => Sxus::CONTENT_TYPE,
            Kind::Ptch => Ptch::CONTENT_TYPE,
            Kind::UPtc => UPtc::CONTENT_TYPE,
            Kind::SPtc => SPtc::CONTENT_TYPE,
            Kind::Sele => Sele::CONTENT_TYPE,
            Kind::DeSe => DeSe::CONTENT_TYPE,
            Kind::SFra => SFra::CONTENT_TYPE,
            Kind::Fram => Fram::CONTENT_TYPE,
            Kind::PNam => PNam::CONTENT_TYPE,
            Kind::PLoc => PLoc::CONTENT_TYPE,
            Kind::LaserFeedList => LaserFeedList::CONTENT_TYPE,
            Kind::LaserFeedFrame => LaserFeedFrame::CONTENT_TYPE,
        }
    }

    pub fn header_length(self) -> usize
        ensures { result ≡ header_length (layer (kind_is self)) }
    {
        self.layer().header_length()
    }
}

impl Turn {
    pub fn is_idle(self) -> bool
        ensures { result ≡ is_idle (turn_is self) }
    {
        matches!(self, Turn::Idle)
    }

    pub fn is_body(self, kind: Kind) -> bool
        ensures { result ≡ is_body (kind_is kind) (turn_is self) }
    {
        matches!(self, Turn::Body(opened) if opened == kind)
    }

    pub fn is_item(self, kind: Kind) -> bool
        ensures { result ≡ is_item (kind_is kind) (turn_is self) }
    {
        matches!(self, Turn::Items(opened, items) if opened == kind && 0 < items)
    }

    pub fn is_identifier(self) -> bool
        ensures { result ≡ is_identifier (turn_is self) }
    {
        matches!(self, Turn::Parts(_, 1..))
    }

    pub fn is_data(self) -> bool
        ensures { result ≡ is_data (turn_is self) }
    {
        matches!(self, Turn::Parts(_, 0))
    }

    pub fn is_close(self) -> bool
        ensures { result ≡ is_close (turn_is self) }
    {
        matches!(self, Turn::Items(_, 0))
    }

    // An open state is placed at or behind its headers' end.
    pub fn behind_headers(self, at: usize) -> bool
        ensures { result ≡ behind_headers (turn_is self) at }
    {
        match self {
            Turn::Idle => true,
            Turn::Body(kind) | Turn::Items(kind, _) => kind.header_length() <= at,
            Turn::Parts(_, _) => Caex::HEADER_LENGTH <= at,
        }
    }

    // The items, or fixtures, still due.
    pub fn left(self) -> usize
        ensures { result ≡ left (turn_is self) }
    {
        match self {
            Turn::Idle | Turn::Body(_) => 0,
            Turn::Items(_, left) | Turn::Parts(left, _) => left,
        }
    }

    pub fn identifiers_left(self) -> usize
        ensures { result ≡ identifiers_left (turn_is self) }
    {
        match self {
            Turn::Parts(_, identifiers) => identifiers,
            _ => 0,
        }
    }

    // The turn behind an item: one item less is due.
    pub fn after_item(self, kind: Kind) -> Turn
        ensures { turn_is result ≡ items_due (kind_is kind) (left (turn_is self) - 1) }
    {
        Turn::Items(kind, self.left().saturating_sub(1))
    }

    // The turn behind a fixture's head: one fixture less, and its identifiers.
    pub fn after_fixture(self, identifiers: usize) -> Turn
        ensures { turn_is result ≡ parts_due (left (turn_is self) - 1) identifiers }
    {
        Turn::Parts(self.left().saturating_sub(1), identifiers)
    }

    // The turn behind an identifier: one identifier less.
    pub fn after_identifier(self) -> Turn
        ensures { turn_is result ≡ parts_due (left (turn_is self)) (identifiers_left (turn_is self) - 1) }
    {
        Turn::Parts(self.left(), self.identifiers_left().saturating_sub(1))
    }

    // The turn behind a fixture's data: the fixtures behind it.
    pub fn after_data(self) -> Turn
        ensures { turn_is result ≡ items_due kinds.FixtureList (left (turn_is self)) }
    {
        Turn::Items(Kind::FixtureList, self.left())
    }
}

// ---- the headers

// Content type and, in a layer that has one, content hint.
fn put_layer_header(out: &mut [u8], at: usize, kind: Kind, content_hint: u32) -> usize
    ensures { Writes (layer_header (layer (kind_is kind))) (content_type (kind_is kind), content_hint) at out.old result out.new }
{
    let at = put_u32(out, at, kind.content_type());
    if kind.layer().has_hint() {
        put_u32(out, at, content_hint)
    } else {
        at
    }
}

// Base header and layer header at the output's first byte; the size field is 0.
pub fn write_headers(
    out: &mut [u8],
    kind: Kind,
    request_index: u16,
    content_hint: u32,
) -> Result<usize, Refusal>
    ensures { (answer_says result, out.new) ≡ put_judged false false false (header & layer_header (layer (kind_is kind)))
        (header_of (layer (kind_is kind)) 0 request_index, (content_type (kind_is kind), content_hint)) 0 out.old }
{
    Faults::NONE.weigh(0, kind.header_length(), out.len())?;
    let base = Header {
        cookie: Header::COOKIE,
        version_major: Header::VERSION_MAJOR,
        version_minor: 0,
        request_index,
        message_size: 0,
        message_part_count: 1,
        message_part: 0,
        content_type: kind.layer().cookie(),
    };
    let at = base.put(out, 0);
    Ok(put_layer_header(out, at, kind, content_hint))
}
