// The packet writer's state as plain fields, as narrow as what is counted: any values are a state.
ghost use Rattle.std.specs.Prelude.{◌≡◌};
ghost use Rattle.turns.specs.Says.{turn_is};
ghost use Rattle.writer.specs.Says.{state_of};
ghost use Rattle.plain.specs.State.{kind_at, kind_says, turn_at, state_is, flat_state, answer_of, refused_with};

use crate::reason::Reason;
use turns::{Kind, Turn};
use writer::Writer;

#[repr(C)]
#[derive(Clone, Copy)]
pub struct WriterState {
    // 0 idle, 1 body, 2 items, 3 parts of a fixture
    pub turn: u8,
    pub kind: u8,
    // items or fixtures due
    pub items: u16,
    pub identifiers: u8,
    pub at: u32,
}

// The state stands first: a caller hands it on as it came.
#[repr(C)]
#[derive(Clone, Copy)]
pub struct WriterAnswer {
    pub writer: WriterState,
    pub number: u8,
}

#[tactic(auto, unfolding(crate::specs::State::kind_at, protocol::specs::Layer::find))]
pub fn kind_of(code: u8) -> Option<Kind>
    ensures { kind_says result ≡ kind_at code }
{
    match code {
        0 => Some(Kind::EnterShow),
        1 => Some(Kind::FixtureList),
        2 => Some(Kind::FixtureRemove),
        3 => Some(Kind::LaserFeedControl),
        4 => Some(Kind::Capa),
        5 => Some(Kind::UNam),
        6 => Some(Kind::ChBk),
        7 => Some(Kind::ChLs),
        8 => Some(Kind::Sxus),
        9 => Some(Kind::Ptch),
        10 => Some(Kind::UPtc),
        11 => Some(Kind::SPtc),
        12 => Some(Kind::Sele),
        13 => Some(Kind::DeSe),
        14 => Some(Kind::SFra),
        15 => Some(Kind::Fram),
        16 => Some(Kind::PNam),
        17 => Some(Kind::PLoc),
        18 => Some(Kind::LaserFeedList),
        19 => Some(Kind::LaserFeedFrame),
        _ => None,
    }
}

impl WriterState {
    // Where no turn is meant, items are due of a kind that has none: every call is refused with 14.
    #[tactic(auto, unfolding(crate::specs::State::turn_at))]
    fn turn_of(self) -> Turn
        ensures { turn_is result ≡ turn_at self }
    {
        match (self.turn, kind_of(self.kind)) {
            (0, _) => Turn::Idle,
            (1, Some(kind)) => Turn::Body(kind),
            (2, Some(kind)) => Turn::Items(kind, self.items as usize),
            (3, _) => Turn::Parts(self.items as usize, self.identifiers as usize),
            _ => Turn::Items(Kind::EnterShow, 1),
        }
    }

    pub fn state(self) -> Writer
        ensures { state_of result ≡ state_is self }
    {
        Writer {
            turn: self.turn_of(),
            at: self.at as usize,
        }
    }

    fn of(w: Writer) -> WriterState
        ensures { result ≡ flat_state (state_of w) }
    {
        let (turn, kind, items, identifiers) = match w.turn {
            Turn::Idle => (0, 0, 0, 0),
            Turn::Body(kind) => (1, kind.index(), 0, 0),
            Turn::Items(kind, items) => (2, kind.index(), items, 0),
            Turn::Parts(items, identifiers) => (3, Kind::FixtureList.index(), items, identifiers),
        };
        WriterState {
            turn,
            kind,
            items: (items % 65536) as u16,
            identifiers: (identifiers % 256) as u8,
            at: (w.at % 4294967296) as u32,
        }
    }

    // A refused call answers the state that it was given.
    pub fn answer<R: Reason>(self, r: Result<Writer, R>) -> WriterAnswer
        ensures { result ≡ answer_of R.told self r }
    {
        match r {
            Ok(next) => WriterAnswer {
                writer: WriterState::of(next),
                number: 0,
            },
            Err(reason) => self.refused(reason.number()),
        }
    }

    pub fn refused(self, number: u8) -> WriterAnswer
        ensures { result ≡ refused_with self number }
    {
        WriterAnswer {
            writer: self,
            number,
        }
    }
}
