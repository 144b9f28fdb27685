// What a body's writer answers as plain fields.
ghost use Rattle.std.specs.Prelude.{◌≡◌};
ghost use Rattle.refusal.specs.Says.{answer_says};
ghost use Rattle.plain.specs.Written.{flat_put};

use refusal::Refusal;

#[repr(C)]
#[derive(Clone, Copy)]
pub struct Put {
    // of the refusal, or 0
    pub number: u8,
    // the place behind what was written
    pub at: usize,
}

impl Put {
    // A refused write answers the place that it was given.
    pub fn of(at: usize, answer: Result<usize, Refusal>) -> Put
        ensures { result ≡ flat_put at (answer_says answer) }
    {
        match answer {
            Ok(place) => Put {
                number: 0,
                at: place,
            },
            Err(refusal) => Put {
                number: refusal.number(),
                at,
            },
        }
    }
}
