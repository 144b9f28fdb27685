// Why a call stops: each refusal with its number.
#![tactic(auto)]

ghost use Rattle.std.specs.Prelude.{◌≡◌};
ghost use Rattle.refusal.specs.Number.{number};
ghost use Rattle.refusal.specs.Says.{number_says};

#[derive(Clone, Copy, PartialEq, Eq, Debug)]
pub enum Refusal {
    // ---- at a packet's start
    // 1 to 19 bytes left
    ShortHeader = 1,
    // the first four bytes are not "CITP"
    NotCitp = 2,
    // `version_major` is not 1
    Version = 3,
    // `message_size` below 20 or above 16,777,216
    MessageSize = 4,
    // `message_size` above the bytes left
    ShortStream = 5,
    // ---- at a layer's header: the packet is shorter than its headers
    ShortLayerHeader = 6,
    // ---- in a body
    // it ends where a number or a byte of a block is due
    ShortBody = 7,
    // it ends before a string's zero
    NoZero = 8,
    // a `FixtureListMessageType` above 2
    MessageType = 9,
    // an `IdentifierType` above 5
    IdentifierType = 10,
    // ---- of a write
    // a string holds a zero
    HoldsZero = 11,
    // a list or block is too long for its count
    TooLong = 12,
    // the lent output is too short
    ShortOutput = 13,
    // the call is out of turn
    OutOfTurn = 14,
    // the packet would pass 16,777,216 bytes
    PacketSize = 15,
    // ---- of a patch
    // no channel, or one past the universe's end
    Channels = 16,
    // a channel of another fixture
    Shared = 17,
    // the book is full
    Full = 18,
    // ---- a string is longer than its limit
    OverLimit = 19,
    // ---- of a level: its channel is past the universe's end
    PastUniverse = 20,
}

impl Refusal {
    pub fn number(self) -> u8
        ensures { result ≡ number self }
    {
        self as u8
    }
}

// 0, or the number of the refusal: how a walk ends.
pub fn end_number<T: Copy>(end: Result<T, Refusal>) -> u8
    ensures { result ≡ number_says end }
{
    match end {
        Ok(_) => 0,
        Err(refusal) => refusal.number(),
    }
}
