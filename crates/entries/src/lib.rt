// An entry of the patch book in one number: its fields, and the tests on them.
#![tactic(auto)]

ghost use Rattle.std.specs.Prelude.{◌+◌, ◌*◌, ◌<◌, ◌≡◌};
ghost use Rattle.patching.specs.Entry.{identifier, universe, channel, channel_count, entry_of, same, shares, before};
ghost use Rattle.patching.specs.Book.{misfits};

// The entry of these fields.
pub fn entry_of(fixture_identifier: u16, universe: u16, channel: u16, channel_count: u16) -> u64
    ensures { result ≡ entry_of (fixture_identifier, universe, channel, channel_count) }
{
    universe as u64 * 0x1_0000_0000_0000
        + channel as u64 * 0x1_0000_0000
        + channel_count as u64 * 0x1_0000
        + fixture_identifier as u64
}

// The four fields of an entry.
#[tactic(auto, unfolding(patching::specs::Entry::identifier))]
pub fn identifier(entry: u64) -> u64
    ensures { result ≡ identifier entry }
{
    entry % 0x1_0000
}

#[tactic(auto, unfolding(patching::specs::Entry::universe))]
pub fn universe(entry: u64) -> u64
    ensures { result ≡ universe entry }
{
    entry / 0x1_0000_0000_0000
}

#[tactic(auto, unfolding(patching::specs::Entry::channel))]
pub fn channel(entry: u64) -> u64
    ensures { result ≡ channel entry }
{
    entry / 0x1_0000_0000 % 0x1_0000
}

#[tactic(auto, unfolding(patching::specs::Entry::channel_count))]
pub fn channel_count(entry: u64) -> u64
    ensures { result ≡ channel_count entry }
{
    entry / 0x1_0000 % 0x1_0000
}

// Universe and channel in one number, the universe above: entries are listed by it.
#[tactic(auto, unfolding(patching::specs::Entry::universe, patching::specs::Entry::channel))]
pub fn place(entry: u64) -> u64
    ensures { (result ≡ universe entry * 65536 + channel entry) × (result < 4294967296) }
{
    entry / 0x1_0000_0000
}

// Whether two entries are of one fixture.
pub fn same(entry: u64, other: u64) -> bool
    ensures { result ≡ same entry other }
{
    identifier(entry) == identifier(other)
}

// Whether its channel count is outside 1 to 512, or its span passes channel 511.
pub fn misfits(entry: u64) -> bool
    ensures { result ≡ misfits entry }
{
    let n = channel_count(entry);
    n == 0 || 512 < channel(entry) + n
}

// Whether an entry is listed before another.
pub fn before(entry: u64, other: u64) -> bool
    ensures { result ≡ before entry other }
{
    place(entry) < place(other)
}

// Whether a channel is held by both. The first test decides for most of the entries that are listed before an entry.
pub fn shares(entry: u64, other: u64) -> bool
    ensures { result ≡ shares entry other }
{
    let other_end = place(other) + channel_count(other);
    place(entry) < other_end
        && place(other) < place(entry) + channel_count(entry)
        && 0 < channel_count(entry)
        && 0 < channel_count(other)
        && universe(entry) == universe(other)
}
