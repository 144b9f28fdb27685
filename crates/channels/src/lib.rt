// The channels of a universe that entries of the patch book hold: eight words of 64 bits, a bit for each.
#![tactic(auto)]

ghost use Rattle.std.specs.Prelude.{◌≡◌, ℕ, ◌+◌, ◌<◌, ◌≤◌, ◌&&◌, [], length, take, nat_le, nat_lt};
ghost use Rattle.patching.specs.Bits.{pack};
ghost use Rattle.patching.specs.Book.{taken_at, universe_words, taken_in, free_in};
ghost use Rattle.channels.specs.Free.{free_of};
ghost use Rattle.channels.specs.Offset.{Offset};

use entries::{channel_count, place};

// A word with the bits from `low` to below `high` set.
fn run(low: u64, high: u64) -> u64
    requires { (low < 64) × (low ≤ high) × (high ≤ 64) }
    ensures { result ≡ pack (λ (j : ℕ). nat_le low j && nat_lt j high) 64 }
{
    if high < 64 {
        return (1u64 << high) - (1u64 << low);
    }
    0xffff_ffff_ffff_ffff - ((1u64 << low) - 1)
}

// How far an entry's first channel is behind the first of a universe, where it is one of its channels.
fn offset(entry: u64, universe: u16) -> Option<u64>
    ensures { Offset entry universe result }
{
    let at = place(entry).wrapping_sub(universe as u64 * 0x1_0000);
    if at < 512 { Some(at) } else { None }
}

// Marks the channels that the i-th entry holds in a universe, after those that the entries ahead of it hold.
fn mark(words: &mut [u64; 8], entries: &[u64], i: usize, universe: u16)
    requires { (i < length entries.now) × (words.old ≡ universe_words (taken_at (take i entries.now) universe)) }
    ensures { words.new ≡ universe_words (taken_at (take (i + 1) entries.now) universe) }
{
    let x = entries[i];
    let Some(at) = offset(x, universe) else {
        return;
    };
    let n = channel_count(x);
    if at % 64 + n < 64 {
        let k = (at / 64) as usize;
        words[k] |= run(at % 64, at % 64 + n);
        return;
    }
    let to = (at + n).min(512);
    let mut from = at;
    while from < to {
        let k = (from / 64) as usize;
        let high = (to - from / 64 * 64).min(64);
        words[k] |= run(from % 64, high);
        from = from / 64 * 64 + high;
    }
}

// Marks the channels that the entries hold in a universe.
fn fill(words: &mut [u64; 8], entries: &[u64], universe: u16)
    requires { words.old ≡ universe_words (taken_at [] universe) }
    ensures { words.new ≡ universe_words (taken_at entries.now universe) }
{
    for i in 0..entries.len() {
        mark(words, entries, i, universe);
    }
}

// A universe's channels, those set that the entries hold.
fn words_of(entries: &[u64], universe: u16) -> [u64; 8]
    ensures { result ≡ universe_words (taken_at entries.now universe) }
{
    let mut words = [0u64; 8];
    fill(&mut words, entries, universe);
    words
}

// How many channels of a universe are taken.
pub fn taken(entries: &[u64], universe: u16) -> u16
    ensures { result ≡ taken_in universe entries.now }
{
    let words = words_of(entries, universe);
    let mut taken = 0;
    for word in words {
        taken += word.count_ones() as u16;
    }
    taken
}

// A universe's first free channel.
pub fn first_free(entries: &[u64], universe: u16) -> Option<u16>
    ensures { result ≡ free_of (free_in universe entries.now) }
{
    let words = words_of(entries, universe);
    for (k, word) in words.iter().enumerate() {
        let zeros = (!*word).trailing_zeros() as u16;
        if zeros < 64 {
            return Some(k as u16 * 64 + zeros);
        }
    }
    None
}
