// An unpatch: the entries of the identifiers that it lists are dropped from the words lent, and all of them where it lists none.
#![tactic(auto)]

ghost use Rattle.std.specs.Prelude.{◌≡◌, ◌+◌, ◌*◌, ◌<◌, ◌≤◌, [], ◌∷◌, length};
ghost use Rattle.format.specs.Fault.{any};
ghost use Rattle.unpatch.specs.Unpatch.{identifiers_of, listed_at, Stay, Dropped, has_bit, with_bit, lies_in, Offset, marks, found_below};
ghost use Rattle.patching.specs.Book.{drops};

use entries::identifier;

// How many identifiers a range has; three ranges have them all.
const RANGE: u16 = 21_888;

// The words that have a bit for each.
const WORDS: usize = 342;

// The i-th identifier that is listed.
fn listed_at(identifiers: &[u8], i: usize) -> u64
    requires { 2 * i + 1 < length identifiers.now }
    ensures { result ≡ listed_at identifiers.now i }
{
    let k = 2 * i;
    u16::from_le_bytes([identifiers[k], identifiers[k + 1]]) as u64
}

// ---- without bits

// How many entries stand ahead of the first of an identifier.
fn ahead_of(entries: &[u64], dropped: u64) -> usize
    ensures { Stay (dropped ∷ []) entries.now result }
{
    for i in 0..entries.len() {
        if identifier(entries[i]) == dropped {
            return i;
        }
    }
    entries.len()
}

// Drops the entries of one identifier; how many there are then.
pub fn drop_one(entries: &mut [u64], dropped: u64) -> usize
    ensures { Dropped (dropped ∷ []) entries.old result entries.new }
{
    let from = ahead_of(entries, dropped);
    let mut kept = from;
    for i in from..entries.len() {
        let x = entries[i];
        if identifier(x) != dropped {
            entries[kept] = x;
            kept += 1;
        }
    }
    kept
}

// A fixture is dropped: its identifier is listed, or none is.
fn is_dropped(identifiers: &[u8], identifier: u64) -> bool
    ensures { result ≡ drops (identifiers_of identifiers.now) identifier }
{
    let n = identifiers.len() / 2;
    for i in 0..n {
        if listed_at(identifiers, i) == identifier {
            return true;
        }
    }
    n == 0
}

// Drops the entries of the identifiers listed, or all where none is, the list read for each entry.
fn drop_one_by_one(entries: &mut [u64], identifiers: &[u8]) -> usize
    ensures { Dropped (identifiers_of identifiers.now) entries.old result entries.new }
{
    let mut kept = 0;
    for i in 0..entries.len() {
        let x = entries[i];
        if !is_dropped(identifiers, identifier(x)) {
            entries[kept] = x;
            kept += 1;
        }
    }
    kept
}

// ---- by ranges of identifiers: those listed marked by a bit each, then the entries that have one of them

// Bit `j` of the words is set.
fn has_bit(words: &[u64], j: u64) -> bool
    requires { j < 64 * length words.now }
    ensures { result ≡ has_bit words.now j }
{
    let k = (j / 64) as usize;
    (words[k] >> (j % 64)) % 2 == 1
}

// Sets bit `j` of the words.
fn set_bit(words: &mut [u64], j: u64)
    requires { j < 64 * length words.old }
    ensures { words.new ≡ with_bit words.old j }
{
    let k = (j / 64) as usize;
    words[k] |= 1u64 << (j % 64);
}

// How far an identifier is behind the first of a range, where it lies in it.
fn offset(identifier: u64, base: u16) -> Option<u64>
    ensures { Offset base identifier result }
{
    let at = identifier.wrapping_sub(base as u64);
    if at < RANGE as u64 { Some(at) } else { None }
}

// An entry's identifier lies in the range from `base` on.
fn any_within(entries: &[u64], base: u16) -> bool
    ensures { result ≡ any (lies_in base) entries.now }
{
    for x in entries {
        if offset(identifier(*x), base).is_some() {
            return true;
        }
    }
    false
}

// Sets the bits of the identifiers that are listed and lie in the range from `base` on.
fn mark(words: &mut [u64], identifiers: &[u8], base: u16)
    requires { words.old ≡ marks base [] }
    ensures { words.new ≡ marks base (identifiers_of identifiers.now) }
{
    for i in 0..identifiers.len() / 2 {
        if let Some(at) = offset(listed_at(identifiers, i), base) {
            set_bit(words, at);
        }
    }
}

// 0, by a sum that the compiler does not work out: an array of a plain 0 is a call of C's memset.
fn opaque_zero(n: u64) -> u64
    ensures { result ≡ 0 }
{
    let m = n % 1024;
    (m % 3 + (2 * m) % 3) % 3
}

// Sets the bits of the entries whose identifiers are listed and lie in the range from `base` on.
fn find_within(found: &mut [u64], entries: &[u64], identifiers: &[u8], base: u16)
    requires { (length entries.now ≤ 256)
        × (found.old ≡ found_below base (identifiers_of identifiers.now) entries.now) }
    ensures { found.new ≡ found_below (base + 21888) (identifiers_of identifiers.now) entries.now }
{
    if !any_within(entries, base) {
        return;
    }
    let zero = opaque_zero(identifiers.len() as u64);
    let mut words = [zero; WORDS];
    mark(&mut words, identifiers, base);
    for i in 0..entries.len() {
        if let Some(at) = offset(identifier(entries[i]), base) {
            if has_bit(&words, at) {
                set_bit(found, i as u64);
            }
        }
    }
}

// The entries, at most 256, whose identifiers are listed, a bit each.
fn find_listed(entries: &[u64], identifiers: &[u8]) -> [u64; 4]
    requires { length entries.now ≤ 256 }
    ensures { result ≡ found_below 65664 (identifiers_of identifiers.now) entries.now }
{
    let mut found = [0u64; 4];
    find_within(&mut found, entries, identifiers, 0);
    find_within(&mut found, entries, identifiers, RANGE);
    find_within(&mut found, entries, identifiers, 2 * RANGE);
    found
}

// Drops the entries, at most 256, of the identifiers listed, one or more, the list read once for each range that has an entry.
fn drop_by_ranges(entries: &mut [u64], identifiers: &[u8]) -> usize
    requires { (length entries.old ≤ 256) × (2 ≤ length identifiers.now) }
    ensures { Dropped (identifiers_of identifiers.now) entries.old result entries.new }
{
    let found = find_listed(entries, identifiers);
    let mut kept = 0;
    for i in 0..entries.len() {
        let x = entries[i];
        if !has_bit(&found, i as u64) {
            entries[kept] = x;
            kept += 1;
        }
    }
    kept
}

// Drops the entries of the identifiers listed, two bytes each, the low one first, and where none is listed, all; how many there are then.
pub fn drop_listed(entries: &mut [u64], identifiers: &[u8]) -> usize
    ensures { Dropped (identifiers_of identifiers.now) entries.old result entries.new }
{
    let n = identifiers.len() / 2;
    if n == 1 {
        return drop_one(entries, listed_at(identifiers, 0));
    }
    // up to eight are cheaper so; a book has at most 256 entries
    if n < 9 || 256 < entries.len() {
        return drop_one_by_one(entries, identifiers);
    }
    drop_by_ranges(entries, identifiers)
}
