// Where a string ends: its zero byte, or its zero 16-bit unit, found by blocks. A block is folded without a way out, so that the compiler
// takes many bytes at a time; a hit in a block claims nothing, the bytes are then looked at one by one.
#![tactic(auto)]

ghost use Rattle.std.specs.Prelude.{◌+◌, ◌*◌, ◌<◌, ◌≤◌, ◌≡◌, false, length, drop, ltb};
ghost use Rattle.search.specs.Zero.{only_if, bytes_to_zero, units_to_zero};
ghost use Rattle.search.specs.Free.{byte_of, unit_of, Rows, Free, First};

// A place, if it is before `stop`.
fn place_before(n: usize, stop: usize) -> Option<usize>
    ensures { result ≡ only_if (ltb n stop) n }
{
    if n < stop { Some(n) } else { None }
}

// ---- bytes

// The least of the bytes at k and k + 16.
fn least_of_2(s: &[u8], k: usize) -> u8
    requires { k + 16 < length s.now }
    ensures { (result ≡ 0 → ⊥) → Rows (byte_of s.now) k 2 }
{
    s[k].min(s[k + 16])
}

// The least of the four bytes at k, k + 16, k + 32, k + 48, and so on below.
fn least_of_4(s: &[u8], k: usize) -> u8
    requires { k + 48 < length s.now }
    ensures { (result ≡ 0 → ⊥) → Rows (byte_of s.now) k 4 }
{
    least_of_2(s, k).min(least_of_2(s, k + 32))
}

fn least_of_8(s: &[u8], k: usize) -> u8
    requires { k + 112 < length s.now }
    ensures { (result ≡ 0 → ⊥) → Rows (byte_of s.now) k 8 }
{
    least_of_4(s, k).min(least_of_4(s, k + 64))
}

fn least_of_16(s: &[u8], k: usize) -> u8
    requires { k + 240 < length s.now }
    ensures { (result ≡ 0 → ⊥) → Rows (byte_of s.now) k 16 }
{
    least_of_8(s, k).min(least_of_8(s, k + 128))
}

// False only if none of the 256 bytes from i on is zero.
fn zero_in_256(s: &[u8], i: usize) -> bool
    requires { i + 256 ≤ length s.now }
    ensures { result ≡ false → Free (byte_of s.now) i (i + 256) }
{
    let mut hit = false;
    for j in 0..16 {
        if least_of_16(s, i + j) == 0 {
            hit = true;
        }
    }
    hit
}

// The same of 16 bytes.
fn zero_in_16(s: &[u8], i: usize) -> bool
    requires { i + 16 ≤ length s.now }
    ensures { result ≡ false → Free (byte_of s.now) i (i + 16) }
{
    let mut hit = false;
    for j in 0..16 {
        if s[i + j] == 0 {
            hit = true;
        }
    }
    hit
}

// Past the whole blocks of 256 bytes without a zero.
fn pass_256(s: &[u8], from: usize) -> usize
    requires { from ≤ length s.now }
    ensures passed { Free (byte_of s.now) from result }
    ensures within { result ≤ length s.now }
{
    let mut i = from;
    while 256 <= s.len() - i {
        if zero_in_256(s, i) {
            return i;
        }
        i += 256;
    }
    i
}

// The same of 16 bytes.
fn pass_16(s: &[u8], from: usize) -> usize
    requires { from ≤ length s.now }
    ensures passed { Free (byte_of s.now) from result }
    ensures within { result ≤ length s.now }
{
    let mut i = from;
    while 16 <= s.len() - i {
        if zero_in_16(s, i) {
            return i;
        }
        i += 16;
    }
    i
}

// The first zero of the eight bytes from i on, or i + 8.
#[inline(always)]
fn first_of_8(s: &[u8], i: usize) -> usize
    requires { i + 8 ≤ length s.now }
    ensures { First (byte_of s.now) i (i + 8) result }
{
    for j in 0..8 {
        if s[i + j] == 0 {
            return i + j;
        }
    }
    i + 8
}

// The first zero of a few bytes. A place found is answered where it is found: the compiler then knows that it is small.
fn first_of_few(s: &[u8]) -> Option<usize>
    ensures { result ≡ bytes_to_zero s.now }
{
    for i in 0..s.len() {
        if s[i] == 0 {
            return Some(i);
        }
    }
    None
}

// The first zero of the bytes from `from` up to `stop`, or `stop`.
fn first_one_by_one(s: &[u8], from: usize, stop: usize) -> usize
    requires { (from ≤ stop) × (stop ≤ length s.now) }
    ensures { First (byte_of s.now) from stop result }
{
    for i in from..stop {
        if s[i] == 0 {
            return i;
        }
    }
    stop
}

// The same by eights.
fn first_by_eights(s: &[u8], from: usize, stop: usize) -> usize
    requires { (from ≤ stop) × (stop ≤ length s.now) }
    ensures { First (byte_of s.now) from stop result }
{
    let mut i = from;
    while 8 <= stop - i {
        let r = first_of_8(s, i);
        if r < i + 8 {
            return r;
        }
        i += 8;
    }
    first_one_by_one(s, i, stop)
}

// The first zero from `from` on, or the length, by blocks: they start at multiples of 16, aligned if the slice is.
fn first_by_blocks(s: &[u8], from: usize) -> usize
    requires { from ≤ length s.now }
    ensures { First (byte_of s.now) from (length s.now) result }
{
    if s.len() - from < 8 {
        return first_one_by_one(s, from, s.len());
    }
    let stop = (from + 32 - from % 16).min(s.len());
    let r = first_by_eights(s, from, stop);
    if r < stop {
        return r;
    }
    let i = pass_256(s, stop);
    let i = pass_16(s, i);
    first_one_by_one(s, i, s.len())
}

// The bytes before the first zero byte at or behind `at`. For names: the first eight bytes are looked at by code so short that it stands in
// each reader.
#[inline(always)]
pub fn bytes_before_zero(s: &[u8], at: usize) -> Option<usize>
    ensures { result ≡ bytes_to_zero (drop at s.now) }
{
    if s.len() <= at {
        return None;
    }
    let near = &s[at..];
    if near.len() < 8 {
        return first_of_few(near);
    }
    let n = first_of_8(near, 0);
    if n < 8 {
        return Some(n);
    }
    // the blocks get a slice of their own: so `near` stays in registers, and short names pay for no frame
    let rest = &s[at..];
    place_before(first_by_blocks(rest, 8), near.len())
}

// ---- units; `at` is where the first one starts

fn unit_at(s: &[u8], at: usize, n: usize) -> u16
    requires { at + 2 * n + 1 < length s.now }
    ensures { result ≡ unit_of s.now at n }
{
    let k = at + 2 * n;
    u16::from_le_bytes([s[k], s[k + 1]])
}

// False only if none of `count` units from the n-th on is zero.
fn zero_in_units(s: &[u8], at: usize, n: usize, count: usize) -> bool
    requires { at + 2 * n + 2 * count ≤ length s.now }
    ensures { result ≡ false → Free (unit_of s.now at) n (n + count) }
{
    let mut hit = false;
    for j in 0..count {
        if unit_at(s, at, n + j) == 0 {
            hit = true;
        }
    }
    hit
}

// Past the whole blocks of `count` units without a zero.
fn pass_units(s: &[u8], at: usize, from: usize, count: usize) -> usize
    requires { (at + 2 * from ≤ length s.now) × (0 < count) × (count ≤ 64) }
    ensures passed { Free (unit_of s.now at) from result }
    ensures within { at + 2 * result ≤ length s.now }
{
    let mut n = from;
    while 2 * count <= s.len() - (at + 2 * n) {
        if zero_in_units(s, at, n, count) {
            return n;
        }
        n += count;
    }
    n
}

// The first zero of the units from `from` up to `stop`, or `stop`.
fn first_unit_one_by_one(s: &[u8], at: usize, from: usize, stop: usize) -> usize
    requires { (from ≤ stop) × (at + 2 * stop ≤ length s.now) }
    ensures { First (unit_of s.now at) from stop result }
{
    for n in from..stop {
        if unit_at(s, at, n) == 0 {
            return n;
        }
    }
    stop
}

// The first zero of the 24 units from `at` on, or 24.
fn first_of_24_units(s: &[u8], at: usize) -> usize
    requires { at + 48 ≤ length s.now }
    ensures { First (unit_of s.now at) 0 24 result }
{
    for j in 0..24 {
        if unit_at(s, at, j) == 0 {
            return j;
        }
    }
    24
}

// The first zero of the units from the 24th up to `count`, or `count`, by blocks.
fn first_unit_by_blocks(s: &[u8], at: usize, count: usize) -> usize
    requires { (24 ≤ count) × (at + 2 * count ≤ length s.now) × (length s.now ≤ at + 2 * count + 1) }
    ensures { First (unit_of s.now at) 24 count result }
{
    let n = pass_units(s, at, 24, 64);
    let n = pass_units(s, at, n, 8);
    first_unit_one_by_one(s, at, n, count)
}

// The units from `at` on before the first zero unit; a lone last byte is no unit.
pub fn units_before_zero(s: &[u8], at: usize) -> Option<usize>
    ensures { result ≡ units_to_zero (drop at s.now) }
{
    if s.len() < at {
        return None;
    }
    let count = (s.len() - at) / 2;
    if count < 24 {
        return place_before(first_unit_one_by_one(s, at, 0, count), count);
    }
    let r = first_of_24_units(s, at);
    if r < 24 {
        return Some(r);
    }
    place_before(first_unit_by_blocks(s, at, count), count)
}
