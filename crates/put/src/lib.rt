// Writes values at a place of lent output, sizes them, and weighs whether a write is taken.
#![tactic(auto)]

ghost use Rattle.std.specs.Prelude.{ℕ, ◌+◌, ◌*◌, ◌≤◌, ◌≡◌, [], ◌∷◌, map, length, leb};
ghost use Rattle.std.proofs.Common.{refl};
ghost use Rattle.format.specs.Format.{Format, Value, number, cstring, ucs2, list, encode, concat_map, size};
ghost use Rattle.format.specs.Fault.{has_zero};
ghost use Rattle.put.specs.Faults.{and_of, and_long};
ghost use Rattle.format.proofs.Passing.{Plain};
ghost use Rattle.format.proofs.Width.{width};
ghost use Rattle.refusal.specs.Says.{number_says};
ghost use Rattle.put.specs.Put.{Puts, Writes, capped, Weighs};

use refusal::Refusal;

// The bytes of the largest packet.
pub const LIMIT: usize = 16_777_216;

// ---- numbers

fn put_byte(out: &mut [u8], at: usize, n: u8) -> usize
    ensures { Puts (n ∷ []) at out.old result out.new }
{
    if at < out.len() {
        out[at] = n;
        return at + 1;
    }
    at
}

// Bytes one behind the other, as far as the output reaches.
fn put_bytes(out: &mut [u8], at: usize, bytes: &[u8]) -> usize
    ensures { Puts bytes.now at out.old result out.new }
{
    let mut next = at;
    for b in bytes {
        next = put_byte(out, next, *b);
    }
    next
}

// Behind one test of the room the compiler stores the bytes at once.
fn put_array<const W: usize>(out: &mut [u8], at: usize, bytes: [u8; W]) -> usize
    ensures { Puts bytes.entry at out.old result out.new }
{
    if W <= out.len().saturating_sub(at) {
        for i in 0..W {
            out[at + i] = bytes[i];
        }
        return at + W;
    }
    put_bytes(out, at, &bytes)
}

pub fn put_u8(out: &mut [u8], at: usize, n: u8) -> usize
    ensures { Writes (number 1) n at out.old result out.new }
{
    put_array(out, at, [n])
}

pub fn put_u16(out: &mut [u8], at: usize, n: u16) -> usize
    ensures { Writes (number 2) n at out.old result out.new }
{
    put_array(out, at, n.to_le_bytes())
}

pub fn put_u32(out: &mut [u8], at: usize, n: u32) -> usize
    ensures { Writes (number 4) n at out.old result out.new }
{
    put_array(out, at, n.to_le_bytes())
}

// The lowest byte of n; then two, then four.
pub fn put_number_1(out: &mut [u8], at: usize, n: usize) -> usize
    ensures { Writes (number 1) n at out.old result out.new }
{
    put_u8(out, at, (n % 256) as u8)
}

pub fn put_number_2(out: &mut [u8], at: usize, n: usize) -> usize
    ensures { Writes (number 2) n at out.old result out.new }
{
    put_u16(out, at, (n % 65536) as u16)
}

pub fn put_number_4(out: &mut [u8], at: usize, n: usize) -> usize
    ensures { Writes (number 4) n at out.old result out.new }
{
    put_u32(out, at, (n % 4294967296) as u32)
}

// ---- lists and strings

// What a list holds: numbers only, as many bytes each.
pub trait ToBytes: Copy {
    ghost format: { Format };

    ghost value: { Self → Value format };

    ghost WIDTH: { ℕ };

    const WIDTH: usize;

    fn put(self, out: &mut [u8], at: usize) -> usize
        ensures { Writes format (value self) at out.old result out.new };

    ghost plain: { Plain format };

    ghost wide: { width format ≡ WIDTH };
}

impl ToBytes for u8 {
    ghost format = { number 1 };

    ghost value = { λ n. n };

    ghost WIDTH = { 1 };

    const WIDTH: usize = 1;

    fn put(self, out: &mut [u8], at: usize) -> usize {
        put_u8(out, at, self)
    }

    ghost plain = { tt };

    ghost wide = { refl };
}

impl ToBytes for u16 {
    ghost format = { number 2 };

    ghost value = { λ n. n };

    ghost WIDTH = { 2 };

    const WIDTH: usize = 2;

    fn put(self, out: &mut [u8], at: usize) -> usize {
        put_u16(out, at, self)
    }

    ghost plain = { tt };

    ghost wide = { refl };
}

impl ToBytes for u32 {
    ghost format = { number 4 };

    ghost value = { λ n. n };

    ghost WIDTH = { 4 };

    const WIDTH: usize = 4;

    fn put(self, out: &mut [u8], at: usize) -> usize {
        put_u32(out, at, self)
    }

    ghost plain = { tt };

    ghost wide = { refl };
}

// What is written in no more bytes than it takes in memory: the bytes of a slice of it fit a usize.
pub trait InMemory: ToBytes {
    fn bytes(values: &[Self]) -> usize
        ensures number { result ≡ length values.now * Self.WIDTH }
        ensures fits { result ≤ 9223372036854775807 };
}

impl InMemory for u8 {
    fn bytes(values: &[u8]) -> usize {
        values.len() * Self::WIDTH
    }
}

impl InMemory for u16 {
    fn bytes(values: &[u16]) -> usize {
        values.len() * Self::WIDTH
    }
}

impl InMemory for u32 {
    fn bytes(values: &[u32]) -> usize {
        values.len() * Self::WIDTH
    }
}

// Values one behind the other, with neither count nor zero.
fn put_values<T: ToBytes>(out: &mut [u8], at: usize, values: &[T]) -> usize
    ensures { Puts (concat_map (λ x. encode T.format (T.value x)) values.now) at out.old result out.new }
{
    let mut next = at;
    for x in values {
        next = x.put(out, next);
    }
    next
}

// A list with its count of two bytes.
pub fn put_list<T: ToBytes>(out: &mut [u8], at: usize, values: &[T]) -> usize
    ensures { Writes (list 2 T.format) (map T.value values.now) at out.old result out.new }
{
    let first = put_number_2(out, at, values.len());
    put_values(out, first, values)
}

// A string with its zero, of bytes and of units; here its limit is its own length.
pub fn put_cstring(out: &mut [u8], at: usize, bytes: &[u8]) -> usize
    ensures { Writes (cstring (length bytes.now)) bytes.now at out.old result out.new }
{
    let end = put_bytes(out, at, bytes);
    put_u8(out, end, 0)
}

pub fn put_ucs2(out: &mut [u8], at: usize, units: &[u16]) -> usize
    ensures { Writes (ucs2 (length units.now)) units.now at out.old result out.new }
{
    let end = put_values(out, at, units);
    put_u16(out, end, 0)
}

// ---- what a value is refused for

fn holds_zero(bytes: &[u8]) -> bool
    ensures { result ≡ has_zero bytes.now }
{
    bytes.contains(&0)
}

fn holds_zero_unit(units: &[u16]) -> bool
    ensures { result ≡ has_zero units.now }
{
    units.contains(&0)
}

// What was found in the strings and lists of a value.
#[derive(Clone, Copy)]
pub struct Faults {
    // a string holds a zero
    pub zeros: bool,
    // a string is longer than its limit
    pub over: bool,
    // a list is too long for its count
    pub long: bool,
}

impl Faults {
    pub const NONE: Faults = Faults {
        zeros: false,
        over: false,
        long: false,
    };

    // And those of a string of bytes.
    pub fn cstring(self, bytes: &[u8], limit: usize) -> Faults
        ensures { result ≡ and_of self (cstring limit) bytes.now }
    {
        Faults {
            zeros: self.zeros | holds_zero(bytes),
            over: self.over | (limit < bytes.len()),
            ..self
        }
    }

    // And those of a string of units.
    pub fn ucs2(self, units: &[u16], limit: usize) -> Faults
        ensures { result ≡ and_of self (ucs2 limit) units.now }
    {
        Faults {
            zeros: self.zeros | holds_zero_unit(units),
            over: self.over | (limit < units.len()),
            ..self
        }
    }

    // And those of a list with a count of two bytes.
    pub fn list<T: ToBytes>(self, values: &[T]) -> Faults
        ensures { result ≡ and_of self (list 2 T.format) (map T.value values.now) }
    {
        self.count(values.len(), 65536)
    }

    // And of a list of so many items whose count is below a bound.
    pub fn count(self, count: usize, bound: usize) -> Faults
        ensures { result ≡ and_long self (leb bound count) }
    {
        Faults {
            long: self.long | (bound <= count),
            ..self
        }
    }

    // Whether a write of len bytes at a place of an output of room bytes is taken.
    pub fn weigh(self, at: usize, len: usize, room: usize) -> Result<(), Refusal>
        ensures { Weighs (number_says result) self.zeros self.over self.long at len room }
    {
        if self.zeros {
            return Err(Refusal::HoldsZero);
        }
        if self.over {
            return Err(Refusal::OverLimit);
        }
        if self.long {
            return Err(Refusal::TooLong);
        }
        let end = at.saturating_add(len);
        if LIMIT < end {
            return Err(Refusal::PacketSize);
        }
        if room < end {
            return Err(Refusal::ShortOutput);
        }
        Ok(())
    }
}

// ---- sizes

pub fn cstring_size(bytes: &[u8]) -> usize
    ensures { result ≡ length bytes.now + 1 }
{
    bytes.len() + 1
}

pub fn ucs2_size(units: &[u16]) -> usize
    ensures { result ≡ length units.now * 2 + 2 }
{
    units.len() * 2 + 2
}

// At most usize::MAX: a slice of values that take less in memory may be written longer than memory is.
pub fn list_size<T: ToBytes>(values: &[T]) -> usize
    ensures { result ≡ capped (size (list 2 T.format) (map T.value values.now)) }
{
    values.len().saturating_mul(T::WIDTH).saturating_add(2)
}

// The size itself.
pub fn exact_list_size<T: InMemory>(values: &[T]) -> usize
    ensures { result ≡ size (list 2 T.format) (map T.value values.now) }
{
    T::bytes(values) + 2
}

#[cfg(test)]
mod tests {
    use super::*;

    // Nothing, which is written in four bytes: a slice of it may be written longer than memory is.
    #[derive(Clone, Copy)]
    struct Wide {}

    impl ToBytes for Wide {
        ghost format = { number 4 };

        ghost value = { λ x. 7 };

        ghost WIDTH = { 4 };

        const WIDTH: usize = 4;

        fn put(self, out: &mut [u8], at: usize) -> usize {
            put_u32(out, at, 7)
        }

        ghost plain = { tt };

        ghost wide = { refl };
    }

    // A count of two bytes, so of 65,535 at most, and as many numbers.
    #[test]
    fn sizes_lists(rt: HostRuntime) {
        assert_eq!(rt; list_size(b"abc".as_slice()), 5);
        assert_eq!(rt; list_size([1u16, 2].as_slice()), 6);
        assert_eq!(rt; exact_list_size([1u16, 2].as_slice()), 6);
        let three = [Wide {}; 3];
        assert_eq!(rt; list_size(three.as_slice()), 14);
        let mut out = [255u8; 15];
        assert_eq!(rt; put_list(&mut out, 0, three.as_slice()), 14);
        assert_eq!(rt;
            out.as_slice(),
            b"\x03\0\x07\0\0\0\x07\0\0\0\x07\0\0\0\xff".as_slice()
        );
        assert!(rt; !Faults::NONE.list(three.as_slice()).long);
        assert!(rt; !Faults::NONE.list([Wide {}; 65535].as_slice()).long);
        assert!(rt; Faults::NONE.list([Wide {}; 65536].as_slice()).long);
        let most = [Wide {}; 0x3fff_ffff_ffff_ffff];
        assert_eq!(rt; list_size(most.as_slice()), 0xffff_ffff_ffff_fffe);
        let more = [Wide {}; 0x4000_0000_0000_0000];
        assert_eq!(rt; list_size(more.as_slice()), usize::MAX);
    }
}
