// What a line of a listing is made of, put at a place of it. Lent output holds the listing from a character on, as far as it reaches;
// each function answers the place behind its text, or the output's end.
#![tactic(auto)]

ghost use Rattle.std.specs.Prelude.{◌≡◌, ℕ, List, [], ◌∷◌, ◌%◌};
ghost use Rattle.format.specs.Format.{concat_map};
ghost use Rattle.format.specs.View.{units_of};
ghost use Rattle.text.specs.Prints.{Prints};
ghost use Rattle.text.specs.Text.{digit as digit_of, hex, decimal, coded, is_coded, escape, escaped, hex_block, keyed, line};

fn put_char(out: &mut [u8], from: u32, at: usize, c: u8) -> usize
    ensures { Prints from (c ∷ []) at out.old result out.new }
{
    let start = from as usize;
    if at < start {
        return at + 1;
    }
    let i = at - start;
    if i < out.len() {
        out[i] = c;
        return at + 1;
    }
    at
}

// ---- numbers

// The digit of the last four bits of n.
fn digit(n: usize) -> u8
    ensures { result ≡ digit_of (n % 16) }
{
    let d = (n % 16) as u8;
    if d < 10 { b'0' + d } else { b'A' + (d - 10) }
}

// The last two hexadecimal digits of n; then four, then eight.
pub fn put_hex_2(out: &mut [u8], from: u32, at: usize, n: usize) -> usize
    ensures { Prints from (hex 2 n) at out.old result out.new }
{
    let at = put_char(out, from, at, digit(n / 16));
    put_char(out, from, at, digit(n))
}

pub fn put_hex_4(out: &mut [u8], from: u32, at: usize, n: usize) -> usize
    ensures { Prints from (hex 4 n) at out.old result out.new }
{
    let at = put_hex_2(out, from, at, n / 256);
    put_hex_2(out, from, at, n)
}

pub fn put_hex_8(out: &mut [u8], from: u32, at: usize, n: usize) -> usize
    ensures { Prints from (hex 8 n) at out.old result out.new }
{
    let at = put_hex_4(out, from, at, n / 65536);
    put_hex_4(out, from, at, n)
}

pub fn put_decimal(out: &mut [u8], from: u32, at: usize, n: usize) -> usize
    ensures { Prints from (decimal n) at out.old result out.new }
{
    if n < 10 {
        return put_char(out, from, at, b'0' + n as u8);
    }
    let at = put_decimal(out, from, at, n / 10);
    put_char(out, from, at, b'0' + (n % 10) as u8)
}

// ---- strings

fn put_coded(out: &mut [u8], from: u32, at: usize, unit: u16) -> usize
    ensures { Prints from (coded unit) at out.old result out.new }
{
    let at = put_char(out, from, at, b'\\');
    put_hex_4(out, from, at, usize::from(unit))
}

fn is_coded(unit: u16) -> bool
    ensures { result ≡ is_coded unit }
{
    unit < 32 || 126 < unit || unit == 92
}

// A byte or unit.
pub fn put_escape(out: &mut [u8], from: u32, at: usize, unit: u16) -> usize
    ensures { Prints from (escape unit) at out.old result out.new }
{
    if is_coded(unit) {
        return put_coded(out, from, at, unit);
    }
    put_char(out, from, at, unit as u8)
}

// ---- bytes one behind the other

// How a byte of many is printed.
pub trait ByteText: Copy {
    ghost text: { Self → ℕ → List ℕ };

    fn put(self, out: &mut [u8], from: u32, at: usize, byte: u8) -> usize
        ensures { Prints from (text self byte) at out.old result out.new };
}

// As it is.
#[derive(Clone, Copy)]
struct Plain;

impl ByteText for Plain {
    ghost text = { λ _ byte. byte ∷ [] };

    fn put(self, out: &mut [u8], from: u32, at: usize, byte: u8) -> usize {
        put_char(out, from, at, byte)
    }
}

// As a character of a string.
#[derive(Clone, Copy)]
struct Escaped;

impl ByteText for Escaped {
    ghost text = { λ _ byte. escape byte };

    fn put(self, out: &mut [u8], from: u32, at: usize, byte: u8) -> usize {
        put_escape(out, from, at, u16::from(byte))
    }
}

// As two digits.
#[derive(Clone, Copy)]
struct HexPair;

impl ByteText for HexPair {
    ghost text = { λ _ byte. hex 2 byte };

    fn put(self, out: &mut [u8], from: u32, at: usize, byte: u8) -> usize {
        put_hex_2(out, from, at, usize::from(byte))
    }
}

// Bytes, one behind the other.
pub fn put_each<P: ByteText>(out: &mut [u8], from: u32, at: usize, s: &[u8], p: P) -> usize
    ensures { Prints from (concat_map (P.text p) s.now) at out.old result out.new }
{
    let mut next = at;
    for byte in s {
        next = p.put(out, from, next, *byte);
    }
    next
}

// Characters as they are.
pub fn put_chars(out: &mut [u8], from: u32, at: usize, s: &[u8]) -> usize
    ensures { Prints from s.now at out.old result out.new }
{
    put_each(out, from, at, s, Plain)
}

// A string of bytes.
pub fn put_escaped(out: &mut [u8], from: u32, at: usize, s: &[u8]) -> usize
    ensures { Prints from (escaped s.now) at out.old result out.new }
{
    put_each(out, from, at, s, Escaped)
}

// A string of the first n units of s, as far as s reaches.
pub fn put_escaped_units(out: &mut [u8], from: u32, at: usize, s: &[u8], n: usize) -> usize
    ensures { Prints from (escaped (units_of n s.now)) at out.old result out.new }
{
    let mut next = at;
    for i in 0..n.min(s.len() / 2) {
        let unit = u16::from_le_bytes([s[2 * i], s[2 * i + 1]]);
        next = put_escape(out, from, next, unit);
    }
    next
}

// A block, two digits a byte.
pub fn put_hex_block(out: &mut [u8], from: u32, at: usize, s: &[u8]) -> usize
    ensures { Prints from (hex_block s.now) at out.old result out.new }
{
    put_each(out, from, at, s, HexPair)
}

// ---- lines

// A line's key and the sign behind it.
fn put_key(out: &mut [u8], from: u32, at: usize, key: &[u8]) -> usize
    ensures { Prints from (keyed key.now) at out.old result out.new }
{
    let at = put_chars(out, from, at, key);
    put_char(out, from, at, b'=')
}

pub fn put_decimal_line(out: &mut [u8], from: u32, at: usize, key: &[u8], n: usize) -> usize
    ensures { Prints from (line key.now (decimal n)) at out.old result out.new }
{
    let at = put_key(out, from, at, key);
    let at = put_decimal(out, from, at, n);
    put_char(out, from, at, b'\n')
}

// Eight hexadecimal digits.
pub fn put_hex_line(out: &mut [u8], from: u32, at: usize, key: &[u8], n: usize) -> usize
    ensures { Prints from (line key.now (hex 8 n)) at out.old result out.new }
{
    let at = put_key(out, from, at, key);
    let at = put_hex_8(out, from, at, n);
    put_char(out, from, at, b'\n')
}

// Characters as they are.
pub fn put_chars_line(out: &mut [u8], from: u32, at: usize, key: &[u8], value: &[u8]) -> usize
    ensures { Prints from (line key.now value.now) at out.old result out.new }
{
    let at = put_key(out, from, at, key);
    let at = put_chars(out, from, at, value);
    put_char(out, from, at, b'\n')
}

// A string of bytes.
pub fn put_escaped_line(out: &mut [u8], from: u32, at: usize, key: &[u8], s: &[u8]) -> usize
    ensures { Prints from (line key.now (escaped s.now)) at out.old result out.new }
{
    let at = put_key(out, from, at, key);
    let at = put_escaped(out, from, at, s);
    put_char(out, from, at, b'\n')
}

// A string of the first n units of s, as far as s reaches.
pub fn put_escaped_units_line(
    out: &mut [u8],
    from: u32,
    at: usize,
    key: &[u8],
    s: &[u8],
    n: usize,
) -> usize
    ensures { Prints from (line key.now (escaped (units_of n s.now))) at out.old result out.new }
{
    let at = put_key(out, from, at, key);
    let at = put_escaped_units(out, from, at, s, n);
    put_char(out, from, at, b'\n')
}

// A block, two digits a byte.
pub fn put_hex_block_line(out: &mut [u8], from: u32, at: usize, key: &[u8], s: &[u8]) -> usize
    ensures { Prints from (line key.now (hex_block s.now)) at out.old result out.new }
{
    let at = put_key(out, from, at, key);
    let at = put_hex_block(out, from, at, s);
    put_char(out, from, at, b'\n')
}
