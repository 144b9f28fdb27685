// The lines of a field, put at a place of a listing. Lent output holds it from a character on, as far as it reaches;
// each function answers the place behind its text, or the output's end.
#![tactic(auto)]

ghost use Rattle.std.specs.Prelude.{drop, ◌≡◌, refl};
ghost use Rattle.format.specs.Format.{number};
ghost use Rattle.text.specs.Prints.{Prints};
ghost use Rattle.text.specs.Text.{escaped, line};
ghost use Rattle.format.specs.View.{units_of};
ghost use Rattle.lines.specs.Lines.{Form, Listed, decimal, each, block, digits, decimal_line, range_of, item_lines, Lists};

use text::{
    ByteText, put_decimal_line, put_each, put_escaped_line, put_escaped_units_line,
    put_hex_block_line,
};
use wire::{Block, CString, Count, Item, List, Ucs2};

// ---- strings

pub fn put_cstring(
    out: &mut [u8],
    from: u32,
    at: usize,
    name: &[u8],
    x: CString,
    body: &[u8],
) -> usize
    ensures { Prints from (line name.now (escaped (range_of body.now (x.start, x.len))))
        at out.old result out.new }
{
    put_escaped_line(out, from, at, name, x.bytes(body))
}

pub fn put_ucs2(out: &mut [u8], from: u32, at: usize, name: &[u8], x: Ucs2, body: &[u8]) -> usize
    ensures { Prints from (line name.now (escaped (units_of x.len (drop x.start body.now))))
        at out.old result out.new }
{
    let start = x.start.min(body.len());
    put_escaped_units_line(out, from, at, name, &body[start..], x.len)
}

// ---- blocks

// A byte in a line of its own.
#[derive(Clone, Copy)]
struct ByteLine<'a> {
    name: &'a [u8],
}

impl ByteText for ByteLine<'_> {
    ghost text = { λ x byte. decimal_line x.name.now byte };

    fn put(self, out: &mut [u8], from: u32, at: usize, byte: u8) -> usize {
        put_decimal_line(out, from, at, self.name, usize::from(byte))
    }
}

// A byte a line.
pub fn put_block(
    out: &mut [u8],
    from: u32,
    at: usize,
    count: &[u8],
    name: &[u8],
    x: Block,
    body: &[u8],
) -> usize
    ensures { Lists from (block {w = 2} count.now name.now) body.now (x.start, x.len) at out.old result out.new }
{
    let at = put_decimal_line(out, from, at, count, x.len);
    put_each(out, from, at, x.bytes(body), ByteLine { name })
}

// All digits in one line.
pub fn put_digits(
    out: &mut [u8],
    from: u32,
    at: usize,
    count: &[u8],
    name: &[u8],
    x: Block,
    body: &[u8],
) -> usize
    ensures { Lists from (digits {w = 2} count.now name.now) body.now (x.start, x.len) at out.old result out.new }
{
    let at = put_decimal_line(out, from, at, count, x.len);
    put_hex_block_line(out, from, at, name, x.bytes(body))
}

// ---- lists

// How an item of a list is listed.
pub trait ItemLines<T: Item>: Copy {
    ghost form: { Form T };

    ghost listed: { Self → Listed form.0 };

    fn put(self, out: &mut [u8], from: u32, at: usize, x: T, body: &[u8]) -> usize
        ensures { Lists from (listed self) body.now (form.1 x) at out.old result out.new };

    // Its form is the one by which an item is read.
    ghost read_so: { form ≡ (T.format, T.item_view) };
}

fn put_items<T: Item, N: Count, P: ItemLines<T>>(
    out: &mut [u8],
    from: u32,
    at: usize,
    list: List<T, N>,
    body: &[u8],
    p: P,
) -> usize
    ensures { Prints from (item_lines (P.listed p) body.now list.at (N.number list.left)) at out.old result out.new }
{
    let mut next = at;
    let mut rest = list;
    while let Ok(Some((x, more))) = rest.next(body) {
        next = p.put(out, from, next, x, body);
        rest = more;
    }
    next
}

// The count, then the items.
pub fn put_list<T: Item, N: Count, P: ItemLines<T>>(
    out: &mut [u8],
    from: u32,
    at: usize,
    count: &[u8],
    list: List<T, N>,
    body: &[u8],
    p: P,
) -> usize
    ensures { Lists from (each {w = N.width} count.now (P.listed p)) body.now (list.at, N.number list.left) at out.old result out.new }
{
    let at = put_decimal_line(out, from, at, count, list.left.items());
    put_items(out, from, at, list, body, p)
}

// ---- lists of numbers

// A number in a line of its own.
#[derive(Clone, Copy)]
struct NumberLine<'a> {
    name: &'a [u8],
}

impl ItemLines<u16> for NumberLine<'_> {
    ghost form = { (number 2, λ n. n) };

    ghost listed = { λ p. decimal p.name.now };

    ghost read_so = { refl };

    fn put(self, out: &mut [u8], from: u32, at: usize, x: u16, body: &[u8]) -> usize {
        put_decimal_line(out, from, at, self.name, usize::from(x))
    }
}

impl ItemLines<u32> for NumberLine<'_> {
    ghost form = { (number 4, λ n. n) };

    ghost listed = { λ p. decimal p.name.now };

    ghost read_so = { refl };

    fn put(self, out: &mut [u8], from: u32, at: usize, x: u32, body: &[u8]) -> usize {
        put_decimal_line(out, from, at, self.name, x as usize)
    }
}

pub fn put_u16_list(
    out: &mut [u8],
    from: u32,
    at: usize,
    count: &[u8],
    name: &[u8],
    list: List<u16, u16>,
    body: &[u8],
) -> usize
    ensures { Lists from (each {w = 2} count.now (decimal {w = 2} name.now)) body.now (list.at, list.left) at out.old result out.new }
{
    put_list::<u16, _, _>(out, from, at, count, list, body, NumberLine { name })
}

pub fn put_u32_list(
    out: &mut [u8],
    from: u32,
    at: usize,
    count: &[u8],
    name: &[u8],
    list: List<u32, u16>,
    body: &[u8],
) -> usize
    ensures { Lists from (each {w = 2} count.now (decimal {w = 4} name.now)) body.now (list.at, list.left) at out.old result out.new }
{
    put_list::<u32, _, _>(out, from, at, count, list, body, NumberLine { name })
}
