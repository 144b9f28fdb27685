// The fields of a body, read at a cursor: numbers by value; strings, blocks and lists by their place in the body. Strings and lists of numbers copied out of it.
#![tactic(auto)]

ghost use Rattle.std.specs.Prelude.{ℕ, ◌+◌, ◌*◌, ◌-◌, ◌≤◌, ◌≡◌, ◌++◌, length, take, drop, ⊤, IfOk, IfSome, MatchOption};
ghost use Rattle.format.specs.Format.{Format, number, cstring, ucs2, list};
ghost use Rattle.format.specs.Format.{number as number_of_width};
ghost use Rattle.protocol.specs.Kind.{name_limit};
ghost use Rattle.format.specs.View.{View, view, stepped, units_of};
ghost use Rattle.format.specs.Passed.{passed, room};
ghost use Rattle.format.specs.Copy.{took, copy_cstring, copy_ucs2, copy_numbers};
ghost use Rattle.refusal.specs.Says.{answer_says};
ghost use Rattle.wire.specs.Says.{says, passed_says, next_says, number_view, cstring_range, ucs2_range, block_range, list_range};

use refusal::Refusal;
use search::{bytes_before_zero, units_before_zero};
use std::marker::PhantomData;

// The bytes or units of the longest name: what the rack's display holds.
pub const NAME_LIMIT: usize = 255;

// ---- what is read

// Where the next field starts.
#[derive(Clone, Copy)]
pub struct Cursor {
    pub at: usize,
}

// Bytes, without the zero byte behind them.
#[derive(Clone, Copy)]
pub struct CString {
    pub start: usize,
    pub len: usize,
}

// 16-bit units, without the zero unit behind them.
#[derive(Clone, Copy)]
pub struct Ucs2 {
    pub start: usize,
    pub len: usize,
}

#[derive(Clone, Copy)]
pub struct Block {
    pub start: usize,
    pub len: usize,
}

// ---- lists

// The number of items of a list: its field in front of them, then how many are left.
pub trait Count: Copy {
    ghost width: { ℕ };

    ghost number: { Self → ℕ };

    fn read(body: &[u8], c: Cursor) -> Result<(Self, Cursor), Refusal>
        ensures { says number result ≡ view (number_of_width width) body.now c.at };

    fn items(self) -> usize
        ensures { result ≡ number self };

    // One less, or none.
    fn less(self) -> Option<Self>
        ensures { MatchOption result (number self ≡ 0) (λ n. number self ≡ number n + 1) };
}

// What a list holds: items of one format.
pub trait Item: Copy {
    ghost format: { Format };

    ghost item_view: { Self → View format };

    // What else is known of an item that was read.
    ghost known: { Self → Type 0 } = { λ _. ⊤ };

    fn read(body: &[u8], c: Cursor) -> Result<(Self, Cursor), Refusal>
        ensures fields { says item_view result ≡ view format body.now c.at }
        ensures rest { IfOk result (λ x. known x.0) };

    // So many of them passed over.
    fn pass(body: &[u8], c: Cursor, n: usize) -> Result<Cursor, Refusal>
        ensures { passed_says result ≡ passed format body.now c.at n }
    {
        let mut end = c;
        for _ in 0..n {
            let (_, behind) = Self::read(body, end)?;
            end = behind;
        }
        Ok(end)
    }
}

// What is left of a list: where its next item starts, and how many there are.
#[derive(Clone, Copy)]
pub struct List<T, N> {
    pub at: usize,
    pub left: N,
    pub of: PhantomData<T>,
}

impl<T: Item, N: Count> List<T, N> {
    pub fn new(at: usize, left: N) -> List<T, N>
        ensures place { result.at ≡ at }
        ensures count { result.left ≡ left }
    {
        List {
            at,
            left,
            of: PhantomData,
        }
    }

    // A count and as many items, each of which reads.
    pub fn read(body: &[u8], c: Cursor) -> Result<(List<T, N>, Cursor), Refusal>
        ensures { says (list_range N.number) result ≡ view (list N.width T.format) body.now c.at }
    {
        let (left, c) = N::read(body, c)?;
        let end = T::pass(body, c, left.items())?;
        Ok((List::new(c.at, left), end))
    }

    // The next item and what is left behind it. A list that was read meets no refusal, a made-up one may.
    pub fn next(self, body: &[u8]) -> Result<Option<(T, List<T, N>)>, Refusal>
        ensures fields { next_says T.item_view N.number result ≡ stepped T.format body.now self.at (N.number self.left) }
        ensures rest { IfOk result (λ o. IfSome o (λ x. T.known x.0)) }
    {
        let Some(left) = self.left.less() else {
            return Ok(None);
        };
        let (x, c) = T::read(body, Cursor { at: self.at })?;
        Ok(Some((x, List::new(c.at, left))))
    }
}

// ---- reading

impl Cursor {
    // A body's first byte.
    pub const START: Cursor = Cursor { at: 0 };

    pub fn u8(self, body: &[u8]) -> Result<(u8, Cursor), Refusal>
        ensures { says number_view result ≡ view (number 1) body.now self.at }
    {
        let at = self.at;
        if at < body.len() {
            return Ok((body[at], Cursor { at: at + 1 }));
        }
        Err(Refusal::ShortBody)
    }

    pub fn u16(self, body: &[u8]) -> Result<(u16, Cursor), Refusal>
        ensures { says number_view result ≡ view (number 2) body.now self.at }
    {
        let at = self.at;
        if 2 <= body.len().saturating_sub(at) {
            let n = u16::from_le_bytes([body[at], body[at + 1]]);
            return Ok((n, Cursor { at: at + 2 }));
        }
        Err(Refusal::ShortBody)
    }

    pub fn u32(self, body: &[u8]) -> Result<(u32, Cursor), Refusal>
        ensures { says number_view result ≡ view (number 4) body.now self.at }
    {
        let at = self.at;
        if 4 <= body.len().saturating_sub(at) {
            let n = u32::from_le_bytes([body[at], body[at + 1], body[at + 2], body[at + 3]]);
            return Ok((n, Cursor { at: at + 4 }));
        }
        Err(Refusal::ShortBody)
    }

    // Bytes up to a zero byte, at most `limit` of them.
    #[inline(always)]
    pub fn cstring(self, body: &[u8], limit: usize) -> Result<(CString, Cursor), Refusal>
        ensures { says cstring_range result ≡ view (cstring limit) body.now self.at }
    {
        let at = self.at;
        let Some(len) = bytes_before_zero(body, at) else {
            return Err(Refusal::NoZero); // no zero byte
        };
        if limit < len {
            return Err(Refusal::OverLimit);
        }
        Ok((CString { start: at, len }, Cursor { at: at + len + 1 }))
    }

    // 16-bit units up to a zero unit, at most `limit` of them; a lone last byte is no unit.
    pub fn ucs2(self, body: &[u8], limit: usize) -> Result<(Ucs2, Cursor), Refusal>
        ensures { says ucs2_range result ≡ view (ucs2 limit) body.now self.at }
    {
        let at = self.at;
        let Some(n) = units_before_zero(body, at) else {
            return Err(Refusal::NoZero);
        };
        if limit < n {
            return Err(Refusal::OverLimit);
        }
        Ok((Ucs2 { start: at, len: n }, Cursor { at: at + 2 * n + 2 }))
    }

    // n bytes passed over.
    pub fn skip(self, body: &[u8], n: usize) -> Result<Cursor, Refusal>
        ensures { passed_says result ≡ room body.now self.at n }
    {
        let at = self.at;
        if n <= body.len().saturating_sub(at) {
            return Ok(Cursor { at: at + n });
        }
        Err(Refusal::ShortBody)
    }

    // n items of `width` bytes passed over, of which none is looked at.
    pub fn skip_items(self, body: &[u8], n: usize, width: usize) -> Result<Cursor, Refusal>
        ensures { passed_says result ≡ room body.now self.at (n * width) }
    {
        let Some(len) = n.checked_mul(width) else {
            return Err(Refusal::ShortBody);
        };
        self.skip(body, len)
    }

    // A count and as many bytes.
    pub fn block(self, body: &[u8]) -> Result<(Block, Cursor), Refusal>
        ensures { says block_range result ≡ view (list 2 (number 1)) body.now self.at }
    {
        let (x, c) = List::<u8, u16>::read(body, self)?;
        let len = x.left as usize;
        Ok((Block { start: x.at, len }, c))
    }
}

// ---- what counts, and what a list of no layer's own holds

impl Count for u8 {
    ghost width = { 1 };

    ghost number = { λ n. n };

    fn read(body: &[u8], c: Cursor) -> Result<(u8, Cursor), Refusal> {
        c.u8(body)
    }

    fn items(self) -> usize {
        self as usize
    }

    fn less(self) -> Option<u8> {
        self.checked_sub(1)
    }
}

impl Count for u16 {
    ghost width = { 2 };

    ghost number = { λ n. n };

    fn read(body: &[u8], c: Cursor) -> Result<(u16, Cursor), Refusal> {
        c.u16(body)
    }

    fn items(self) -> usize {
        self as usize
    }

    fn less(self) -> Option<u16> {
        self.checked_sub(1)
    }
}

impl Item for u8 {
    ghost format = { number 1 };

    ghost item_view = { λ n. n };

    fn read(body: &[u8], c: Cursor) -> Result<(u8, Cursor), Refusal> {
        c.u8(body)
    }

    fn pass(body: &[u8], c: Cursor, n: usize) -> Result<Cursor, Refusal> {
        c.skip_items(body, n, 1)
    }
}

impl Item for u16 {
    ghost format = { number 2 };

    ghost item_view = { λ n. n };

    fn read(body: &[u8], c: Cursor) -> Result<(u16, Cursor), Refusal> {
        c.u16(body)
    }

    fn pass(body: &[u8], c: Cursor, n: usize) -> Result<Cursor, Refusal> {
        c.skip_items(body, n, 2)
    }
}

impl Item for u32 {
    ghost format = { number 4 };

    ghost item_view = { λ n. n };

    fn read(body: &[u8], c: Cursor) -> Result<(u32, Cursor), Refusal> {
        c.u32(body)
    }

    fn pass(body: &[u8], c: Cursor, n: usize) -> Result<Cursor, Refusal> {
        c.skip_items(body, n, 4)
    }
}

// A name.
impl Item for Ucs2 {
    ghost format = { ucs2 name_limit };

    ghost item_view = { ucs2_range };

    fn read(body: &[u8], c: Cursor) -> Result<(Ucs2, Cursor), Refusal> {
        c.ucs2(body, NAME_LIMIT)
    }
}

// ---- a list of numbers copied whole

impl List<u16, u16> {
    // What is left, all at once, into the first numbers of `out`.
    pub fn copy(self, body: &[u8], out: &mut [u16]) -> Result<usize, Refusal>
        ensures { (answer_says result, out.new) ≡ copy_numbers 2 body.now self.at self.left out.old }
    {
        let left = self.left as usize;
        if body.len().saturating_sub(self.at) < 2 * left {
            return Err(Refusal::ShortBody); // the body ends in the list
        }
        if out.len() < left {
            return Err(Refusal::ShortOutput); // fewer numbers than the list has
        }
        copy_units(body, self.at, left, out);
        Ok(left)
    }
}

impl List<u32, u16> {
    pub fn copy(self, body: &[u8], out: &mut [u32]) -> Result<usize, Refusal>
        ensures { (answer_says result, out.new) ≡ copy_numbers 4 body.now self.at self.left out.old }
    {
        let left = self.left as usize;
        if body.len().saturating_sub(self.at) < 4 * left {
            return Err(Refusal::ShortBody);
        }
        if out.len() < left {
            return Err(Refusal::ShortOutput);
        }
        copy_u32s(body, self.at, left, out);
        Ok(left)
    }
}

impl Block {
    // The block's bytes, as far as the body reaches.
    pub fn bytes(self, body: &[u8]) -> &[u8]
        ensures { result.now ≡ take self.len (drop self.start body.now) }
    {
        let start = self.start;
        let len = self.len;
        if body.len() <= start {
            return &body[..0];
        }
        if len <= body.len() - start {
            let end = start + len;
            return &body[start..end];
        }
        &body[start..]
    }
}

impl CString {
    // The string's bytes without its zero, as far as the body reaches.
    pub fn bytes(self, body: &[u8]) -> &[u8]
        ensures { result.now ≡ take self.len (drop self.start body.now) }
    {
        let range = Block {
            start: self.start,
            len: self.len,
        };
        range.bytes(body)
    }
}

// ---- copying

fn copy_bytes(body: &[u8], start: usize, len: usize, out: &mut [u8])
    requires { (start + len ≤ length body.now) × (len ≤ length out.old) }
    ensures { out.new ≡ take len (drop start body.now) ++ drop len out.old }
{
    for i in 0..len {
        out[i] = body[start + i];
    }
}

fn copy_units(body: &[u8], start: usize, n: usize, out: &mut [u16])
    requires { (2 * n ≤ length body.now - start) × (n ≤ length out.old) }
    ensures { out.new ≡ units_of n (drop start body.now) ++ drop n out.old }
{
    for i in 0..n {
        let k = start + 2 * i;
        out[i] = u16::from_le_bytes([body[k], body[k + 1]]);
    }
}

fn copy_u32s(body: &[u8], start: usize, n: usize, out: &mut [u32])
    requires { (4 * n ≤ length body.now - start) × (n ≤ length out.old) }
    ensures { (took n, out.new) ≡ copy_numbers 4 body.now start n out.old }
{
    for i in 0..n {
        let k = start + 4 * i;
        out[i] = u32::from_le_bytes([body[k], body[k + 1], body[k + 2], body[k + 3]]);
    }
}

// The string that starts where `string` does, without its zero, into the first bytes of `out`; its end is searched in the body given. Its
// limit is the body's length, which no string in it exceeds: so none is tested.
pub fn copy_cstring(body: &[u8], string: CString, out: &mut [u8]) -> Result<usize, Refusal>
    ensures { (answer_says result, out.new) ≡ copy_cstring body.now string.start out.old }
{
    let Some(len) = bytes_before_zero(body, string.start) else {
        return Err(Refusal::NoZero);
    };
    if out.len() < len {
        return Err(Refusal::ShortOutput); // fewer bytes than the string has
    }
    copy_bytes(body, string.start, len, out);
    Ok(len)
}

// The same of units.
pub fn copy_ucs2(body: &[u8], string: Ucs2, out: &mut [u16]) -> Result<usize, Refusal>
    ensures { (answer_says result, out.new) ≡ copy_ucs2 body.now string.start out.old }
{
    let Some(n) = units_before_zero(body, string.start) else {
        return Err(Refusal::NoZero); // no zero unit
    };
    if out.len() < n {
        return Err(Refusal::ShortOutput); // fewer units than the string has
    }
    copy_units(body, string.start, n, out);
    Ok(n)
}
