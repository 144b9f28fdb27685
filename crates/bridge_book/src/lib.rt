// The functions of include/citp.h for the patch book: a count, and the words lent with an entry in each. Any values are a book.
#![tactic(auto)]

ghost use Rattle.std.specs.Prelude.{◌≡◌, ℕ, List, length};
ghost use Rattle.patching.specs.Book.{ptch, uptc, change, answer, held, taken_in, free_in, entry_at};
ghost use Rattle.channels.specs.Free.{free_of};
ghost use Rattle.book.specs.Listed.{listed_of};
ghost use Rattle.book.specs.Booked.{booked};
ghost use Rattle.bridge_book.specs.Answer.{flat_entry, flat_free};

use book::Book;
use refusal::Refusal;

// The number of a message, 0 where it is taken, and the count after it.
#[repr(C)]
#[derive(Clone, Copy)]
pub struct BookAnswer {
    pub number: u8,
    pub count: usize,
}

// What is told of a message, by the count before it.
fn told(count: usize, answer: Result<Book, Refusal>) -> BookAnswer
    ensures { (ws : List ℕ) → (result.number, result.count, ws) ≡ booked count answer ws }
{
    match answer {
        Ok(book) => BookAnswer {
            number: 0,
            count: book.count,
        },
        Err(refusal) => BookAnswer {
            number: refusal.number(),
            count,
        },
    }
}

// The body of a Ptch.
#[unsafe(no_mangle)]
pub extern "C" fn citp_book_patch(count: usize, entries: &mut [u64], body: &[u8]) -> BookAnswer
    ensures { (result.number, result.count, entries.new)
        ≡ answer (change (ptch body.now)) count entries.old }
{
    let book = Book { count };
    told(count, book.patch(entries, body))
}

// The body of a UPtc.
#[unsafe(no_mangle)]
pub extern "C" fn citp_book_unpatch(count: usize, entries: &mut [u64], body: &[u8]) -> BookAnswer
    ensures { (result.number, result.count, entries.new)
        ≡ answer (change (uptc body.now)) count entries.old }
{
    let book = Book { count };
    told(count, book.unpatch(entries, body))
}

// How many entries it holds.
#[unsafe(no_mangle)]
pub extern "C" fn citp_book_entries(count: usize, entries: &[u64]) -> usize
    ensures { result ≡ length (held count entries.now) }
{
    let book = Book { count };
    book.held(entries)
}

// `given` is 1 with an entry; else the other fields are 0.
#[repr(C)]
#[derive(Clone, Copy)]
pub struct EntryAnswer {
    pub given: u8,
    pub fixture_identifier: u16,
    pub universe: u16,
    pub channel: u16,
    pub channel_count: u16,
}

// The k-th entry, from 0.
#[unsafe(no_mangle)]
pub extern "C" fn citp_book_entry(count: usize, entries: &[u64], k: usize) -> EntryAnswer
    ensures { result ≡ flat_entry (listed_of (entry_at k (held count entries.now))) }
{
    let book = Book { count };
    match book.entry(entries, k) {
        Some(e) => EntryAnswer {
            given: 1,
            fixture_identifier: e.fixture_identifier,
            universe: e.universe,
            channel: e.channel,
            channel_count: e.channel_count,
        },
        None => EntryAnswer {
            given: 0,
            fixture_identifier: 0,
            universe: 0,
            channel: 0,
            channel_count: 0,
        },
    }
}

// How many channels of a universe are taken.
#[unsafe(no_mangle)]
pub extern "C" fn citp_book_taken(count: usize, entries: &[u64], universe: u16) -> u16
    ensures { result ≡ taken_in universe (held count entries.now) }
{
    let book = Book { count };
    book.taken(entries, universe)
}

// A universe's first free channel; 512 where none is free.
#[unsafe(no_mangle)]
pub extern "C" fn citp_book_first_free(count: usize, entries: &[u64], universe: u16) -> u16
    ensures { result ≡ flat_free (free_of (free_in universe (held count entries.now))) }
{
    let book = Book { count };
    book.first_free(entries, universe).unwrap_or(512)
}
