// The patch book: at most 256 fixtures, each with its span of channels in a universe, an entry in each of the words that a caller lends.
#![tactic(auto)]

ghost use Rattle.std.specs.Prelude.{◌+◌, ◌<◌, ◌≤◌, ◌≡◌, ◌&&◌, eqb, leb, length, take, MatchResult};
ghost use Rattle.patching.specs.Entry.{fields, insert};
ghost use Rattle.patching.specs.Book.{others, ptch, uptc, patch, change, room_in, held, overwrite, answer, taken_in, free_in, entry_at};
ghost use Rattle.channels.specs.Free.{free_of};
ghost use Rattle.book.specs.Listed.{struct_of, listed_of};
ghost use Rattle.book.specs.Booked.{booked};
ghost use Rattle.book.specs.Scan.{Ahead, Finds, Clashes, remove_at, insert_at};

use entries::{
    before, channel, channel_count, entry_of, identifier, misfits, same, shares, universe,
};
use fptc::{Ptch, UPtc};
use refusal::Refusal;
use unpatch::{drop_listed, drop_one};

// A fixture's span of channels in a universe, counted from 0.
#[derive(Clone, Copy)]
pub struct Entry {
    pub fixture_identifier: u16,
    pub universe: u16,
    pub channel: u16,
    pub channel_count: u16,
}

// How many of the words lent are entries.
#[derive(Clone, Copy)]
pub struct Book {
    pub count: usize,
}

// What an entry says.
fn fields_of(entry: u64) -> Entry
    ensures { result ≡ struct_of (fields entry) }
{
    Entry {
        fixture_identifier: identifier(entry) as u16,
        universe: universe(entry) as u16,
        channel: channel(entry) as u16,
        channel_count: channel_count(entry) as u16,
    }
}

// ---- what an entry meets among those held

// Where an entry goes: the hole that its fixture's entry leaves, the last if there are several, or the end; how many these are; and how many
// entries of other fixtures stay ahead of it.
#[derive(Clone, Copy)]
struct Place {
    hole: usize,
    own_count: usize,
    to: usize,
}

// Up to the first entry of another fixture that it is listed before.
fn meet_ahead(entries: &[u64], entry: u64) -> Result<Place, Refusal>
    ensures { MatchResult result (Ahead entry entries.now) (Clashes entry entries.now) }
{
    let mut hole = entries.len();
    let mut own_count = 0;
    for i in 0..entries.len() {
        let x = entries[i];
        if same(entry, x) {
            hole = i;
            own_count += 1;
            continue;
        }
        if before(entry, x) {
            return Ok(Place {
                hole,
                own_count,
                to: i - own_count,
            });
        }
        if shares(entry, x) {
            return Err(Refusal::Shared);
        }
    }
    Ok(Place {
        hole,
        own_count,
        to: entries.len() - own_count,
    })
}

// The rest of them.
fn meet_behind(entries: &[u64], entry: u64, ahead: Place) -> Result<Place, Refusal>
    requires { Ahead entry entries.now ahead }
    ensures { MatchResult result (Finds entry entries.now) (Clashes entry entries.now) }
{
    let mut place = ahead;
    for i in ahead.to + ahead.own_count..entries.len() {
        let x = entries[i];
        if same(entry, x) {
            place.hole = i;
            place.own_count += 1;
            continue;
        }
        if shares(x, entry) {
            return Err(Refusal::Shared);
        }
    }
    Ok(place)
}

// Compares an entry with all that are held.
fn find(entries: &[u64], entry: u64) -> Result<Place, Refusal>
    ensures { MatchResult result (Finds entry entries.now) (Clashes entry entries.now) }
{
    let ahead = meet_ahead(entries, entry)?;
    meet_behind(entries, entry, ahead)
}

// ---- an entry put in its place

// Moves the entries from behind a hole up to `to` into it, and puts an entry at `to`.
fn shift_down(entries: &mut [u64], hole: usize, to: usize, entry: u64)
    requires { (hole ≤ to) × (to < length entries.old) }
    ensures { entries.new ≡ insert_at to entry (remove_at hole entries.old) }
{
    for i in hole..to {
        entries[i] = entries[i + 1];
    }
    entries[to] = entry;
}

// Moves the entries from `to` up to a hole by one, and puts an entry at `to`.
fn shift_up(entries: &mut [u64], hole: usize, to: usize, entry: u64)
    requires { (to ≤ hole) × (hole < length entries.old) }
    ensures { entries.new ≡ insert_at to entry (remove_at hole entries.old) }
{
    for i in (to..hole).rev() {
        entries[i + 1] = entries[i];
    }
    entries[to] = entry;
}

// Moves the entries between a hole and `to` by one, and puts an entry at `to`.
fn shift(entries: &mut [u64], hole: usize, to: usize, entry: u64)
    requires { (hole < length entries.old) × (to < length entries.old) }
    ensures { entries.new ≡ insert_at to entry (remove_at hole entries.old) }
{
    if hole < to {
        shift_down(entries, hole, to, entry);
        return;
    }
    shift_up(entries, hole, to, entry);
}

// Puts an entry in place of its fixture's; how many there are then. A book that messages made has at most one of a fixture.
fn replace(entries: &mut [u64], held: usize, entry: u64, place: Place) -> usize
    requires { (held ≤ length entries.old) × Finds entry (take held entries.old) place
        × (length (others entry (take held entries.old)) < length entries.old) }
    ensures { (result ≡ length (insert entry (others entry (take held entries.old))))
        × (entries.new ≡ overwrite (insert entry (others entry (take held entries.old))) entries.old) }
{
    if place.own_count < 2 {
        shift(entries, place.hole, place.to, entry);
        return held + 1 - place.own_count;
    }
    let kept = drop_one(&mut entries[..held], identifier(entry));
    shift(entries, kept, place.to, entry);
    kept + 1
}

// ---- the book

// How many entries the words lent have room for.
fn room(entries: &[u64]) -> usize
    ensures { result ≡ room_in entries.now }
{
    entries.len().min(256)
}

// Whether a fixture with so many entries of its own is new, and as many are held as there is room for.
fn is_full(own_count: usize, held: usize, room: usize) -> bool
    ensures { result ≡ (eqb own_count 0 && leb room held) }
{
    own_count == 0 && room <= held
}

impl Book {
    // A book that holds nothing.
    pub fn new() -> Book
        ensures { result.count ≡ 0 }
    {
        Book { count: 0 }
    }

    // How many fixtures it holds, in the words lent.
    pub fn held(self, entries: &[u64]) -> usize
        ensures { result ≡ length (held self.count entries.now) }
    {
        self.count.min(room(entries))
    }

    // The k-th entry, from 0.
    pub fn entry(self, entries: &[u64], k: usize) -> Option<Entry>
        ensures { result ≡ listed_of (entry_at k (held self.count entries.now)) }
    {
        if k < self.held(entries) {
            return Some(fields_of(entries[k]));
        }
        None
    }

    // How many channels of a universe are taken.
    pub fn taken(self, entries: &[u64], universe: u16) -> u16
        ensures { result ≡ taken_in universe (held self.count entries.now) }
    {
        let held = self.held(entries);
        channels::taken(&entries[..held], universe)
    }

    // The first free channel of a universe.
    pub fn first_free(self, entries: &[u64], universe: u16) -> Option<u16>
        ensures { result ≡ free_of (free_in universe (held self.count entries.now)) }
    {
        let held = self.held(entries);
        channels::first_free(&entries[..held], universe)
    }

    // An entry put in place of its fixture's, unless it is refused: the book then stays.
    fn set(self, entries: &mut [u64], entry: u64) -> Result<Book, Refusal>
        ensures { booked self.count result entries.new ≡ answer (patch (fields entry)) self.count entries.old }
    {
        if misfits(entry) {
            return Err(Refusal::Channels);
        }
        let held = self.held(entries);
        let place = find(&entries[..held], entry)?;
        if is_full(place.own_count, held, room(entries)) {
            return Err(Refusal::Full);
        }
        let count = replace(entries, held, entry, place);
        Ok(Book { count })
    }

    // The body of a Ptch: a fixture patched anew, or in place of what it was. A refusal leaves the book and the words as they are.
    pub fn patch(self, entries: &mut [u64], body: &[u8]) -> Result<Book, Refusal>
        ensures { booked self.count result entries.new ≡ answer (change (ptch body.now)) self.count entries.old }
    {
        let (p, _) = Ptch::read_from_bytes(body)?;
        let entry = entry_of(
            p.fixture_identifier,
            p.universe as u16,
            p.channel,
            p.channel_count,
        );
        self.set(entries, entry)
    }

    // The body of a UPtc: the fixtures listed are dropped, and where none is listed, all.
    pub fn unpatch(self, entries: &mut [u64], body: &[u8]) -> Result<Book, Refusal>
        ensures { booked self.count result entries.new ≡ answer (change (uptc body.now)) self.count entries.old }
    {
        let (u, _) = UPtc::read_from_bytes(body)?;
        let from = u.fixture_identifiers.at;
        let to = from + 2 * u.fixture_identifiers.left as usize;
        let held = self.held(entries);
        let count = drop_listed(&mut entries[..held], &body[from..to]);
        Ok(Book { count })
    }
}
