// The packets of a sender's stream that a receiver does not support, by the capabilities of its last Capa: ChLs without channel lists, Sxus
// without per-universe external sources.
#![tactic(auto)]

ghost use Rattle.std.specs.Prelude.{◌≡◌, length, set};
ghost use Rattle.std.proofs.lemmas.List.Edits.{sets};
ghost use Rattle.format.specs.Refusals.{is_one_of};
ghost use Rattle.refusal.specs.Says.{number_says};
ghost use Rattle.citp.specs.Says.{report_says};
ghost use Rattle.supporting.specs.Offsets.{is_message_of, offsets_of, stop_of, answer};
ghost use Rattle.capabilities.specs.Support.{lacked_by, call_says};

use citp::{Cursor, Message, Report};
use header::Header;
use refusal::Refusal;
use sdmx::Capa;

// ---- what a receiver supports

#[derive(Clone, Copy)]
struct Support {
    channel_lists: bool,
    external_sources: bool,
}

impl Support {
    fn of(capabilities: &[u16]) -> Self
        ensures channel_lists_value { result.channel_lists ≡ is_one_of capabilities.now 1 }
        ensures external_sources_value { result.external_sources ≡ is_one_of capabilities.now 3 }
    {
        Self {
            channel_lists: capabilities.contains(&Capa::CHANNEL_LIST),
            external_sources: capabilities.contains(&Capa::PER_UNIVERSE_EXTERNAL_SOURCES),
        }
    }

    // Whether a packet is a message that is not supported.
    fn lacks(self, report: Report) -> bool
        ensures { result ≡ is_message_of (lacked_by self) (report_says report) }
    {
        match report {
            Report::Message(Message::Sdmx(m), _, _) => match m {
                sdmx::Message::ChLs(_) => !self.channel_lists,
                sdmx::Message::Sxus(_) => !self.external_sources,
                // the kinds that no capability stands for
                sdmx::Message::Capa(_) | sdmx::Message::UNam(_) | sdmx::Message::ChBk(_) => false,
            },
            _ => false,
        }
    }
}

// ---- the stream

// Puts an offset at a place of the list, where the list has it.
fn store(offsets: &mut [usize], n: usize, offset: usize)
    ensures { offsets.new ≡ set offsets.old n offset }
{
    if n < offsets.len() {
        offsets[n] = offset;
    }
}

// How many offsets there are, and how the walk ends: with the stream, or refused.
#[derive(Clone, Copy)]
pub struct Unsupported {
    pub count: usize,
    pub end: Result<(), Refusal>,
}

// Walks the stream once: the offsets of unsupported packets go into the list as far as it reaches, and all of them are counted.
fn walk(offsets: &mut [usize], s: &[u8], support: Support) -> Unsupported
    ensures count_value { result.count ≡ length (offsets_of (lacked_by support) s.now) }
    ensures end_value { number_says result.end ≡ stop_of s.now }
    ensures offsets_after { offsets.new ≡ sets offsets.old 0 (offsets_of (lacked_by support) s.now) }
{
    let mut count = 0;
    let mut c = Cursor::new();
    loop {
        match c.step(s) {
            Ok(Some((p, next))) => {
                c = next;
                if support.lacks(p.report) {
                    store(offsets, count, p.offset);
                    count += 1;
                }
            }
            Ok(None) => {
                return Unsupported { count, end: Ok(()) };
            }
            Err(r) => {
                return Unsupported { count, end: Err(r) };
            }
        }
    }
}

// ---- the call

// The list is too short for the offsets.
#[derive(Clone, Copy)]
pub struct TooFewPlaces {
    pub found: Unsupported,
}

impl TooFewPlaces {
    // The number of the call then.
    pub fn number(self) -> u8
        ensures { result ≡ 13 }
    {
        Refusal::ShortOutput.number()
    }
}

// The offsets of a sender's packets that a receiver with these capabilities does not support, into the first places of `offsets`; these stay
// as they are where they are too few. One place for each 20 bytes of the stream is always enough, and the stream is then walked once.
pub fn list_unsupported(
    capabilities: &[u16],
    s: &[u8],
    offsets: &mut [usize],
) -> Result<Unsupported, TooFewPlaces>
    ensures { call_says result offsets.new ≡ answer capabilities.now s.now offsets.old }
{
    let support = Support::of(capabilities);
    if s.len() / Header::LENGTH <= offsets.len() {
        return Ok(walk(offsets, s, support));
    }
    let found = walk(&mut [], s, support);
    if offsets.len() < found.count {
        return Err(TooFewPlaces { found });
    }
    if found.count == 0 {
        return Ok(found);
    }
    Ok(walk(offsets, s, support))
}
