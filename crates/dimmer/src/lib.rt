// A dimmer rack of one universe: the levels of its 512 channels, which a caller lends, as the bodies of ChBk and ChLs set them. It knows
// the packet library by its contracts alone.
#![tactic(auto)]

ghost use Rattle.std.specs.Prelude.{◌+◌, ◌*◌, ◌≤◌, ◌≡◌, false, length};
ghost use Rattle.std.proofs.lemmas.List.Edits.{sets};
ghost use Rattle.format.specs.Fault.{any};
ghost use Rattle.format.specs.View.{seen, view};
ghost use Rattle.protocol.specs.Kind.{channel_level_format};
ghost use Rattle.sdmx.specs.Says.{channel_level_view};
ghost use Rattle.dimming.specs.Levels.{chbk, chls, settings, change, is_past, set_all, answer};
ghost use Rattle.dimmer.specs.Settings.{start, block_set, records_set};
ghost use Rattle.refusal.specs.Says.{number_says};

use refusal::Refusal;
use sdmx::{ChBk, ChLs, ChannelLevel, ChannelLevels};
use wire::{Cursor, Item};

// The channels of a universe.
pub const CHANNELS: usize = 512;

// The universe that the rack listens to, counted from 0.
#[derive(Clone, Copy)]
pub struct Dimmer {
    pub universe_index: u8,
}

// ---- a channel block

// Sets the levels of a run of channels, one by one: copied whole, they would be a call of memcpy.
fn set_run(levels: &mut [u8; 512], first: usize, run: &[u8])
    requires { first + length run.now ≤ 512 }
    ensures { levels.new ≡ sets levels.old first run.now }
{
    for (i, level) in run.iter().enumerate() {
        levels[first + i] = *level;
    }
}

// ---- a channel list

// The record at an offset, read out of its own bytes: the compiler knows how many they are, and leaves no test of it.
fn record_at(body: &[u8], at: usize) -> ChannelLevel
    requires { at + 4 ≤ length body.now }
    ensures { view channel_level_format body.now at ≡ seen (channel_level_view result) (at + 4) }
{
    let end = at + ChannelLevel::WIDTH;
    let (x, _) = ChannelLevel::read(&body[at..end], Cursor::START).unwrap();
    x
}

// Whether a record for the universe names a channel past 511.
fn names_past(list: ChannelLevels, body: &[u8], universe_index: u8) -> bool
    requires { list.at + list.left * 4 ≤ length body.now }
    ensures { result ≡ any is_past (records_set universe_index body.now list.at list.left) }
{
    for i in 0..list.left as usize {
        let x = record_at(body, list.at + i * ChannelLevel::WIDTH);
        if CHANNELS <= x.channel as usize && x.universe_index == universe_index {
            return true;
        }
    }
    false
}

// Sets the channels of the records for the universe, of which none is past 511.
fn set_records(levels: &mut [u8; 512], list: ChannelLevels, body: &[u8], universe_index: u8)
    requires { (list.at + list.left * 4 ≤ length body.now)
        × (any is_past (records_set universe_index body.now list.at list.left) ≡ false) }
    ensures { levels.new
        ≡ set_all (records_set universe_index body.now list.at list.left) levels.old }
{
    for i in 0..list.left as usize {
        let x = record_at(body, list.at + i * ChannelLevel::WIDTH);
        if x.universe_index == universe_index {
            levels[x.channel as usize] = x.channel_level;
        }
    }
}

// ---- the rack

impl Dimmer {
    // A rack of a universe, all of whose levels are 0.
    pub fn new(universe_index: u8, levels: &mut [u8; 512]) -> Dimmer
        ensures { (result.universe_index, levels.new) ≡ start universe_index }
    {
        *levels = [0; 512];
        Dimmer { universe_index }
    }

    // A channel block that was read from a body.
    fn set_block(self, levels: &mut [u8; 512], x: ChBk, body: &[u8]) -> Result<(), Refusal>
        ensures { (number_says result, levels.new)
            ≡ answer (settings (block_set self.universe_index body.now x)) levels.old }
    {
        if x.blind != 0 || x.universe_index != self.universe_index {
            return Ok(());
        }
        let run = x.channel_levels.bytes(body);
        if run.is_empty() {
            return Ok(());
        }
        let first = x.first_channel as usize;
        if CHANNELS < first + run.len() {
            return Err(Refusal::PastUniverse);
        }
        set_run(levels, first, run);
        Ok(())
    }

    // A channel list that was read from a body.
    fn set_list(
        self,
        levels: &mut [u8; 512],
        list: ChannelLevels,
        body: &[u8],
    ) -> Result<(), Refusal>
        requires { list.at + list.left * 4 ≤ length body.now }
        ensures { (number_says result, levels.new)
            ≡ answer (settings (records_set self.universe_index body.now list.at list.left)) levels.old }
    {
        if names_past(list, body, self.universe_index) {
            return Err(Refusal::PastUniverse);
        }
        set_records(levels, list, body, self.universe_index);
        Ok(())
    }

    // The body of a ChBk: levels of consecutive channels.
    pub fn chbk(self, levels: &mut [u8; 512], body: &[u8]) -> Result<(), Refusal>
        ensures { (number_says result, levels.new)
            ≡ answer (change self.universe_index (chbk body.now)) levels.old }
    {
        let (x, _) = ChBk::read_from_bytes(body)?;
        self.set_block(levels, x, body)
    }

    // The body of a ChLs: levels of single channels, in list order.
    pub fn chls(self, levels: &mut [u8; 512], body: &[u8]) -> Result<(), Refusal>
        ensures { (number_says result, levels.new)
            ≡ answer (change self.universe_index (chls body.now)) levels.old }
    {
        let (x, _) = ChLs::read_from_bytes(body)?;
        self.set_list(levels, x.channel_levels, body)
    }
}
