// The functions of include/citp.h for a dimmer rack: its universe, and the levels lent. Any values are a rack.
#![tactic(auto)]

ghost use Rattle.std.specs.Prelude.{◌≡◌};
ghost use Rattle.refusal.specs.Says.{number_says};
ghost use Rattle.dimming.specs.Levels.{chbk, chls, change, answer};

use dimmer::Dimmer;
use refusal::Refusal;

// 0, or the number of the refusal.
fn told(answer: Result<(), Refusal>) -> u8
    ensures { result ≡ number_says answer }
{
    match answer {
        Ok(()) => 0,
        Err(refusal) => refusal.number(),
    }
}

// The body of a ChBk; 0, or the number of the refusal.
#[unsafe(no_mangle)]
pub extern "C" fn citp_dimmer_chbk(universe_index: u8, levels: &mut [u8; 512], body: &[u8]) -> u8
    ensures { (result, levels.new) ≡ answer (change universe_index (chbk body.now)) levels.old }
{
    told(Dimmer { universe_index }.chbk(levels, body))
}

// The body of a ChLs; 0, or the number of the refusal.
#[unsafe(no_mangle)]
pub extern "C" fn citp_dimmer_chls(universe_index: u8, levels: &mut [u8; 512], body: &[u8]) -> u8
    ensures { (result, levels.new) ≡ answer (change universe_index (chls body.now)) levels.old }
{
    told(Dimmer { universe_index }.chls(levels, body))
}
