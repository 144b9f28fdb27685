// The walk.
ghost use Rattle.std.specs.Prelude.{◌≡◌};
ghost use Rattle.protocol.specs.Step.{step_at};
ghost use Rattle.plain.specs.Report.{flat_step};

use citp::Cursor;
use plain::report::{StepAnswer, step_answer};

#[unsafe(no_mangle)]
pub extern "C" fn citp_walk_step(stream: &[u8], at: usize) -> StepAnswer
    ensures { result ≡ flat_step (step_at stream.now at) }
{
    let c = Cursor { at };
    step_answer(at, c.step(stream))
}
