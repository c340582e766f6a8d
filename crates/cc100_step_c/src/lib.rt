// One step of a state as bytes, for C. A crate of its own: one is built for other crates or for C, not for both, and `steps` calls it too.
#![tactic(auto)]

ghost use Rattle.std.specs.Prelude.{◌≡◌};
ghost use Rattle.effect.specs.Touched.{cell};
ghost use Rattle.cc100.specs.Calls as Spec;

use cc100_step::SteppedAnswer;

#[unsafe(no_mangle)]
pub extern "C" fn cc100_step(state: &mut [u8], memory: &mut [u8]) -> SteppedAnswer
    ensures { Spec.step_answer result.number (cell result.address result.width result.store) state.new memory.new ≡ Spec.step_call state.old memory.old }
{
    cc100_step::cc100_step(state, memory)
}
