// cc100_resume: a resume of a state as bytes.
#![tactic(auto)]

ghost use Rattle.std.specs.Prelude.{◌≡◌};
ghost use Rattle.refusal.specs.Refusal.{refused_number};
ghost use Rattle.cc100.specs.Calls as Spec;

use refusal::Refusal;

// cc100_step and cc100_run have the same lines around theirs: a function of all would take a closure, and have to state what any call leaves.
fn resumed(state: &mut [u8], memory: &[u8]) -> Result<(), Refusal>
    ensures { Spec.answer (refused_number result) state.new memory.now ≡ Spec.resume_call state.old memory.now }
{
    let s = cc100::decode(state, memory.len())?;
    let after = s.resume(memory)?;
    codec::encode::encode(after, state)
}

// C has no Result: 0, or the number of the refusal.
#[unsafe(no_mangle)]
pub extern "C" fn cc100_resume(state: &mut [u8], memory: &[u8]) -> u32
    ensures { Spec.answer result state.new memory.now ≡ Spec.resume_call state.old memory.now }
{
    resumed(state, memory).err().map_or(0, u32::from)
}
