// What step, run and resume on a state as bytes share: the refusals that come before those of a state.
#![tactic(auto)]

ghost use Rattle.cc100.specs.Calls.{Decodes};

use machine::state::State;
use refusal::{Ending, Refusal};

// The state that the bytes stand for, or the refusal that is due, memory's before that of bytes. No TryFrom: memory's length is asked too.
#[tactic(auto, using(crate::proofs::Calls::decodes))]
pub fn decode(bytes: &[u8], length: usize) -> Result<State, Refusal>
    ensures { Decodes bytes.now length result }
{
    Refusal::MemoryTooLong.when(word::bytes::LONGEST < length)?;
    codec::decode::decode(bytes)
}
