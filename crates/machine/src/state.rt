// The state (document 01, Machine), and what is refused of it.
ghost use Rattle.std.specs.Prelude.{◌≡◌};
ghost use Rattle.refusal.specs.Refusal.{refused_number};
ghost use Rattle.machine.specs.State as Spec;

use effect::effect::Special;
use refusal::{Ending, Refusal};
use word::bytes;

// The 32 registers, and the others.
#[derive(Clone, Copy)]
pub struct State {
    pub registers: [u32; 32],
    pub special: Special,
}

impl State {
    #[tactic(auto, unfolding(crate::specs::State::is_lawful))]
    fn is_lawful(self) -> bool
        ensures { result ≡ Spec.is_lawful self }
    {
        self.registers[0] == 0
            && self.special.pc % 4 == 0
            && self.special.next_pc % 4 == 0
            && self.special.status < 8192
    }

    // The refusals that step, run and resume try first. No type of states that are not refused: each step would have to make its value anew.
    #[tactic(auto, using(crate::proofs::Steps::no_refusal, crate::proofs::Steps::not_lawful))]
    pub fn refusal(self, length: usize) -> Result<(), Refusal>
        ensures { refused_number result ≡ Spec.refusal_of self length }
    {
        Refusal::MemoryTooLong.when(bytes::LONGEST < length)?;
        Refusal::State.when(!self.is_lawful())
    }
}
