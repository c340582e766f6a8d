// A resume after an exit: the state goes on behind the instruction that exited.
ghost use Rattle.std.specs.Prelude.{◌≡◌};
ghost use Rattle.effect.specs.Exit.{number_of};
ghost use Rattle.machine.specs.Resume as Spec;

use crate::state::State;
use effect::exit::Exit;
use refusal::Refusal;

#[tactic(auto, unfolding(crate::specs::Resume::is_served))]
fn is_served(exit: Exit) -> bool
    ensures { result ≡ Spec.is_served (number_of exit) }
{
    matches!(
        exit,
        Exit::IntegerOverflow | Exit::SystemCall | Exit::Breakpoint | Exit::Trap
    )
}

impl State {
    fn resumed(self) -> State
        ensures { result ≡ Spec.resumed_of self }
    {
        State {
            special: parts::linked(parts::advance(self.special), false),
            ..self
        }
    }

    // The state that goes on.
    #[tactic(auto, using(crate::proofs::Resumes::refused_as, crate::proofs::Resumes::resume_served, crate::proofs::Resumes::resume_not_served, crate::proofs::Resumes::resume_completed))]
    pub fn resume(self, memory: &[u8]) -> Result<State, Refusal>
        ensures { Spec.answer_of self result memory.now ≡ Spec.resume_of self memory.now }
    {
        self.refusal(memory.len())?;
        match crate::step::effect_at(self.special, &self.registers, memory) {
            Err(exit) if is_served(exit) => Ok(self.resumed()),
            _ => Err(Refusal::NotServed),
        }
    }
}
