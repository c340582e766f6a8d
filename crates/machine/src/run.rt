// A run: steps repeated, the refusals tried once. Its loop does by effect_at and apply what a step does: an exit is a part of a step's answer, and the
// end of a run.
ghost use Rattle.std.specs.Prelude.{◌≡◌};
ghost use Rattle.machine.specs.Run as Spec;

use crate::state::State;
use crate::step::effect_at;
use apply::apply;
use effect::effect::Touched;
use effect::exit::Exit;
use refusal::Refusal;

// The state reached, the exit that the run ends in (none: still running), the steps completed, and the last access among them. The state first: with the
// access before it, both are copied as one, by memcpy, which the archive for C has to do without.
#[derive(Clone, Copy)]
pub struct Ran {
    pub state: State,
    pub exit: Option<Exit>,
    pub steps: u32,
    pub touched: Option<Touched>,
}

impl State {
    #[tactic(auto, using(crate::proofs::Runs::refused_as))]
    pub fn run(self, memory: &mut [u8], budget: u32) -> Result<Ran, Refusal>
        ensures { Spec.answer_of self result memory.new ≡ Spec.run_of self memory.old budget }
    {
        self.refusal(memory.len())?;
        // Taken apart: with one `state` that apply changes in place, a run takes 1.25 to 1.34 times the time.
        let State {
            mut registers,
            mut special,
        } = self;
        let mut touched = None;
        // A loop that counts, as the steps completed before an exit are answered.
        for steps in 0..budget {
            special = match effect_at(special, &registers, memory) {
                Ok(e) => apply(e, special, &mut registers, memory, &mut touched),
                Err(exit) => {
                    return Ok(Ran {
                        exit: Some(exit),
                        steps,
                        touched,
                        state: State { registers, special },
                    });
                }
            };
        }
        Ok(Ran {
            exit: None,
            steps: budget,
            touched,
            state: State { registers, special },
        })
    }
}
