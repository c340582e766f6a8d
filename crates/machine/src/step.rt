// One step: fetched, read, decided, carried out.
ghost use Rattle.std.specs.Prelude.{◌≡◌, true, ◌<◌, ◌^◌, length};
ghost use Rattle.std.specs.Result.{IfOk};
ghost use Rattle.effect.specs.Sound.{Performable};
ghost use Rattle.machine.specs.State.{register_of, join_of, is_lawful};
ghost use Rattle.machine.specs.Apply.{apply_of};
ghost use Rattle.machine.specs.Step as Spec;

use crate::state::State;
use effect::effect::{Effect, Special, Touched};
use effect::exit::Exit;
use refusal::{Ending, Refusal};

// The exit that the step ends in, the access that it completes, and the state that it leaves. Ran of a run has the steps beside; C has a struct for
// each.
#[derive(Clone, Copy)]
pub struct Stepped {
    pub exit: Option<Exit>,
    pub touched: Option<Touched>,
    pub state: State,
}

// r is below 32 by a clause, as at `write` of parts.
fn register(registers: &[u32; 32], r: u32) -> u32
    requires { r < 2 ^ 5 }
    ensures { (result ≡ register_of registers.now r) × (result < 2 ^ 32) }
{
    registers[r as usize]
}

// Of a state by parts, as a run holds it. What its step does, or the exit in which it ends; where the state is lawful, an effect can be carried out and
// leads to a lawful state.
pub(crate) fn effect_at(c: Special, registers: &[u32; 32], memory: &[u8]) -> Result<Effect, Exit>
    ensures { (result ≡ Spec.effect_at (join_of registers.now c) memory.now) × (is_lawful (join_of registers.now c) ≡ true → IfOk result (λ e. Performable e (length memory.now) × (is_lawful (apply_of e (join_of registers.now c) memory.now).state ≡ true))) }
{
    let at = c.pc as usize;
    let n = memory.len();
    Exit::Fetch.when(n < at + 4)?;
    let w = word::bytes::load::<4>(memory, at);
    let i = reader::read(w).ok_or(Exit::NoInstruction)?;
    // b first: a run takes 1.06 to 1.13 times the time with a first, as the compiled code lies otherwise (docs/DECISIONS.md, Pages).
    let b = register(registers, i.rt);
    let a = register(registers, i.rs);
    decision::decide(i, a, b, c, n)
}

impl State {
    #[tactic(auto, using(crate::proofs::Steps::refused_as))]
    pub fn step(self, memory: &mut [u8]) -> Result<Stepped, Refusal>
        ensures { Spec.answer_of self result memory.new ≡ Spec.step_of self memory.old }
    {
        self.refusal(memory.len())?;
        // A Stepped for each end: with one for both, cc100_step took 1.3 times the time.
        let mut registers = self.registers;
        let mut touched = None;
        match effect_at(self.special, &registers, memory) {
            Ok(e) => {
                let special = apply::apply(e, self.special, &mut registers, memory, &mut touched);
                Ok(Stepped {
                    exit: None,
                    touched,
                    state: State { registers, special },
                })
            }
            Err(exit) => Ok(Stepped {
                exit: Some(exit),
                touched,
                state: self,
            }),
        }
    }
}
