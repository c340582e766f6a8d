// cc100_run: a run of a state as bytes.
#![tactic(auto)]

ghost use Rattle.std.specs.Prelude.{◌≡◌};
ghost use Rattle.effect.specs.Touched.{cell};
ghost use Rattle.cc100.specs.Calls as Spec;

use effect::effect::Cell;
use machine::run::Ran;
use refusal::Refusal;

// struct cc100_ran; number 0: still running; width 0: no access. The C interface: flat as in cc100.h, and SteppedAnswer of cc100_step is a struct of
// its own.
#[repr(C)]
#[derive(Clone, Copy)]
pub struct RanAnswer {
    pub number: u32,
    pub steps: u32,
    pub address: u32,
    pub width: u32,
    pub store: u32,
}

impl From<Result<Ran, Refusal>> for RanAnswer {
    ghost use Rattle.cc100.specs.Calls.{IsRan};

    ghost from_gives = { λ r a. IsRan r a.number a.steps a.address a.width a.store };

    fn from(r: Result<Ran, Refusal>) -> RanAnswer {
        let (number, steps, touched) = match r {
            Ok(s) => (effect::exit::number(s.exit), s.steps, s.touched),
            Err(e) => (u32::from(e), 0, None),
        };
        let cell = Cell::from(touched);
        RanAnswer {
            number,
            steps,
            address: cell.address,
            width: cell.width,
            store: cell.store,
        }
    }
}

// cc100_step and cc100_resume have the same lines around theirs: a function of all would take a closure, and have to state what any call leaves.
fn ran(state: &mut [u8], memory: &mut [u8], budget: u32) -> Result<Ran, Refusal>
    ensures { Spec.run_says result state.new memory.new ≡ Spec.run_call state.old memory.old budget }
{
    let s = cc100::decode(state, memory.len())?;
    let r = s.run(memory, budget)?;
    codec::encode::encode(r.state, state)?;
    Ok(r)
}

#[unsafe(no_mangle)]
pub extern "C" fn cc100_run(state: &mut [u8], memory: &mut [u8], budget: u32) -> RanAnswer
    ensures { Spec.run_answer result.number result.steps (cell result.address result.width result.store) state.new memory.new ≡ Spec.run_call state.old memory.old budget }
{
    RanAnswer::from(ran(state, memory, budget))
}
