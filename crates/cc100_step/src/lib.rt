// cc100_step: one step of a state as bytes.
#![tactic(auto)]

ghost use Rattle.std.specs.Prelude.{◌≡◌};
ghost use Rattle.effect.specs.Touched.{cell};
ghost use Rattle.cc100.specs.Calls as Spec;

use effect::effect::Cell;
use machine::step::Stepped;
use refusal::Refusal;

// struct cc100_stepped; width 0: no access. The C interface: flat as in cc100.h, and RanAnswer of cc100_run is a struct of its own.
#[repr(C)]
#[derive(Clone, Copy)]
pub struct SteppedAnswer {
    pub number: u32,
    pub address: u32,
    pub width: u32,
    pub store: u32,
}

impl From<Result<Stepped, Refusal>> for SteppedAnswer {
    ghost use Rattle.cc100.specs.Calls.{IsStepped};

    ghost from_gives = { λ r a. IsStepped r a.number a.address a.width a.store };

    fn from(r: Result<Stepped, Refusal>) -> SteppedAnswer {
        let (number, touched) = match r {
            Ok(s) => (effect::exit::number(s.exit), s.touched),
            Err(e) => (u32::from(e), None),
        };
        let cell = Cell::from(touched);
        SteppedAnswer {
            number,
            address: cell.address,
            width: cell.width,
            store: cell.store,
        }
    }
}

// cc100_run and cc100_resume have the same lines around theirs: a function of all would take a closure, and have to state what any call leaves.
fn stepped(state: &mut [u8], memory: &mut [u8]) -> Result<Stepped, Refusal>
    ensures { Spec.step_says result state.new memory.new ≡ Spec.step_call state.old memory.old }
{
    let s = cc100::decode(state, memory.len())?;
    let r = s.step(memory)?;
    codec::encode::encode(r.state, state)?;
    Ok(r)
}

pub fn cc100_step(state: &mut [u8], memory: &mut [u8]) -> SteppedAnswer
    ensures { Spec.step_answer result.number (cell result.address result.width result.store) state.new memory.new ≡ Spec.step_call state.old memory.old }
{
    SteppedAnswer::from(stepped(state, memory))
}
