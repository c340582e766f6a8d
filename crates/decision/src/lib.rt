// The effect of an instruction, or the exit in which it ends. a is GPR[rs], b is GPR[rt], n the memory's length. Each group is handed what its
// instructions look at, and `system`, where an instruction names a register, all of them: a head says what they depend on, which a struct of all that
// they share would not.
#![tactic(auto)]

ghost use Rattle.std.specs.Prelude.{◌≡◌};
ghost use Rattle.decision.specs.Decision.{decision_of};

use effect::effect::{Effect, Special};
use effect::exit::Exit;
use isa::kind::{Instruction, Kind};

#[tactic(auto, unfolding(crate::specs::Decision::decision_of))]
pub fn decide(i: Instruction, a: u32, b: u32, s: Special, n: usize) -> Result<Effect, Exit>
    ensures { result ≡ decision_of i a b s n }
{
    let kind = i.kind;
    match kind {
        Kind::Alu(k) => arithmetic::alu(k, i.rd, a, b),
        Kind::Immediate(k) => arithmetic::immediate(k, i.rt, a, i.value),
        Kind::Shift(k) => Ok(arithmetic::shift(k, i.rd, a, b, i.shift)),
        Kind::Multiply(k) => Ok(arithmetic::multiply(k, i.rd, a, b, s.hi, s.lo)),
        Kind::Access(k) => access::access(k, i.rt, a, b, i.value, s.ll, n),
        Kind::Branch(k) => branch::branch(k, i.rd, a, b, i.value, s.pc, s.next_pc),
        Kind::Trap(k) => trap::trap(k, a, b, i.value),
        Kind::System(k) => system::system(k, i.rt, i.rd, b, i.value, s),
    }
}
