// Traps. a is GPR[rs], b is GPR[rt].
#![tactic(auto)]

ghost use Rattle.std.specs.Prelude.{◌≡◌};
ghost use Rattle.trap.specs.Trap as Spec;

use effect::effect::Effect;
use effect::exit::Exit;
use isa::kind::Trap;
use refusal::Ending;

// A line for each instruction, also where two compare the same, as document 004 has them.
#[tactic(auto, using(signed::proofs::Words::casts))]
fn condition(k: Trap, a: u32, b: u32, v: u32) -> bool
    ensures { result ≡ Spec.condition k a b v }
{
    let x = word::number::extend::<16>(v);
    match k {
        Trap::Tge => b.cast_signed() <= a.cast_signed(),
        Trap::Tgeu => b <= a,
        Trap::Tlt => a.cast_signed() < b.cast_signed(),
        Trap::Tltu => a < b,
        Trap::Teq => a == b,
        Trap::Tne => a != b,
        Trap::Tgei => x.cast_signed() <= a.cast_signed(),
        Trap::Tgeiu => x <= a,
        Trap::Tlti => a.cast_signed() < x.cast_signed(),
        Trap::Tltiu => a < x,
        Trap::Teqi => a == x,
        Trap::Tnei => a != x,
    }
}

#[tactic(auto, unfolding(crate::specs::Trap::trap_if))]
pub fn trap(k: Trap, a: u32, b: u32, v: u32) -> Result<Effect, Exit>
    ensures { result ≡ Spec.trap_of k a b v }
{
    Exit::Trap.when(condition(k, a, b, v))?;
    Ok(Effect::Advance)
}
