// Jumps and branches. a is GPR[rs], b is GPR[rt].
#![tactic(auto)]

ghost use Rattle.std.specs.Prelude.{◌≡◌, ◌%◌, cond, eqb, Ok, Err};
ghost use Rattle.effect.specs.declared.exit.Exit.TheVariants as E;
ghost use Rattle.branch.specs.Branch as Spec;

use effect::effect::Effect;
use effect::exit::Exit;
use isa::kind::Branch;
use isa::register;
use refusal::Ending;

// Four more: the delay slot's address, and the program counter's advance. This and `link` are two functions of one shape, as the definition has two
// names, of 4 and of 8.
#[tactic(auto, unfolding(crate::specs::Branch::slot_of))]
pub fn slot(pc: u32) -> u32
    ensures { result ≡ Spec.slot_of pc }
{
    pc.wrapping_add(4)
}

#[tactic(auto, unfolding(crate::specs::Branch::link_of))]
fn link(pc: u32) -> u32
    ensures { result ≡ Spec.link_of pc }
{
    pc.wrapping_add(8)
}

#[tactic(auto, unfolding(crate::specs::Branch::relative_of))]
pub fn relative(pc: u32, offset: u32) -> u32
    ensures { result ≡ Spec.relative_of pc offset }
{
    slot(pc).wrapping_add(word::number::extend::<18>((offset & 0xFFFF) << 2))
}

#[tactic(auto, unfolding(crate::specs::Branch::region_of))]
pub fn region(pc: u32, index: u32) -> u32
    ensures { result ≡ Spec.region_of pc index }
{
    ((slot(pc) >> 28) << 28) + ((index & 0x03FF_FFFF) << 2)
}

#[tactic(auto, unfolding(crate::specs::Branch::branch_if))]
fn branch_if(t: bool, pc: u32, offset: u32) -> Effect
    ensures { result ≡ Spec.branch_if t pc offset }
{
    if t {
        Effect::Jump(relative(pc, offset))
    } else {
        Effect::Advance
    }
}

#[tactic(auto, unfolding(crate::specs::Branch::link_if))]
fn link_if(t: bool, pc: u32, next: u32, offset: u32) -> Effect
    ensures { result ≡ Spec.link_if t pc next offset }
{
    if t {
        Effect::Link(register::LINK, link(pc), relative(pc, offset))
    } else {
        Effect::Link(register::LINK, link(pc), slot(next))
    }
}

// The target of a jump, where it is word-aligned.
fn aligned(target: u32) -> Result<u32, Exit>
    ensures { result ≡ cond (eqb (target % 4) 0) (Ok target) (Err E.Address) }
{
    Exit::Address.when(target % 4 != 0)?;
    Ok(target)
}

#[tactic(auto, using(signed::proofs::Words::casts), unfolding(crate::specs::Branch::jump_if))]
pub fn branch(
    k: Branch,
    rd: u32,
    a: u32,
    b: u32,
    v: u32,
    pc: u32,
    next: u32,
) -> Result<Effect, Exit>
    ensures { result ≡ Spec.branch_of k rd a b v pc next }
{
    Ok(match k {
        Branch::J => Effect::Jump(region(pc, v)),
        Branch::Jal => Effect::Link(register::LINK, link(pc), region(pc, v)),
        Branch::Jr => Effect::Jump(aligned(a)?),
        Branch::Jalr => Effect::Link(rd, link(pc), aligned(a)?),
        Branch::Beq => branch_if(a == b, pc, v),
        Branch::Bne => branch_if(a != b, pc, v),
        Branch::Blez => branch_if(a.cast_signed() <= 0, pc, v),
        Branch::Bgtz => branch_if(0 < a.cast_signed(), pc, v),
        Branch::Bltz => branch_if(a.cast_signed() < 0, pc, v),
        Branch::Bgez => branch_if(0 <= a.cast_signed(), pc, v),
        Branch::Bltzal => link_if(a.cast_signed() < 0, pc, next, v),
        Branch::Bgezal => link_if(0 <= a.cast_signed(), pc, next, v),
    })
}
