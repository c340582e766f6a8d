// Arithmetic, constants, shifts, multiplication and division. a is GPR[rs], b is GPR[rt].
#![tactic(auto)]

ghost use Rattle.std.specs.Prelude.{◌≡◌};
ghost use Rattle.arithmetic.specs.Arithmetic as Spec;

use effect::effect::Effect;
use effect::exit::Exit;
use isa::kind::{Alu, Immediate, Multiply, Shift};

// What LO gets by a division by zero (document 02, Ticket 4).
const NO_QUOTIENT: u32 = 0xFFFF_FFFF;

// A line for each instruction, here and below, as document 004 has them.
#[tactic(auto, using(crate::proofs::Sums::sum_written, crate::proofs::Sums::sum_exits), unfolding(crate::specs::Arithmetic::bit))]
pub fn alu(k: Alu, rd: u32, a: u32, b: u32) -> Result<Effect, Exit>
    ensures { result ≡ Spec.alu_of k rd a b }
{
    let value = match k {
        Alu::Add => signed::checked_sum(a, b).ok_or(Exit::IntegerOverflow)?,
        Alu::Addu => a.wrapping_add(b),
        Alu::Sub => signed::checked_difference(a, b).ok_or(Exit::IntegerOverflow)?,
        Alu::Subu => a.wrapping_sub(b),
        Alu::Slt => u32::from(signed::less(a, b)),
        Alu::Sltu => u32::from(a < b),
        Alu::And => a & b,
        Alu::Or => a | b,
        Alu::Xor => a ^ b,
        Alu::Nor => !(a | b),
    };
    Ok(Effect::Write(rd, value))
}

#[tactic(auto, using(crate::proofs::Sums::sum_written, crate::proofs::Sums::sum_exits), unfolding(crate::specs::Arithmetic::bit))]
pub fn immediate(k: Immediate, rt: u32, a: u32, v: u32) -> Result<Effect, Exit>
    ensures { result ≡ Spec.immediate_of k rt a v }
{
    let x = word::number::extend::<16>(v);
    let value = match k {
        Immediate::Addi => signed::checked_sum(a, x).ok_or(Exit::IntegerOverflow)?,
        Immediate::Addiu => a.wrapping_add(x),
        Immediate::Slti => u32::from(signed::less(a, x)),
        Immediate::Sltiu => u32::from(a < x),
        Immediate::Andi => a & (v & 0xFFFF),
        Immediate::Ori => a | (v & 0xFFFF),
        Immediate::Xori => a ^ (v & 0xFFFF),
        Immediate::Lui => v << 16,
    };
    Ok(Effect::Write(rt, value))
}

#[tactic(auto, unfolding(crate::specs::Arithmetic::shifted_left, crate::specs::Arithmetic::shifted_right, crate::specs::Arithmetic::shifted_signed))]
pub fn shift(k: Shift, rd: u32, a: u32, b: u32, sa: u32) -> Effect
    ensures { result ≡ Spec.shift_of k rd a b sa }
{
    let value = match k {
        Shift::Sll => b << (sa % 32),
        Shift::Srl => b >> (sa % 32),
        Shift::Sra => signed::shift_right(b, sa % 32),
        Shift::Sllv => b << (a % 32),
        Shift::Srlv => b >> (a % 32),
        Shift::Srav => signed::shift_right(b, a % 32),
    };
    Effect::Write(rd, value)
}

#[tactic(auto, unfolding(crate::specs::Arithmetic::product))]
fn product(p: u64) -> Effect
    ensures { result ≡ Spec.product p }
{
    Effect::Pair((p >> 32) as u32, (p & 0xFFFF_FFFF) as u32)
}

// Each arm names its effect: some write a register, some set HI and LO.
#[tactic(auto, unfolding(crate::specs::Arithmetic::divided))]
pub fn multiply(k: Multiply, rd: u32, a: u32, b: u32, hi: u32, lo: u32) -> Effect
    ensures { result ≡ Spec.multiply_of k rd a b hi lo }
{
    match k {
        Multiply::Mult => product(signed::product(a, b)),
        Multiply::Multu => product(u64::from(a) * u64::from(b)),
        Multiply::Div | Multiply::Divu if b == 0 => Effect::Pair(a, NO_QUOTIENT),
        Multiply::Div => Effect::Pair(signed::remainder(a, b), signed::quotient(a, b)),
        Multiply::Divu => Effect::Pair(a % b, a / b),
        Multiply::Mfhi => Effect::Write(rd, hi),
        Multiply::Mthi => Effect::Pair(a, lo),
        Multiply::Mflo => Effect::Write(rd, lo),
        Multiply::Mtlo => Effect::Pair(hi, a),
    }
}
