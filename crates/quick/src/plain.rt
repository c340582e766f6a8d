// Plain words: instructions that break none of 8 to 15 and 22, wherever they stand. Most words of a module are plain.
ghost use Rattle.std.specs.Prelude.{◌≡◌, true};
ghost use Rattle.word.specs.Field.{Fit};
ghost use Rattle.quick.specs.Plain.{Plain, PlainWord};

use crate::{code, set};
use view::is_base;
use word::field::Fields;

// By the function, for opcode SPECIAL.
// SLLV, SRLV, SRAV, ADD to NOR, SLT, SLTU
const THREE_REGISTERS: u64 = 0x00000cff000000d0;
// SLL, SRL, SRA
const SHIFTS: u64 = 0x000000000000000d;
// MFHI, MFLO
const MOVES: u64 = 0x0000000000050000;
// MULT, MULTU, DIV, DIVU
const MULTIPLY: u64 = 0x000000000f000000;
// SYSCALL, and the traps TGE to TEQ and TNE, in which no field is blank
const FULL: u64 = 0x005f000000001000;

// By the opcode: ADDI to XORI.
const CONSTANTS: u64 = 0x0000000000007f00;

// `&` and `|`, which do not branch: with `&&` and `||`, and `matches!` for the sets, a check of 65,536 bytes took 1.14 times the time.
fn is_plain_special(f: Fields<u32>) -> bool
    requires { Fit f × (f.op ≡ 0) }
    ensures { result ≡ true → Plain f }
{
    let spared = !is_base(f.rd);
    let three = set::has(THREE_REGISTERS, f.funct) & (f.shift == 0);
    let shifts = set::has(SHIFTS, f.funct) & (f.rs == 0);
    // most words are one of these
    if three | shifts {
        return spared;
    }
    let moves = set::has(MOVES, f.funct) & ((f.rs == 0) & ((f.rt == 0) & (f.shift == 0)));
    let multiply = set::has(MULTIPLY, f.funct) & ((f.rd == 0) & (f.shift == 0));
    let full = set::has(FULL, f.funct);
    (moves | (multiply | full)) & spared
}

// A word that is not told to be plain may be so all the same.
pub fn is_plain(w: u32) -> bool
    ensures { result ≡ true → PlainWord w }
{
    let f = Fields::from(w);
    if f.op == code::SPECIAL {
        return is_plain_special(f);
    }
    let constant = set::has(CONSTANTS, f.op);
    let upper = (f.op == code::LUI) & (f.rs == 0);
    (constant | upper) & !is_base(f.rt)
}
