// The words of a guard, those that need one, and jumps.
ghost use Rattle.std.specs.Prelude.{◌≡◌, ◌||◌, eqb};
ghost use Rattle.view.specs.View.{by_register, is_jump, needs_guard, passes, word_view};
ghost use Rattle.view.specs.Guard.{is_mask_of, is_merge_of};

use crate::{code, set};
use word::field::Fields;

// Opcodes of LB, LH, LW, LBU, LHU, SB, SH, SW, LL and SC.
const ACCESSES: u64 = 0x01010b3b00000000;

// ANDI r,S,m, for some S and m.
pub fn is_mask(w: u32, r: u32) -> bool
    ensures { result ≡ is_mask_of r w }
{
    let f = Fields::from(w);
    (f.op, f.rt) == (code::ANDI, r)
}

// OR r,r,base.
pub fn is_merge(w: u32, base: u32, r: u32) -> bool
    ensures { result ≡ is_merge_of base r w }
{
    let merge = Fields {
        op: code::SPECIAL,
        rs: r,
        rt: base,
        rd: r,
        shift: 0,
        funct: code::OR,
    };
    Fields::from(w) == merge
}

// JR or JALR.
fn is_register_jump(w: u32) -> bool
    ensures { result ≡ passes by_register (word_view w) }
{
    let f = Fields::from(w);
    let jr = Fields {
        op: code::SPECIAL,
        rt: 0,
        rd: 0,
        shift: 0,
        funct: code::JR,
        ..f
    };
    let jalr = Fields {
        rd: f.rd,
        funct: code::JALR,
        ..jr
    };
    f == jr || f == jalr
}

// An access, JR or JALR.
pub fn needs_guard(w: u32) -> bool
    ensures { result ≡ passes needs_guard (word_view w) }
{
    let f = Fields::from(w);
    set::has(ACCESSES, f.op) || is_register_jump(w)
}

// J or JAL.
fn is_region_jump(op: u32) -> bool
    ensures { result ≡ eqb op 2 || eqb op 3 }
{
    matches!(op, code::J | code::JAL)
}

// J, JAL, JR or JALR.
pub fn is_jump(w: u32) -> bool
    ensures { result ≡ passes is_jump (word_view w) }
{
    let f = Fields::from(w);
    is_region_jump(f.op) || is_register_jump(w)
}
