// A word read: the kind that it leads to, and its fields by the drawing of that kind.
#![tactic(auto)]

ghost use Rattle.std.specs.Prelude.{◌≡◌};
ghost use Rattle.isa.specs.Reading.{read_of};

use crate::by_drawing::read_as;
use isa::kind::{Access, Alu, Branch, Immediate, Instruction, Kind, Multiply, Shift, System, Trap};

mod by_drawing;

// An arm for each kind, which names the kind anew: the compiler then knows the drawing, and makes one jump of this match, the tables and the decision
// of a step. With an arm for each group and format cc100_run took 1.2 to 1.6 times the time.
macro_rules! read_as_each {
    ($kind:expr, $word:expr; $($group:ident: $($name:ident),+;)+) => {
        match $kind {
            $($(Kind::$group($group::$name) => read_as(Kind::$group($group::$name), $word),)+)+
        }
    };
}

#[rattlefmt::skip]
pub fn read(w: u32) -> Option<Instruction>
    ensures { result ≡ read_of w }
{
    let kind = table::entry(w)?;
    read_as_each! {
        kind, w;
        Alu: Add, Addu, Sub, Subu, Slt, Sltu, And, Or, Xor, Nor;
        Immediate: Addi, Addiu, Slti, Sltiu, Andi, Ori, Xori, Lui;
        Shift: Sll, Srl, Sra, Sllv, Srlv, Srav;
        Multiply: Mult, Multu, Div, Divu, Mfhi, Mthi, Mflo, Mtlo;
        Access: Lb, Lbu, Sb, Lh, Lhu, Sh, Lw, Sw, Ll, Sc;
        Branch: J, Jal, Jr, Jalr, Beq, Bne, Blez, Bgtz, Bltz, Bgez, Bltzal, Bgezal;
        Trap: Tge, Tgeu, Tlt, Tltu, Teq, Tne, Tgei, Tgeiu, Tlti, Tltiu, Teqi, Tnei;
        System: Syscall, Break, Rfe, Mfc0, Mtc0, Sync;
    }
}
