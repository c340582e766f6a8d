// What each field of a format holds.
ghost use Rattle.std.specs.Prelude.{◌≡◌};
ghost use Rattle.isa.specs.Drawing as D;

use crate::format::Role::{Code, Control, Operand, Part};
use crate::format::{Drawing, Format, Role};

// The opcodes SPECIAL, REGIMM and COP0, a field drawn as zero, and the function field of RFE.
const SPECIAL: Role = Role::Fixed(0b000000);

const REGIMM: Role = Role::Fixed(0b000001);

const COP0: Role = Role::Fixed(0b010000);

const BLANK: Role = Role::Fixed(0);

const RETURN: Role = Role::Fixed(0b010000);

#[inline(always)]
fn drawn(op: Role, rs: Role, rt: Role, rd: Role, shift: Role, funct: Role) -> Drawing
    ensures { result ≡ D.drawn op rs rt rd shift funct }
{
    Drawing {
        op,
        rs,
        rt,
        rd,
        shift,
        funct,
    }
}

impl Format {
    #[inline(always)]
    pub fn drawing(self) -> Drawing
        ensures { result ≡ D.drawing_of self }
    {
        match self {
            Format::ThreeRegisters => drawn(SPECIAL, Operand, Operand, Operand, BLANK, Code),
            Format::ShiftAmount => drawn(SPECIAL, BLANK, Operand, Operand, Operand, Code),
            Format::TwoSources => drawn(SPECIAL, Operand, Operand, BLANK, BLANK, Code),
            Format::OneSource => drawn(SPECIAL, Operand, BLANK, BLANK, BLANK, Code),
            Format::OneTarget => drawn(SPECIAL, BLANK, BLANK, Operand, BLANK, Code),
            Format::SourceTarget => drawn(SPECIAL, Operand, BLANK, Operand, BLANK, Code),
            Format::SystemCode => drawn(SPECIAL, Part, Part, Part, Part, Code),
            Format::Barrier => drawn(SPECIAL, BLANK, BLANK, BLANK, Part, Code),
            Format::TrapCode => drawn(SPECIAL, Operand, Operand, Part, Part, Code),
            Format::Condition => drawn(REGIMM, Operand, Code, Part, Part, Part),
            Format::JumpIndex => drawn(Code, Part, Part, Part, Part, Part),
            Format::Constant => drawn(Code, Operand, Operand, Part, Part, Part),
            Format::BranchZero => drawn(Code, Operand, BLANK, Part, Part, Part),
            Format::UpperConstant => drawn(Code, BLANK, Operand, Part, Part, Part),
            Format::ControlMove => drawn(COP0, Code, Operand, Control, BLANK, BLANK),
            Format::ExceptionReturn => drawn(COP0, Code, BLANK, BLANK, BLANK, RETURN),
        }
    }
}
