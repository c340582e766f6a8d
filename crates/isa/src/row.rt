// The rows of the 72 instructions by number, each with its name, the format of its word and its code in that format.
ghost use Rattle.std.specs.Prelude.{◌≡◌, map};
ghost use Rattle.isa.specs.Table.{row_of, instructions};

use crate::format::Format;
use crate::kind::{Access, Alu, Branch, Immediate, Kind, Multiply, Shift, System, Trap};
use std::fmt;

#[derive(Clone, Copy)]
pub(crate) struct Row {
    pub kind: Kind,
    pub name: &'static str,
    pub format: Format,
    pub code: u32,
}

// In the order of document 004, section 1.2: the row of number n stands in place n, counted from 1.
#[rattlefmt::skip]
static ROWS: [Row; 72] = [
    Row { kind: Kind::Alu(Alu::Add), name: "ADD", format: Format::ThreeRegisters, code: 0b100000 },
    Row { kind: Kind::Immediate(Immediate::Addi), name: "ADDI", format: Format::Constant, code: 0b001000 },
    Row { kind: Kind::Immediate(Immediate::Addiu), name: "ADDIU", format: Format::Constant, code: 0b001001 },
    Row { kind: Kind::Alu(Alu::Addu), name: "ADDU", format: Format::ThreeRegisters, code: 0b100001 },
    Row { kind: Kind::Alu(Alu::And), name: "AND", format: Format::ThreeRegisters, code: 0b100100 },
    Row { kind: Kind::Immediate(Immediate::Andi), name: "ANDI", format: Format::Constant, code: 0b001100 },
    Row { kind: Kind::Branch(Branch::Beq), name: "BEQ", format: Format::Constant, code: 0b000100 },
    Row { kind: Kind::Branch(Branch::Bgez), name: "BGEZ", format: Format::Condition, code: 0b00001 },
    Row { kind: Kind::Branch(Branch::Bgezal), name: "BGEZAL", format: Format::Condition, code: 0b10001 },
    Row { kind: Kind::Branch(Branch::Bgtz), name: "BGTZ", format: Format::BranchZero, code: 0b000111 },
    Row { kind: Kind::Branch(Branch::Blez), name: "BLEZ", format: Format::BranchZero, code: 0b000110 },
    Row { kind: Kind::Branch(Branch::Bltz), name: "BLTZ", format: Format::Condition, code: 0b00000 },
    Row { kind: Kind::Branch(Branch::Bltzal), name: "BLTZAL", format: Format::Condition, code: 0b10000 },
    Row { kind: Kind::Branch(Branch::Bne), name: "BNE", format: Format::Constant, code: 0b000101 },
    Row { kind: Kind::System(System::Break), name: "BREAK", format: Format::SystemCode, code: 0b001101 },
    Row { kind: Kind::Multiply(Multiply::Div), name: "DIV", format: Format::TwoSources, code: 0b011010 },
    Row { kind: Kind::Multiply(Multiply::Divu), name: "DIVU", format: Format::TwoSources, code: 0b011011 },
    Row { kind: Kind::Branch(Branch::J), name: "J", format: Format::JumpIndex, code: 0b000010 },
    Row { kind: Kind::Branch(Branch::Jal), name: "JAL", format: Format::JumpIndex, code: 0b000011 },
    Row { kind: Kind::Branch(Branch::Jalr), name: "JALR", format: Format::SourceTarget, code: 0b001001 },
    Row { kind: Kind::Branch(Branch::Jr), name: "JR", format: Format::OneSource, code: 0b001000 },
    Row { kind: Kind::Access(Access::Lb), name: "LB", format: Format::Constant, code: 0b100000 },
    Row { kind: Kind::Access(Access::Lbu), name: "LBU", format: Format::Constant, code: 0b100100 },
    Row { kind: Kind::Access(Access::Lh), name: "LH", format: Format::Constant, code: 0b100001 },
    Row { kind: Kind::Access(Access::Lhu), name: "LHU", format: Format::Constant, code: 0b100101 },
    Row { kind: Kind::Access(Access::Ll), name: "LL", format: Format::Constant, code: 0b110000 },
    Row { kind: Kind::Immediate(Immediate::Lui), name: "LUI", format: Format::UpperConstant, code: 0b001111 },
    Row { kind: Kind::Access(Access::Lw), name: "LW", format: Format::Constant, code: 0b100011 },
    Row { kind: Kind::System(System::Mfc0), name: "MFC0", format: Format::ControlMove, code: 0b00000 },
    Row { kind: Kind::Multiply(Multiply::Mfhi), name: "MFHI", format: Format::OneTarget, code: 0b010000 },
    Row { kind: Kind::Multiply(Multiply::Mflo), name: "MFLO", format: Format::OneTarget, code: 0b010010 },
    Row { kind: Kind::System(System::Mtc0), name: "MTC0", format: Format::ControlMove, code: 0b00100 },
    Row { kind: Kind::Multiply(Multiply::Mthi), name: "MTHI", format: Format::OneSource, code: 0b010001 },
    Row { kind: Kind::Multiply(Multiply::Mtlo), name: "MTLO", format: Format::OneSource, code: 0b010011 },
    Row { kind: Kind::Multiply(Multiply::Mult), name: "MULT", format: Format::TwoSources, code: 0b011000 },
    Row { kind: Kind::Multiply(Multiply::Multu), name: "MULTU", format: Format::TwoSources, code: 0b011001 },
    Row { kind: Kind::Alu(Alu::Nor), name: "NOR", format: Format::ThreeRegisters, code: 0b100111 },
    Row { kind: Kind::Alu(Alu::Or), name: "OR", format: Format::ThreeRegisters, code: 0b100101 },
    Row { kind: Kind::Immediate(Immediate::Ori), name: "ORI", format: Format::Constant, code: 0b001101 },
    Row { kind: Kind::System(System::Rfe), name: "RFE", format: Format::ExceptionReturn, code: 0b10000 },
    Row { kind: Kind::Access(Access::Sb), name: "SB", format: Format::Constant, code: 0b101000 },
    Row { kind: Kind::Access(Access::Sc), name: "SC", format: Format::Constant, code: 0b111000 },
    Row { kind: Kind::Access(Access::Sh), name: "SH", format: Format::Constant, code: 0b101001 },
    Row { kind: Kind::Shift(Shift::Sll), name: "SLL", format: Format::ShiftAmount, code: 0b000000 },
    Row { kind: Kind::Shift(Shift::Sllv), name: "SLLV", format: Format::ThreeRegisters, code: 0b000100 },
    Row { kind: Kind::Alu(Alu::Slt), name: "SLT", format: Format::ThreeRegisters, code: 0b101010 },
    Row { kind: Kind::Immediate(Immediate::Slti), name: "SLTI", format: Format::Constant, code: 0b001010 },
    Row { kind: Kind::Immediate(Immediate::Sltiu), name: "SLTIU", format: Format::Constant, code: 0b001011 },
    Row { kind: Kind::Alu(Alu::Sltu), name: "SLTU", format: Format::ThreeRegisters, code: 0b101011 },
    Row { kind: Kind::Shift(Shift::Sra), name: "SRA", format: Format::ShiftAmount, code: 0b000011 },
    Row { kind: Kind::Shift(Shift::Srav), name: "SRAV", format: Format::ThreeRegisters, code: 0b000111 },
    Row { kind: Kind::Shift(Shift::Srl), name: "SRL", format: Format::ShiftAmount, code: 0b000010 },
    Row { kind: Kind::Shift(Shift::Srlv), name: "SRLV", format: Format::ThreeRegisters, code: 0b000110 },
    Row { kind: Kind::Alu(Alu::Sub), name: "SUB", format: Format::ThreeRegisters, code: 0b100010 },
    Row { kind: Kind::Alu(Alu::Subu), name: "SUBU", format: Format::ThreeRegisters, code: 0b100011 },
    Row { kind: Kind::Access(Access::Sw), name: "SW", format: Format::Constant, code: 0b101011 },
    Row { kind: Kind::System(System::Sync), name: "SYNC", format: Format::Barrier, code: 0b001111 },
    Row { kind: Kind::System(System::Syscall), name: "SYSCALL", format: Format::SystemCode, code: 0b001100 },
    Row { kind: Kind::Trap(Trap::Teq), name: "TEQ", format: Format::TrapCode, code: 0b110100 },
    Row { kind: Kind::Trap(Trap::Teqi), name: "TEQI", format: Format::Condition, code: 0b01100 },
    Row { kind: Kind::Trap(Trap::Tge), name: "TGE", format: Format::TrapCode, code: 0b110000 },
    Row { kind: Kind::Trap(Trap::Tgei), name: "TGEI", format: Format::Condition, code: 0b01000 },
    Row { kind: Kind::Trap(Trap::Tgeiu), name: "TGEIU", format: Format::Condition, code: 0b01001 },
    Row { kind: Kind::Trap(Trap::Tgeu), name: "TGEU", format: Format::TrapCode, code: 0b110001 },
    Row { kind: Kind::Trap(Trap::Tlt), name: "TLT", format: Format::TrapCode, code: 0b110010 },
    Row { kind: Kind::Trap(Trap::Tlti), name: "TLTI", format: Format::Condition, code: 0b01010 },
    Row { kind: Kind::Trap(Trap::Tltiu), name: "TLTIU", format: Format::Condition, code: 0b01011 },
    Row { kind: Kind::Trap(Trap::Tltu), name: "TLTU", format: Format::TrapCode, code: 0b110011 },
    Row { kind: Kind::Trap(Trap::Tne), name: "TNE", format: Format::TrapCode, code: 0b110110 },
    Row { kind: Kind::Trap(Trap::Tnei), name: "TNEI", format: Format::Condition, code: 0b01110 },
    Row { kind: Kind::Alu(Alu::Xor), name: "XOR", format: Format::ThreeRegisters, code: 0b100110 },
    Row { kind: Kind::Immediate(Immediate::Xori), name: "XORI", format: Format::Constant, code: 0b001110 },
];

// All rows: the kinds are those of the instruction set in its order, and their formats and codes those of its lines.
#[inline(always)]
pub(crate) fn rows() -> &'static [Row; 72]
    ensures kinds { map (λ r. r.kind) result.now ≡ instructions }
    ensures formats { map (λ r. r.format) result.now ≡ map (λ k. (row_of k).format) instructions }
    ensures codes { map (λ r. r.code) result.now ≡ map (λ k. (row_of k).code) instructions }
{
    &ROWS
}

impl Kind {
    // Its row of the table.
    #[inline(always)]
    fn row(self) -> Row
        ensures kind { result.kind ≡ self }
        ensures format { result.format ≡ (row_of self).format }
        ensures code { result.code ≡ (row_of self).code }
    {
        rows()[u32::from(self) as usize - 1]
    }

    // The format of its word.
    #[inline(always)]
    pub fn format(self) -> Format
        ensures { result ≡ (row_of self).format }
    {
        self.row().format
    }

    // Its code in that format.
    #[inline(always)]
    pub fn code(self) -> u32
        ensures { result ≡ (row_of self).code }
    {
        self.row().code
    }
}

impl fmt::Display for Kind {
    fn fmt<W: fmt::Write>(&self, f: &mut fmt::Formatter<W>) -> fmt::Result {
        f.pad(self.row().name)
    }
}
