// The four tables, eight places to a row, as the public manuals print them. A table of 64 places is two of 32, so that one look-up serves all.
use isa::kind::{Access, Alu, Branch, Immediate, Kind, Multiply, Shift, System, Trap};

// What stands at a place: no instruction, an opcode that leads to another table, or an instruction.
#[derive(Clone, Copy)]
pub enum Entry {
    Empty,
    Special,
    Regimm,
    Cop0,
    Holds(Kind),
}

impl Entry {
    ghost use Rattle.std.specs.Prelude.{◌≡◌};
    ghost use Rattle.table.specs.Tables.{kind_in};

    pub fn kind(self) -> Option<Kind>
        ensures { result ≡ kind_in self }
    {
        match self {
            Entry::Holds(kind) => Some(kind),
            _ => None,
        }
    }
}

// An entry as it is written in a table: a marker, or a group and an instruction of it.
macro_rules! entry {
    ($marker:ident) => {
        Entry::$marker
    };
    ($group:ident $instruction:ident) => {
        Entry::Holds(Kind::$group($group::$instruction))
    };
}

macro_rules! table {
    ($($($word:ident)+),+ $(,)?) => {
        [$(entry!($($word)+)),+]
    };
}

// By the opcode, bits 31 to 26: 0 to 31.
#[rattlefmt::skip]
pub(crate) const OPCODES_LOW: [Entry; 32] = table![
    Special, Regimm, Branch J, Branch Jal, Branch Beq, Branch Bne, Branch Blez, Branch Bgtz,
    Immediate Addi, Immediate Addiu, Immediate Slti, Immediate Sltiu, Immediate Andi, Immediate Ori, Immediate Xori, Immediate Lui,
    Cop0, Empty, Empty, Empty, Empty, Empty, Empty, Empty,
    Empty, Empty, Empty, Empty, Empty, Empty, Empty, Empty,
];

// By the opcode: 32 to 63.
#[rattlefmt::skip]
pub(crate) const OPCODES_HIGH: [Entry; 32] = table![
    Access Lb, Access Lh, Empty, Access Lw, Access Lbu, Access Lhu, Empty, Empty,
    Access Sb, Access Sh, Empty, Access Sw, Empty, Empty, Empty, Empty,
    Access Ll, Empty, Empty, Empty, Empty, Empty, Empty, Empty,
    Access Sc, Empty, Empty, Empty, Empty, Empty, Empty, Empty,
];

// Opcode SPECIAL, by the function field, bits 5 to 0: 0 to 31.
#[rattlefmt::skip]
pub(crate) const FUNCTIONS_LOW: [Entry; 32] = table![
    Shift Sll, Empty, Shift Srl, Shift Sra, Shift Sllv, Empty, Shift Srlv, Shift Srav,
    Branch Jr, Branch Jalr, Empty, Empty, System Syscall, System Break, Empty, System Sync,
    Multiply Mfhi, Multiply Mthi, Multiply Mflo, Multiply Mtlo, Empty, Empty, Empty, Empty,
    Multiply Mult, Multiply Multu, Multiply Div, Multiply Divu, Empty, Empty, Empty, Empty,
];

// Opcode SPECIAL, by the function field: 32 to 63.
#[rattlefmt::skip]
pub(crate) const FUNCTIONS_HIGH: [Entry; 32] = table![
    Alu Add, Alu Addu, Alu Sub, Alu Subu, Alu And, Alu Or, Alu Xor, Alu Nor,
    Empty, Empty, Alu Slt, Alu Sltu, Empty, Empty, Empty, Empty,
    Trap Tge, Trap Tgeu, Trap Tlt, Trap Tltu, Trap Teq, Empty, Trap Tne, Empty,
    Empty, Empty, Empty, Empty, Empty, Empty, Empty, Empty,
];

// Opcode REGIMM, by rt, bits 20 to 16.
#[rattlefmt::skip]
pub(crate) const CONDITIONS: [Entry; 32] = table![
    Branch Bltz, Branch Bgez, Empty, Empty, Empty, Empty, Empty, Empty,
    Trap Tgei, Trap Tgeiu, Trap Tlti, Trap Tltiu, Trap Teqi, Empty, Trap Tnei, Empty,
    Branch Bltzal, Branch Bgezal, Empty, Empty, Empty, Empty, Empty, Empty,
    Empty, Empty, Empty, Empty, Empty, Empty, Empty, Empty,
];

// Opcode COP0, by rs, bits 25 to 21.
#[rattlefmt::skip]
pub(crate) const CONTROLS: [Entry; 32] = table![
    System Mfc0, Empty, Empty, Empty, System Mtc0, Empty, Empty, Empty,
    Empty, Empty, Empty, Empty, Empty, Empty, Empty, Empty,
    System Rfe, Empty, Empty, Empty, Empty, Empty, Empty, Empty,
    Empty, Empty, Empty, Empty, Empty, Empty, Empty, Empty,
];
