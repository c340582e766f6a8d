// The codes of the instructions that are told from their bits one by one (document 004, section 1.2). Constants and no `Kind::code`: that gives a code
// and not the field where it stands, and SPECIAL is no instruction's.

// Opcodes.
pub const SPECIAL: u32 = 0;

pub const J: u32 = 2;

pub const JAL: u32 = 3;

pub const ANDI: u32 = 12;

pub const LUI: u32 = 15;

// Functions, for opcode SPECIAL.
pub const JR: u32 = 8;

pub const JALR: u32 = 9;

pub const OR: u32 = 37;
