// The 72 instructions, nested after the groups of document 004, section 1.1.

// 1.1.1 3-Operand ALU Instructions.
#[derive(Clone, Copy, PartialEq, Eq)]
pub enum Alu {
    Add = 1,
    Addu = 4,
    Sub = 54,
    Subu = 55,
    Slt = 46,
    Sltu = 49,
    And = 5,
    Or = 38,
    Xor = 71,
    Nor = 37,
}

// 1.1.2 ALU Instructions With an Immediate Operand.
#[derive(Clone, Copy, PartialEq, Eq)]
pub enum Immediate {
    Addi = 2,
    Addiu = 3,
    Slti = 47,
    Sltiu = 48,
    Andi = 6,
    Ori = 39,
    Xori = 72,
    Lui = 27,
}

// 1.1.3 Shift Instructions.
#[derive(Clone, Copy, PartialEq, Eq)]
pub enum Shift {
    Sll = 44,
    Srl = 52,
    Sra = 50,
    Sllv = 45,
    Srlv = 53,
    Srav = 51,
}

// 1.1.4 Multiply and Divide Instructions.
#[derive(Clone, Copy, PartialEq, Eq)]
pub enum Multiply {
    Mult = 35,
    Multu = 36,
    Div = 16,
    Divu = 17,
    Mfhi = 30,
    Mthi = 33,
    Mflo = 31,
    Mtlo = 34,
}

// 1.1.5 Aligned CPU Load/Store Instructions, 1.1.7 Atomic Update CPU Load/Store Instructions.
#[derive(Clone, Copy, PartialEq, Eq)]
pub enum Access {
    Lb = 22,
    Lbu = 23,
    Sb = 41,
    Lh = 24,
    Lhu = 25,
    Sh = 43,
    Lw = 28,
    Sw = 56,
    Ll = 26,
    Sc = 42,
}

// 1.1.6 Jump and Branch Instructions.
#[derive(Clone, Copy, PartialEq, Eq)]
pub enum Branch {
    J = 18,
    Jal = 19,
    Jr = 21,
    Jalr = 20,
    Beq = 7,
    Bne = 14,
    Blez = 11,
    Bgtz = 10,
    Bltz = 12,
    Bgez = 8,
    Bltzal = 13,
    Bgezal = 9,
}

// 1.1.9 Trap-on-Condition Instructions.
#[derive(Clone, Copy, PartialEq, Eq)]
pub enum Trap {
    Tge = 61,
    Tgeu = 64,
    Tlt = 65,
    Tltu = 68,
    Teq = 59,
    Tne = 69,
    Tgei = 62,
    Tgeiu = 63,
    Tlti = 66,
    Tltiu = 67,
    Teqi = 60,
    Tnei = 70,
}

// 1.1.8 Exception, 1.1.10 Privileged and 1.1.11 Serialization Instructions.
#[derive(Clone, Copy, PartialEq, Eq)]
pub enum System {
    Syscall = 58,
    Break = 15,
    Rfe = 40,
    Mfc0 = 29,
    Mtc0 = 32,
    Sync = 57,
}

#[derive(Clone, Copy, PartialEq, Eq)]
pub enum Kind {
    Alu(Alu),
    Immediate(Immediate),
    Shift(Shift),
    Multiply(Multiply),
    Access(Access),
    Branch(Branch),
    Trap(Trap),
    System(System),
}

// An instruction; a field that its kind does not have is 0. `value` is the raw constant, offset, jump index, code or stype. Flat: document
// 01 has these fields, and cc100_instruction of the C interface is made of them one by one.
#[derive(Clone, Copy, PartialEq, Eq)]
pub struct Instruction {
    pub kind: Kind,
    pub rs: u32,
    pub rt: u32,
    pub rd: u32,
    pub shift: u32,
    pub value: u32,
}
