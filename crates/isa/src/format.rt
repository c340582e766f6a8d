// The formats of instruction words, and what each field of a format holds.
use word::field::Fields;

#[derive(Clone, Copy)]
pub enum Format {
    ThreeRegisters,
    ShiftAmount,
    TwoSources,
    OneSource,
    OneTarget,
    SourceTarget,
    SystemCode,
    Barrier,
    TrapCode,
    Condition,
    JumpIndex,
    Constant,
    BranchZero,
    UpperConstant,
    ControlMove,
    ExceptionReturn,
}

// What a field of a format holds.
#[derive(Clone, Copy)]
pub enum Role {
    // an operand, kept under the field's name
    Operand,
    // an operand that is one of the four control registers
    Control,
    // always this number
    Fixed(u32),
    // the instruction's code
    Code,
    // a part of the value, the highest part first
    Part,
}

// What each of a format's six fields holds.
pub type Drawing = Fields<Role>;
