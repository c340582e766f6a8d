// An instruction written as a word, field by field after its format's drawing. Inlined throughout: where the format is known, so are the roles.
#![tactic(auto)]

ghost use Rattle.std.specs.Prelude.{◌≡◌, ◌<◌, ok_or};
ghost use Rattle.refusal.specs.declared.Refusal.TheVariants.{IllegalField};
ghost use Rattle.isa.specs.Table.{row_of};
ghost use Rattle.isa.specs.Writing.{operand_fits, field_of, rest, rest_rs, encode_of, legal, write_of};

use isa::control::Control;
use isa::format::{Drawing, Format, Role};
use isa::kind::Instruction;
use refusal::Refusal;
use word::field::Fields;

#[inline(always)]
fn operand_fits(role: Role, x: u32) -> bool
    ensures { result ≡ operand_fits role x }
{
    match role {
        Role::Operand => x < 32,
        Role::Control => Control::try_from(x).is_ok(),
        Role::Fixed(_) | Role::Code | Role::Part => x == 0,
    }
}

// The field of BITS bits: the operand, the fixed number, the code, or the lowest part of the value. BITS is below 32, as no shift is by a whole word:
// by a clause, as no type of a const parameter holds bounds.
#[inline(always)]
fn field<const BITS: u32>(role: Role, code: u32, v: u32, x: u32) -> u32
    requires { BITS < 32 }
    ensures { result ≡ field_of role code BITS v x }
{
    match role {
        Role::Operand | Role::Control => x,
        Role::Fixed(n) => n,
        Role::Code => code,
        Role::Part => v % (1 << BITS),
    }
}

// What is left of the value for the fields above one of BITS bits, of which a clause says as above how many there may be.
#[inline(always)]
fn rest_of<const BITS: u32>(role: Role, v: u32) -> u32
    requires { BITS < 32 }
    ensures { result ≡ rest role BITS v }
{
    match role {
        Role::Part => v >> BITS,
        _ => v,
    }
}

#[derive(Clone, Copy)]
struct Encoded {
    fields: Fields<u32>,
    rest: u32,
}

// A line for each field and no map over Fields: the width of a field is in the type of the call, and each part of the value hangs on those below it.
#[inline(always)]
fn encode(d: Drawing, code: u32, i: Instruction) -> Encoded
    ensures { (result.fields ≡ encode_of d code i) × (result.rest ≡ rest_rs d i.value) }
{
    let a = rest_of::<6>(d.funct, i.value);
    let b = rest_of::<5>(d.shift, a);
    let c = rest_of::<5>(d.rd, b);
    let e = rest_of::<5>(d.rt, c);
    let fields = Fields {
        op: field::<6>(d.op, code, 0, 0),
        rs: field::<5>(d.rs, code, e, i.rs),
        rt: field::<5>(d.rt, code, c, i.rt),
        rd: field::<5>(d.rd, code, b, i.rd),
        shift: field::<5>(d.shift, code, a, i.shift),
        funct: field::<6>(d.funct, code, i.value, 0),
    };
    Encoded {
        fields,
        rest: rest_of::<5>(d.rs, e),
    }
}

// By `&`, which tries all: with `&&` cc100_write took 1.5 times the time where some instructions are legal and some not.
#[inline(always)]
#[tactic(auto, unfolding(isa::specs::Writing::legal))]
fn is_legal(d: Drawing, i: Instruction, rest: u32) -> bool
    requires { rest ≡ rest_rs d i.value }
    ensures { result ≡ legal d i }
{
    operand_fits(d.rs, i.rs)
        & operand_fits(d.rt, i.rt)
        & operand_fits(d.rd, i.rd)
        & operand_fits(d.shift, i.shift)
        & (rest == 0)
}

#[inline(always)]
fn write_as(format: Format, i: Instruction) -> Result<u32, Refusal>
    requires { format ≡ (row_of i.kind).format }
    ensures { result ≡ ok_or (write_of i) IllegalField }
{
    let d = format.drawing();
    let e = encode(d, i.kind.code(), i);
    if is_legal(d, i, e.rest) {
        Ok(e.fields.join())
    } else {
        Err(Refusal::IllegalField)
    }
}

// An arm for each format, which names the format anew: the compiler then knows what each field holds. With one arm for all, cc100_write took twice
// the time.
macro_rules! write_as_each {
    ($format:expr, $instruction:expr; $($name:ident),+ $(,)?) => {
        match $format {
            $(Format::$name => write_as(Format::$name, $instruction),)+
        }
    };
}

pub fn write(i: Instruction) -> Result<u32, Refusal>
    ensures { result ≡ ok_or (write_of i) IllegalField }
{
    write_as_each! {
        i.kind.format(), i;
        ThreeRegisters, ShiftAmount, TwoSources, OneSource, OneTarget, SourceTarget, SystemCode, Barrier,
        TrapCode, Condition, JumpIndex, Constant, BranchZero, UpperConstant, ControlMove, ExceptionReturn,
    }
}
