// The fields of a word read as an instruction of one kind, after the drawing of its format. Inlined throughout: where the kind is known, so are the
// roles, and what they do not ask for is not compiled.
ghost use Rattle.std.specs.Prelude.{◌≡◌, ◌-◌, ◌^◌, ◌<◌, Some};
ghost use Rattle.word.specs.Field.{cut_of, Fit};
ghost use Rattle.table.specs.Tables.{entry_of};
ghost use Rattle.isa.specs.Reading.{accepts, operand, append, value_of, fits, decode_of, read_of};

use isa::control::Control;
use isa::format::{Drawing, Role};
use isa::kind::{Instruction, Kind};
use word::field;
use word::field::Fields;

// Whether x may stand in the field; code is the instruction's.
#[inline(always)]
fn accepts(role: Role, code: u32, x: u32) -> bool
    ensures { result ≡ accepts role code x }
{
    match role {
        Role::Operand | Role::Part => true,
        Role::Control => Control::try_from(x).is_ok(),
        Role::Fixed(n) => x == n,
        Role::Code => x == code,
    }
}

#[inline(always)]
fn operand(role: Role, x: u32) -> u32
    ensures { result ≡ operand role x }
{
    match role {
        Role::Operand | Role::Control => x,
        Role::Fixed(_) | Role::Code | Role::Part => 0,
    }
}

// The value so far, to which a field of BITS bits is appended if it is a part of it. BITS is bounded by a clause, as no type of a const parameter holds
// bounds.
#[inline(always)]
fn append<const BITS: u32>(role: Role, v: u32, x: u32) -> u32
    requires width { BITS < 32 }
    requires above { v < 2 ^ (32 - BITS) }
    requires below { x < 2 ^ BITS }
    ensures { result ≡ append role BITS v x }
{
    match role {
        Role::Part => field::append::<BITS>(v, x),
        _ => v,
    }
}

// A line for each field, here and in `decode`: a map over Fields would want a type for the pairs of roles and fields, and what is kept of each differs.
#[inline(always)]
#[tactic(auto, unfolding(isa::specs::Reading::fits))]
fn fits(d: Drawing, code: u32, f: Fields<u32>) -> bool
    ensures { result ≡ fits d code f }
{
    accepts(d.op, code, f.op)
        && accepts(d.rs, code, f.rs)
        && accepts(d.rt, code, f.rt)
        && accepts(d.rd, code, f.rd)
        && accepts(d.shift, code, f.shift)
        && accepts(d.funct, code, f.funct)
}

#[inline(always)]
fn value(d: Drawing, f: Fields<u32>) -> u32
    requires { Fit f }
    ensures { result ≡ value_of d f }
{
    let a = append::<5>(d.rs, 0, f.rs);
    let b = append::<5>(d.rt, a, f.rt);
    let c = append::<5>(d.rd, b, f.rd);
    let e = append::<5>(d.shift, c, f.shift);
    append::<6>(d.funct, e, f.funct)
}

#[inline(always)]
#[tactic(auto, unfolding(isa::specs::Reading::decode_of))]
fn decode(kind: Kind, d: Drawing, f: Fields<u32>) -> Instruction
    requires { Fit f }
    ensures { result ≡ decode_of kind d f }
{
    Instruction {
        kind,
        rs: operand(d.rs, f.rs),
        rt: operand(d.rt, f.rt),
        rd: operand(d.rd, f.rd),
        shift: operand(d.shift, f.shift),
        value: value(d, f),
    }
}

// A word read as the kind that it leads to.
#[inline(always)]
#[tactic(auto, using(table::proofs::Reading::read_entry), unfolding(isa::specs::Reading::read_as))]
pub(crate) fn read_as(kind: Kind, w: u32) -> Option<Instruction>
    requires { entry_of (cut_of w) ≡ Some kind }
    ensures { result ≡ read_of w }
{
    let f = Fields::from(w);
    let drawing = kind.format().drawing();
    fits(drawing, kind.code(), f).then_some(decode(kind, drawing, f))
}
