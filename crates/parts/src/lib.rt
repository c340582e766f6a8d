// What an effect changes, one thing at a time: a register, the others by value, and memory. Each function is handed what it changes and no more, so
// that its head says so: a struct of the three would not.
#![tactic(auto)]

ghost use Rattle.std.specs.Prelude.{◌≡◌, false, ◌+◌, ◌^◌, ◌≤◌, ◌<◌, length};
ghost use Rattle.word.specs.Bytes.{load_of, store_of};
ghost use Rattle.parts.specs.Parts as Spec;

use effect::effect::{Extension, Special};
use isa::control::Control;

// r is below 32 by a clause, as at `write`.
#[tactic(auto, using(crate::proofs::Registers::put_other, crate::proofs::Registers::put_none))]
fn put(registers: &mut [u32; 32], r: u32, v: u32)
    requires { r < 2 ^ 5 }
    ensures { registers.new ≡ Spec.put_of registers.old r v }
{
    if r != 0 {
        registers[r as usize] = v;
    }
}

pub fn jump(c: Special, target: u32) -> Special
    ensures { result ≡ Spec.jump_of c target }
{
    Special {
        pc: c.next_pc,
        next_pc: target,
        ..c
    }
}

pub fn advance(c: Special) -> Special
    ensures { result ≡ Spec.advance_of c }
{
    jump(c, branch::slot(c.next_pc))
}

pub fn pair(c: Special, hi: u32, lo: u32) -> Special
    ensures { result ≡ Spec.pair_of c hi lo }
{
    Special { hi, lo, ..c }
}

pub fn linked(c: Special, ll: bool) -> Special
    ensures { result ≡ Spec.linked_of c ll }
{
    Special { ll, ..c }
}

pub fn with_status(c: Special, status: u32) -> Special
    ensures { result ≡ Spec.status_of c status }
{
    Special { status, ..c }
}

pub fn controlled(c: Special, r: Control, v: u32) -> Special
    ensures { result ≡ Spec.controlled_of c r v }
{
    match r {
        Control::BadAddress => Special { bad: v, ..c },
        Control::Status => Special {
            status: v % 8192,
            ..c
        },
        Control::Cause => Special { cause: v, ..c },
        Control::ReturnAddress => Special { epc: v, ..c },
    }
}

// A register is written, and the program counters move on. That it is below 32 stays a clause here and below: an effect names its register by the
// number in the instruction, of which a type of such numbers would have to be made anew at each effect.
pub fn write(registers: &mut [u32; 32], r: u32, v: u32, c: Special) -> Special
    requires { r < 2 ^ 5 }
    ensures { (registers.new ≡ Spec.put_of registers.old r v) × (result ≡ Spec.advance_of c) }
{
    put(registers, r, v);
    advance(c)
}

pub fn link(registers: &mut [u32; 32], r: u32, v: u32, target: u32, c: Special) -> Special
    requires { r < 2 ^ 5 }
    ensures { (registers.new ≡ Spec.put_of registers.old r v) × (result ≡ Spec.jump_of c target) }
{
    put(registers, r, v);
    jump(c, target)
}

// What a load of N bytes brings. BITS is 8 * N, which Rattle does not compute as a const argument; and no type of a const parameter holds the bounds
// of the two.
pub fn loaded<const N: usize, const BITS: u32>(memory: &[u8], a: u32, extension: Extension) -> u32
    requires within { a + N ≤ length memory.now }
    requires bytes { N ≤ 4 }
    requires some { 0 < BITS }
    requires bits { BITS ≤ 32 }
    ensures { result ≡ Spec.loaded_of BITS extension (load_of N memory.now a) }
{
    let x = word::bytes::load::<N>(memory, a as usize);
    match extension {
        Extension::Zero => x,
        Extension::Sign => word::number::extend::<BITS>(x),
    }
}

// N has a bound as at `loaded`.
pub fn store<const N: usize>(memory: &mut [u8], a: u32, v: u32, c: Special) -> Special
    requires within { a + N ≤ length memory.old }
    requires bytes { N ≤ 4 }
    ensures { (memory.new ≡ store_of N memory.old a v) × (result ≡ Spec.advance_of c) }
{
    word::bytes::store::<N>(memory, a as usize, v);
    advance(c)
}

// SC that stores: the LL bit is spent, and the register gets 1.
pub fn store_linked(
    registers: &mut [u32; 32],
    memory: &mut [u8],
    r: u32,
    a: u32,
    v: u32,
    c: Special,
) -> Special
    requires { (r < 2 ^ 5) × (a + 4 ≤ length memory.old) }
    ensures { Spec.parts registers.new result memory.new ≡ Spec.parts (Spec.put_of registers.old r 1) (Spec.linked_of (Spec.advance_of c) false) (store_of 4 memory.old a v) }
{
    word::bytes::store::<4>(memory, a as usize, v);
    linked(write(registers, r, 1, c), false)
}
