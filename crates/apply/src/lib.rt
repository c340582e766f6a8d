// An effect carried out on lent registers and memory; the other registers go by value, as a run keeps them apart, for speed
// (State::run has the figure). Each change in `parts` takes what it changes alone.
#![tactic(auto)]

ghost use Rattle.std.specs.Prelude.{◌≡◌, length};
ghost use Rattle.effect.specs.Sound.{Performable};
ghost use Rattle.effect.specs.Touched.{touched_of, last_of};
ghost use Rattle.parts.specs.Parts.{parts};
ghost use Rattle.apply.specs.Apply.{applied_of};

use effect::effect::{Effect, Special, Touched};
use isa::width::Width;
use parts::*;
use word::bytes::load;

// The arms of loads and stores tell the access themselves: by a function of its own, as touched_of is, the effect would be matched twice.
pub fn apply(
    e: Effect,
    c: Special,
    registers: &mut [u32; 32],
    memory: &mut [u8],
    last: &mut Option<Touched>,
) -> Special
    requires { Performable e (length memory.old) }
    ensures applied { parts registers.new result memory.new ≡ applied_of e registers.old c memory.old }
    ensures access { last.new ≡ last_of last.old (touched_of e) }
{
    match e {
        Effect::Advance => advance(c),
        Effect::Write(r, v) => write(registers, r, v, c),
        Effect::Pair(hi, lo) => pair(advance(c), hi, lo),
        Effect::Jump(target) => jump(c, target),
        Effect::Link(r, v, target) => link(registers, r, v, target, c),
        Effect::LoadByte(r, a, extension) => {
            *last = Some(Touched::Load(a, Width::Byte));
            write(registers, r, loaded::<1, 8>(memory, a, extension), c)
        }
        Effect::LoadHalf(r, a, extension) => {
            *last = Some(Touched::Load(a, Width::Half));
            write(registers, r, loaded::<2, 16>(memory, a, extension), c)
        }
        Effect::LoadWord(r, a) => {
            *last = Some(Touched::Load(a, Width::Word));
            write(registers, r, load::<4>(memory, a as usize), c)
        }
        Effect::LoadLinked(r, a) => {
            *last = Some(Touched::Load(a, Width::Word));
            linked(write(registers, r, load::<4>(memory, a as usize), c), true)
        }
        Effect::StoreByte(a, v) => {
            *last = Some(Touched::Store(a, Width::Byte));
            store::<1>(memory, a, v, c)
        }
        Effect::StoreHalf(a, v) => {
            *last = Some(Touched::Store(a, Width::Half));
            store::<2>(memory, a, v, c)
        }
        Effect::StoreWord(a, v) => {
            *last = Some(Touched::Store(a, Width::Word));
            store::<4>(memory, a, v, c)
        }
        Effect::StoreLinked(r, a, v) => {
            *last = Some(Touched::Store(a, Width::Word));
            store_linked(registers, memory, r, a, v, c)
        }
        Effect::Control(r, v) => controlled(advance(c), r, v),
        Effect::Return(status) => linked(with_status(advance(c), status), false),
    }
}
