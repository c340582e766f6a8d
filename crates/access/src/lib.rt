// Loads and stores. a is GPR[base], b is GPR[rt], n the memory's length.
#![tactic(auto)]

ghost use Rattle.std.specs.Prelude.{◌≡◌, ◌<◌, ◌≤◌, cond, Ok, Err};
ghost use Rattle.access.specs.Access as Spec;

use effect::effect::{Effect, Extension};
use effect::exit::Exit;
use isa::kind::Access;
use refusal::Ending;

#[tactic(auto, unfolding(crate::specs::Access::address_of))]
fn address(base: u32, offset: u32) -> u32
    ensures { result ≡ Spec.address_of base offset }
{
    base.wrapping_add(word::number::extend::<16>(offset))
}

// The address, where the N bytes at it can be accessed. What N may be is asked of it, as no type of a const parameter holds bounds.
#[tactic(auto, unfolding(crate::specs::Access::reaches))]
fn reached<const N: usize>(at: u32, n: usize, exit: Exit) -> Result<u32, Exit>
    requires some { 0 < N }
    requires width { N ≤ 4 }
    ensures { result ≡ cond (Spec.reaches N at n) (Ok at) (Err exit) }
{
    let first = at as usize;
    exit.when((first % N != 0) | (n < first + N))?;
    Ok(at)
}

#[tactic(auto, unfolding(crate::specs::Access::conditional))]
fn conditional(ll: bool, rt: u32, at: u32, b: u32) -> Effect
    ensures { result ≡ Spec.conditional ll rt at b }
{
    if ll {
        Effect::StoreLinked(rt, at, b)
    } else {
        Effect::Write(rt, 0)
    }
}

#[tactic(auto, unfolding(crate::specs::Access::load_if, crate::specs::Access::store_if))]
pub fn access(
    k: Access,
    rt: u32,
    a: u32,
    b: u32,
    v: u32,
    ll: bool,
    n: usize,
) -> Result<Effect, Exit>
    ensures { result ≡ Spec.access_of k rt a b v ll n }
{
    let at = address(a, v);
    Ok(match k {
        Access::Lb => Effect::LoadByte(rt, reached::<1>(at, n, Exit::Load)?, Extension::Sign),
        Access::Lbu => Effect::LoadByte(rt, reached::<1>(at, n, Exit::Load)?, Extension::Zero),
        Access::Sb => Effect::StoreByte(reached::<1>(at, n, Exit::Store)?, b),
        Access::Lh => Effect::LoadHalf(rt, reached::<2>(at, n, Exit::Load)?, Extension::Sign),
        Access::Lhu => Effect::LoadHalf(rt, reached::<2>(at, n, Exit::Load)?, Extension::Zero),
        Access::Sh => Effect::StoreHalf(reached::<2>(at, n, Exit::Store)?, b),
        Access::Lw => Effect::LoadWord(rt, reached::<4>(at, n, Exit::Load)?),
        Access::Sw => Effect::StoreWord(reached::<4>(at, n, Exit::Store)?, b),
        Access::Ll => Effect::LoadLinked(rt, reached::<4>(at, n, Exit::Load)?),
        Access::Sc => conditional(ll, rt, reached::<4>(at, n, Exit::Store)?, b),
    })
}
