// cc100_allocate: an area is asked for, for C.
#![tactic(auto)]

ghost use Rattle.std.specs.Prelude.{◌≡◌};
ghost use Rattle.allocator.specs.Calls.{Allocates};

use allocator::keeper;
use refusal::Refusal;

// struct cc100_allocated: 0 and the base, or the refusal's number. C has no Option: what is refused has NO_BASE.
#[repr(C)]
#[derive(Clone, Copy)]
pub struct Allocated {
    pub number: u32,
    pub base: u32,
}

// The base of what is refused.
const NO_BASE: u32 = 0xFFFFFFFF;

impl From<Result<u32, Refusal>> for Allocated {
    ghost use Rattle.refusal.specs.Refusal.{refused_number};
    ghost use Rattle.allocator.specs.Calls.{base_of};

    ghost from_gives = { λ r a. (a.number ≡ refused_number r) × (a.base ≡ base_of r) };

    fn from(answer: Result<u32, Refusal>) -> Allocated {
        match answer {
            Ok(base) => Allocated { number: 0, base },
            Err(refusal) => Allocated {
                number: u32::from(refusal),
                base: NO_BASE,
            },
        }
    }
}

#[unsafe(no_mangle)]
pub extern "C" fn cc100_allocate(bytes: &mut [u8], size: u32) -> Allocated
    ensures { Allocates bytes.old size result.number result.base bytes.new }
{
    Allocated::from(keeper::allocate(bytes, size))
}
