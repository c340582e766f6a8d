// The keeper's two calls, on the record that it is lent.
ghost use Rattle.std.specs.Prelude.{◌≡◌};
ghost use Rattle.refusal.specs.Refusal.{refused_number};
ghost use Rattle.allocator.specs.Record.{IsSize, Size};
ghost use Rattle.allocator.specs.Calls as Spec;
ghost use Rattle.allocator.specs.Pass.{Exponent};

use crate::pass::scan;
use refusal::{Ending, Refusal};

// The memory that the keeper has.
const MEMORY_SIZE: u32 = 1048576;

// The k of a size 2^k.
#[tactic(auto, using(crate::proofs::Sizes::no_size, crate::proofs::Sizes::exponent, crate::proofs::Sizes::exponent_byte))]
fn exponent(size: u32) -> Result<u8, Refusal>
    ensures { Exponent size result }
{
    Refusal::CodeSize.when(!layout::is_size(size, 16))?;
    Ok(size.trailing_zeros() as u8)
}

#[tactic(auto, using(crate::proofs::Calls::refuse_size, crate::proofs::Calls::refuse_unsound, crate::proofs::Calls::refuse_space, crate::proofs::Calls::give))]
pub fn allocate(bytes: &mut [u8], size: u32) -> Result<u32, Refusal>
    ensures { Spec.Allocates bytes.old size (refused_number result) (Spec.base_of result) bytes.new }
{
    let k = exponent(size)?;
    let Some(seen) = scan(bytes, size) else {
        return Err(Refusal::Record);
    };
    if MEMORY_SIZE < seen.base + size {
        return Err(Refusal::NoSpace);
    }
    bytes[(seen.base / 16) as usize] = k;
    Ok(seen.base)
}

#[tactic(auto, using(crate::proofs::Calls::keep_size, crate::proofs::Calls::keep_unsound, crate::proofs::Calls::keep_odd, crate::proofs::Calls::keep_past, crate::proofs::Calls::keep_other, crate::proofs::Calls::take_back))]
pub fn release(bytes: &mut [u8], base: u32, size: u32) -> Result<(), Refusal>
    ensures { Spec.Releases bytes.old base size (refused_number result) bytes.new }
{
    let k = exponent(size)?;
    let Some(_) = scan(bytes, size) else {
        return Err(Refusal::Record);
    };
    let at = (base / 16) as usize;
    if base % 16 != 0 || MEMORY_SIZE <= base || bytes[at] != k {
        return Err(Refusal::Record);
    }
    bytes[at] = 0;
    Ok(())
}
