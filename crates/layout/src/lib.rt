// The sandbox layout: where a module's code and data lie in memory, and what is refused of it.
#![tactic(auto)]

ghost use Rattle.std.specs.Prelude.{◌≡◌, ◌+◌, ◌&&◌, leb, true};
ghost use Rattle.std.specs.Int.{is_power_of_two};
ghost use Rattle.refusal.specs.Refusal.{refused_number};
ghost use Rattle.layout.specs.Layout as Spec;

use refusal::{Ending, Refusal};
use word::bytes;

// The largest area, and so the longest module, in bytes.
pub const LARGEST: u32 = 65536;

// Four numbers and no type of areas, as document 01 and the C interface have them.
#[derive(Clone, Copy)]
pub struct Layout {
    pub code_base: u32,
    pub code_size: u32,
    pub data_base: u32,
    pub data_size: u32,
}

// A power of two, from `least` on.
pub fn is_size(n: u32, least: u32) -> bool
    ensures { result ≡ is_power_of_two n && (leb least n && leb n 65536) }
{
    n.is_power_of_two() && least <= n && n <= LARGEST
}

// A mask gives the remainder: with a division, a check of 16 bytes takes 5 % longer.
#[tactic(auto, using(crate::proofs::Sizes::power_positive, crate::proofs::Sizes::remainder), unfolding(crate::specs::Layout::is_placed))]
fn is_placed(base: u32, size: u32, length: u64) -> bool
    requires { is_power_of_two size ≡ true }
    ensures { result ≡ Spec.is_placed base size length }
{
    base & (size - 1) == 0 && u64::from(base) + u64::from(size) <= length
}

impl Layout {
    // The address after the code, 64 bits wide, so that it does not wrap, whatever the layout.
    pub fn code_end(self) -> u64
        ensures { result ≡ self.code_base + self.code_size }
    {
        u64::from(self.code_base) + u64::from(self.code_size)
    }

    #[tactic(auto, unfolding(crate::specs::Layout::is_apart))]
    fn is_apart(self) -> bool
        ensures { result ≡ Spec.is_apart self }
    {
        let data_end = u64::from(self.data_base) + u64::from(self.data_size);
        self.code_end() <= u64::from(self.data_base) || data_end <= u64::from(self.code_base)
    }

    // Refused by the first of the rules 1 to 6 that is broken.
    #[tactic(auto, using(crate::proofs::Sizes::code_size_told, crate::proofs::Sizes::data_size_told, crate::proofs::Sizes::size_power), unfolding(crate::specs::Layout::layout_refusal))]
    pub fn check(self, length: u64) -> Result<(), Refusal>
        ensures { refused_number result ≡ Spec.layout_refusal self length }
    {
        Refusal::MemoryTooLong.when((bytes::LONGEST as u64) < length)?;
        Refusal::CodeSize.when(!is_size(self.code_size, 16))?;
        Refusal::DataSize.when(!is_size(self.data_size, 4))?;
        Refusal::CodePlace.when(!is_placed(self.code_base, self.code_size, length))?;
        Refusal::DataPlace.when(!is_placed(self.data_base, self.data_size, length))?;
        Refusal::Overlap.when(!self.is_apart())
    }
}
