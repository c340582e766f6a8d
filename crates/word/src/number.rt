// Sign extension.
ghost use Rattle.std.specs.Prelude.{◌≡◌, ◌<◌, ◌≤◌};
ghost use Rattle.word.specs.Number.{extend_of};

// sign_extend of the low BITS bits: their top bit, shifted to the word's, is shifted back as a sign. With no bits the shift would be by a whole word:
// clauses bound BITS, as no type of a const parameter does.
#[tactic(auto, using(crate::proofs::Numbers::casts))]
pub fn extend<const BITS: u32>(x: u32) -> u32
    requires some { 0 < BITS }
    requires width { BITS ≤ 32 }
    ensures { result ≡ extend_of BITS x }
{
    let above = 32 - BITS;
    ((x << above).cast_signed() >> above).cast_unsigned()
}
