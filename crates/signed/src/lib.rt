// Words as signed integers: comparison, checked sums, products, quotients and shifts; a function for each operation, as the definitions have them.
#![tactic(auto, using(crate::proofs::Words::casts))]

ghost use Rattle.std.specs.Prelude.{◌≡◌, ◌^◌, ◌<◌, ◌+ℤ◌, ◌-ℤ◌, ◌*ℤ◌, int_div, int_lt, int_rem};
ghost use Rattle.std.specs.Int.Signed.{shr_z};
ghost use Rattle.word.specs.Number.{signed_of, wrap_of};
ghost use Rattle.signed.specs.Checked.{checked_of};

pub fn less(a: u32, b: u32) -> bool
    ensures { result ≡ int_lt (signed_of 32 a) (signed_of 32 b) }
{
    a.cast_signed() < b.cast_signed()
}

// The word of the sum, where it fits.
pub fn checked_sum(a: u32, b: u32) -> Option<u32>
    ensures { result ≡ checked_of (signed_of 32 a +ℤ signed_of 32 b) }
{
    let sum = a.cast_signed().checked_add(b.cast_signed())?;
    Some(sum.cast_unsigned())
}

// The word of the difference, where it fits.
pub fn checked_difference(a: u32, b: u32) -> Option<u32>
    ensures { result ≡ checked_of (signed_of 32 a -ℤ signed_of 32 b) }
{
    let difference = a.cast_signed().checked_sub(b.cast_signed())?;
    Some(difference.cast_unsigned())
}

pub fn product(a: u32, b: u32) -> u64
    ensures { result ≡ wrap_of 64 (signed_of 32 a *ℤ signed_of 32 b) }
{
    let product = i64::from(a.cast_signed()) * i64::from(b.cast_signed());
    product.cast_unsigned()
}

pub fn quotient(a: u32, b: u32) -> u32
    requires { 0 < b }
    ensures { result ≡ wrap_of 32 (int_div (signed_of 32 a) (signed_of 32 b)) }
{
    let quotient = a.cast_signed().wrapping_div(b.cast_signed());
    quotient.cast_unsigned()
}

pub fn remainder(a: u32, b: u32) -> u32
    requires { 0 < b }
    ensures { result ≡ wrap_of 32 (int_rem (signed_of 32 a) (signed_of 32 b)) }
{
    let remainder = a.cast_signed().wrapping_rem(b.cast_signed());
    remainder.cast_unsigned()
}

pub fn shift_right(x: u32, k: u32) -> u32
    requires { k < 32 }
    ensures { result ≡ wrap_of 32 (shr_z (signed_of 32 x) (2 ^ k)) }
{
    (x.cast_signed() >> k).cast_unsigned()
}
