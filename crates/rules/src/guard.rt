// Guards: the two words before an access, JR or JALR.
ghost use Rattle.std.specs.Option.{ForSome};
ghost use Rattle.std.specs.Prelude.{◌≡◌, ◌<◌};
ghost use Rattle.isa.specs.Width.{bytes_in};
ghost use Rattle.refusal.specs.Refusal.{refused_number};
ghost use Rattle.rules.specs.Offset.{offset_of};
ghost use Rattle.rules.specs.Rules as Spec;

use crate::image::Word;
use class::Flow;
use isa::register;
use isa::width::Width;
use refusal::{Ending, Refusal};
use view::{View, is_base};

// a and b are the two words before the one that needs a guard, r is its base.
#[tactic(auto, unfolding(crate::specs::Rules::is_guarded))]
fn is_guarded(a: u32, b: u32, base: u32, r: u32) -> bool
    ensures { result ≡ Spec.is_guarded a b base r }
{
    quick::guard::is_mask(a, r) && quick::guard::is_merge(b, base, r) && r != 0 && !is_base(r)
}

// The mask of the guard before word w, where there is one in its bundle.
#[tactic(auto, using(crate::proofs::Guards::masked), unfolding(crate::specs::Rules::guard_mask))]
#[inline(always)]
fn mask_before(w: Word, base: u32, r: u32) -> Option<u32>
    ensures mask { result ≡ Spec.guard_mask w.entry.image.now w.entry.index base r }
    ensures bound { ForSome result (λ m. m < 65536) }
{
    if w.index % 4 < 2 {
        return None;
    }
    let first = w.before(2);
    is_guarded(first, w.before(1), base, r).then_some(first % 65536)
}

// A call of its own: the loop of a check is faster without it inside.
#[tactic(auto, using(crate::proofs::Guards::negative_offset, crate::proofs::Guards::offset_fits, crate::proofs::Guards::bytes_some))]
#[inline(never)]
fn fits_data(size: u32, mask: u32, offset: u32, width: Width) -> bool
    ensures { result ≡ Spec.fits_data size mask (offset_of offset) (bytes_in width) }
{
    let o = offset % 65536;
    if 32768 <= o {
        return false;
    }
    let bytes = u32::from(width);
    let end = u64::from(mask) + u64::from(o) + u64::from(bytes);
    mask % bytes == 0 && o % bytes == 0 && end <= u64::from(size)
}

#[tactic(auto, unfolding(crate::specs::Rules::fits_code))]
fn fits_code(size: u32, mask: u32) -> bool
    ensures { result ≡ Spec.fits_code size mask }
{
    mask % 16 == 0 && u64::from(mask) + 16 <= u64::from(size)
}

// The mask and the width of the access make a power of two.
#[tactic(auto, unfolding(crate::specs::Rules::is_contiguous))]
fn is_contiguous(mask: u32, width: Width) -> bool
    requires { mask < 65536 }
    ensures { result ≡ Spec.is_contiguous mask (bytes_in width) }
{
    (mask + u32::from(width)).count_ones() == 1
}

// 12, 22 and 25 in one, since all look at the guard.
#[tactic(auto, unfolding(crate::specs::Rules::data_refusal, crate::specs::Rules::broken12, crate::specs::Rules::broken22, crate::specs::Rules::broken25, crate::specs::Rules::guard_mask))]
pub fn check_data(data_size: u32, w: Word, v: View) -> Result<(), Refusal>
    ensures { refused_number result ≡ Spec.data_refusal data_size w.entry.image.now w.entry.index v }
{
    let Some(width) = v.width else {
        return Ok(());
    };
    let Some(mask) = mask_before(w, register::DATA_BASE, v.rs) else {
        return Err(Refusal::DataGuard);
    };
    Refusal::DataMask.when(!fits_data(data_size, mask, v.value, width))?;
    Refusal::MaskHole.when(!is_contiguous(mask, width))
}

#[tactic(auto, unfolding(crate::specs::Rules::broken13, crate::specs::Rules::guard_mask))]
pub fn breaks13(code_size: u32, w: Word, v: View) -> bool
    ensures { result ≡ Spec.broken13 code_size w.entry.image.now w.entry.index v }
{
    if v.flow != Flow::Register {
        return false;
    }
    let guard = mask_before(w, register::CODE_BASE, v.rs);
    guard.is_none_or(|mask| !fits_code(code_size, mask))
}
