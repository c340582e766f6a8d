// Where branches and jumps lead.
ghost use Rattle.std.specs.Prelude.{◌≡◌, ◌+◌, ◌*◌, ◌%◌, ◌≤◌, length};
ghost use Rattle.rules.specs.Rules as Spec;

use crate::image::word_at;
use crate::site::{Module, Site};
use class::Flow;
use quick::guard::needs_guard;
use view::View;

// A branch may come to word i: neither it nor the next needs a guard. An image and an index: it looks one word on, which Word does not reach.
#[tactic(auto, unfolding(crate::specs::Rules::is_entry, crate::specs::Rules::view_at))]
fn is_entry(image: &[u8], i: usize) -> bool
    requires { 4 * i + 8 ≤ length image.now }
    ensures { result ≡ Spec.is_entry image.now i }
{
    let here = word_at(image, i);
    let next = word_at(image, i + 1);
    !needs_guard(here) && !needs_guard(next)
}

#[tactic(auto, unfolding(crate::specs::Rules::lands))]
fn lands(whole: Module, target: u32) -> bool
    requires { target % 4 ≡ 0 }
    ensures { result ≡ Spec.lands whole.entry.layout whole.entry.image.now target }
{
    let layout = whole.layout;
    let Some(offset) = target.checked_sub(layout.code_base) else {
        return false;
    };
    offset < layout.code_size
        && offset + 4 != layout.code_size
        && is_entry(whole.image, (offset / 4) as usize)
}

#[tactic(auto, unfolding(crate::specs::Rules::target_of))]
pub fn target(v: View, pc: u32) -> u32
    ensures { result ≡ Spec.target_of v pc }
{
    if v.flow == Flow::Relative {
        branch::relative(pc, v.value)
    } else {
        branch::region(pc, v.value)
    }
}

#[tactic(auto, using(crate::proofs::Targets::target_aligned, crate::proofs::Targets::pc_aligned), unfolding(crate::specs::Rules::broken15))]
pub fn breaks15(site: Site, v: View) -> bool
    ensures { result ≡ Spec.broken15 site.entry.whole.layout site.entry.whole.image.now site.entry.index v }
{
    matches!(v.flow, Flow::Relative | Flow::Region)
        && !lands(site.whole, target(v, site.place().pc()))
}
