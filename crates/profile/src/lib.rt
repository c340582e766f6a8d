// The profile's two rules: where branches lead, and the last bundle.
#![tactic(auto)]

ghost use Rattle.std.specs.Prelude.{◌≡◌};
ghost use Rattle.view.specs.View.{passes, word_view};
ghost use Rattle.profile.specs.Rules as Spec;

use class::Flow;
use layout::Layout;
use quick::code;
use rules::image::word_at;
use rules::landing;
use rules::site::{Module, Place, Site};
use view::View;
use word::field::Fields;

// The whole word, as breaks21 compares its two zero words: by `reader::read` it would be a kind and a value.
const SYSCALL_0: u32 = 0x0000000C;

// Sums are 64 bits wide, so that none wraps, whatever the layout.
#[tactic(auto, unfolding(crate::specs::Rules::is_ahead))]
fn is_ahead(place: Place, target: u32) -> bool
    ensures { result ≡ Spec.is_ahead place.layout place.index target }
{
    let target = u64::from(target);
    u64::from(place.pc()) + 8 <= target && target + 16 <= place.layout.code_end()
}

fn is_last_bundle(layout: Layout, target: u32) -> bool
    ensures { result ≡ Spec.is_last_bundle layout target }
{
    u64::from(target) + 16 == layout.code_end()
}

#[tactic(auto, unfolding(crate::specs::Rules::is_excused))]
fn is_excused(place: Place, v: View, target: u32) -> bool
    ensures { result ≡ Spec.is_excused place.layout place.index v target }
{
    let last_but_one = place.index + 2 == (place.layout.code_size / 4) as usize;
    v.flow == Flow::Region && !v.link && last_but_one && is_last_bundle(place.layout, target)
}

#[tactic(auto, unfolding(crate::specs::Rules::broken20))]
pub fn breaks20(place: Place, v: View) -> bool
    ensures { result ≡ Spec.broken20 place.layout place.index v }
{
    match v.flow {
        Flow::Onward => false,
        Flow::Register => true,
        Flow::Relative | Flow::Region => {
            let target = landing::target(v, place.pc());
            !(is_ahead(place, target) || is_excused(place, v, target))
        }
    }
}

// The word has no other field than its code.
#[tactic(auto, using(crate::proofs::Bits::syscall0_told))]
fn is_syscall0(w: u32) -> bool
    ensures { result ≡ Spec.is_syscall0 w }
{
    w == SYSCALL_0
}

// J to the last bundle's start, told from the opcode and the index.
#[tactic(auto, using(crate::proofs::Bits::back_told))]
fn is_back(place: Place, w: u32) -> bool
    ensures { result ≡ passes (Spec.is_back place.layout place.index) (word_view w) }
{
    let target = branch::region(place.pc(), w);
    Fields::from(w).op == code::J && is_last_bundle(place.layout, target)
}

#[tactic(auto, unfolding(crate::specs::Rules::differs, rules::specs::Rules::view_at))]
pub fn breaks21(whole: Module) -> bool
    ensures { result ≡ Spec.broken21 whole.entry.layout whole.entry.image.now }
{
    let image = whole.image;
    let n = whole.words();
    let call = is_syscall0(word_at(image, n - 4));
    let first = word_at(image, n - 3) == 0;
    let jump = Site {
        whole,
        index: n - 2,
    };
    let back = is_back(jump.place(), jump.word().value());
    let second = word_at(image, n - 1) == 0;
    !(call && first && back && second)
}
