// Rules that a word's own view decides: 10, 11, and, once it is known what comes before the word, 14.
ghost use Rattle.std.specs.Prelude.{◌≡◌};
ghost use Rattle.rules.specs.Rules as Spec;

use class::Flow;
use isa::register;
use view::{View, is_base};

#[tactic(auto, unfolding(crate::specs::Rules::broken10))]
pub fn breaks10(v: View) -> bool
    ensures { result ≡ Spec.broken10 v }
{
    is_base(v.written)
}

#[tactic(auto, unfolding(crate::specs::Rules::broken11))]
pub fn breaks11(v: View) -> bool
    ensures { result ≡ Spec.broken11 v }
{
    v.link
        && match v.flow {
            Flow::Register => v.rd == v.rs,
            Flow::Relative => v.rs == register::LINK,
            Flow::Onward | Flow::Region => false,
        }
}

#[tactic(auto, unfolding(crate::specs::Rules::broken14))]
pub fn breaks14(after: bool, v: View) -> bool
    ensures { result ≡ Spec.broken14 after v }
{
    after && v.is_branch()
}
