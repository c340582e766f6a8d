// The words of an image in their order, each tried with 8 to 15, and 22 and 25 after 12.
ghost use Rattle.std.specs.Prelude.{◌≡◌, ◌<◌, ◌/◌, ℕ, IfOk, List, Ok, Some, length};
ghost use Rattle.layout.specs.declared.Layout.{Layout};
ghost use Rattle.refusal.specs.Refusal.{number_of, refused_number};
ghost use Rattle.rules.specs.Rules.{view_at};
ghost use Rattle.view.specs.declared.View.{View};
ghost use Rattle.checker.specs.Check.{named, no_place};
ghost use Rattle.checker.specs.Said.{verdict_of};
ghost use Rattle.checker.specs.Scan as Spec;

use crate::verdict::Refused;
use quick::guard::is_jump;
use refusal::{Ending, Refusal};
use rules::image::word_at;
use rules::site::{Module, Site};
use rules::{guard, landing, single};
use view::View;

// The rules that a profile has beside the checker's: of each branch or jump, after 15, and of the whole, after 16.
pub trait Profile {
    // each a refusal's number, 0 where none is broken: document 01's table and the definitions of the verdict name the rules by number
    ghost of_branch: { Layout → ℕ → View → ℕ };

    ghost of_whole: { Layout → List ℕ → ℕ };

    // v is the view of the word, a branch or jump.
    fn check_branch(site: Site, v: View) -> Result<(), Refusal>
        ensures { refused_number result ≡ of_branch site.entry.whole.layout site.entry.index v };

    fn check_whole(whole: Module) -> Result<(), Refusal>
        ensures { refused_number result ≡ of_whole whole.entry.layout whole.entry.image.now };
}

// The checker's rules alone.
pub struct Basic;

impl Profile for Basic {
    ghost of_branch = { λ l i v. 0 };

    ghost of_whole = { λ l img. 0 };

    fn check_branch(_site: Site, _v: View) -> Result<(), Refusal> {
        Ok(())
    }

    fn check_whole(_whole: Module) -> Result<(), Refusal> {
        Ok(())
    }
}

// v is the view of the word, and after says whether the word before it is a branch or jump.
#[tactic(auto, unfolding(crate::specs::Scan::word_refusal))]
pub fn check_word(site: Site, after: bool, v: View) -> Result<(), Refusal>
    ensures { refused_number result ≡ Spec.word_refusal site.entry.whole.layout site.entry.whole.image.now site.entry.index after (Some v) }
{
    let word = site.word();
    let layout = site.whole.layout;
    Refusal::Barred.when(v.barred)?;
    Refusal::WritesBase.when(single::breaks10(v))?;
    Refusal::LinkOverBase.when(single::breaks11(v))?;
    guard::check_data(layout.data_size, word, v)?;
    Refusal::CodeGuard.when(guard::breaks13(layout.code_size, word, v))?;
    Refusal::BranchAfterBranch.when(single::breaks14(after, v))?;
    Refusal::Target.when(landing::breaks15(site, v))
}

// Whether the word is a branch or jump, where it breaks no rule. A plain word breaks none of these rules and is no branch: it need not be read.
#[tactic(auto, using(crate::proofs::Scan::plain_branch, crate::proofs::Scan::plain_number, crate::proofs::Scan::view_is), unfolding(crate::specs::Scan::number_of_word, crate::specs::Scan::word_refusal))]
fn try_word<P: Profile>(site: Site, after: bool) -> Result<bool, Refusal>
    ensures number { refused_number result ≡ Spec.number_of_word P.of_branch site.entry.whole.layout site.entry.whole.image.now site.entry.index after (view_at site.entry.whole.image.now site.entry.index) }
    ensures branch { Spec.SaysBranch result (view_at site.entry.whole.image.now site.entry.index) }
{
    let w = site.word().value();
    if quick::plain::is_plain(w) {
        return Ok(false);
    }
    let Some(v) = view::of_word(w) else {
        return Err(Refusal::NoInstruction);
    };
    check_word(site, after, v)?;
    let branch = v.is_branch();
    if branch {
        P::check_branch(site, v)?;
    }
    Ok(branch)
}

// The word that a rule names where it is broken at word i: for 22 and 25, the ANDI of its guard.
fn named(rule: Refusal, i: u32) -> u32
    ensures { result ≡ named (number_of rule) i }
{
    if rule == Refusal::DataMask || rule == Refusal::MaskHole {
        i.saturating_sub(2)
    } else {
        i
    }
}

// What is said of word i names it, or a word before it.
fn at_word<A>(i: usize, said: Result<A, Refusal>) -> Result<A, Refused>
    requires { i < no_place }
    ensures verdict { verdict_of result ≡ Spec.verdict_at (refused_number said) i }
    ensures passed { IfOk result (λ x. said ≡ Ok x) }
{
    said.map_err(
        |rule|
            requires { i < no_place }
        {
            Refused {
                rule,
                place: Some(named(rule, i as u32)),
            }
        },
    )
}

// After the words: 16, and what the profile says of the whole.
#[tactic(auto, using(crate::proofs::Scan::is_last_jump, crate::proofs::Numbers::told_at))]
fn check_end<P: Profile>(whole: Module) -> Result<(), Refused>
    ensures { verdict_of result ≡ Spec.end_verdict P.of_whole whole.entry.layout whole.entry.image.now (length whole.entry.image.now / 4) }
{
    let i = whole.words() - 2;
    let jump = is_jump(word_at(whole.image, i));
    at_word(i, Refusal::NoLastJump.when(!jump))?;
    Ok(P::check_whole(whole)?)
}

// The words from index 0, each with its rules; then those of the whole. By index, since the guard of a word is in the two before it.
pub fn check_words<P: Profile>(whole: Module) -> Result<(), Refused>
    ensures { verdict_of result ≡ Spec.words_verdict P.of_branch P.of_whole whole.entry.layout whole.entry.image.now }
{
    let mut after = false;
    for i in 0..whole.words() {
        after = at_word(i, try_word::<P>(Site { whole, index: i }, after))?;
    }
    check_end::<P>(whole)
}
