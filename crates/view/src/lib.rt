// What the checker's rules look at in a word.
#![tactic(auto)]

ghost use Rattle.std.specs.Prelude.{◌≡◌};
ghost use Rattle.view.specs.View as Spec;

use class::{Flow, class_of, named};
use isa::kind::{Instruction, Kind, System};
use isa::register;
use isa::width::Width;

#[derive(Clone, Copy)]
pub struct View {
    // MFC0, MTC0, RFE, or BREAK with code 15
    pub barred: bool,
    pub flow: Flow,
    // leaves a link: beside the flow and not in it, since is_branch and rules 13, 15 and 20 ask of the flow alone
    pub link: bool,
    // None: not an access.
    pub width: Option<Width>,
    // The register written; 0, which takes no write, where there is none.
    pub written: u32,
    pub rs: u32,
    pub rd: u32,
    pub value: u32,
}

// The registers that hold the bases of data and code.
pub fn is_base(r: u32) -> bool
    ensures { result ≡ Spec.is_base r }
{
    matches!(r, register::DATA_BASE | register::CODE_BASE)
}

fn is_barred(k: Kind, value: u32) -> bool
    ensures { result ≡ Spec.is_barred k value }
{
    match k {
        Kind::System(System::Mfc0 | System::Mtc0 | System::Rfe) => true,
        Kind::System(System::Break) => value == 15,
        _ => false,
    }
}

impl View {
    // a branch or jump
    pub fn is_branch(self) -> bool
        ensures { result ≡ Spec.is_branch self }
    {
        self.flow != Flow::Onward
    }
}

// No From: a view is what the rules ask of an instruction, and not the instruction in another form.
#[tactic(auto, using(crate::proofs::Views::written), unfolding(crate::specs::View::seen))]
fn seen(i: Instruction) -> View
    ensures { result ≡ Spec.seen i }
{
    let class = class_of(i.kind);
    View {
        barred: is_barred(i.kind, i.value),
        flow: class.flow,
        link: class.link,
        width: class.width(),
        written: named(class.destination, i),
        rs: i.rs,
        rd: i.rd,
        value: i.value,
    }
}

// None where the word reads as no instruction.
#[tactic(auto, unfolding(crate::specs::View::word_view))]
pub fn of_word(word: u32) -> Option<View>
    ensures { result ≡ Spec.word_view word }
{
    reader::read(word).map(seen)
}
