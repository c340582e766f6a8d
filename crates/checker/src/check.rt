// The module checker. Checking can be done after placing.
ghost use Rattle.std.specs.Prelude.{◌≡◌, IfOk};
ghost use Rattle.refusal.specs.Refusal.{refused_number};
ghost use Rattle.checker.specs.Check as Spec;
ghost use Rattle.checker.specs.Said.{verdict_of};
ghost use Rattle.checker.specs.Scan as Scan;

use crate::verdict::Refused;
use crate::words::{Basic, Profile, check_words};
use layout::Layout;
use refusal::{Ending, Refusal};
use rules::site::Module;

// A module as it is handed in: an image, and the layout and the length of the memory that it is for.
#[derive(Clone, Copy)]
pub struct Candidate<'a> {
    pub layout: Layout,
    pub memory_length: u64,
    pub image: &'a [u8],
}

impl<'a> Candidate<'a> {
    // The module that layout and image make; refused by the first of 1 to 7 that is broken.
    #[tactic(auto, unfolding(crate::specs::Scan::file_refusal))]
    pub fn module(self) -> Result<Module<'a>, Refusal>
        ensures number { refused_number result ≡ Scan.file_refusal self.entry.layout self.entry.memory_length self.entry.image.now }
        ensures module { IfOk result (λ m. (m.layout ≡ self.entry.layout) × (m.image.now ≡ self.entry.image.now)) }
    {
        self.layout.check(self.memory_length)?;
        let code_size = u64::from(self.layout.code_size);
        Refusal::ImageLength.when(self.image.len() as u64 != code_size)?;
        Ok(Module {
            layout: self.layout,
            image: self.image,
        })
    }

    // Layout and image, then the words, with a profile's rules among them.
    #[tactic(auto, using(refusal::proofs::Numbers::number_some), unfolding(crate::specs::Scan::image_verdict))]
    pub fn check_by<P: Profile>(self) -> Result<(), Refused>
        ensures { verdict_of result ≡ Scan.image_verdict P.of_branch P.of_whole self.entry.layout self.entry.memory_length self.entry.image.now }
    {
        check_words::<P>(self.module()?)
    }

    // A function for each profile, here and in straight: each promises the verdict of a definition of its own.
    #[tactic(auto, using(crate::proofs::Scan::basic_image))]
    pub fn check(self) -> Result<(), Refused>
        ensures { verdict_of result ≡ Spec.check_of self.entry.layout self.entry.memory_length self.entry.image.now }
    {
        self.check_by::<Basic>()
    }
}

// The image is the part of the memory that is the code area.
#[tactic(auto, using(crate::proofs::Scan::layout_refused, crate::proofs::Scan::part_inside, crate::proofs::Scan::part_is))]
pub fn check_placed(layout: Layout, memory: &[u8]) -> Result<(), Refused>
    ensures { verdict_of result ≡ Spec.placed_of layout memory.now }
{
    let memory_length = memory.len() as u64;
    layout.check(memory_length)?;
    let from = layout.code_base as usize;
    let to = from + layout.code_size as usize;
    let candidate = Candidate {
        layout,
        memory_length,
        image: &memory[from..to],
    };
    candidate.check()
}
