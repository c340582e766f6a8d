// A module that rules 1 to 7 have let pass, and its words.
ghost use Rattle.std.specs.Prelude.{◌≡◌, ◌+◌, ◌*◌, ◌/◌, ◌^◌, ◌<◌, ◌≤◌, length};
ghost use Rattle.rules.specs.Rules.{Sized};

use crate::image::Word;
use layout::Layout;

// The image has the size of the code area. Clauses spell out its layout and image, here and in checker: the definitions of the rules are over plain
// lists.
#[derive(Clone, Copy)]
pub struct Module<'a> {
    pub layout: Layout,
    pub image: &'a [u8],
    pub ghost sized: { Sized layout image.now },
}

impl Module<'_> {
    // The number of its words.
    pub fn words(self) -> usize
        ensures { result ≡ length self.entry.image.now / 4 }
    {
        self.image.len() / 4
    }
}

// A word's place in a layout, by its index: all that its address hangs on.
#[derive(Clone, Copy)]
pub struct Place {
    pub layout: Layout,
    pub index: usize,
    pub ghost within: { layout.code_base + 4 * index < 2 ^ 32 },
}

impl Place {
    // The address of the word.
    pub fn pc(self) -> u32
        ensures { result ≡ self.layout.code_base + 4 * self.index }
    {
        self.layout.code_base + 4 * (self.index as u32)
    }
}

// A word of a module, by its index. Word keeps the same fact and asks less: 12 and 13 hold of any image, whatever the layout.
#[derive(Clone, Copy)]
pub struct Site<'a> {
    pub whole: Module<'a>,
    pub index: usize,
    pub ghost within: { 4 * index + 4 ≤ length whole.image.now },
}

impl<'a> Site<'a> {
    pub fn word(self) -> Word<'a>
        ensures image { result.image ≡ self.entry.whole.image }
        ensures index { result.index ≡ self.entry.index }
    {
        Word {
            image: self.whole.image,
            index: self.index,
        }
    }

    pub fn place(self) -> Place
        ensures layout { result.layout ≡ self.entry.whole.layout }
        ensures index { result.index ≡ self.entry.index }
    {
        Place {
            layout: self.whole.layout,
            index: self.index,
        }
    }
}
