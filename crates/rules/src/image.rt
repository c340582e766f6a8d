// The words of an image.
ghost use Rattle.std.specs.Prelude.{◌≡◌, ◌+◌, ◌-◌, ◌*◌, ◌≤◌, length};
ghost use Rattle.rules.specs.Rules as Spec;

// Not by `load` of word, whose copy into an array is compiled with a test for overlap: a check takes 1.1 times the time with it.
#[tactic(auto, unfolding(crate::specs::Rules::word_at, word::specs::Bytes::load_of))]
pub fn word_at(image: &[u8], i: usize) -> u32
    requires { 4 * i + 4 ≤ length image.now }
    ensures { result ≡ Spec.word_at image.now i }
{
    let at = 4 * i;
    u32::from_le_bytes([image[at], image[at + 1], image[at + 2], image[at + 3]])
}

// A word of an image, by its index.
#[derive(Clone, Copy)]
pub struct Word<'a> {
    pub image: &'a [u8],
    pub index: usize,
    pub ghost within: { 4 * index + 4 ≤ length image.now },
}

impl Word<'_> {
    pub fn value(self) -> u32
        ensures { result ≡ Spec.word_at self.entry.image.now self.entry.index }
    {
        word_at(self.image, self.index)
    }

    // The value of the word so many before.
    pub fn before(self, count: usize) -> u32
        requires { count ≤ self.index }
        ensures { result ≡ Spec.word_at self.entry.image.now (self.entry.index - count) }
    {
        word_at(self.image, self.index - count)
    }
}
