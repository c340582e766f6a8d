// Numbers of up to four bytes in a slice, little-endian.
ghost use Rattle.std.specs.Prelude.{◌≡◌, ◌+◌, ◌*◌, ◌^◌, ◌<◌, ◌≤◌, length};
ghost use Rattle.word.specs.Bytes.{load_of, store_of, words_at};

// The longest memory, in bytes.
pub const LONGEST: usize = 16777216;

// N is at most 4, so that the number is a word, by a clause here and below, as no type of a const parameter holds bounds. By a place in the slice,
// here and below, since an address of a memory is such a place.
pub fn load<const N: usize>(s: &[u8], at: usize) -> u32
    requires within { at + N ≤ length s.now }
    requires width { N ≤ 4 }
    ensures value { result ≡ load_of N s.now at }
    ensures bound { result < 256 ^ N }
{
    let mut word = [0; 4];
    word[..N].copy_from_slice(&s[at..at + N]);
    u32::from_le_bytes(word)
}

// N is at most 4, as many as a word has.
pub fn store<const N: usize>(s: &mut [u8], at: usize, v: u32)
    requires within { at + N ≤ length s.old }
    requires width { N ≤ 4 }
    ensures { s.new ≡ store_of N s.old at v }
{
    s[at..at + N].copy_from_slice(&v.to_le_bytes()[..N]);
}

// Four bytes put together. Not by `load`, whose copy is compiled with a test for overlap: with it, of each word of a state, cc100_resume took four times
// the time.
#[tactic(auto, unfolding(crate::specs::Bytes::load_of))]
fn word_at(bytes: &[u8], at: usize) -> u32
    requires { at + 4 ≤ length bytes.now }
    ensures { result ≡ load_of 4 bytes.now at }
{
    u32::from_le_bytes([bytes[at], bytes[at + 1], bytes[at + 2], bytes[at + 3]])
}

// N words, one after another.
pub fn words<const N: usize>(bytes: &[u8], at: usize) -> [u32; N]
    requires { at + 4 * N ≤ length bytes.now }
    ensures { result ≡ words_at N bytes.now at }
{
    std::array::from_fn(|k| word_at(bytes, at + 4 * k))
}
