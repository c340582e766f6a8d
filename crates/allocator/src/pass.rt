// One pass over a record: whether it is sound, and the lowest base that is free.
ghost use Rattle.std.specs.Prelude.{◌≡◌, ◌+◌, ◌*◌, ◌^◌, ◌≤◌, ◌<◌, ◌↔◌, true, ℕ, length, slice_index, IsTrue};
ghost use Rattle.std.specs.Int.{is_power_of_two};
ghost use Rattle.std.specs.Option.{ForSome};
ghost use Rattle.allocator.specs.Pass as Spec;
ghost use Rattle.allocator.specs.Record.{IsSize, Size, memory_size};

// Of the areas out that begin before some place: where the last one ends, and the lowest base at which an area of the size that is wanted overlaps
// none of them.
#[derive(Clone, Copy)]
pub struct Pass {
    pub end: u32,
    pub base: u32,
}

// The least multiple of size from n on. A mask gives the remainder.
#[tactic(auto, using(layout::proofs::Sizes::power_positive, crate::proofs::Multiples::cut))]
fn round_up(n: u32, size: u32) -> u32
    requires power { is_power_of_two size ≡ true }
    requires room { n + size ≤ 2 ^ 31 }
    ensures { result ≡ Spec.rounded size n }
{
    let last = n + (size - 1);
    last - (last & (size - 1))
}

// The size of an area with this k.
#[tactic(auto, using(crate::proofs::Multiples::power_most, crate::proofs::Multiples::shifted_tested))]
fn size_of(k: u8) -> u32
    requires { k ≤ 16 }
    ensures value { result ≡ 2 ^ k }
    ensures power { is_power_of_two result ≡ true }
    ensures most { result ≤ 65536 }
{
    1u32 << k
}

impl Pass {
    // An area is seen next: it begins at address `at`, and its byte is k, which is not 0. None where the record is not sound.
    #[tactic(auto, using(layout::proofs::Sizes::remainder, layout::proofs::Sizes::power_positive), unfolding(crate::specs::Pass::taken))]
    fn take(self, at: u32, k: u8, size: u32) -> Option<Pass>
        requires power { is_power_of_two size ≡ true }
        requires most { size ≤ 65536 }
        requires place { at < memory_size }
        requires base { self.base ≤ memory_size }
        ensures { result ≡ Spec.taken size self at k }
    {
        if k < 4 || 16 < k {
            return None;
        }
        let length = size_of(k);
        if at & (length - 1) != 0 || at < self.end {
            return None;
        }
        let end = at + length;
        let base = if at < self.base + size {
            round_up(end, size)
        } else {
            self.base
        };
        Some(Pass { end, base })
    }

    // The eight bytes from `from` on are seen next.
    #[tactic(auto, using(crate::proofs::Multiples::size_tested, crate::proofs::Multiples::size_most))]
    fn eight(self, bytes: &[u8], from: usize, size: u32) -> Option<Pass>
        requires length { length bytes.now ≡ 65536 }
        requires within { from + 8 ≤ 65536 }
        requires size { Size size }
        requires seen { (k : ℕ) → IsSize k size → Spec.Seen bytes.now k (16 * from) self }
        ensures { (k : ℕ) → IsSize k size → Spec.Known bytes.now k (16 * (from + 8)) result }
    {
        let mut seen = self;
        for at in from..from + 8 {
            if bytes[at] != 0 {
                seen = seen.take(16 * at as u32, bytes[at], size)?;
            }
        }
        Some(seen)
    }
}

// No area begins in the eight bytes from `from` on. Of a record most are 0, so eight are looked at together: the array is compiled to one load.
fn is_clear(bytes: &[u8], from: usize) -> bool
    requires { from + 8 ≤ length bytes.now }
    ensures { IsTrue result ↔ ((i : ℕ) → i < 8 → slice_index bytes.now (from + i) ≡ 0) }
{
    let eight = std::array::from_fn(|i| bytes[from + i]);
    u64::from_le_bytes(eight) == 0
}

// What a record shows out, by its bytes. None where it is not sound.
#[tactic(auto, using(crate::proofs::Multiples::size_tested, crate::proofs::Multiples::size_most))]
pub fn scan(bytes: &[u8], size: u32) -> Option<Pass>
    requires { Size size }
    ensures passed { (k : ℕ) → IsSize k size → Spec.Passed bytes.now k result }
    ensures most { ForSome result (λ p. p.base ≤ memory_size) }
{
    if bytes.len() != 65536 {
        return None;
    }
    let mut seen = Pass { end: 0, base: 0 };
    for i in 0..65536 / 8 {
        if !is_clear(bytes, 8 * i) {
            seen = seen.eight(bytes, 8 * i, size)?;
        }
    }
    Some(seen)
}
