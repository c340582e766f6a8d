// The six fields of an instruction word, cut out by shifts and masks and put together again.
ghost use Rattle.std.specs.Prelude.{◌≡◌, ◌+◌, ◌-◌, ◌*◌, ◌^◌, ◌<◌};

#[derive(Clone, Copy, PartialEq, Eq)]
pub struct Fields<T> {
    pub op: T,
    pub rs: T,
    pub rt: T,
    pub rd: T,
    pub shift: T,
    pub funct: T,
}

impl Fields<u32> {
    ghost use Rattle.word.specs.Field.{join_of, Fit};

    // Fit is a clause and no ghost field: fields too wide for their places are made too, of an instruction that is then not written.
    #[tactic(auto, using(crate::proofs::Fields::join_or))]
    pub fn join(self) -> u32
        requires { Fit self }
        ensures { result ≡ join_of self }
    {
        (self.op << 26)
            | (self.rs << 21)
            | (self.rt << 16)
            | (self.rd << 11)
            | (self.shift << 6)
            | self.funct
    }
}

impl From<u32> for Fields<u32> {
    ghost use Rattle.word.specs.Field.{cut_of, Fit};

    ghost from_gives = { λ w f. (f ≡ cut_of w) × Fit f };

    fn from(w: u32) -> Fields<u32> {
        Fields {
            op: w >> 26,
            rs: (w >> 21) & 31,
            rt: (w >> 16) & 31,
            rd: (w >> 11) & 31,
            shift: (w >> 6) & 31,
            funct: w & 63,
        }
    }
}

// A number with a field of BITS bits put below it. BITS is below 32, as no shift is by a whole word: by a clause,
// as no type of a const parameter holds bounds.
#[tactic(auto, using(crate::proofs::Bits::append))]
pub fn append<const BITS: u32>(v: u32, x: u32) -> u32
    requires width { BITS < 32 }
    requires above { v < 2 ^ (32 - BITS) }
    requires below { x < 2 ^ BITS }
    ensures { result ≡ v * 2 ^ BITS + x }
{
    (v << BITS) | x
}
