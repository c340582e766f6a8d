// Instructions by number: an instruction's number is its place in document 004, section 1.2.
use crate::kind::Kind;
use crate::row;
use refusal::Refusal;

impl From<Kind> for u32 {
    ghost use Rattle.isa.specs.Number.{IsNumberOf};

    ghost from_gives = { IsNumberOf };

    #[inline(always)]
    fn from(kind: Kind) -> u32 {
        match kind {
            Kind::Alu(k) => k as u32,
            Kind::Immediate(k) => k as u32,
            Kind::Shift(k) => k as u32,
            Kind::Multiply(k) => k as u32,
            Kind::Access(k) => k as u32,
            Kind::Branch(k) => k as u32,
            Kind::Trap(k) => k as u32,
            Kind::System(k) => k as u32,
        }
    }
}

impl TryFrom<u32> for Kind {
    type Error = Refusal;

    ghost use Rattle.isa.specs.Number.{IsKindOf};

    ghost try_from_gives = { IsKindOf };

    fn try_from(number: u32) -> Result<Kind, Refusal> {
        match number {
            1..=72 => Ok(row::rows()[number as usize - 1].kind),
            _ => Err(Refusal::IllegalField),
        }
    }
}
