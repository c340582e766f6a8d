// How much an access loads or stores.
#[derive(Clone, Copy, PartialEq, Eq)]
pub enum Width {
    Byte = 1,
    Half = 2,
    Word = 4,
}

impl From<Width> for u32 {
    ghost use Rattle.isa.specs.Width.{IsBytesOf};

    ghost from_gives = { IsBytesOf };

    fn from(w: Width) -> u32 {
        w as u32
    }
}
