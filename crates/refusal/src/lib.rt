// The refusals, each by its number (document 01, Refusal table; document 02).
#![tactic(auto)]

#[derive(Clone, Copy, PartialEq, Eq)]
pub enum Refusal {
    MemoryTooLong = 1,
    CodeSize = 2,
    DataSize = 3,
    CodePlace = 4,
    DataPlace = 5,
    Overlap = 6,
    ImageLength = 7,
    NoInstruction = 8,
    Barred = 9,
    WritesBase = 10,
    LinkOverBase = 11,
    DataGuard = 12,
    CodeGuard = 13,
    BranchAfterBranch = 14,
    Target = 15,
    NoLastJump = 16,
    State = 17,
    IllegalField = 18,
    NotServed = 19,
    NotForward = 20,
    LastBundle = 21,
    DataMask = 22,
    NoSpace = 23,
    Record = 24,
    MaskHole = 25,
    CodeBytes = 26,
    Bases = 27,
}

// What a rule that is broken, or a test that holds, ends in: a refusal, or an exit of the machine.
pub trait Ending: Sized + Drop {
    ghost use Rattle.std.specs.Prelude.{◌≡◌};
    ghost use Rattle.refusal.specs.Refusal.{ended_when};

    fn when(self, broken: bool) -> Result<(), Self>
        ensures { result ≡ ended_when self broken }
    {
        if broken { Err(self) } else { Ok(()) }
    }
}

impl Ending for Refusal {}

impl From<Refusal> for u32 {
    ghost use Rattle.refusal.specs.Refusal.{IsNumberOf};

    ghost from_gives = { IsNumberOf };

    fn from(r: Refusal) -> u32 {
        r as u32
    }
}
