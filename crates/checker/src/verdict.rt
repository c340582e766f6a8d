// What the checker says of a module, and the same for C.
ghost use Rattle.std.specs.Prelude.{◌≡◌, ◌<◌};
ghost use Rattle.std.specs.Option.{ForSome};
ghost use Rattle.checker.specs.Check.{no_place};

use refusal::Refusal;

// The rule that is broken, and the index of the word where it is; no place where the rule is of layout and image. No index is the number that
// stands for no place, so that the verdict tells the two apart.
#[derive(Clone, Copy)]
pub struct Refused {
    pub rule: Refusal,
    pub place: Option<u32>,
    pub ghost index: { ForSome place (λ i. i < no_place) },
}

impl From<Refusal> for Refused {
    ghost use Rattle.checker.specs.Said.{IsPlaceless};

    ghost from_gives = { IsPlaceless };

    fn from(rule: Refusal) -> Refused {
        Refused { rule, place: None }
    }
}

// struct cc100_verdict: 0, or the rule's number. C has no Option: what has no place has NO_PLACE.
#[repr(C)]
#[derive(Clone, Copy)]
pub struct Verdict {
    pub number: u32,
    pub place: u32,
}

// The place of what is no word's.
pub const NO_PLACE: u32 = 0xFFFFFFFF;

impl From<Result<(), Refused>> for Verdict {
    ghost use Rattle.checker.specs.Said.{IsVerdictOf};

    ghost from_gives = { IsVerdictOf };

    fn from(said: Result<(), Refused>) -> Verdict {
        match said {
            Ok(()) => Verdict {
                number: 0,
                place: NO_PLACE,
            },
            Err(refused) => Verdict {
                number: u32::from(refused.rule),
                place: refused.place.unwrap_or(NO_PLACE),
            },
        }
    }
}
