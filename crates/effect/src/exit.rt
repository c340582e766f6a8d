// The exits, each by its number (document 01, Machine). What an instruction does is a Result: its effect, or the exit in which it ends.
ghost use Rattle.std.specs.Prelude.{◌≡◌};
ghost use Rattle.effect.specs.Exit.{exit_number};

use refusal::Ending;

#[derive(Clone, Copy, PartialEq, Eq)]
pub enum Exit {
    IntegerOverflow = 40,
    // A jump to an address that is no multiple of four.
    Address = 41,
    Load = 42,
    Store = 43,
    PrivilegedData = 44,
    PrivilegedInstruction = 45,
    SystemCall = 46,
    Breakpoint = 47,
    Trap = 48,
    NoInstruction = 49,
    Fetch = 50,
    // BREAK with code 15.
    DebugBreak = 51,
    // SYSCALL with code 15 in kernel mode.
    StopCores = 52,
}

impl Ending for Exit {}

impl From<Exit> for u32 {
    ghost use Rattle.effect.specs.Exit.{IsNumberOf};

    ghost from_gives = { IsNumberOf };

    fn from(e: Exit) -> u32 {
        e as u32
    }
}

// 0 where there is no exit, as C gets it: no From, since neither type is this crate's.
pub fn number(exit: Option<Exit>) -> u32
    ensures { result ≡ exit_number exit }
{
    exit.map_or(0, u32::from)
}
