// What a step that completes does, and what it is decided from beside the instruction, its two source registers and the memory's length.

use isa::control::Control;
use isa::width::Width;

// The registers of a state beside its 32 general ones: HI, LO, the program counters, the LL bit, control registers 8, 12, 13 and 14. The order is by
// measure (docs/DECISIONS.md).
#[derive(Clone, Copy)]
pub struct Special {
    pub hi: u32,
    pub pc: u32,
    pub lo: u32,
    pub next_pc: u32,
    pub ll: bool,
    pub bad: u32,
    pub status: u32,
    pub cause: u32,
    pub epc: u32,
}

// What the upper bits of a register get where a byte or half is loaded.
#[derive(Clone, Copy)]
pub enum Extension {
    Zero,
    Sign,
}

// Every effect but Jump and Link also moves the program counters on by one instruction. The order is one in which the compiler makes quick code of a
// run's loop: it decides where the arms stand, and nothing else.
// A case for each width: `apply` hands the width on as a const parameter, and would have to match a width that is a value all the same.
#[derive(Clone, Copy)]
pub enum Effect {
    Advance,
    // Register, value.
    Write(u32, u32),
    // HI, LO.
    Pair(u32, u32),
    // Register, address, extension.
    LoadByte(u32, u32, Extension),
    LoadHalf(u32, u32, Extension),
    // Register, address.
    LoadWord(u32, u32),
    LoadLinked(u32, u32),
    // Target.
    Jump(u32),
    // Register, value, target.
    Link(u32, u32, u32),
    // Status.
    Return(u32),
    // Control register, value.
    Control(Control, u32),
    // Address, value.
    StoreByte(u32, u32),
    StoreHalf(u32, u32),
    StoreWord(u32, u32),
    // Register, address, value.
    StoreLinked(u32, u32, u32),
}

// A memory access that a step completes, or a run completed last: what document 02 calls touched.
#[derive(Clone, Copy)]
pub enum Touched {
    // Address, width.
    Load(u32, Width),
    Store(u32, Width),
}

// An access in numbers, as C gets it: width 0 where there is no access; store 1 for a store, 0 for a load.
#[derive(Clone, Copy)]
pub struct Cell {
    pub address: u32,
    pub width: u32,
    pub store: u32,
}

impl From<Option<Touched>> for Cell {
    ghost use Rattle.effect.specs.Touched.{IsCellOf};

    ghost from_gives = { IsCellOf };

    fn from(t: Option<Touched>) -> Cell {
        let (address, width, store) = match t {
            None => (0, 0, 0),
            Some(Touched::Load(a, w)) => (a, u32::from(w), 0),
            Some(Touched::Store(a, w)) => (a, u32::from(w), 1),
        };
        Cell {
            address,
            width,
            store,
        }
    }
}
