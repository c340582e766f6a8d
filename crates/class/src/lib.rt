// What machine and checker ask of an instruction: is it an access or a branch, and which register does it write?
#![tactic(auto)]

ghost use Rattle.std.specs.Prelude.{◌≡◌};
ghost use Rattle.class.specs.Class as C;

use isa::kind::{Access, Branch, Instruction, Kind, Multiply, System};
use isa::register;
use isa::width::Width;

// Where control goes after the slot.
#[derive(Clone, Copy, PartialEq, Eq)]
pub enum Flow {
    // to the next word
    Onward,
    // to a place counted from the slot
    Relative,
    // to a place in the slot's 256 MB region
    Region,
    // to the address in a register
    Register,
}

// What names the register that is written.
#[derive(Clone, Copy)]
pub enum Destination {
    Nowhere,
    FieldRt,
    FieldRd,
    // register 31
    Return,
}

// An access: what it does, and how much of memory it takes. Touched of effect says the same of a step, which has an address. The direction is for the
// machine's definitions, which ask it; the checker asks the width.
#[derive(Clone, Copy)]
pub enum Transfer {
    Load(Width),
    Store(Width),
}

#[derive(Clone, Copy)]
pub struct Class {
    // None: not an access.
    pub access: Option<Transfer>,
    pub flow: Flow,
    // leaves a link; beside the flow as in View
    pub link: bool,
    pub destination: Destination,
}

// A name for each sort of class, here and below, as the definition has them.
fn plain(destination: Destination) -> Class
    ensures { result ≡ C.plain destination }
{
    Class {
        access: None,
        flow: Flow::Onward,
        link: false,
        destination,
    }
}

fn loads(width: Width) -> Class
    ensures { result ≡ C.loads width }
{
    Class {
        access: Some(Transfer::Load(width)),
        ..plain(Destination::FieldRt)
    }
}

fn stores(width: Width, destination: Destination) -> Class
    ensures { result ≡ C.stores width destination }
{
    Class {
        access: Some(Transfer::Store(width)),
        ..plain(destination)
    }
}

fn branches(flow: Flow) -> Class
    ensures { result ≡ C.branches flow }
{
    Class {
        flow,
        ..plain(Destination::Nowhere)
    }
}

fn links(flow: Flow, destination: Destination) -> Class
    ensures { result ≡ C.links flow destination }
{
    Class {
        flow,
        link: true,
        ..plain(destination)
    }
}

fn multiply_class(k: Multiply) -> Class
    ensures { result ≡ C.multiply_class k }
{
    match k {
        Multiply::Mfhi | Multiply::Mflo => plain(Destination::FieldRd),
        Multiply::Mult
        | Multiply::Multu
        | Multiply::Div
        | Multiply::Divu
        | Multiply::Mthi
        | Multiply::Mtlo => plain(Destination::Nowhere),
    }
}

fn access_class(k: Access) -> Class
    ensures { result ≡ C.access_class k }
{
    match k {
        Access::Lb | Access::Lbu => loads(Width::Byte),
        Access::Lh | Access::Lhu => loads(Width::Half),
        Access::Lw | Access::Ll => loads(Width::Word),
        Access::Sb => stores(Width::Byte, Destination::Nowhere),
        Access::Sh => stores(Width::Half, Destination::Nowhere),
        Access::Sw => stores(Width::Word, Destination::Nowhere),
        Access::Sc => stores(Width::Word, Destination::FieldRt),
    }
}

fn branch_class(k: Branch) -> Class
    ensures { result ≡ C.branch_class k }
{
    match k {
        Branch::J => branches(Flow::Region),
        Branch::Jal => links(Flow::Region, Destination::Return),
        Branch::Jr => branches(Flow::Register),
        Branch::Jalr => links(Flow::Register, Destination::FieldRd),
        Branch::Beq | Branch::Bne | Branch::Blez | Branch::Bgtz | Branch::Bltz | Branch::Bgez =>
            branches(Flow::Relative),
        Branch::Bltzal | Branch::Bgezal => links(Flow::Relative, Destination::Return),
    }
}

fn system_class(k: System) -> Class
    ensures { result ≡ C.system_class k }
{
    match k {
        System::Mfc0 => plain(Destination::FieldRt),
        System::Syscall | System::Break | System::Rfe | System::Mtc0 | System::Sync => {
            plain(Destination::Nowhere)
        }
    }
}

// A match by hand and no From: it is the classification itself, which answers what is asked of a kind, and not the kind in another form.
pub fn class_of(k: Kind) -> Class
    ensures { result ≡ C.class_of k }
{
    match k {
        Kind::Alu(_) | Kind::Shift(_) => plain(Destination::FieldRd),
        Kind::Immediate(_) => plain(Destination::FieldRt),
        Kind::Multiply(x) => multiply_class(x),
        Kind::Access(x) => access_class(x),
        Kind::Branch(x) => branch_class(x),
        Kind::Trap(_) => plain(Destination::Nowhere),
        Kind::System(x) => system_class(x),
    }
}

impl Class {
    pub fn width(self) -> Option<Width>
        ensures { result ≡ C.width_in self.access }
    {
        match self.access {
            Some(Transfer::Load(width) | Transfer::Store(width)) => Some(width),
            None => None,
        }
    }
}

// 0 of Nowhere, as the definition has it: register 0 takes no writes, so that whoever asks what is written needs no case of its own.
pub fn named(destination: Destination, i: Instruction) -> u32
    ensures { result ≡ C.named destination i }
{
    match destination {
        Destination::Nowhere => 0,
        Destination::FieldRt => i.rt,
        Destination::FieldRd => i.rd,
        Destination::Return => register::LINK,
    }
}
