// The start of a module (document 02, Ticket 8): checked, found where its layout says, and its state made ready.
#![tactic(auto)]

ghost use Rattle.std.specs.Prelude.{◌≡◌, ◌+◌, ◌^◌, ◌<◌, ◌≤◌, IfOk, length};
ghost use Rattle.checker.specs.Said.{verdict_of};
ghost use Rattle.refusal.specs.Refusal.{refused_number};
ghost use Rattle.machine.specs.State.{refusal_of};
ghost use Rattle.start.specs.Start as Spec;

use checker::check::Candidate;
use checker::verdict::Refused;
use effect::effect::Special;
use isa::register;
use layout::Layout;
use machine::state::State;
use refusal::{Ending, Refusal};

// In user mode: bit 3 set, and no other bit changed.
#[tactic(auto, unfolding(crate::specs::Start::user_of))]
fn user(status: u32) -> u32
    requires { status < 2 ^ 13 }
    ensures { result ≡ Spec.user_of status }
{
    if system::is_user(status) {
        status
    } else {
        status + 8
    }
}

// At the first two words and in user mode, and all else as given.
fn ready(layout: Layout, s: State) -> State
    requires { (layout.code_base + 4 < 2 ^ 32) × (s.special.status < 2 ^ 13) }
    ensures { result ≡ Spec.started_of layout s }
{
    State {
        special: Special {
            pc: layout.code_base,
            next_pc: layout.code_base + 4,
            status: user(s.special.status),
            ..s.special
        },
        ..s
    }
}

#[tactic(auto, unfolding(crate::specs::Start::is_based))]
fn is_based(layout: Layout, s: State) -> bool
    ensures { result ≡ Spec.is_based layout s }
{
    s.registers[register::DATA_BASE as usize] == layout.data_base
        && s.registers[register::CODE_BASE as usize] == layout.code_base
}

// The code area is compared with the image in one pass.
#[tactic(auto, using(crate::proofs::Order::code_is), unfolding(crate::specs::Start::placing_refusal))]
fn placing(layout: Layout, image: &[u8], s: State, memory: &[u8]) -> Result<(), Refusal>
    requires { layout.code_base + layout.code_size ≤ length memory.now }
    ensures { refused_number result ≡ Spec.placing_refusal layout image.now s memory.now }
{
    let from = layout.code_base as usize;
    let to = from + layout.code_size as usize;
    Refusal::CodeBytes.when(&memory[from..to] != image)?;
    Refusal::Bases.when(!is_based(layout, s))
}

// What is asked of a state and memory after the checker, and the state that is made ready.
#[tactic(auto, using(crate::proofs::Order::own_refused, crate::proofs::Order::placing_next, crate::proofs::Order::status_fits))]
fn begun(layout: Layout, image: &[u8], s: State, memory: &[u8]) -> Result<State, Refusal>
    requires { (layout.code_base + layout.code_size ≤ length memory.now) × (layout.code_base + 4 < 2 ^ 32) }
    ensures number { refused_number result ≡ Spec.later_refusal (refusal_of s (length memory.now)) layout image.now s memory.now }
    ensures state { IfOk result (λ t. t ≡ Spec.started_of layout s) }
{
    s.refusal(memory.len())?;
    placing(layout, image, s, memory)?;
    Ok(ready(layout, s))
}

// Of a state, or of what is refused in its place: its refusal comes after the checker's.
#[tactic(auto, using(crate::proofs::Order::check_refused, crate::proofs::Order::given_refused, crate::proofs::Order::given_done, crate::proofs::Order::code_inside))]
pub fn start_by(
    layout: Layout,
    image: &[u8],
    given: Result<State, Refusal>,
    memory: &[u8],
) -> Result<State, Refused>
    ensures verdict { verdict_of result ≡ Spec.verdict_by layout image.now given memory.now }
    ensures state { IfOk result (Spec.StartedFrom layout given) }
{
    let candidate = Candidate {
        layout,
        memory_length: memory.len() as u64,
        image,
    };
    candidate.check()?;
    Ok(begun(layout, image, given?, memory)?)
}

#[tactic(auto, using(crate::proofs::Order::start_says))]
pub fn start(layout: Layout, image: &[u8], s: State, memory: &[u8]) -> Result<State, Refused>
    ensures { Spec.says s result ≡ Spec.start_of layout image.now s memory.now }
{
    start_by(layout, image, Ok(s), memory)
}
