// cc100_start: the start of a module, of a state as bytes.
#![tactic(auto)]

ghost use Rattle.std.specs.Prelude.{◌≡◌};
ghost use Rattle.start.specs.Start.{start_call};
ghost use Rattle.cc100_start.specs.Call as Spec;

use checker::verdict::{Refused, Verdict};
use layout::Layout;

// What is refused of the state as bytes comes after the checker's refusals too.
fn started(layout: Layout, image: &[u8], state: &mut [u8], memory: &[u8]) -> Result<(), Refused>
    ensures { Spec.says result state.new ≡ start_call layout image.now state.old memory.now }
{
    let s = start::start_by(layout, image, cc100::decode(state, memory.len()), memory)?;
    codec::encode::encode(s, state)?;
    Ok(())
}

// Four numbers for the layout: the C interface has no struct of them.
#[unsafe(no_mangle)]
pub extern "C" fn cc100_start(
    code_base: u32,
    code_size: u32,
    data_base: u32,
    data_size: u32,
    image: &[u8],
    state: &mut [u8],
    memory: &[u8],
) -> Verdict
    ensures { Spec.answer_of result state.new ≡ Spec.start_numbers code_base code_size data_base data_size image.now state.old memory.now }
{
    let layout = Layout {
        code_base,
        code_size,
        data_base,
        data_size,
    };
    Verdict::from(started(layout, image, state, memory))
}
