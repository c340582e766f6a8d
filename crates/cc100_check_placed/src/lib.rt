// cc100_check_placed: the module checker's call for C on a module that is placed in memory.
#![tactic(auto)]

ghost use Rattle.std.specs.Prelude.{◌≡◌};
ghost use Rattle.cc100_check_placed.specs.Call.{placed_call};

use checker::verdict::Verdict;
use layout::Layout;

// Four numbers for the layout: the C interface has no struct of them.
#[unsafe(no_mangle)]
pub extern "C" fn cc100_check_placed(
    code_base: u32,
    code_size: u32,
    data_base: u32,
    data_size: u32,
    memory: &[u8],
) -> Verdict
    ensures { result ≡ placed_call code_base code_size data_base data_size memory.now }
{
    let layout = Layout {
        code_base,
        code_size,
        data_base,
        data_size,
    };
    Verdict::from(checker::check::check_placed(layout, memory))
}
