// cc100_check_straight: the straight-through profile of the module checker, for C.
#![tactic(auto)]

ghost use Rattle.std.specs.Prelude.{◌≡◌};
ghost use Rattle.cc100_check_straight.specs.Call.{straight_call};

use checker::check::Candidate;
use checker::verdict::Verdict;
use layout::Layout;

// Four numbers for the layout: the C interface has no struct of them. A call of its own for each profile.
#[unsafe(no_mangle)]
pub extern "C" fn cc100_check_straight(
    memory_length: u64,
    code_base: u32,
    code_size: u32,
    data_base: u32,
    data_size: u32,
    image: &[u8],
) -> Verdict
    ensures { result ≡ straight_call memory_length code_base code_size data_base data_size image.now }
{
    let layout = Layout {
        code_base,
        code_size,
        data_base,
        data_size,
    };
    let candidate = Candidate {
        layout,
        memory_length,
        image,
    };
    Verdict::from(straight::check::check_straight(candidate))
}
