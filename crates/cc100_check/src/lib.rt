// cc100_check: the module checker's call for C on a module that is not placed yet.
#![tactic(auto)]

ghost use Rattle.std.specs.Prelude.{◌≡◌};
ghost use Rattle.cc100_check.specs.Call.{check_call};

use checker::check::Candidate;
use checker::verdict::Verdict;
use layout::Layout;

// Four numbers for the layout: the C interface has no struct of them. A call of its own for each profile.
#[unsafe(no_mangle)]
pub extern "C" fn cc100_check(
    memory_length: u64,
    code_base: u32,
    code_size: u32,
    data_base: u32,
    data_size: u32,
    image: &[u8],
) -> Verdict
    ensures { result ≡ check_call memory_length code_base code_size data_base data_size image.now }
{
    let layout = Layout {
        code_base,
        code_size,
        data_base,
        data_size,
    };
    let candidate = Candidate {
        layout,
        memory_length,
        image,
    };
    Verdict::from(candidate.check())
}
