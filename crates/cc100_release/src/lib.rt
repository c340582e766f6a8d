// cc100_release: an area is handed back, for C.
#![tactic(auto)]

ghost use Rattle.allocator.specs.Calls.{Releases};

use allocator::keeper;

// C has no Result: 0, or the number of the refusal.
#[unsafe(no_mangle)]
pub extern "C" fn cc100_release(bytes: &mut [u8], base: u32, size: u32) -> u32
    ensures { Releases bytes.old base size result bytes.new }
{
    keeper::release(bytes, base, size)
        .err()
        .map_or(0, u32::from)
}
