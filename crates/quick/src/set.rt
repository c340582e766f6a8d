// Sets of numbers below 64, a bit for each: one shift tells whether a number is in one, and one computed test goes over all that are.
// No `matches!(code, 4 | 6 | 7 | ..)`: with it, and `&&` for `&` in plain, a check of 65,536 bytes took 1.14 times the time.
ghost use Rattle.std.specs.Prelude.{◌≡◌, ◌<◌};
ghost use Rattle.quick.specs.Set.{is_in};

#[tactic(auto, unfolding(crate::specs::Set::is_in))]
pub(crate) fn has(set: u64, n: u32) -> bool
    requires { n < 64 }
    ensures { result ≡ is_in set n }
{
    set >> n & 1 == 1
}
