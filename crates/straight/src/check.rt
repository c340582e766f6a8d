// The checker with the straight-through profile.
ghost use Rattle.std.specs.Prelude.{◌≡◌};
ghost use Rattle.checker.specs.Said.{verdict_of};
ghost use Rattle.straight.specs.Check as Spec;

use crate::words::StraightThrough;
use checker::check::Candidate;
use checker::verdict::Refused;

#[tactic(auto, using(crate::proofs::Scan::straight_image))]
pub fn check_straight(candidate: Candidate) -> Result<(), Refused>
    ensures { verdict_of result ≡ Spec.straight_of candidate.entry.layout candidate.entry.memory_length candidate.entry.image.now }
{
    candidate.check_by::<StraightThrough>()
}
