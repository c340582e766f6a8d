// The profile's rules: 20 of each branch or jump, and 21 of the last bundle.
use checker::words::Profile;
use refusal::{Ending, Refusal};
use rules::site::{Module, Site};
use view::View;

pub struct StraightThrough;

impl Profile for StraightThrough {
    ghost use Rattle.straight.specs.Scan as Spec;

    ghost of_branch = { Spec.of_branch };

    ghost of_whole = { Spec.of_whole };

    fn check_branch(site: Site, v: View) -> Result<(), Refusal> {
        Refusal::NotForward.when(profile::breaks20(site.place(), v))
    }

    fn check_whole(whole: Module) -> Result<(), Refusal> {
        Refusal::LastBundle.when(profile::breaks21(whole))
    }
}
