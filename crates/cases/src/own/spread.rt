//! A rule that spreads the jobs of a round over the zones.
ghost use Rattle.cases.specs.Own.{spread, spread_lawful};

use strips::job::Job;
use strips::rule::Rule;
use strips::rules::Apart;

/// Two jobs may share a round exactly if they don't interfere and are in different zones, where 0 is a zone like the
/// others.
#[derive(Clone, Copy)]
pub struct Spread;

impl Rule for Spread {
    ghost shares = { λ _. spread };

    ghost symmetric = { λ x. spread_lawful.symmetric };

    ghost harmless = { λ x. spread_lawful.harmless };

    fn may_share(&self, a: &Job, b: &Job) -> bool {
        Apart.may_share(a, b) && a.zone != b.zone
    }
}
