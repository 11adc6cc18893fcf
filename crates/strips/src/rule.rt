//! What a sharing rule is.
ghost use Rattle.strips.specs.Jobs.{Interferes};
ghost use Rattle.strips.specs.Rules.{Says};
ghost use Rattle.strips.specs.declared.job.Job.{Job};
ghost use Rattle.std.specs.Prelude.{◌≡◌, true};

use crate::job::Job;

/// A sharing rule: whether two jobs may be in one round. That relation is its meaning, and two laws
/// bind it.
pub trait Rule {
    ghost shares: { Self → Says };

    /// Whether the two jobs may be in one round.
    fn may_share(&self, a: &Job, b: &Job) -> bool
        ensures { result ≡ shares self.now a.now b.now };

    ghost symmetric: { (x : Self) (a b : Job) → shares x a b ≡ shares x b a };

    ghost harmless: { (x : Self) (a b : Job) → shares x a b ≡ true → ¬ Interferes a b };
}
