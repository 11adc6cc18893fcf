//! The pairs of facts that may hold after one more round.
ghost use Rattle.std.specs.Prelude.{◌≡◌, ℕ, ◌<◌, true, ◌⊎◌, Any, IsTrue, ◌↔◌};
ghost use Rattle.reach.specs.Makings.{In, ReadyJobs, adds_or_keeps, Joins, Helps, Made};
ghost use Rattle.reach.specs.PairSets.{paired};
ghost use Rattle.sets.specs.Facts.{has};
ghost use Rattle.strips.specs.Tasks.{Meaning, Admitted};

use crate::pair_set::PairSet;
use crate::ready::Ready;
use sets::facts::FactSet;
use strips::rule::Rule;

impl Ready {
    /// Whether the ready job `other` may be done beside this one: the rule lets the two share a round, and
    /// their needs are reached together.
    fn may_join<R: Rule>(&self, rule: &R, other: &Ready) -> bool
        ensures { IsTrue result ↔ Joins (R.Rule.shares rule.now) self.now other.now }
    {
        other.job.needs.is_subset(self.common) && rule.may_share(&self.job, &other.job)
    }

    /// The adds of the job, and the facts of `single` that can be kept beside it: they are reached together
    /// with its needs, and it doesn't delete them.
    fn added_or_kept(&self, single: FactSet) -> FactSet
        ensures { (q : ℕ) → has result q ≡ adds_or_keeps self.now single q }
    {
        let kept = self.common.meet(single).minus(self.job.deletes);
        self.job.adds.union(kept)
    }

    /// The facts of `with`, and the adds of each job of `others` that may share a round with this one and
    /// whose needs are reached together with its own.
    fn with_others<R: Rule>(&self, rule: &R, others: &[Option<Ready>], with: FactSet) -> FactSet
        ensures { (q : ℕ) → IsTrue (has result q) ↔ ((has with q ≡ true) ⊎ Any (Helps (R.Rule.shares rule.now) self.now q) others.now) }
    {
        let mut facts = with;
        // `others.iter().flatten()` leaves the loop's step open, and holds an inner iterator for each place.
        for other in others {
            if let Some(other) = other
                && self.may_join(rule, other)
            {
                facts = facts.union(other.job.adds);
            }
        }
        facts
    }
}

/// The pairs that a round makes from the pairs reached, for any task that these ready jobs are of: a fact
/// that a ready job adds, with each fact that may hold beside it. Each pair is there in one order at least.
pub(crate) fn pairs_made<R: Rule>(rule: &R, reached: &PairSet, ready: &[Option<Ready>]) -> PairSet
    requires { (p q : ℕ) → paired reached.now p q ≡ true → paired reached.now q p ≡ true }
    ensures { (T : Meaning) → Admitted T → ReadyJobs T reached.now ready.now
        → ((f : ℕ) → paired reached.now f f ≡ true → f < T.n)
        → (p q : ℕ) → IsTrue (paired result p q) ↔ Made T (R.Rule.shares rule.now) (In reached.now) p q }
{
    let mut made = PairSet::empty();
    let single = reached.singles();
    for (j, own) in ready.iter().enumerate() {
        if let Some(own) = own {
            let beside = own.added_or_kept(single);
            made.join(own.job.adds, own.with_others(rule, &ready[j + 1..], beside));
        }
    }
    made
}
