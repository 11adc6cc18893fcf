//! Rounds: sets of jobs that go out together.
ghost use Rattle.sets.specs.Facts.{has};
ghost use Rattle.strips.specs.Rounds;
ghost use Rattle.strips.specs.Rounds.{round_of};
ghost use Rattle.std.specs.Prelude.{◌≡◌};

use crate::task::Task;
use sets::facts::FactSet;
use sets::jobs::JobSet;

/// The state after the round at `place`: `state` with all adds of its jobs, then without all their
/// deletes, whether the round is allowed in `state` or not. Numbers of absent jobs, as those from `m` up, don't
/// count, so a pause leaves the state as it is. Nothing is written.
pub fn state_after<S: Task>(task: &S, state: FactSet, place: &JobSet) -> FactSet
    ensures { has result ≡ Rounds.result (S.Task.meaning task.now) (has state) (round_of (S.Task.meaning task.now).m place.now) }
{
    let mut adds = FactSet::empty();
    let mut deletes = FactSet::empty();
    for j in place.below(task.m()) {
        if let Some(job) = task.job(j) {
            adds = adds.union(job.adds);
            deletes = deletes.union(job.deletes);
        }
    }
    state.union(adds).minus(deletes)
}
