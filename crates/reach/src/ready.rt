//! The jobs that are ready at a layer: present, and with their needs reached.
ghost use Rattle.reach.specs.Makings.{ReadyAt, ReadyJobs};
ghost use Rattle.std.specs.Prelude.{◌≡◌, length};

use crate::pair_set::PairSet;
use sets::facts::FactSet;
use strips::job::Job;
use strips::task::Task;

/// A ready job, with the facts that are reached together with each of its needs.
#[derive(Clone, Copy)]
pub(crate) struct Ready {
    pub(crate) job: Job,
    pub(crate) common: FactSet,
}

/// The job of a number as a ready one, if it is present and its needs are reached.
fn ready_job<S: Task>(task: &S, reached: &PairSet, j: u8) -> Option<Ready>
    ensures { ReadyAt (S.Task.meaning task.now) reached.now j result }
{
    let job = task.job(j)?;
    let common = reached.common(job.needs);
    job.needs.is_subset(common).then_some(Ready { job, common })
}

/// Writes each ready job to the place of its number, and `None` to every other place.
pub(crate) fn ready_jobs<S: Task>(task: &S, reached: &PairSet, ready: &mut [Option<Ready>])
    requires { length ready.old ≡ (S.Task.meaning task.now).m }
    ensures { ReadyJobs (S.Task.meaning task.now) reached.now ready.new }
{
    for (j, place) in ready.iter_mut().enumerate() {
        *place = ready_job(task, reached, j as u8);
    }
}
