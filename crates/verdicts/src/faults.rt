//! The first fault of one round.
ghost use Rattle.sets.specs.Facts.{has};
ghost use Rattle.verdicts.specs.Searches.{FirstAbsent, FirstPartner, FirstJoined, FirstClash, FirstLacking, FirstFault};

use crate::verdict::Verdict;
use sets::facts::FactSet;
use sets::jobs::JobSet;
use strips::job::Job;
use strips::rule::Rule;
use strips::task::Task;

/// A round to be judged: the jobs that a place of a sheet names, of this task and under this rule.
#[derive(Clone, Copy)]
pub(crate) struct JudgedRound<'a, S: Task, R: Rule> {
    pub(crate) task: &'a S,
    pub(crate) rule: &'a R,
    pub(crate) place: &'a JobSet,
}

impl<'a, S: Task, R: Rule> JudgedRound<'a, S, R> {
    /// The lowest job of the round that is absent.
    fn first_absent(&self) -> Option<u8>
        ensures { FirstAbsent (S.Task.meaning self.now.task.now) self.now.place.now result }
    {
        self.place
            .below(self.task.m())
            .find(|&j| self.task.job(j).is_none())
    }

    /// The lowest job of the round above `first` that the rule doesn't let share it with `job`.
    fn first_partner(&self, first: u8, job: &Job) -> Option<u8>
        ensures { FirstPartner (S.Task.meaning self.now.task.now) (R.Rule.shares self.now.rule.now) self.now.place.now first job.now result }
    {
        self.place
            .between(first as u16 + 1, self.task.m())
            .find(|&k| {
                self.task
                    .job(k)
                    .is_some_and(|other| !self.rule.may_share(job, &other))
            })
    }

    /// The lowest present job of the round for which `find` answers with a number, and that number.
    fn first_joined<F: Fn(u8, Job) -> Option<u8>>(&self, find: F) -> Option<(u8, u8)>
        requires { F.IsAlwaysCallable find }
        ensures { FirstJoined (S.Task.meaning self.now.task.now) self.now.place.now (F.post find) result }
    {
        self.place.below(self.task.m()).find_map(|j| {
            let job = self.task.job(j)?;
            let k = find(j, job)?;
            Some((j, k))
        })
    }

    /// The lowest job of the round that has a partner above it with which it may not share the round,
    /// and the lowest such partner.
    fn first_clash(&self) -> Option<(u8, u8)>
        ensures { FirstClash (S.Task.meaning self.now.task.now) (R.Rule.shares self.now.rule.now) self.now.place.now result }
    {
        self.first_joined(|first, job| self.first_partner(first, &job))
    }

    /// The lowest job of the round that is short of a need in the state, and the lowest fact that it
    /// lacks.
    fn first_missing(&self, state: FactSet) -> Option<(u8, u8)>
        ensures { FirstLacking (S.Task.meaning self.now.task.now) (has state) self.now.place.now result }
    {
        self.first_joined(|_, job| job.needs.minus(state).lowest())
    }

    /// The fault of the round, number `round`, in the state; none if the round is allowed.
    pub(crate) fn fault(&self, state: FactSet, round: u16) -> Option<Verdict>
        ensures { FirstFault (S.Task.meaning self.now.task.now) (R.Rule.shares self.now.rule.now) (has state) round self.now.place.now result }
    {
        if let Some(job) = self.first_absent() {
            return Some(Verdict::Closed { round, job });
        }
        if let Some((first, second)) = self.first_clash() {
            return Some(Verdict::Clash {
                round,
                first,
                second,
            });
        }
        let (job, fact) = self.first_missing(state)?;
        Some(Verdict::Missing { round, job, fact })
    }
}
