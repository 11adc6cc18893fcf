//! A task that calculates its jobs: two trolleys on two rails.
ghost use Rattle.std.specs.Prelude.{◌≡◌, ◌*◌, ◌≤◌};

use pages::task::NamedTask;
use sets::facts::FactSet;
use strips::job::Job;
use strips::task::Task;

/// Two rails of so many places each, numbered from 0 along the one and on along the other. A trolley stands at the first
/// place of each, and is to get to the last.
///
/// Fact `f` says that one stands at place `f`; job `f` moves it on by a place, and is absent at the end of a rail. Its zone
/// says how far along the rail it is.
#[derive(Clone, Copy)]
pub struct Rails {
    places: u8,
    ghost some_fact: { 1 ≤ 2 * places },
    ghost few_facts: { 2 * places ≤ 128 },
}

impl Rails {
    ghost use Rattle.cases.specs.Own.{at_end};

    /// Two rails of three places.
    pub fn of_three() -> Rails {
        Rails { places: 3 }
    }

    /// Whether the place is the last of a rail.
    fn is_last(self, place: u8) -> bool
        ensures { result ≡ at_end self.places place }
    {
        place == self.places - 1 || place == 2 * self.places - 1
    }
}

impl Task for Rails {
    ghost use Rattle.cases.specs.Own.{rails, rails_admitted};

    ghost meaning = { λ s. rails s.places };

    ghost admitted = { λ s. rails_admitted s.places s.some_fact s.few_facts };

    fn n(&self) -> u8 {
        2 * self.places
    }

    fn m(&self) -> u8 {
        2 * self.places
    }

    fn start(&self) -> FactSet {
        FactSet::single(0).insert(self.places)
    }

    fn goal(&self) -> FactSet {
        FactSet::single(self.places - 1).insert(2 * self.places - 1)
    }

    fn job(&self, j: u8) -> Option<Job> {
        if j >= 2 * self.places || self.is_last(j) {
            return None;
        }
        let here = FactSet::single(j);
        Some(Job {
            zone: j % self.places,
            needs: here,
            adds: FactSet::single(j + 1),
            deletes: here,
        })
    }
}

/// Each job number has the name of its rail, A or B, also where there is no job.
impl NamedTask for Rails {
    ghost use Rattle.cases.specs.Own.{rail_names, rails_named};

    ghost names = { λ s. rail_names s.places };

    ghost naming = { λ s. rails_named s.places };

    fn name(&self, j: u8) -> &[u8] {
        if j >= 2 * self.places {
            b""
        } else if j < self.places {
            b"A"
        } else {
            b"B"
        }
    }
}
