//! Jobs, and when two of them get in each other's way.
ghost use Rattle.std.specs.Prelude.{IsTrue, ◌↔◌};
ghost use Rattle.strips.specs.Jobs.{Spoils, Interferes};

use sets::facts::FactSet;

// A zone is a plain number, as in the rows that callers lend: 0 and not `None` is no zone.
/// A job, an action of STRIPS: it can be done in a state that holds its needs, and then its deletes go
/// and its adds come. Zone 0 is no zone.
#[derive(Clone, Copy)]
pub struct Job {
    pub zone: u8,
    pub needs: FactSet,
    pub adds: FactSet,
    pub deletes: FactSet,
}

impl Job {
    /// Whether this job deletes a fact that the other needs or adds.
    fn spoils(&self, other: &Job) -> bool
        ensures { IsTrue result ↔ Spoils self.now other.now }
    {
        !self.deletes.is_disjoint(other.needs.union(other.adds))
    }

    /// Whether one of the two jobs deletes a fact that the other needs or adds.
    pub fn interferes(&self, other: &Job) -> bool
        ensures { IsTrue result ↔ Interferes self.now other.now }
    {
        self.spoils(other) || other.spoils(self)
    }
}
