//! What a task is.
ghost use Rattle.strips.specs.Tasks.{Meaning, Admitted};
ghost use Rattle.std.specs.Prelude.{◌≡◌};

use crate::job::Job;
use sets::facts::FactSet;

/// The most job numbers of a task.
pub const MOST_JOBS: usize = 255;

/// A task, by five questions. Their answers are its meaning, and asking alters nothing.
///
/// Every implementation shows of its answers that `n` is from 1 to 128 and `m` from 0 to 255, that
/// every fact named is below `n`, that no job adds and deletes one fact, and that numbers from `m` up
/// are absent.
pub trait Task {
    ghost meaning: { Self → Meaning };

    ghost admitted: { (x : Self) → Admitted (meaning x) };

    /// How many facts there are; they are numbered from 0.
    fn n(&self) -> u8
        ensures { result ≡ (meaning self.now).n };

    /// How many job numbers there are, from 0.
    fn m(&self) -> u8
        ensures { result ≡ (meaning self.now).m };

    /// The start state.
    fn start(&self) -> FactSet
        ensures { result ≡ (meaning self.now).start };

    /// The facts that are to hold at the end.
    fn goal(&self) -> FactSet
        ensures { result ≡ (meaning self.now).goal };

    /// The job of a number, or that it is absent.
    fn job(&self, j: u8) -> Option<Job>
        ensures { result ≡ (meaning self.now).job j };
}
