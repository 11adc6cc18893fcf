//! How a header is made.
ghost use Rattle.sets.specs.Search.{Finds};
ghost use Rattle.strips.specs.Headers.{Headed, Stray};

use crate::header::{Header, HeaderFault};
use sets::facts::FactSet;

/// The lowest fact of the set that is not below `n`.
fn lowest_stray(set: FactSet, n: u8) -> Option<u8>
    ensures { Finds (Stray n set) result }
{
    set.minus(set.below(n)).lowest()
}

impl Header {
    /// The header of these four values, where `n` is from 1 to 128, and no start or goal fact is `n` or above.
    ///
    /// Else refused with the first of these faults, and what it tells: a number of facts outside 1 to 128 (4, at
    /// place 0); a start fact from `n` up, the lowest of them (5, at place 0); a goal fact from `n` up, the lowest of
    /// them (5, at place 0).
    pub fn new(n: u8, m: u8, start: FactSet, goal: FactSet) -> Result<Header, HeaderFault>
        ensures { Headed n m start goal result }
    {
        if n == 0 || n > 128 {
            return Err(HeaderFault::FactCount);
        }
        if let Some(fact) = lowest_stray(start, n) {
            return Err(HeaderFault::StartFact(fact));
        }
        if let Some(fact) = lowest_stray(goal, n) {
            return Err(HeaderFault::GoalFact(fact));
        }
        Ok(Header { n, m, start, goal })
    }
}
