//! The table of pairs, and the number of a pair's entry.
ghost use Rattle.layers.specs.Pairs.{pair_count, entry_number};
ghost use Rattle.reach.specs.Tables.{Room, Short, text, told};
ghost use Rattle.std.specs.Prelude.{◌≡◌, Some, MatchResult};

use std::error::Error;
use std::fmt;

/// The pairs of 128 facts, the most that a task has.
pub const MOST_PAIRS: usize = 8_256;

/// Fewer entries were supplied than the pairs of that many facts have: how many of each.
#[derive(Clone, Copy, Debug, PartialEq, Eq)]
pub struct ShortTable {
    pub entries: usize,
    pub facts: u8,
}

impl ShortTable {
    /// The two numbers of the refusal that the error stands for, its own and its place: 9, at place 0.
    pub fn told(self) -> (u8, usize)
        ensures { result ≡ told self }
    {
        (9, 0)
    }
}

/// Both numbers, as `9 entries for 4 facts`.
impl fmt::Display for ShortTable {
    ghost output = { λ e. Some (text e) };

    fn fmt<W: fmt::Write>(&self, f: &mut fmt::Formatter<W>) -> fmt::Result {
        write!(f, "{} entries for {} facts", self.entries, self.facts)
    }
}

impl Error for ShortTable {}

/// How many entries the table of `n` facts has, one for each pair: n(n+1)/2, for every `n`.
pub fn pair_count(n: u8) -> usize
    ensures { result ≡ pair_count n }
{
    n as usize * (n as usize + 1) / 2
}

/// The number of the entry of the pair of `p` and `q`, in either order: q(q+1)/2 + p where p ≤ q. The pair of a fact
/// with itself has one too.
pub fn entry_number(p: u8, q: u8) -> usize
    ensures { result ≡ entry_number p q }
{
    pair_count(p.max(q)) + p.min(q) as usize
}

// The table and its number of facts stand side by side: the entries are the caller's memory.
/// Refuses a table with fewer entries than the pairs of `n` facts have.
pub(crate) fn check_room(table: &[u16], n: u8) -> Result<(), ShortTable>
    ensures { MatchResult result (λ _. Room n table.now) (Short n table.now) }
{
    if table.len() < pair_count(n) {
        return Err(ShortTable {
            entries: table.len(),
            facts: n,
        });
    }
    Ok(())
}
