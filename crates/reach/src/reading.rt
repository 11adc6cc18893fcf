//! The table of pairs read as a layer.
ghost use Rattle.std.specs.Prelude.{◌≡◌, ℕ, ◌+◌, ◌<◌, ◌≤◌, true, IfOk, IfErr, length, slice_index, IsTrue, ◌↔◌};
ghost use Rattle.layers.specs.Pairs.{pair_count};
ghost use Rattle.reach.specs.PairSets.{paired, ReadBelow};
ghost use Rattle.reach.specs.Tables.{Room, Short, Reads, LargestOf, LargestWith, LargestWithin, entry};
ghost use Rattle.sets.specs.Facts.{has};
ghost use Rattle.strips.specs.Tasks.{Below};

use crate::pair_set::PairSet;
use crate::table::{ShortTable, check_room, entry_number, pair_count};
use sets::facts::FactSet;
use strips::task::Task;

/// The table of `n` facts read as layer `t`: an entry up to `t` counts as reached, a larger one not.
#[derive(Clone, Copy)]
pub(crate) struct Reading<'a> {
    entries: &'a [u16],
    n: u8,
    t: u16,
    ghost few: { n ≤ 128 },
    ghost room: { Room n entries.now },
}

impl<'a> Reading<'a> {
    /// The task's table read as layer `t`. Fewer entries than n(n+1)/2 are refused.
    pub(crate) fn of<S: Task>(task: &S, table: &'a [u16], t: u16) -> Result<Reading<'a>, ShortTable>
        ensures entries { IfOk result (λ reading. reading.entries.now ≡ table.now) }
        ensures facts { IfOk result (λ reading. reading.n ≡ (S.Task.meaning task.now).n) }
        ensures layer { IfOk result (λ reading. reading.t ≡ t) }
        ensures refused { IfErr result (Short (S.Task.meaning task.now).n table.now) }
    {
        let n = task.n();
        check_room(table, n)?;
        Ok(Reading {
            entries: table,
            n,
            t,
        })
    }

    /// The pairs that are reached, in both orders.
    pub(crate) fn reached(&self) -> PairSet
        ensures read { (p q : ℕ) → IsTrue (paired result p q) ↔ Reads self.now.n self.now.t self.now.entries.now p q }
        ensures symmetric { (p q : ℕ) → paired result p q ≡ true → paired result q p ≡ true }
    {
        let mut reached = PairSet::empty();
        for q in 0..self.n {
            self.add_pairs_of(q, &mut reached);
        }
        reached
    }

    /// Adds the reached pairs of `q` with the facts up to it to those of the facts below it.
    fn add_pairs_of(&self, q: u8, reached: &mut PairSet)
        requires fact { q < self.now.n }
        requires below { ReadBelow reached.old self.now.t self.now.entries.now (pair_count q) }
        ensures { ReadBelow reached.new self.now.t self.now.entries.now (pair_count (q + 1)) }
    {
        for (p, entry) in self.row(q).iter().enumerate() {
            if *entry <= self.t {
                reached.pair(p as u8, q);
            }
        }
    }

    // That `q` is a fact is asked here and in two more: a type for the facts of a reading would be made anew at
    // each turn of a loop.
    /// The entries of `q` with the facts up to it, from 0 on.
    fn row(&self, q: u8) -> &[u16]
        requires { q < self.now.n }
        ensures facts { length result.now ≡ q + 1 }
        ensures entries { (p : ℕ) → p ≤ q → slice_index result.now p ≡ entry self.now.entries.now p q }
    {
        &self.entries[pair_count(q)..pair_count(q + 1)]
    }

    /// The largest entry of the pairs of facts of `set`, 0 for an empty set.
    pub(crate) fn largest_within(&self, set: FactSet) -> u16
        requires { Below self.now.n set }
        ensures { LargestWithin set self.now.entries.now result }
    {
        largest_of(set, |p| self.largest_with(p, set))
    }

    /// The largest entry of `p` with the facts of `set`, 0 for an empty set.
    fn largest_with(&self, p: u8, set: FactSet) -> u16
        requires fact { p < self.now.n }
        requires facts { Below self.now.n set }
        ensures { LargestWith p set self.now.entries.now result }
    {
        largest_of(set, |q| self.entry(p, q))
    }

    /// The entry of the pair of `p` and `q`.
    fn entry(&self, p: u8, q: u8) -> u16
        requires p { p < self.now.n }
        requires q { q < self.now.n }
        ensures { result ≡ entry self.now.entries.now p q }
    {
        self.entries[entry_number(p, q)]
    }
}

/// The largest value of the facts of `set`, 0 for an empty set.
fn largest_of<F: Fn(u8) -> u16>(set: FactSet, value: F) -> u16
    requires { (f : ℕ) → has set f ≡ true → F.pre value f }
    ensures { LargestOf (F.post value) set result }
{
    let mut largest = 0;
    for f in set.walk() {
        largest = largest.max(value(f));
    }
    largest
}
