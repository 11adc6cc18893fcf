//! Writing the entries of pairs that are new.
ghost use Rattle.std.specs.Prelude.{◌≡◌, ℕ, ◌<◌, ◌≤◌, true, length};
ghost use Rattle.layers.specs.Pairs.{entry_number};
ghost use Rattle.reach.specs.PairSets.{paired, Wrote, WroteRow};
ghost use Rattle.reach.specs.Tables.{Room};
ghost use Rattle.sets.specs.Facts.{has};

use crate::pair_set::PairSet;
use crate::table::entry_number;
use sets::facts::FactSet;

/// Writes `v` to the entry of `p` with each fact of `set`.
pub(crate) fn write_row(table: &mut [u16], p: u8, set: FactSet, v: u16)
    requires { (q : ℕ) → has set q ≡ true → entry_number p q < length table.old }
    ensures { WroteRow p set v table.old table.new }
{
    for q in set.walk() {
        table[entry_number(p, q)] = v;
    }
}

// The table and `n`, and no `Reading`: the entries are the caller's memory, lent here to be written.
/// Writes `v` to the entry of each pair that `made` has and `reached` hasn't, and says whether there is
/// one.
pub(crate) fn write_new(table: &mut [u16], n: u8, made: &PairSet, reached: &PairSet, v: u16) -> bool
    requires few { n ≤ 128 }
    requires room { Room n table.old }
    requires facts { (p q : ℕ) → paired made.now p q ≡ true → q < n }
    ensures { Wrote made.now reached.now n v table.old table.new result }
{
    let mut any = false;
    for p in 0..n {
        let new = made.row(p).minus(reached.row(p));
        if !new.is_empty() {
            write_row(table, p, new, v);
            any = true;
        }
    }
    any
}
