//! Sets of pairs of facts, as rows of bit sets.
ghost use Rattle.std.specs.Prelude.{◌≡◌, ℕ, ◌<◌, true, false, ◌&&◌, ◌||◌, ◌==◌, IsTrue, ◌↔◌};
ghost use Rattle.reach.specs.PairSets.{row, paired};
ghost use Rattle.sets.specs.Facts.{has};

use sets::facts::FactSet;

// 128 rows for every task: growing allocates nothing.
/// A set of ordered pairs of facts: the row of a fact has the facts that it is paired with.
#[derive(Clone, Copy)]
pub(crate) struct PairSet {
    rows: [FactSet; 128],
}

impl PairSet {
    /// The set without pairs.
    pub(crate) fn empty() -> PairSet
        ensures { (p q : ℕ) → paired result p q ≡ false }
    {
        PairSet {
            rows: [FactSet::empty(); 128],
        }
    }

    /// The facts that `p` is paired with.
    pub(crate) fn row(&self, p: u8) -> FactSet
        requires { p < 128 }
        ensures { result ≡ row self.now p }
    {
        self.rows[p as usize]
    }

    /// Pairs `p` with `q`, and `q` with `p`.
    pub(crate) fn pair(&mut self, p: u8, q: u8)
        requires one { p < 128 }
        requires other { q < 128 }
        ensures { (x y : ℕ) → paired self.new x y ≡ ((paired self.old x y || (x == p && y == q)) || (x == q && y == p)) }
    {
        self.rows[p as usize] = self.rows[p as usize].insert(q);
        self.rows[q as usize] = self.rows[q as usize].insert(p);
    }

    /// The facts that every fact of `set` is paired with; all facts if `set` is empty.
    pub(crate) fn common(&self, set: FactSet) -> FactSet
        ensures { (q : ℕ) → IsTrue (has result q) ↔ ((q < 128) × ((p : ℕ) → has set p ≡ true → paired self.now p q ≡ true)) }
    {
        let mut common = FactSet::full();
        for p in set.walk() {
            common = common.meet(self.row(p));
        }
        common
    }

    /// The facts that are paired with themselves.
    pub(crate) fn singles(&self) -> FactSet
        ensures { (f : ℕ) → has result f ≡ paired self.now f f }
    {
        let mut singles = FactSet::empty();
        for (p, row) in self.rows.iter().enumerate() {
            let fact = p as u8;
            if row.contains(fact) {
                singles = singles.insert(fact);
            }
        }
        singles
    }

    /// Pairs each fact of `set` with each fact of `with`.
    pub(crate) fn join(&mut self, set: FactSet, with: FactSet)
        ensures { (p q : ℕ) → paired self.new p q ≡ (paired self.old p q || (has set p && has with q)) }
    {
        for p in set.walk() {
            self.rows[p as usize] = self.rows[p as usize].union(with);
        }
    }
}
