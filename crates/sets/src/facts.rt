//! Sets of facts.
ghost use Rattle.std.specs.Prelude.{◌≡◌, ℕ, true, false, not, ◌&&◌, ◌||◌, ◌==◌, nat_lt, IsTrue, ◌↔◌};
ghost use Rattle.sets.specs.Facts.{has};
ghost use Rattle.sets.specs.Search.{Finds, listed};

// Two words with names, and not one type with `JobSet` over a constant number of words: in a trial, walks with meets
// and unions took 37.3 million instructions over `[u64; 2]`, and 18.8 as here.
/// A set of facts below 128.
#[derive(Clone, Copy)]
pub struct FactSet {
    low: u64,
    high: u64,
}

impl FactSet {
    /// The set without members.
    pub fn empty() -> FactSet
        ensures { (f : ℕ) → has result f ≡ false }
    {
        FactSet { low: 0, high: 0 }
    }

    /// Every fact there can be, from 0 to 127.
    pub fn full() -> FactSet
        ensures { (f : ℕ) → has result f ≡ nat_lt f 128 }
    {
        FactSet {
            low: u64::MAX,
            high: u64::MAX,
        }
    }

    /// The set of the one fact `fact`; from 128 up that is no fact, and the set is empty.
    pub fn single(fact: u8) -> FactSet
        ensures { (f : ℕ) → has result f ≡ (f == fact && nat_lt f 128) }
    {
        if fact < 64 {
            FactSet {
                low: 1 << fact,
                high: 0,
            }
        } else if fact < 128 {
            FactSet {
                low: 0,
                high: 1 << (fact - 64),
            }
        } else {
            FactSet::empty()
        }
    }

    /// The set of these facts; numbers from 128 up are no facts, and don't count.
    pub fn of(facts: &[u8]) -> FactSet
        ensures { (f : ℕ) → has result f ≡ (listed facts.now f && nat_lt f 128) }
    {
        let mut set = FactSet::empty();
        for fact in facts {
            set = set.insert(*fact);
        }
        set
    }

    /// Whether `fact` is a member; no fact from 128 up is.
    pub fn contains(self, fact: u8) -> bool
        ensures { result ≡ has self fact }
    {
        if fact < 64 {
            (self.low >> fact) & 1 == 1
        } else if fact < 128 {
            (self.high >> (fact - 64)) & 1 == 1
        } else {
            false
        }
    }

    /// The set with `fact` as one more member; from 128 up that is no fact, and nothing is added.
    pub fn insert(self, fact: u8) -> FactSet
        ensures { (f : ℕ) → has result f ≡ (has self f || (f == fact && nat_lt f 128)) }
    {
        self.union(FactSet::single(fact))
    }

    /// The set whose words are what `op` makes of the two sets' words, one by one.
    fn word_by_word<F: Fn(u64, u64) -> u64>(self, other: FactSet, op: F) -> FactSet
        requires { F.IsAlwaysCallable op }
        ensures low { F.post op self.low other.low result.low }
        ensures high { F.post op self.high other.high result.high }
    {
        FactSet {
            low: op(self.low, other.low),
            high: op(self.high, other.high),
        }
    }

    /// The members of either set.
    pub fn union(self, other: FactSet) -> FactSet
        ensures { (f : ℕ) → has result f ≡ (has self f || has other f) }
    {
        self.word_by_word(other, |own, more| own | more)
    }

    /// The members of both sets.
    pub fn meet(self, other: FactSet) -> FactSet
        ensures { (f : ℕ) → has result f ≡ (has self f && has other f) }
    {
        self.word_by_word(other, |own, more| own & more)
    }

    /// The members that are not in `other`.
    pub fn minus(self, other: FactSet) -> FactSet
        ensures { (f : ℕ) → has result f ≡ (has self f && not (has other f)) }
    {
        self.word_by_word(other, |own, less| own ^ (own & less))
    }

    /// The members below `n`.
    pub fn below(self, n: u8) -> FactSet
        ensures { (f : ℕ) → has result f ≡ (nat_lt f n && has self f) }
    {
        if n < 64 {
            FactSet {
                low: self.low & ((1 << n) - 1),
                high: 0,
            }
        } else if n < 128 {
            FactSet {
                low: self.low,
                high: self.high & ((1 << (n - 64)) - 1),
            }
        } else {
            self
        }
    }

    /// Whether there is no member.
    pub fn is_empty(self) -> bool
        ensures { IsTrue result ↔ ((f : ℕ) → has self f ≡ false) }
    {
        self.low == 0 && self.high == 0
    }

    /// Whether every member is in `other`.
    pub fn is_subset(self, other: FactSet) -> bool
        ensures { IsTrue result ↔ ((f : ℕ) → has self f ≡ true → has other f ≡ true) }
    {
        self.minus(other).is_empty()
    }

    /// Whether no member is in `other`.
    pub fn is_disjoint(self, other: FactSet) -> bool
        ensures { IsTrue result ↔ ((f : ℕ) → has self f ≡ true → has other f ≡ false) }
    {
        self.meet(other).is_empty()
    }

    /// The lowest member, if there is one.
    pub fn lowest(self) -> Option<u8>
        ensures { Finds (λ f. has self f ≡ true) result }
    {
        if self.low != 0 {
            Some(self.low.trailing_zeros() as u8)
        } else if self.high != 0 {
            Some(64 + self.high.trailing_zeros() as u8)
        } else {
            None
        }
    }
}

impl Default for FactSet {
    ghost is_default = { λ s. (f : ℕ) → has s f ≡ false };

    /// The set without members.
    fn default() -> FactSet {
        Self::empty()
    }
}
