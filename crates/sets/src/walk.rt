//! The facts of a set one after the other, for a `for`.
ghost use Rattle.sets.specs.Walk.{Takes, size};
ghost use Rattle.std.specs.Prelude.{◌≡◌};
ghost use Rattle.std.specs.Iterator.{at_most};

use crate::facts::FactSet;

/// The facts of a set, rising.
#[derive(Clone, Copy)]
pub struct FactWalk {
    left: FactSet,
}

impl FactSet {
    /// The facts of the set, rising.
    pub fn walk(self) -> FactWalk
        ensures { result ≡ record { left = self } }
    {
        FactWalk { left: self }
    }
}

impl Iterator for FactWalk {
    type Item = u8;

    ghost next_gives = { Takes };

    ghost remaining = { λ s. at_most (size s.left) };

    /// The lowest fact left, which alone is then no longer left; or none where no fact is left, and nothing
    /// changes.
    fn next(&mut self) -> Option<u8> {
        let fact = self.left.lowest()?;
        self.left = self.left.minus(FactSet::single(fact));
        Some(fact)
    }
}
