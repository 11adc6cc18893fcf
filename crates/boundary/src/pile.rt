//! Layers piled on a task.
ghost use Rattle.boundary.specs.Growths.{TimesGrown};
ghost use Rattle.boundary.specs.Piles.{pile_of, layered, IsLayers};
ghost use Rattle.std.specs.Prelude.{◌≡◌};

use crate::grow::grow_times;
use planning::book::Book;
use planning::refusal::Refusal;
use sets::facts::FactSet;
use sets::jobs::JobSet;
use strips::moved_start::MovedStart;
use strips::rule::Rule;
use strips::task::Task;
use strips::withheld::Withheld;

/// Which layers stand on a task, and in which order.
#[derive(Clone, Copy)]
pub(crate) enum Pile {
    Bare,
    Withheld,
    MovedStart,
    WithheldOverMovedStart,
    MovedStartOverWithheld,
}

impl Pile {
    /// The pile of this number: 0 to 3 are the first four, each larger number the fifth.
    fn of(number: u8) -> Pile
        ensures { result ≡ pile_of number }
    {
        match number {
            0 => Pile::Bare,
            1 => Pile::Withheld,
            2 => Pile::MovedStart,
            3 => Pile::WithheldOverMovedStart,
            _ => Pile::MovedStartOverWithheld,
        }
    }
}

/// A pile with what its layers hold: the jobs that are withheld, and the start that is moved to.
#[derive(Clone, Copy)]
pub(crate) struct Layers {
    pile: Pile,
    marks: JobSet,
    start: FactSet,
}

impl Layers {
    /// The pile of this number, with these jobs withheld and the start moved to these facts.
    pub(crate) fn of(pile: u8, withheld: &[u8], start: &[u8]) -> Layers
        ensures { IsLayers pile withheld.now start.now result }
    {
        Layers {
            pile: Pile::of(pile),
            marks: JobSet::of(withheld),
            start: FactSet::of(start),
        }
    }

    /// Grows the table of the task under these layers, as `grow_times` does.
    pub(crate) fn grow_times<S: Task, R: Rule>(
        &self,
        task: &S,
        rule: &R,
        growings: u16,
        table: &mut [u16],
    ) -> Result<Book, Refusal>
        ensures { TimesGrown (layered self.now (S.Task.meaning task.now)) (R.Rule.shares rule.now) growings table.old result table.new }
    {
        let marks = self.marks;
        let start = self.start;
        match self.pile {
            Pile::Bare => grow_times(task, rule, growings, table),
            Pile::Withheld => grow_times(&Withheld { below: task, marks }, rule, growings, table),
            Pile::MovedStart => grow_times(
                &MovedStart { below: task, start },
                rule,
                growings,
                table,
            ),
            Pile::WithheldOverMovedStart => {
                let below = MovedStart { below: task, start };
                grow_times(&Withheld { below, marks }, rule, growings, table)
            }
            Pile::MovedStartOverWithheld => {
                let below = Withheld { below: task, marks };
                grow_times(&MovedStart { below, start }, rule, growings, table)
            }
        }
    }
}
