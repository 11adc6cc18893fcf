//! Sharing rules by number.
ghost use Rattle.boundary.specs.Growths.{TimesGrown};
ghost use Rattle.boundary.specs.Piles.{layered, sharing_of, says_of};
ghost use Rattle.std.specs.Prelude.{◌≡◌};

use crate::pile::Layers;
use planning::book::Book;
use planning::refusal::Refusal;
use strips::rules::{Apart, SingleFile, Zoned};
use strips::task::Task;

/// Which rule a table is grown under.
#[derive(Clone, Copy)]
pub(crate) enum Sharing {
    Apart,
    SingleFile,
    Zoned,
}

impl Sharing {
    /// The rule of this number: 0 and 1 are the first two, each larger number the third.
    pub(crate) fn of(number: u8) -> Sharing
        ensures { result ≡ sharing_of number }
    {
        match number {
            0 => Sharing::Apart,
            1 => Sharing::SingleFile,
            _ => Sharing::Zoned,
        }
    }

    /// Grows the table of the task under these layers and this rule, as `grow_times` does.
    pub(crate) fn grow_times<S: Task>(
        self,
        task: &S,
        layers: &Layers,
        growings: u16,
        table: &mut [u16],
    ) -> Result<Book, Refusal>
        ensures { TimesGrown (layered layers.now (S.Task.meaning task.now)) (says_of self) growings table.old result table.new }
    {
        match self {
            Sharing::Apart => layers.grow_times(task, &Apart, growings, table),
            Sharing::SingleFile => layers.grow_times(task, &SingleFile, growings, table),
            Sharing::Zoned => layers.grow_times(task, &Zoned, growings, table),
        }
    }
}
