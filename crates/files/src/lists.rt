//! Lists of numbers in a record.
ghost use Rattle.files.specs.Sets.{ListChecked};
ghost use Rattle.planning.specs.Refusals.{number};

use planning::lists::check_list;
use planning::refusal::{Cause, Refusal};

/// Whether every number of a list in the record at byte `at` is below `bound` and above the one before it.
///
/// Refused at `at`, at the first number that is at fault: with `large` if it is `bound` or above, else with 6.
pub(crate) fn check_list_at(list: &[u8], bound: u8, large: Cause, at: usize) -> Result<(), Refusal>
    ensures { ListChecked (number large) bound list.now at result }
{
    check_list(list, bound, large).map_err(|refusal| refusal.cause.at(at))
}
