//! Lists of facts in a file.
ghost use Rattle.std.specs.Prelude.{◌≤◌};
ghost use Rattle.files.specs.Reading.{FactsRead};
ghost use Rattle.files.specs.Records.{ST, GO};
ghost use Rattle.files.specs.Sets.{ListRead};

use crate::lists::check_list_at;
use crate::record::Record;
use crate::record::read::record_at;
use planning::refusal::{Cause, Refusal};
use sets::facts::FactSet;

/// The facts of a strictly rising list, in a record at byte `at` of a task of `n` facts.
///
/// Refused at `at`, at the first number that is at fault: with 5 if it is `n` or above, else with 6.
pub(crate) fn fact_list(list: &[u8], n: u8, at: usize) -> Result<FactSet, Refusal>
    requires { n ≤ 128 }
    ensures { ListRead n list.now at result }
{
    check_list_at(list, n, Cause::NoSuchFact, at)?;
    Ok(FactSet::of(list))
}

/// The start state that the record at byte `at` gives, and the byte behind it.
pub(crate) fn start_at(file: &[u8], at: usize, n: u8) -> Result<(FactSet, usize), Refusal>
    requires { n ≤ 128 }
    ensures { FactsRead ST n file.now at result }
{
    let found = record_at(file, at)?;
    let Record::Start(list) = found.record else {
        return Err(found.other_mark());
    };
    let start = fact_list(list, n, at)?;
    Ok((start, found.end))
}

/// The goal that the record at byte `at` gives, and the byte behind it.
pub(crate) fn goal_at(file: &[u8], at: usize, n: u8) -> Result<(FactSet, usize), Refusal>
    requires { n ≤ 128 }
    ensures { FactsRead GO n file.now at result }
{
    let found = record_at(file, at)?;
    let Record::Goal(list) = found.record else {
        return Err(found.other_mark());
    };
    let goal = fact_list(list, n, at)?;
    Ok((goal, found.end))
}
