//! Texts that no other test prints, and which values are equal.
use planning::refusal::Cause;
use planning::report::Distance;
use reach::table::ShortTable;
use std::fmt::{Debug, Display};
use std::process::Abort;
use std::test::Fail;
use strips::header::HeaderFault;
use verdicts::sheet::ShortSheet;
use verdicts::verdict::Verdict;

/// Passes if this is printed of the value.
fn prints<T: Display>(rt: &(impl Abort + AllocGlobal), value: &T, text: &str) -> Result<(), Fail> {
    assert_eq!(rt; value.to_string(rt.alloc())?.as_str(), text);
    Ok(())
}

#[test]
fn errors_below_the_book_tell_two_numbers(rt: HostRuntime) {
    let (entries, facts, places, rounds) = (9, 4, 3, 4);
    assert_eq!(rt; HeaderFault::FactCount.told(), (4, 0));
    assert_eq!(rt; HeaderFault::StartFact(7).told(), (5, 0));
    assert_eq!(rt; HeaderFault::GoalFact(7).told(), (5, 0));
    assert_eq!(rt; ShortTable { entries, facts }.told(), (9, 0));
    assert_eq!(rt; ShortSheet { places, rounds }.told(), (9, 0));
}

#[test]
fn errors_below_the_book(rt: HostRuntime) -> Result<(), Fail> {
    prints(
        &rt,
        &HeaderFault::FactCount,
        "the number of facts is not from 1 to 128",
    )?;
    prints(
        &rt,
        &HeaderFault::StartFact(7),
        "the task has no start fact 7",
    )?;
    prints(
        &rt,
        &HeaderFault::GoalFact(7),
        "the task has no goal fact 7",
    )?;
    let table = ShortTable {
        entries: 9,
        facts: 4,
    };
    prints(&rt, &table, "9 entries for 4 facts")?;
    let sheet = ShortSheet {
        places: 3,
        rounds: 4,
    };
    prints(&rt, &sheet, "3 places for 4 rounds")
}

/// Passes if each of the values is equal to itself and to no other.
fn all_differ<T: PartialEq + Debug>(rt: &impl Abort, values: &[T]) {
    for (i, a) in values.iter().enumerate() {
        for (k, b) in values.iter().enumerate() {
            assert_eq!(rt; a == b, i == k, "{a:?} and {b:?}");
        }
    }
}

#[test]
fn equal_values_are_the_same(rt: HostRuntime) {
    all_differ(
        &rt,
        &[
            Cause::NotRising.at(0),
            Cause::NotRising.at(1),
            Cause::NoSuchJob.at(0),
            Cause::NoSuchJob.at(1),
        ],
    );
    all_differ(
        &rt,
        &[
            Distance::Told(1),
            Distance::Told(2),
            Distance::NoPlan,
            Distance::AtLeast(1),
            Distance::AtLeast(2),
        ],
    );
    all_differ(
        &rt,
        &[
            Verdict::Closed { round: 1, job: 1 },
            Verdict::Closed { round: 1, job: 2 },
            Verdict::Closed { round: 2, job: 1 },
            Verdict::Clash {
                round: 1,
                first: 1,
                second: 1,
            },
            Verdict::Missing {
                round: 1,
                job: 1,
                fact: 1,
            },
            Verdict::Goal { fact: 1 },
            Verdict::Goal { fact: 2 },
            Verdict::Sound,
        ],
    );
}
