//! A named task and a rule that aren't the library's: a book worked through a list of calls with them, and a page.
mod rails;
mod spread;

use crate::list_of_calls::{Call, Under};
use crate::own::rails::Rails;
use crate::own::spread::Spread;
use crate::printing::prints;
use crate::work::{grown, issue_all};
use planning::report::Distance;
use sets::jobs::JobSet;
use std::process::Abort;
use std::test::Fail;
use strips::rule::Rule;
use strips::rules::{Apart, SingleFile, Zoned};
use verdicts::sheet::sheet_verdict;

/// Not reached.
const X: u16 = 65535;

// Places 0, 1, 2 and 3, 4, 5. Jobs 0 and 3 are in zone 0, jobs 1 and 4 in zone 1, jobs 2 and 5 absent. No job interferes
// with one of the other rail, so the rule keeps apart what is equally far. A pair {i, 3 + k} is first reached when
// trolleys may stand at i and at 3 + k:
//
//     0: {0,3}
//     1: {1,3}, {0,4}                            one moves on; jobs 0 and 3 don't go together
//     2: {2,3}, {0,5}, {1,4}, {2,4}, {1,5}       from {1,3} jobs 1 and 3 go together, from {0,4} jobs 0 and 4
//     3: {2,5}
//
// Two places of one rail never are. So the goal 2, 5 is at layer 3, which is the last.
#[test]
fn a_list_of_calls(rt: HostRuntime) -> Result<(), Fail> {
    let mut table = [7; 22];
    let mut sheet = [JobSet::empty(); 3];
    let under = Under {
        task: &Rails::of_three(),
        rule: &Spread,
    };
    under.work_through(
        &rt,
        &mut table,
        &mut sheet,
        &[
            (Call::Grow, "layer 1, rounds 0"),
            (Call::DropRound, "refused with 12 at 0"),
            (Call::Add(&[0, 3]), "layer 1, rounds 1"),
            (Call::Judge, "rounds 1, distance at least 2, clash 0 0 3"),
            (Call::Ask { round: 0, job: 0 }, "refused with 14 at 0"),
            (Call::DropRound, "layer 1, rounds 0"),
            (Call::Add(&[0]), "layer 1, rounds 1"),
            (Call::Grow, "layer 2, rounds 1"),
            (Call::Add(&[1, 3]), "layer 2, rounds 2"),
            (Call::Judge, "rounds 2, distance at least 3, goal 5"),
            (Call::Add(&[6]), "refused with 10 at 0"),
            (Call::Add(&[2, 4]), "layer 2, rounds 3"),
            (Call::Judge, "rounds 3, distance at least 3, closed 2 2"),
            (Call::DropRound, "layer 2, rounds 2"),
            (Call::Grow, "layer 3, rounds 2"),
            (Call::Judge, "rounds 2, distance 3, goal 5, excess -1"),
            (Call::Add(&[4]), "layer 3, rounds 3"),
            (
                Call::Judge,
                "rounds 3, distance 3, sound, excess 0, shortest",
            ),
            (Call::Ask { round: 1, job: 3 }, "true"),
            (Call::Grow, "layer 3, settled, rounds 3"),
            (Call::Grow, "refused with 13 at 0"),
            (
                Call::Judge,
                "rounds 3, distance 3, sound, excess 0, shortest",
            ),
        ],
    )?;
    assert_eq!(rt;
        table,
        [
            0, X, 1, X, X, 2, 0, 1, 2, 0, 1, 2, 2, X, 1, 2, 2, 3, X, X, 2, 7
        ]
    );
    Ok(())
}

/// Passes if under the rule the distance, and the verdict on a sheet of one round, jobs 0 and 3, are these.
fn tells<R: Rule>(
    rt: &(impl Abort + AllocGlobal),
    rule: &R,
    distance: u8,
    verdict: &str,
) -> Result<(), Fail> {
    let task = Rails::of_three();
    let mut table = [0; 21];
    let book = grown(&task, rule, &mut table, distance)?;
    assert_eq!(rt;
        book.distance(&task, &table)?,
        Distance::Told(distance as u16)
    );
    let told = sheet_verdict(&task, rule, &[JobSet::of(&[0, 3])], 1)?;
    assert_eq!(rt; told.to_string(rt.alloc())?.as_str(), verdict);
    Ok(())
}

// Under apart the trolleys go in step, and under single file one at a time. Under zoned they go in step from places 0 and 3
// alone, since zone 0 is none there, and under spread never: one is ahead by a place.
#[test]
fn spread_is_a_rule_of_its_own(rt: HostRuntime) -> Result<(), Fail> {
    tells(&rt, &Apart, 2, "goal 2")?;
    tells(&rt, &Zoned, 3, "goal 2")?;
    tells(&rt, &Spread, 3, "clash 0 0 3")?;
    tells(&rt, &SingleFile, 4, "clash 0 0 3")
}

#[test]
fn a_page_with_names_of_its_own(rt: HostRuntime) -> Result<(), Fail> {
    let task = Rails::of_three();
    let mut sheet = [JobSet::empty(); 3];
    let issued = issue_all(&task, &Spread, &mut sheet, &[&[0], &[1, 3], &[4]])?;
    let lines = [
        *b"  0   0 A               \n",
        *b"  1   1 A               \n",
        *b"  1   3 B               \n",
        *b"  2   4 B               \n",
    ];
    prints(&rt, &issued, &task, &sheet, &lines)
}
