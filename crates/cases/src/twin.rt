//! The twin count: two jobs that have nothing to do with each other, from facts 0 and 2 to facts 1 and 3.
use sets::facts::FactSet;
use sets::jobs::JobSet;
use std::process::Abort;
use std::test::Fail;
use strips::header::Header;
use strips::loaded::Loaded;
use strips::moved_start::MovedStart;
use strips::row::Row;
use strips::rule::Rule;
use strips::rules::{Apart, SingleFile, Zoned};
use strips::task::Task;
use strips::withheld::Withheld;
use verdicts::sheet::sheet_verdict;

/// Job 0 needs and deletes 0 and adds 1; job 1 needs and deletes 2 and adds 3.
pub fn rows(zone: u8) -> [Row; 2] {
    let first = FactSet::single(0);
    let second = FactSet::single(2);
    [
        Row {
            zone,
            needs: first,
            adds: FactSet::single(1),
            deletes: first,
        },
        Row {
            zone,
            needs: second,
            adds: FactSet::single(3),
            deletes: second,
        },
    ]
}

/// The twin count, answered from these rows.
pub fn twin(rows: &[Row]) -> Result<Loaded<'_>, Fail> {
    let header = Header::new(4, 2, FactSet::of(&[0, 2]), FactSet::of(&[1, 3]))?;
    Ok(Loaded { header, rows })
}

/// Passes if the verdict on the first `rounds` places reads so.
fn reads<S: Task, R: Rule>(
    rt: &(impl Abort + AllocGlobal),
    task: &S,
    rule: &R,
    sheet: &[JobSet],
    rounds: u16,
    text: &str,
) -> Result<(), Fail> {
    let verdict = sheet_verdict(task, rule, sheet, rounds)?;
    assert_eq!(rt; verdict.to_string(rt.alloc())?.as_str(), text);
    Ok(())
}

#[test]
fn layers_pile_in_either_order(rt: HostRuntime) -> Result<(), Fail> {
    let rows = rows(0);
    let twin = twin(&rows)?;
    let start = FactSet::of(&[1, 2, 100]);
    let marks = JobSet::of(&[1, 255]);
    let sheet = [JobSet::of(&[1])];
    let moved = MovedStart {
        below: &twin,
        start,
    };
    let withheld = Withheld {
        below: moved,
        marks,
    };
    let other_way = MovedStart {
        below: Withheld { below: twin, marks },
        start,
    };
    reads(&rt, &moved, &Apart, &sheet, 1, "sound")?;
    reads(&rt, &withheld, &Apart, &sheet, 1, "closed 0 1")?;
    reads(&rt, &other_way, &Apart, &sheet, 1, "closed 0 1")
}

#[test]
fn pauses_are_allowed_and_numbers_past_the_jobs_do_not_count(rt: HostRuntime) -> Result<(), Fail> {
    let rows = rows(0);
    let twin = twin(&rows)?;
    let sheet = [
        JobSet::empty(),
        JobSet::of(&[0, 2, 255]),
        JobSet::of(&[200]),
        JobSet::of(&[1]),
    ];
    reads(&rt, &twin, &Apart, &sheet, 0, "goal 1")?;
    reads(&rt, &twin, &Apart, &sheet, 3, "goal 3")?;
    reads(&rt, &twin, &Apart, &sheet, 4, "sound")?;
    assert!(rt; sheet_verdict(&twin, &Apart, &sheet, 5).is_err());
    Ok(())
}

#[test]
fn rules_differ(rt: HostRuntime) -> Result<(), Fail> {
    let (no_zone, one_zone) = (rows(0), rows(7));
    let (no_zone, one_zone) = (twin(&no_zone)?, twin(&one_zone)?);
    let sheet = [JobSet::of(&[0, 1])];
    reads(&rt, &no_zone, &SingleFile, &sheet, 1, "clash 0 0 1")?;
    reads(&rt, &no_zone, &Zoned, &sheet, 1, "sound")?;
    reads(&rt, &one_zone, &Zoned, &sheet, 1, "clash 0 0 1")?;
    reads(&rt, &one_zone, &Apart, &sheet, 1, "sound")
}
