//! The lift count: a lift fetches a pallet that stands on another floor.
use crate::work::{add_all, grown, refused};
use planning::report::{Distance, Report};
use sets::facts::FactSet;
use sets::jobs::JobSet;
use std::process::Abort;
use std::test::Fail;
use strips::header::Header;
use strips::loaded::Loaded;
use strips::moved_start::MovedStart;
use strips::row::Row;
use strips::rules::Apart;
use strips::task::Task;
use strips::withheld::Withheld;

fn row(needs: &[u8], adds: u8, deletes: u8) -> Row {
    Row {
        zone: 0,
        needs: FactSet::of(needs),
        adds: FactSet::single(adds),
        deletes: FactSet::single(deletes),
    }
}

pub fn rows() -> [Row; 4] {
    [
        row(&[0, 2], 3, 2),
        row(&[0], 1, 0),
        row(&[1, 3], 4, 3),
        row(&[1], 0, 1),
    ]
}

/// The lift count, answered from these rows.
pub fn lift(rows: &[Row]) -> Result<Loaded<'_>, Fail> {
    let header = Header::new(5, 4, FactSet::of(&[0, 2]), FactSet::of(&[0, 4]))?;
    Ok(Loaded { header, rows })
}

/// What is told of the distance after so many growings under apart.
fn distance_after<S: Task>(task: &S, growings: u8) -> Result<Distance, Fail> {
    let mut table = [0; 15];
    let book = grown(task, &Apart, &mut table, growings)?;
    let sheet = [JobSet::empty(); 1];
    Ok(book.judge(task, &Apart, &table, &sheet)?.distance)
}

/// The answer of judging these rounds once the table is settled, which takes so many growings.
fn judged<S: Task>(task: &S, growings: u8, rounds: &[&[u8]]) -> Result<Report, Fail> {
    let mut table = [0; 15];
    let mut sheet = [JobSet::empty(); 4];
    let mut book = grown(task, &Apart, &mut table, growings)?;
    add_all(&mut book, &mut sheet, rounds)?;
    Ok(book.judge(task, &Apart, &table, &sheet)?)
}

/// Passes if the report has this verdict, excess and word on shortest.
fn reads(
    rt: &(impl Abort + AllocGlobal),
    report: &Report,
    verdict: &str,
    excess: Option<i32>,
    shortest: bool,
) -> Result<(), Fail> {
    assert_eq!(rt; report.verdict.to_string(rt.alloc())?.as_str(), verdict);
    assert_eq!(rt; report.excess, excess);
    assert_eq!(rt; report.is_shortest(), shortest);
    Ok(())
}

#[test]
fn the_fifth_growing_settles(rt: HostRuntime) -> Result<(), Fail> {
    let rows = rows();
    let lift = lift(&rows)?;
    assert_eq!(rt; distance_after(&lift, 3)?, Distance::AtLeast(4));
    assert_eq!(rt; distance_after(&lift, 4)?, Distance::Told(4));
    let mut table = [7; 16];
    let mut book = grown(&lift, &Apart, &mut table, 5)?;
    refused(&rt, book.grow(&lift, &Apart, &mut table), 13, 0)?;
    assert_eq!(rt; (table[7], table[8], table[15]), (2, 65535, 7));
    Ok(())
}

#[test]
fn sheets_of_the_lift(rt: HostRuntime) -> Result<(), Fail> {
    let rows = rows();
    let lift = lift(&rows)?;
    let four = judged(&lift, 5, &[&[0], &[1], &[2], &[3]])?;
    reads(&rt, &four, "sound", Some(0), true)?;
    let pair = judged(&lift, 5, &[&[0, 1]])?;
    reads(&rt, &pair, "clash 0 0 1", Some(-3), false)?;
    let two = judged(&lift, 5, &[&[0], &[2]])?;
    reads(&rt, &two, "missing 1 2 1", Some(-2), false)?;
    let three = judged(&lift, 5, &[&[0], &[1], &[2]])?;
    reads(&rt, &three, "goal 0", Some(-1), false)
}

#[test]
fn layers_over_the_lift(rt: HostRuntime) -> Result<(), Fail> {
    let rows = rows();
    let lift = lift(&rows)?;
    let withheld = Withheld {
        below: &lift,
        marks: JobSet::of(&[3]),
    };
    let report = judged(&withheld, 4, &[&[0], &[1], &[2], &[3]])?;
    assert_eq!(rt; report.distance, Distance::NoPlan);
    reads(&rt, &report, "closed 3 3", None, false)?;
    let moved = MovedStart {
        below: &lift,
        start: FactSet::of(&[1, 4]),
    };
    assert_eq!(rt; distance_after(&moved, 2)?, Distance::Told(1));
    Ok(())
}
