//! Printing the pages of issued sheets.
use crate::lift::{lift, rows};
use crate::names_files::{LIFT_NAMES, names_of};
use crate::twin;
use crate::work::{issue_all, refused};
use pages::name::NamePlace;
use pages::named::Named;
use pages::task::NamedTask;
use planning::issued::Issued;
use sets::facts::FactSet;
use sets::jobs::JobSet;
use std::alloc::{AllocError, Global};
use std::process::Abort;
use std::test::Fail;
use strips::header::Header;
use strips::loaded::Loaded;
use strips::moved_start::MovedStart;
use strips::row::Row;
use strips::rules::Apart;
use strips::task::Task;
use strips::withheld::Withheld;

/// A line of a page.
pub type Line = [u8; 25];

/// A plan of the lift count, with a pause.
const ROUNDS: [&[u8]; 5] = [&[0], &[1], &[], &[2], &[3]];

/// Its page, under the names of its file.
pub const PAGE: [Line; 5] = [
    *b"  0   0 load pallet     \n",
    *b"  1   1 lift up         \n",
    *b"  2   -                 \n",
    *b"  3   2 unload, 4th hall\n",
    *b"  4   3 ~ down ~        \n",
];

/// The task, with these names of its jobs.
fn named<B: Task>(below: B, places: &[NamePlace]) -> Named<'_, B> {
    Named { below, places }
}

/// The task, with no name of a job.
fn nameless<B: Task>(below: B) -> Named<'static, B> {
    named(below, &[])
}

/// Passes if these lines are printed to the front of the memory, of 130 bytes 2A, and what stands behind them is kept.
pub fn prints<S: NamedTask>(
    rt: &impl Abort,
    issued: &Issued,
    task: &S,
    sheet: &[JobSet],
    lines: &[Line],
) -> Result<(), Fail> {
    let mut page = [0x2A; 130];
    let bytes = issued.print_page(task, sheet, &mut page)?;
    assert!(rt; bytes <= page.len());
    assert_eq!(rt; &page[..bytes], lines.as_flattened());
    assert!(rt; page[bytes..].iter().all(|byte| *byte == 0x2A));
    Ok(())
}

/// Passes if printing to this memory is refused with this number, place 0, and writes nothing.
fn refuses<S: NamedTask>(
    rt: &impl Abort,
    issued: &Issued,
    task: &S,
    sheet: &[JobSet],
    page: &mut [u8],
    number: u8,
) -> Result<(), Fail> {
    page.fill(0x2A);
    refused(rt, issued.print_page(task, sheet, page), number, 0)?;
    assert!(rt; page.iter().all(|byte| *byte == 0x2A));
    Ok(())
}

#[test]
fn the_page_of_the_lift(rt: HostRuntime) -> Result<(), Fail> {
    let rows = rows();
    let lift = lift(&rows)?;
    let mut sheet = [JobSet::empty(); 5];
    let issued = issue_all(&lift, &Apart, &mut sheet, &ROUNDS)?;
    let names = names_of(&lift, LIFT_NAMES)?;
    prints(&rt, &issued, &named(lift, &names), &sheet, &PAGE)?;
    let names = names_of(&lift, b"NJ\x0c\x00load palletNJ\x11\x02unload, 4th hall")?;
    let mut page = PAGE;
    page[1] = *b"  1   1                 \n";
    page[4] = *b"  4   3                 \n";
    prints(&rt, &issued, &named(lift, &names), &sheet, &page)
}

#[test]
fn other_tasks_and_short_memory_are_refused(rt: HostRuntime) -> Result<(), Fail> {
    let rows = rows();
    let three_jobs = lift(&rows[..3])?;
    let lift = lift(&rows)?;
    let six_facts = Loaded {
        header: Header::new(6, 4, FactSet::of(&[0, 2]), FactSet::of(&[0, 4]))?,
        rows: &rows,
    };
    let mut sheet = [JobSet::empty(); 5];
    let issued = issue_all(&lift, &Apart, &mut sheet, &ROUNDS)?;
    refuses(&rt, &issued, &nameless(six_facts), &sheet, &mut [0; 130], 9)?;
    refuses(
        &rt,
        &issued,
        &nameless(three_jobs),
        &sheet,
        &mut [0; 130],
        9,
    )?;
    refuses(&rt, &issued, &nameless(lift), &sheet[..4], &mut [0; 130], 9)?;
    refuses(&rt, &issued, &nameless(lift), &sheet[..4], &mut [], 9)?;
    refuses(&rt, &issued, &nameless(lift), &sheet, &mut [0; 124], 16)
}

#[test]
fn numbers_from_m_up_are_not_on_the_page(rt: HostRuntime) -> Result<(), Fail> {
    let rows = twin::rows(0);
    let twin = twin::twin(&rows)?;
    let lines = [
        *b"  0   0                 \n",
        *b"  0   1                 \n",
        *b"  1   -                 \n",
    ];
    let mut sheet = [JobSet::empty(); 2];
    let issued = issue_all(&twin, &Apart, &mut sheet, &[&[0, 1]])?;
    prints(&rt, &issued, &nameless(twin), &sheet, &lines[..2])?;
    let issued = issue_all(&twin, &Apart, &mut sheet, &[&[0, 1], &[]])?;
    let sheet = [JobSet::of(&[0, 1, 2, 255]), JobSet::of(&[2, 200])];
    prints(&rt, &issued, &nameless(twin), &sheet, &lines)
}

#[test]
fn layers_hand_names_on(rt: HostRuntime) -> Result<(), Fail> {
    let rows = rows();
    let lift = lift(&rows)?;
    let mut sheet = [JobSet::empty(); 5];
    let issued = issue_all(&lift, &Apart, &mut sheet, &ROUNDS)?;
    let names = names_of(&lift, LIFT_NAMES)?;
    let start = FactSet::of(&[1, 4]);
    let marks = JobSet::of(&[1, 255]);
    let named_lift = named(lift, &names);
    let withheld = Withheld {
        below: MovedStart {
            below: &named_lift,
            start,
        },
        marks,
    };
    let moved = MovedStart {
        below: Withheld {
            below: named_lift,
            marks,
        },
        start,
    };
    prints(&rt, &issued, &withheld, &sheet, &PAGE)?;
    prints(&rt, &issued, &&moved, &sheet, &PAGE)?;
    // The names of the layer above are told, and none of the layer below.
    let names = [NamePlace::of(b""), NamePlace::of(b"up")];
    let mut page = PAGE;
    page[0] = *b"  0   0                 \n";
    page[1] = *b"  1   1 up              \n";
    page[3] = *b"  3   2                 \n";
    page[4] = *b"  4   3                 \n";
    prints(&rt, &issued, &named(moved, &names), &sheet, &page)
}

/// Passes if of the twin count, whose second place of three is this one, job 1 has this name, and job 2 has none.
fn names_job_1(rt: &impl Abort, length: u8, bytes: &[u8; 16], name: &[u8]) -> Result<(), Fail> {
    let other = NamePlace::of(b"other");
    let bytes = *bytes;
    let names = [other, NamePlace { length, bytes }, other];
    let rows = twin::rows(0);
    let twin = named(twin::twin(&rows)?, &names);
    assert_eq!(rt; twin.name(1), name);
    assert!(rt; twin.name(2).is_empty());
    assert!(rt; named(twin, &names[..1]).name(1).is_empty());
    Ok(())
}

#[test]
fn a_place_without_a_name_counts_as_the_empty_name(rt: HostRuntime) -> Result<(), Fail> {
    names_job_1(&rt, 16, b"0123456789abcdef", b"0123456789abcdef")?;
    names_job_1(&rt, 17, b"0123456789abcdef", b"")?;
    names_job_1(&rt, 200, b"0123456789abcdef", b"")?;
    names_job_1(&rt, 3, b" ~!\x1f\x7f\x80\xff\n\0\0\0\0\0\0\0\0", b" ~!")?;
    names_job_1(&rt, 3, b"a\x1fbcdefghijklmno", b"")?;
    names_job_1(&rt, 3, b"ab\x7fcdefghijklmno", b"")?;
    names_job_1(&rt, 0, b"0123456789abcdef", b"")
}

/// The names of the jobs of a large task, given in turn.
const NAMES: [&str; 3] = ["", "unload, 4th hall", "x"];

/// The page of 500 rounds, in each of which all 255 jobs go together.
fn large_page(alloc: Global) -> Result<String, AllocError> {
    let mut page = String::new(alloc);
    for round in 0..500_u16 {
        for job in 0..255_u8 {
            let name = NAMES[job as usize % 3];
            writeln!(page, "{round:>3} {job:>3} {name:<16}")?;
        }
    }
    Ok(page)
}

#[test]
fn the_largest_page(rt: HostRuntime) -> Result<(), Fail> {
    let task = Loaded {
        header: Header::new(1, 255, FactSet::empty(), FactSet::empty())?,
        rows: &[Row::default(); 255],
    };
    let mut jobs = [0; 255];
    let mut names = [NamePlace::of(b""); 255];
    for job in 0..255_u8 {
        jobs[job as usize] = job;
        names[job as usize] = NamePlace::of(NAMES[job as usize % 3].as_bytes());
    }
    let mut sheet = [JobSet::empty(); 500];
    let issued = issue_all(&task, &Apart, &mut sheet, &[&jobs[..]; 500])?;
    let mut page = vec![in rt.alloc(); 0; 3_187_500]?;
    let bytes = issued.print_page(&named(task, &names), &sheet, &mut page)?;
    assert_eq!(rt; bytes, 3_187_500);
    let lines = large_page(rt.alloc())?;
    assert!(rt; page.as_slice() == lines.as_bytes());
    assert!(rt; page.ends_with(b"499 254 x               \n"));
    Ok(())
}

#[test]
fn a_sheet_without_rounds_has_no_byte(rt: HostRuntime) -> Result<(), Fail> {
    let task = Loaded {
        header: Header::new(1, 0, FactSet::empty(), FactSet::empty())?,
        rows: &[],
    };
    let issued = issue_all(&task, &Apart, &mut [], &[])?;
    prints(&rt, &issued, &nameless(task), &[], &[])?;
    assert_eq!(rt; issued.print_page(&nameless(task), &[], &mut [])?, 0);
    Ok(())
}
