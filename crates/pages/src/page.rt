//! Writing the page of a sheet.
ghost use Rattle.pages.specs.Names.{Names};
ghost use Rattle.pages.specs.Pages.{job_lines, round_lines, page_at, Wrote, PageWritten};
ghost use Rattle.sets.specs.Search.{any};
ghost use Rattle.std.specs.Prelude.{◌≡◌, ℕ, ◌+◌, ◌<◌, ◌≤◌, ◌^◌, ◌*◌, length, take};
ghost use Rattle.strips.specs.Rounds.{round_of};

use crate::line::{LINE_SIZE, put_line};
use crate::task::NamedTask;
use sets::jobs::JobSet;

/// Whether the round at the place has a job below `m`.
fn has_job(place: &JobSet, m: u8) -> bool
    ensures { result ≡ any m (round_of m place.now) }
{
    match place.next(0) {
        Some(job) => job < m,
        None => false,
    }
}

/// The bytes of the lines of the round at the place.
fn round_size(place: &JobSet, m: u8) -> usize
    ensures size { (N : Names) (i : ℕ) → result ≡ length (round_lines m N i (round_of m place.now)) }
    ensures few { result ≤ 6375 }
{
    if !has_job(place, m) {
        return LINE_SIZE;
    }
    let mut size = 0;
    for job in 0..m {
        if place.contains(job) {
            size += LINE_SIZE;
        }
    }
    size
}

/// Writes the lines of the jobs of a round to the page from byte `at` on, and gives the byte behind them.
fn put_jobs<S: NamedTask>(task: &S, round: u16, place: &JobSet, page: &mut [u8], at: usize) -> usize
    requires { at + length (job_lines (S.NamedTask.names task.now) round (round_of (S.Task.meaning task.now).m place.now) (S.Task.meaning task.now).m) ≤ length page.old }
    ensures next { result ≡ at + length (job_lines (S.NamedTask.names task.now) round (round_of (S.Task.meaning task.now).m place.now) (S.Task.meaning task.now).m) }
    ensures wrote { Wrote page.old at (job_lines (S.NamedTask.names task.now) round (round_of (S.Task.meaning task.now).m place.now) (S.Task.meaning task.now).m) page.new }
{
    let mut at = at;
    for job in 0..task.m() {
        if place.contains(job) {
            at = put_line(page, at, round, Some(job), task.name(job));
        }
    }
    at
}

/// Writes the lines of a round to the page from byte `at` on, and gives the byte behind them.
fn put_round<S: NamedTask>(
    task: &S,
    round: u16,
    place: &JobSet,
    page: &mut [u8],
    at: usize,
) -> usize
    requires { at + length (round_lines (S.Task.meaning task.now).m (S.NamedTask.names task.now) round (round_of (S.Task.meaning task.now).m place.now)) ≤ length page.old }
    ensures next { result ≡ at + length (round_lines (S.Task.meaning task.now).m (S.NamedTask.names task.now) round (round_of (S.Task.meaning task.now).m place.now)) }
    ensures wrote { Wrote page.old at (round_lines (S.Task.meaning task.now).m (S.NamedTask.names task.now) round (round_of (S.Task.meaning task.now).m place.now)) page.new }
{
    if has_job(place, task.m()) {
        put_jobs(task, round, place, page, at)
    } else {
        put_line(page, at, round, None, b"")
    }
}

/// The bytes of the page of these places.
fn page_size(places: &[JobSet], m: u8) -> usize
    requires { length places.now < 2 ^ 16 }
    ensures size { (N : Names) → result ≡ length (page_at m N places.now) }
    ensures few { result ≤ 6375 * length places.now }
{
    let mut size = 0;
    for place in places {
        size += round_size(place, m);
    }
    size
}

/// Writes the page of these places to the front of the page, and gives the byte behind it.
fn put_page<S: NamedTask>(task: &S, places: &[JobSet], page: &mut [u8]) -> usize
    requires few { length places.now < 2 ^ 16 }
    requires room { length (page_at (S.Task.meaning task.now).m (S.NamedTask.names task.now) places.now) ≤ length page.old }
    ensures next { result ≡ length (page_at (S.Task.meaning task.now).m (S.NamedTask.names task.now) places.now) }
    ensures wrote { Wrote page.old 0 (page_at (S.Task.meaning task.now).m (S.NamedTask.names task.now) places.now) page.new }
{
    let mut at = 0;
    for (round, place) in places.iter().enumerate() {
        at = put_round(task, round as u16, place, page, at);
    }
    at
}

/// Writes the page of the rounds at the first `rounds` places of the sheet, or at all where there are fewer, to the front of
/// `page`; what stands behind it is kept. The answer is its number of bytes.
///
/// The rounds stand in their order, counted from 0, each with a line of 25 bytes for each of its jobs below `m`, in rising
/// order: the round right-aligned in bytes 0 to 2 and the job in bytes 4 to 6, both in decimal, the job's name left-aligned
/// in bytes 8 to 23, and hex 0A in byte 24; every other byte is a blank, hex 20. A round without such a job, a pause, has one
/// line, with `-` in byte 6 in place of a job and no name. Of a round above 999 the last three digits are shown. Where
/// there are no rounds, the page has 0 bytes.
///
/// None, and nothing is written, if `page` is shorter than the page.
pub fn write_page<S: NamedTask>(
    task: &S,
    sheet: &[JobSet],
    rounds: u16,
    page: &mut [u8],
) -> Option<usize>
    ensures { PageWritten (page_at (S.Task.meaning task.now).m (S.NamedTask.names task.now) (take rounds sheet.now)) page.old result page.new }
{
    let places = &sheet[..sheet.len().min(rounds as usize)];
    if page.len() < page_size(places, task.m()) {
        return None;
    }
    Some(put_page(task, places, page))
}
