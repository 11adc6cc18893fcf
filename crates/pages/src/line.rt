//! A line of a page.
ghost use Rattle.pages.specs.Pages.{right, left, line, job_text, Wrote};
ghost use Rattle.std.specs.Prelude.{◌≡◌, ◌+◌, ◌%◌, ◌≤◌, decimal, length};

use crate::name::MOST_NAME_BYTES;

/// The bytes of a line.
pub const LINE_SIZE: usize = 25;

/// The last digit of a number.
fn digit(number: u16) -> u8
    ensures { result ≡ 48 + number % 10 }
{
    b'0' + (number % 10) as u8
}

/// A number at the right of three bytes; of one above 999 the last three digits.
fn right_aligned(number: u16) -> [u8; 3]
    ensures { result ≡ right 3 (decimal number) }
{
    if number < 10 {
        [b' ', b' ', digit(number)]
    } else if number < 100 {
        [b' ', digit(number / 10), digit(number)]
    } else {
        [digit(number / 100), digit(number / 10), digit(number)]
    }
}

/// A job's number, or `-` for a pause, at the right of three bytes.
fn job_column(job: Option<u8>) -> [u8; 3]
    ensures { result ≡ right 3 (job_text job) }
{
    match job {
        Some(job) => right_aligned(job as u16),
        None => [b' ', b' ', b'-'],
    }
}

/// A name at the left of sixteen bytes.
fn name_column(name: &[u8]) -> [u8; MOST_NAME_BYTES]
    requires { length name.now ≤ 16 }
    ensures { result ≡ left 16 name.now }
{
    let mut column = [b' '; MOST_NAME_BYTES];
    column[..name.len()].copy_from_slice(name);
    column
}

/// Writes the bytes to the page from byte `at` on, and gives the byte behind them.
pub(crate) fn put(page: &mut [u8], at: usize, bytes: &[u8]) -> usize
    requires { at + length bytes.now ≤ length page.old }
    ensures next { result ≡ at + length bytes.now }
    ensures wrote { Wrote page.old at bytes.now page.new }
{
    let end = at + bytes.len();
    page[at..end].copy_from_slice(bytes);
    end
}

/// Writes a line to the page from byte `at` on, and gives the byte behind it.
pub(crate) fn put_line(
    page: &mut [u8],
    at: usize,
    round: u16,
    job: Option<u8>,
    name: &[u8],
) -> usize
    requires room { at + 25 ≤ length page.old }
    requires name { length name.now ≤ 16 }
    ensures next { result ≡ at + 25 }
    ensures wrote { Wrote page.old at (line (decimal round) (job_text job) name.now) page.new }
{
    let at = put(page, at, &right_aligned(round));
    let at = put(page, at, b" ");
    let at = put(page, at, &job_column(job));
    let at = put(page, at, b" ");
    let at = put(page, at, &name_column(name));
    put(page, at, b"\n")
}
