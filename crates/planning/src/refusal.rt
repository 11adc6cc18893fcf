//! Refusals: two numbers, the refusal's own and its place.
ghost use Rattle.planning.specs.Refusals.{number, told, text};
ghost use Rattle.reach.specs.Tables.{told as table_told};
ghost use Rattle.std.specs.Prelude.{◌≡◌, ◌≢◌, Some};
ghost use Rattle.verdicts.specs.Sheets.{told as sheet_told};

use reach::table::ShortTable;
use std::error::Error;
use std::fmt;
use verdicts::sheet::ShortSheet;

/// Why a call is refused, by its number. No cause has the number 7, and none is to get it.
#[derive(Clone, Copy, Debug, PartialEq, Eq)]
pub enum Cause {
    /// A file ends before a record that is due does, or is too large to be looked at.
    Truncated = 1,
    /// A record has another mark than the one that is due.
    OtherMark = 2,
    /// A record's length isn't right for its kind.
    WrongLength = 3,
    /// The number of facts is 0 or above 128.
    FactCount = 4,
    /// A fact is `n` or above.
    NoSuchFact = 5,
    /// Numbers that have to rise strictly don't.
    NotRising = 6,
    /// Bytes follow the last record.
    BytesFollow = 8,
    /// The memory or the task isn't the right one: there are fewer rows or name places than `m`, fewer entries
    /// than n(n+1)/2, fewer sheet places than rounds, or the task's `n` or `m` isn't the book's.
    Misfit = 9,
    /// A job number is `m` or above.
    NoSuchJob = 10,
    /// Every sheet place supplied, or 500, is in use.
    SheetFull = 11,
    /// There is no round to drop.
    NoRounds = 12,
    /// A settled book grows no more.
    Settled = 13,
    /// A sheet that isn't sound isn't issued.
    UnsoundSheet = 14,
    /// A name record's body isn't 2 to 17 bytes, or a byte of its name isn't from 32 to 126.
    BadName = 15,
    /// The memory to write to is shorter than what is to be written.
    ShortOutput = 16,
}

/// A refusal: its cause, which has a number, and its place.
#[derive(Clone, Copy, Debug, PartialEq, Eq)]
pub struct Refusal {
    pub cause: Cause,
    pub place: usize,
}

impl Cause {
    // Beside `From` for `u8`: a clause of `Display` and the docs say `number`.
    /// The refusal's number. It is never 7.
    pub fn number(self) -> u8
        ensures value { result ≡ number self }
        ensures never_7 { result ≢ 7 }
    {
        self as u8
    }

    /// The refusal with this cause at this place.
    pub fn at(self, place: usize) -> Refusal
        ensures { result ≡ record { cause = self; place = place } }
    {
        Refusal { cause: self, place }
    }
}

/// The cause's number.
impl From<Cause> for u8 {
    ghost from_gives = { λ cause told. told ≡ number cause };

    fn from(cause: Cause) -> u8 {
        cause.number()
    }
}

/// The refusal with this cause at place 0.
impl From<Cause> for Refusal {
    ghost from_gives = { λ cause refusal. refusal ≡ record { cause = cause; place = 0 } };

    fn from(cause: Cause) -> Refusal {
        cause.at(0)
    }
}

// Once for each error: a `From` over both would need a trait for the two.
/// A table that is too short isn't the book's: the refusal has the two numbers that the error tells.
impl From<ShortTable> for Refusal {
    ghost from_gives = { λ table refusal. told refusal ≡ table_told table };

    fn from(_table: ShortTable) -> Refusal {
        Cause::Misfit.into()
    }
}

/// A sheet that is too short isn't the book's: the refusal has the two numbers that the error tells.
impl From<ShortSheet> for Refusal {
    ghost from_gives = { λ sheet refusal. told refusal ≡ sheet_told sheet };

    fn from(_sheet: ShortSheet) -> Refusal {
        Cause::Misfit.into()
    }
}

/// The refusal's two numbers, as `refused with 9 at 0`.
impl fmt::Display for Refusal {
    ghost output = { λ refusal. Some (text refusal) };

    fn fmt<W: fmt::Write>(&self, f: &mut fmt::Formatter<W>) -> fmt::Result {
        write!(f, "refused with {} at {}", self.cause.number(), self.place)
    }
}

impl Error for Refusal {}
