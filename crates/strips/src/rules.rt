//! The three sharing rules.
ghost use Rattle.std.specs.Prelude.{◌≡◌, IsTrue, ◌↔◌};
ghost use Rattle.strips.specs.Jobs.{Interferes};
ghost use Rattle.strips.specs.Rules.{apart, single_file, zoned, zones_agree, ZonesAgree};
ghost use Rattle.strips.specs.JobLaws.{apart_lawful, single_file_lawful, zoned_lawful};

use crate::job::Job;
use crate::rule::Rule;

/// Two jobs may share a round exactly if they don't interfere.
#[derive(Clone, Copy)]
pub struct Apart;

impl Rule for Apart {
    ghost shares = { λ _. apart };

    ghost symmetric = { λ x. apart_lawful.symmetric };

    ghost harmless = { λ x. apart_lawful.harmless };

    fn may_share(&self, a: &Job, b: &Job) -> bool
        ensures value { result ≡ apart a.now b.now }
        ensures decides { IsTrue result ↔ (¬ Interferes a.now b.now) }
    {
        !a.interferes(b)
    }
}

/// No two jobs may share a round.
#[derive(Clone, Copy)]
pub struct SingleFile;

impl Rule for SingleFile {
    ghost shares = { λ _. single_file };

    ghost symmetric = { λ x. single_file_lawful.symmetric };

    ghost harmless = { λ x. single_file_lawful.harmless };

    fn may_share(&self, _a: &Job, _b: &Job) -> bool {
        false
    }
}

/// As apart, and the zones differ or one of them is 0.
#[derive(Clone, Copy)]
pub struct Zoned;

impl Rule for Zoned {
    ghost shares = { λ _. zoned };

    ghost symmetric = { λ x. zoned_lawful.symmetric };

    ghost harmless = { λ x. zoned_lawful.harmless };

    fn may_share(&self, a: &Job, b: &Job) -> bool
        ensures value { result ≡ zoned a.now b.now }
        ensures decides { IsTrue result ↔ ((¬ Interferes a.now b.now) × ZonesAgree a.now b.now) }
    {
        Apart.may_share(a, b) && zones_agree(a, b)
    }
}

/// Whether the zones differ or one of them is 0.
fn zones_agree(a: &Job, b: &Job) -> bool
    ensures { result ≡ zones_agree a.now b.now }
{
    a.zone != b.zone || a.zone == 0 || b.zone == 0
}
