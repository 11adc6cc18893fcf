//! The parts of a job record's body.
ghost use Rattle.files.specs.Reading.{Split};

use crate::job::JobBody;
use planning::refusal::{Cause, Refusal};

/// The bytes in front of the lists: the zone, and the three lengths.
const FRONT: usize = 4;

impl<'a> JobBody<'a> {
    /// The zone and the three lists of the body of a record at byte `at`.
    ///
    /// Refused with 3, at `at`, if the length isn't 4 and the three list lengths.
    pub(crate) fn split(body: &'a [u8], at: usize) -> Result<JobBody<'a>, Refusal>
        ensures { Split body.now at result }
    {
        if body.len() < FRONT {
            return Err(Cause::WrongLength.at(at));
        }
        let adds = FRONT + body[1] as usize;
        let deletes = adds + body[2] as usize;
        let end = deletes + body[3] as usize;
        if body.len() != end {
            return Err(Cause::WrongLength.at(at));
        }
        Ok(JobBody {
            zone: body[0],
            needs: &body[FRONT..adds],
            adds: &body[adds..deletes],
            deletes: &body[deletes..end],
        })
    }
}
