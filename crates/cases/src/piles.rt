//! A book worked through a list of calls over a pile of two layers, and over a reference to the pile.
use crate::lift::{lift, rows};
use crate::list_of_calls::{Call, Under};
use sets::facts::FactSet;
use sets::jobs::JobSet;
use std::process::Abort;
use std::test::Fail;
use strips::moved_start::MovedStart;
use strips::rules::Apart;
use strips::task::Task;
use strips::withheld::Withheld;

/// Not reached.
const X: u16 = 65535;

// The lift is downstairs (0) with the pallet in it (3), and job 0 is absent. Layer 0 has {0}, {3} and {0,3}.
// Layer 1: job 1 adds 1, and while 3 is kept {1,3}. Layer 2: job 2, whose needs are {1,3}, adds 4, and while 1 is kept
// {1,4}. Layer 3: job 3 adds 0 while 4 is kept, {0,4}. Nothing else enters: who adds one of 0 and 1 deletes the other, who
// adds 4 deletes 3, and nobody adds 2 or 3. So layer 3 is the last, and the first with the goal 0, 4.
/// Passes if the lift with its start moved to 0, 3 and job 0 withheld is answered as it should be.
fn work<S: Task>(rt: &(impl Abort + AllocGlobal), pile: &S) -> Result<(), Fail> {
    let mut table = [7; 16];
    let mut sheet = [JobSet::of(&[0, 200]); 4];
    let under = Under {
        task: pile,
        rule: &Apart,
    };
    under.work_through(
        rt,
        &mut table,
        &mut sheet,
        &[
            (Call::Judge, "rounds 0, distance at least 1, goal 4"),
            (Call::Grow, "layer 1, rounds 0"),
            (Call::Grow, "layer 2, rounds 0"),
            (Call::Add(&[1]), "layer 2, rounds 1"),
            (Call::Add(&[1, 4]), "refused with 10 at 1"),
            (Call::Add(&[2, 3, 3]), "refused with 6 at 2"),
            // The lift is upstairs, so 0 and 4 are to be reached.
            (Call::Judge, "rounds 1, distance at least 3, goal 0"),
            (Call::Add(&[0]), "layer 2, rounds 2"),
            (Call::Judge, "rounds 2, distance at least 3, closed 1 0"),
            (Call::Ask { round: 0, job: 1 }, "refused with 14 at 0"),
            (Call::DropRound, "layer 2, rounds 1"),
            // Job 3 deletes 1, which job 2 needs.
            (Call::Add(&[2, 3]), "layer 2, rounds 2"),
            (Call::Judge, "rounds 2, distance at least 3, clash 1 2 3"),
            (Call::DropRound, "layer 2, rounds 1"),
            (Call::Add(&[3]), "layer 2, rounds 2"),
            // The lift is back at 0, and job 2 needs 1.
            (Call::Add(&[2]), "layer 2, rounds 3"),
            (Call::Judge, "rounds 3, distance at least 3, missing 2 2 1"),
            (Call::DropRound, "layer 2, rounds 2"),
            (Call::DropRound, "layer 2, rounds 1"),
            (Call::Add(&[2]), "layer 2, rounds 2"),
            (Call::Grow, "layer 3, rounds 2"),
            (Call::Judge, "rounds 2, distance 3, goal 0, excess -1"),
            (Call::Add(&[3]), "layer 3, rounds 3"),
            (
                Call::Judge,
                "rounds 3, distance 3, sound, excess 0, shortest",
            ),
            (Call::Ask { round: 2, job: 3 }, "true"),
            (Call::Ask { round: 2, job: 2 }, "false"),
            (Call::Ask { round: 3, job: 0 }, "false"),
            (Call::Grow, "layer 3, settled, rounds 3"),
            (Call::Grow, "refused with 13 at 0"),
            (Call::Add(&[]), "layer 3, settled, rounds 4"),
            (Call::Add(&[]), "refused with 11 at 0"),
            (Call::Judge, "rounds 4, distance 3, sound, excess 1"),
        ],
    )?;
    assert_eq!(rt; table, [0, X, 1, X, X, X, 0, 1, X, 0, 3, 2, X, X, 2, 7]);
    Ok(())
}

#[test]
fn a_pile_of_two_layers(rt: HostRuntime) -> Result<(), Fail> {
    let rows = rows();
    let lift = lift(&rows)?;
    let pile = Withheld {
        below: MovedStart {
            below: &lift,
            start: FactSet::of(&[0, 3, 100]),
        },
        marks: JobSet::of(&[0, 255]),
    };
    work(&rt, &pile)?;
    work(&rt, &&pile)
}

// As above, but job 3 is absent and job 0 is not, which needs 2: so nobody adds 0, layer 2 is the last, and the
// goal isn't reached.
#[test]
fn a_pile_without_a_plan(rt: HostRuntime) -> Result<(), Fail> {
    let rows = rows();
    let pile = MovedStart {
        below: Withheld {
            below: lift(&rows)?,
            marks: JobSet::of(&[3]),
        },
        start: FactSet::of(&[0, 3]),
    };
    let under = Under {
        task: &pile,
        rule: &Apart,
    };
    under.work_through(
        &rt,
        &mut [0; 15],
        &mut [],
        &[
            (Call::Grow, "layer 1, rounds 0"),
            (Call::Grow, "layer 2, rounds 0"),
            (Call::Judge, "rounds 0, distance at least 3, goal 4"),
            (Call::Grow, "layer 2, settled, rounds 0"),
            (Call::Judge, "rounds 0, distance none, goal 4"),
        ],
    )
}
