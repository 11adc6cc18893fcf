//! The worked cases.
ghost use Rattle.cases.specs.WorkedCases.{WorkedCases};

/// What is so of the lift count, of the twin count and of the called lift, by the definitions that the book's contracts
/// cite.
///
/// That the three, the lift with job 3 withheld, and the lift with its start moved to 1 and 4 are admitted tasks, of which
/// the theorem on lists of calls is so. Of the lift under apart: layer 4 is the first that equals its next; the distance is
/// 4; at least 4 is told after three growings; entries 7 and 8 are 2 and 65,535; the sheet [0][1][2][3] is sound with
/// excess 0, and called shortest; [0,1] is clash 0 0 1, [0][2] missing 1 2 1, and [0][1][2] goal 0, with their excesses.
/// With job 3 withheld [0][1][2][3] is closed 3 3, and the distance none; from 1 and 4 the distance is 1. Of the twin:
/// the sheet [0,1] is sound under apart, with distance 1; it is clash 0 0 1 under single file, with distance 2. Of the
/// called lift under apart, whose rows 1 and 3 delete a fact that they add: the distance is 4; the sheet
/// [0][1][1,2][3] is sound with excess 0, and [0,1] is clash 0 0 1.
pub fn worked_cases()
    ensures { WorkedCases }
{}
