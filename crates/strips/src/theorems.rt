//! What is proved of every task and every rule at once.
ghost use Rattle.strips.specs.Linear.{PlansAreLinear, RoundsHaveOrders};

/// The linearisation of plans: for every admitted task, every lawful rule and every plan, each free
/// order of the plan's jobs is permitted job by job, and all end in one state, which holds the goal.
pub fn plans_are_linear()
    ensures { PlansAreLinear }
{}

/// Rounds that name finitely many jobs have a free order.
pub fn rounds_have_orders()
    ensures { RoundsHaveOrders }
{}
