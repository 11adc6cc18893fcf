//! What is proved of the layers of every task, under every rule.
ghost use Rattle.layers.specs.Bounds.{PlansReach, LayersSettle};

/// A plan of r rounds reaches the goal at layer r: no plan has fewer rounds than the distance.
pub fn plans_reach_layers()
    ensures { PlansReach }
{}

/// One of the first n(n+1)/2 + 1 layers equals its next, and then holds all that any layer holds.
pub fn layers_settle()
    ensures { LayersSettle }
{}
