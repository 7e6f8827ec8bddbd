//! What holds of every graph.

ghost use Rattle.std.specs.Prelude.{◌≡◌, ℕ, List};
ghost use Rattle.hdc_graph.specs.Groups.{AreGroups};

/// The groups of a graph have one order.
pub fn one_order()
    ensures { (graph first second : List (List ℕ)) → AreGroups graph first → AreGroups graph second → first ≡ second }
{}
