//! What holds of every graph.

ghost use Rattle.std.specs.Prelude.{◌≡◌, ◌↔◌, [], List, ℕ, Bool};
ghost use Rattle.hdc_graph.specs.Needs.{Nodes, IsClosed};
ghost use Rattle.hdc_order.specs.Order.{GoesOn, is_value, order_of};

/// The values of a graph have one order in which the next is always the first that is ready.
pub fn one_order_of_values()
    ensures { (g : Nodes) (values : List Bool) (order : List ℕ) → IsClosed g → GoesOn g (is_value values) [] order ↔ (order ≡ order_of g values) }
{}
