//! What holds of every prelude and program.

ghost use Rattle.hdc_bindings.specs.Law.{AsTrees};

/// The bindings in which the operands of each chain are joined by the steps that build its tree are those in which they are
/// grouped by the tree; a chain that has no tree is its first operand.
pub fn as_trees()
    ensures { AsTrees }
{}
