//! What holds of every chain.

ghost use Rattle.std.specs.Prelude.{◌≡◌, ℕ, Bool, List};
ghost use Rattle.hdc_names.specs.declared.chain.NextOperand.{NextOperand};
ghost use Rattle.hdc_names.specs.Chain.{Tree, IsTreeOf, HasNoTree};

/// A chain has at most one tree.
pub fn one_tree()
    ensures { (signed : Bool) (rest : List NextOperand) (first second : Tree) → IsTreeOf signed rest first → IsTreeOf signed rest second → first ≡ second }
{}

/// A chain that has no tree up to one of its operands has none.
pub fn no_tree_behind()
    ensures { (signed : Bool) (rest : List NextOperand) (number : ℕ) → HasNoTree signed rest number → (tree : Tree) → IsTreeOf signed rest tree → ⊥ }
{}
