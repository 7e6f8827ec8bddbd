//! The names that are defined.

ghost use Rattle.std.specs.Prelude.{◌≡◌};
ghost use Rattle.hdc_written.specs.Mirror as mirror;

use hdc_tree::{Head, Name, Var, VarOp};

/// The name of an operator that is a variable.
pub fn op_name(op: &VarOp) -> &Name
    ensures { result.now ≡ mirror.op_name op.now }
{
    match op {
        VarOp::Symbol(name) => name,
        VarOp::Quoted(_open_at, name, _close_at) => name,
    }
}

/// The name that an equation defines.
pub fn head_name(head: &Head) -> &Name
    ensures { result.now ≡ mirror.head_name head.now }
{
    match head {
        Head::Prefix(var, _params) => var_name(var),
        Head::Infix(_left, op, _right) => op_name(op),
        Head::Paren(_open_at, _left, op, _right, _close_at, _first, _rest) => op_name(op),
    }
}

/// A name, in parentheses or not.
pub fn var_name(var: &Var) -> &Name
    ensures { result.now ≡ mirror.var_name var.now }
{
    match var {
        Var::Plain(name) => name,
        Var::Operator(_open_at, name, _close_at) => name,
    }
}
