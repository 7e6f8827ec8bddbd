//! What `main` stands for.

ghost use Rattle.std.specs.Prelude.{◌≡◌, None, Some, map, MatchOption};
ghost use Rattle.hdc_resolved.specs.Mirror.{binding_of, block_of, equations_of, expression_of, right_of};
ghost use Rattle.hdc_written.specs.Mirror.{tops_behind, tops_of};
ghost use Rattle.hdc_top.specs.Main as spec;

use hdc_base::Src;
use hdc_resolved::{Alt, Block, Decl, Exp, Rhs};
use hdc_tree::{NextTop, Top, Tree};

/// What `main` stands for, where the program binds that alone and declares no types: no signature, data type or
/// synonym. `decls` are the bindings of its prelude and its own.
pub fn main_expression<'d>(program: &Tree, decls: &'d [Decl]) -> Option<&'d Exp>
    ensures { MatchOption result (spec.main_expression (tops_of program.now) (map binding_of decls.now) ≡ None) (λ e. spec.main_expression (tops_of program.now) (map binding_of decls.now) ≡ Some (expression_of e.now)) }
{
    if is_typed(program.first.get()) || are_typed(program.rest.as_slice()) {
        return None;
    }
    plain_main(only_own(decls)?)
}

fn are_typed(tops: &[NextTop]) -> bool
    ensures { result ≡ spec.are_typed (tops_behind tops.now) }
{
    for part in tops {
        if is_typed(&part.top) {
            return true;
        }
    }
    false
}

// Whether a signature, a data type or a synonym is declared.
fn is_typed(top: &Top) -> bool
    ensures { result ≡ spec.is_typed top.now }
{
    match top {
        Top::Data(_data) => true,
        Top::Synonym(_synonym) => true,
        Top::Signature(_first, _rest, _at, _signature) => true,
        Top::Empty => false,
        Top::Fixity(_fixity) => false,
        Top::Equation(_head, _rhs) => false,
    }
}

// The binding of the program, where it has one alone.
fn only_own(decls: &[Decl]) -> Option<&Decl>
    ensures { MatchOption result (spec.only (spec.own_bindings (map binding_of decls.now)) ≡ None) (λ d. spec.only (spec.own_bindings (map binding_of decls.now)) ≡ Some (binding_of d.now)) }
{
    let mut own = None;
    for decl in decls {
        if in_program(decl.place.src) {
            if own.is_some() {
                return None;
            }
            own = Some(decl);
        }
    }
    own
}

fn in_program(src: Src) -> bool
    ensures { result ≡ spec.in_program src }
{
    match src {
        Src::Program => true,
        Src::Prelude => false,
    }
}

// What a binding of `main` stands for, which is a plain name.
fn plain_main(decl: &Decl) -> Option<&Exp>
    ensures { MatchOption result (spec.plain_main (binding_of decl.now) ≡ None) (λ e. spec.plain_main (binding_of decl.now) ≡ Some (expression_of e.now)) }
{
    if decl.name.as_slice() == b"main".as_slice() {
        plain_equation(decl.equations.as_slice())
    } else {
        None
    }
}

// What a plain name stands for: it has one equation, which has no patterns.
#[tactic(auto, using(hdc_resolved::proofs::Mirror::mirrored))]
fn plain_equation(equations: &[Alt]) -> Option<&Exp>
    ensures { MatchOption result (spec.plain_equation (equations_of equations.now) ≡ None) (λ e. spec.plain_equation (equations_of equations.now) ≡ Some (expression_of e.now)) }
{
    let (first, rest) = equations.split_first()?;
    if !rest.is_empty() {
        return None;
    }
    if !first.pats.is_empty() {
        return None;
    }
    plain_side(&first.rhs)
}

// The expression of a right side without guards, behind which nothing is bound.
#[tactic(auto, using(hdc_resolved::proofs::Mirror::mirrored))]
fn plain_side(side: &Rhs) -> Option<&Exp>
    ensures { MatchOption result (spec.plain_side (right_of side.now) ≡ None) (λ e. spec.plain_side (right_of side.now) ≡ Some (expression_of e.now)) }
{
    match side {
        Rhs::Plain(exp, block) => {
            if is_empty(block) {
                Some(exp.get())
            } else {
                None
            }
        }
        Rhs::Guarded(_place, _guards, _block) => None,
    }
}

// Whether nothing is bound or signed.
#[tactic(auto, using(hdc_resolved::proofs::Mirror::mirrored))]
fn is_empty(block: &Block) -> bool
    ensures { result ≡ spec.is_empty (block_of block.now) }
{
    if !block.members.is_empty() {
        return false;
    }
    block.signatures.is_empty()
}
