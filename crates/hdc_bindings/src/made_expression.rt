//! Right sides that are put together.

ghost use Rattle.std.specs.Prelude.{◌≡◌, IfOk, OnOk, length, map};
ghost use Rattle.hdc_resolving.specs.Patterns as patterns;
ghost use Rattle.hdc_written.specs.Written as written;
ghost use Rattle.hdc_resolved.specs.Mirror as made;
ghost use Rattle.hdc_resolved.specs.Syntax as resolved;
ghost use Rattle.hdc_resolving.specs.Literals as literals;
ghost use Rattle.hdc_resolving.specs.Parts as parts;
ghost use Rattle.hdc_resolving.specs.Numbering as numbering;
ghost use Rattle.hdc_bindings.specs.Blocks as blocks;
ghost use Rattle.hdc_bindings.specs.Resolving as spec;
ghost use Rattle.hdc_written.specs.Mirror as mirror;

use hdc_base::{At, Place};
use hdc_resolved::{Alt, Block, Exp, Guard, Pat, Quals, Rhs, RowKind, Side, Use};
use hdc_resolving::{
    Declared, Known, Pile, Sizes, Walk, block_of, enter_block, enter_params, literal_of,
    resolve_params, takes_degree, variable_use,
};
use hdc_tree::{Aexp, Apat, Block as WrittenBlock, Literal as WrittenLiteral};
use sqlite_items::{Boxed, Items};
use std::alloc::{AllocError, Global};

/// A name.
#[tactic(auto, using(hdc_resolved::proofs::Mirror::mirrored))]
pub fn name(used: Use) -> Exp
    ensures { made.expression_of result ≡ resolved.name used }
{
    Exp::Name(used)
}

/// A literal.
#[tactic(auto, using(hdc_resolved::proofs::Mirror::mirrored))]
pub fn literal(
    alloc: Global,
    known: &Known<'_>,
    at: At,
    literal: &WrittenLiteral,
) -> Result<Exp, AllocError>
    ensures { IfOk result (λ e. made.expression_of e ≡ resolved.literal (literals.place_in known.now.src at) (literals.literal_of literal.now)) }
{
    Ok(Exp::Lit(known.place(at), literal_of(alloc, literal)?))
}

/// Brackets or parentheses with nothing in them.
#[tactic(auto, using(hdc_resolved::proofs::Mirror::mirrored))]
pub fn empty_row(alloc: Global, known: &Known<'_>, at: At, kind: RowKind) -> Exp
    ensures { made.expression_of result ≡ resolved.row (literals.place_in known.now.src at) kind resolved.no_expression }
{
    Exp::Row(known.place(at), kind, Items::new(alloc))
}

/// Members in parentheses or brackets.
#[tactic(auto, using(hdc_resolved::proofs::Mirror::mirrored))]
pub fn row(known: &Known<'_>, at: At, kind: RowKind, members: Items<Exp>) -> Exp
    ensures { made.expression_of result ≡ resolved.row (literals.place_in known.now.src at) kind (made.expressions (map made.expression_of members)) }
{
    Exp::Row(known.place(at), kind, members)
}

/// An operand and an operator in parentheses.
#[tactic(auto, using(hdc_resolved::proofs::Mirror::mirrored))]
pub fn section(
    alloc: Global,
    place: Place,
    side: Side,
    number: u32,
    operator: Use,
    operand: Exp,
) -> Result<Exp, AllocError>
    ensures { IfOk result (λ e. made.expression_of e ≡ resolved.section place side number operator (made.expression_of operand)) }
{
    let operand = Boxed::new(alloc, operand)?;
    Ok(Exp::Section(place, side, number, operator, operand))
}

// A function, which begins here, and one argument, unless this is the degree that the function has taken.
#[tactic(auto, using(hdc_resolved::proofs::Mirror::mirrored))]
fn apply_unless(
    alloc: Global,
    skip: bool,
    place: Place,
    function: Exp,
    argument: Exp,
) -> Result<Exp, AllocError>
    ensures { IfOk result (λ e. made.expression_of e ≡ spec.applied_unless skip place (made.expression_of function) (made.expression_of argument)) }
{
    if skip {
        return Ok(function);
    }
    let function = Boxed::new(alloc, function)?;
    Ok(Exp::App(place, function, Boxed::new(alloc, argument)?))
}

/// A function, which begins here, and its arguments, of which the first is left out where it is a degree.
pub fn apply_all(
    alloc: Global,
    skip: bool,
    place: Place,
    function: Exp,
    args: Items<Exp>,
) -> Result<Exp, AllocError>
    ensures { IfOk result (λ e. made.expression_of e ≡ blocks.applied_each skip place (made.expression_of function) (map made.expression_of args)) }
{
    let mut skip = skip;
    let mut whole = function;
    let mut rest = Pile::of(alloc, args)?;
    while let Some(argument) = rest.pop() {
        whole = apply_unless(alloc, skip, place, whole, argument)?;
        skip = false;
    }
    Ok(whole)
}

/// A function before its arguments: a variable knows them.
#[tactic(auto, using(hdc_written::proofs::ExpressionMirror::mirrored_expressions))]
pub fn function_before(
    known: &Known<'_>,
    walk: &Walk<'_>,
    head: &Aexp,
    function: Exp,
    args: &[Aexp],
) -> Exp
    ensures { made.expression_of result ≡ spec.head_before (mirror.aexp_of head.now) (made.expression_of function) (mirror.each_operand mirror.aexp_of args.now) known.now walk.now.names }
{
    match head {
        Aexp::Var(var) => name(variable_use(known, walk, var, args)),
        Aexp::Con(_)
        | Aexp::Literal(_, _)
        | Aexp::Unit(_, _)
        | Aexp::Nil(_, _)
        | Aexp::Cons(_, _, _)
        | Aexp::Paren(_, _, _)
        | Aexp::Tuple(_, _, _, _)
        | Aexp::List(_)
        | Aexp::LeftSection(_, _, _, _)
        | Aexp::RightSection(_, _, _, _) => function,
    }
}

/// Whether the first of these arguments is the degree of the function before them.
#[tactic(auto, using(hdc_written::proofs::ExpressionMirror::mirrored_expressions))]
pub fn skips_degree(known: &Known<'_>, walk: &Walk<'_>, head: &Aexp, args: &[Aexp]) -> bool
    ensures { result ≡ spec.skips_degree (mirror.aexp_of head.now) (mirror.each_operand mirror.aexp_of args.now) known.now walk.now.names }
{
    match head {
        Aexp::Var(var) => takes_degree(variable_use(known, walk, var, args).name),
        Aexp::Con(_)
        | Aexp::Literal(_, _)
        | Aexp::Unit(_, _)
        | Aexp::Nil(_, _)
        | Aexp::Cons(_, _, _)
        | Aexp::Paren(_, _, _)
        | Aexp::Tuple(_, _, _, _)
        | Aexp::List(_)
        | Aexp::LeftSection(_, _, _, _)
        | Aexp::RightSection(_, _, _, _) => false,
    }
}

/// The variables of parameters come into scope; how much was in scope before, and the patterns.
pub fn open_lambda<'t>(
    alloc: Global,
    known: &Known<'_>,
    walk: &mut Walk<'t>,
    first: &'t Apat,
    rest: &'t [Apat],
) -> Result<(Sizes, Items<Pat>), AllocError>
    ensures sizes { IfOk result (λ r. r.0 ≡ record { names = length walk.old.names; fixities = length walk.old.fixities }) }
    ensures pats { IfOk result (λ r. made.patterns (map made.pattern_of r.1) ≡ patterns.resolved_patterns (written.pattern (mirror.apat_of first.now) (mirror.each_pattern mirror.apat_of rest.now)) known.now (numbering.entered (written.all_variables (written.pattern (mirror.apat_of first.now) (mirror.each_pattern mirror.apat_of rest.now))) walk.old).names) }
    ensures moved { OnOk result (walk.new ≡ numbering.entered (written.all_variables (written.pattern (mirror.apat_of first.now) (mirror.each_pattern mirror.apat_of rest.now))) walk.old) }
{
    let sizes = walk.sizes();
    enter_params(walk, first, rest)?;
    let pats = resolve_params(alloc, known, walk, first, rest)?;
    Ok((sizes, pats))
}

/// What is declared in a block comes into scope; how much was in scope before.
pub fn open_block<'t>(walk: &mut Walk<'t>, block: &'t WrittenBlock) -> Result<Sizes, AllocError>
    ensures sizes { IfOk result (λ sizes. sizes ≡ record { names = length walk.old.names; fixities = length walk.old.fixities }) }
    ensures moved { OnOk result (walk.new ≡ numbering.entered (written.all_bound (mirror.block_of block.now)) walk.old) }
{
    let sizes = walk.sizes();
    enter_block(walk, block)?;
    Ok(sizes)
}

/// `\`, patterns and a body.
#[tactic(auto, using(hdc_resolved::proofs::Mirror::mirrored))]
pub fn lambda(
    alloc: Global,
    known: &Known<'_>,
    at: At,
    pats: Items<Pat>,
    body: Exp,
) -> Result<Exp, AllocError>
    ensures { IfOk result (λ e. made.expression_of e ≡ resolved.lambda (literals.place_in known.now.src at) (made.patterns (map made.pattern_of pats)) (made.expression_of body)) }
{
    let body = Boxed::new(alloc, body)?;
    Ok(Exp::Lambda(known.place(at), pats, body))
}

/// `if`, `then`, `else`.
#[tactic(auto, using(hdc_resolved::proofs::Mirror::mirrored))]
pub fn if_else(
    alloc: Global,
    known: &Known<'_>,
    at: At,
    condition: Exp,
    positive: Exp,
    negative: Exp,
) -> Result<Exp, AllocError>
    ensures { IfOk result (λ e. made.expression_of e ≡ resolved.if_else (literals.place_in known.now.src at) (made.expression_of condition) (made.expression_of positive) (made.expression_of negative)) }
{
    let condition = Boxed::new(alloc, condition)?;
    let positive = Boxed::new(alloc, positive)?;
    let negative = Boxed::new(alloc, negative)?;
    Ok(Exp::If(known.place(at), condition, positive, negative))
}

/// `case` and its alternatives.
#[tactic(auto, using(hdc_resolved::proofs::Mirror::mirrored))]
pub fn case_of(
    alloc: Global,
    known: &Known<'_>,
    at: At,
    subject: Exp,
    alts: Items<Alt>,
) -> Result<Exp, AllocError>
    ensures { IfOk result (λ e. made.expression_of e ≡ resolved.case_of (literals.place_in known.now.src at) (made.expression_of subject) (made.equations_of alts)) }
{
    let subject = Boxed::new(alloc, subject)?;
    Ok(Exp::Case(known.place(at), subject, alts))
}

/// `let` and what its bindings are for.
#[tactic(auto, using(hdc_resolved::proofs::Mirror::mirrored))]
pub fn let_in(
    alloc: Global,
    known: &Known<'_>,
    at: At,
    block: Block,
    body: Exp,
) -> Result<Exp, AllocError>
    ensures { IfOk result (λ e. made.expression_of e ≡ resolved.let_in (literals.place_in known.now.src at) (made.block_of block) (made.expression_of body)) }
{
    let body = Boxed::new(alloc, body)?;
    Ok(Exp::Let(known.place(at), block, body))
}

/// Two bounds with `..` between them.
#[tactic(auto, using(hdc_resolved::proofs::Mirror::mirrored))]
pub fn range(
    alloc: Global,
    known: &Known<'_>,
    at: At,
    low: Exp,
    high: Exp,
) -> Result<Exp, AllocError>
    ensures { IfOk result (λ e. made.expression_of e ≡ resolved.range (literals.place_in known.now.src at) known.now.range (made.expression_of low) (made.expression_of high)) }
{
    let low = Boxed::new(alloc, low)?;
    let high = Boxed::new(alloc, high)?;
    Ok(Exp::Range(known.place(at), known.range, low, high))
}

/// A comprehension.
#[tactic(auto, using(hdc_resolved::proofs::Mirror::mirrored))]
pub fn comprehension(known: &Known<'_>, at: At, quals: Quals) -> Exp
    ensures { made.expression_of result ≡ resolved.comprehension (literals.place_in known.now.src at) (made.qualifiers_of quals) }
{
    Exp::Comp(known.place(at), quals)
}

/// The head of a comprehension, without qualifiers.
#[tactic(auto, using(hdc_resolved::proofs::Mirror::mirrored))]
pub fn head(alloc: Global, exp: Exp) -> Result<Quals, AllocError>
    ensures { IfOk result (λ q. made.qualifiers_of q ≡ resolved.head_of (made.expression_of exp)) }
{
    Ok(Quals::Head(Boxed::new(alloc, exp)?))
}

/// A condition, and what it guards.
#[tactic(auto, using(crate::proofs::Equating::added))]
pub fn guard(test: Exp, body: Exp) -> Guard
    ensures { made.guard_of result ≡ spec.guard_before (made.expression_of test) (made.expression_of body) }
{
    Guard { test, body }
}

/// A right side without guards.
#[tactic(auto, using(hdc_resolved::proofs::Mirror::mirrored))]
pub fn plain(alloc: Global, exp: Exp, block: Block) -> Result<Rhs, AllocError>
    ensures { IfOk result (λ r. made.right_of r ≡ resolved.plain (made.expression_of exp) (made.block_of block)) }
{
    Ok(Rhs::Plain(Boxed::new(alloc, exp)?, block))
}

/// A right side with guards, of which the first bar stands here.
#[tactic(auto, using(hdc_resolved::proofs::Mirror::mirrored))]
pub fn guarded(known: &Known<'_>, at: At, guards: Items<Guard>, block: Block) -> Rhs
    ensures { made.right_of result ≡ resolved.guarded (literals.place_in known.now.src at) (made.guards_of guards) (made.block_of block) }
{
    Rhs::Guarded(known.place(at), guards, block)
}

/// An equation or an alternative that begins here.
#[tactic(auto, using(crate::proofs::Equating::added))]
pub fn equation(known: &Known<'_>, at: At, pats: Items<Pat>, rhs: Rhs) -> Alt
    ensures { made.equation_of result ≡ spec.equation_before known.now at (made.patterns (map made.pattern_of pats)) (made.right_of rhs) }
{
    Alt {
        place: known.place(at),
        pats,
        rhs,
    }
}

/// A block ends, and what came into scope goes.
pub fn leave_block(
    alloc: Global,
    known: &Known<'_>,
    walk: &mut Walk<'_>,
    sizes: Sizes,
    declared: Declared,
) -> Result<Block, AllocError>
    ensures what { IfOk result (λ b. made.block_of b ≡ parts.block_at known.now walk.old.counter (parts.bound_of declared)) }
    ensures moved { OnOk result (walk.new ≡ numbering.left_at sizes.names sizes.fixities (numbering.moved (numbering.ended walk.old.counter) walk.old)) }
{
    let block = close_block(alloc, known, walk, declared)?;
    walk.leave(sizes);
    Ok(block)
}

/// A block ends.
fn close_block(
    alloc: Global,
    known: &Known<'_>,
    walk: &mut Walk<'_>,
    declared: Declared,
) -> Result<Block, AllocError>
    ensures what { IfOk result (λ b. made.block_of b ≡ parts.block_at known.now walk.old.counter (parts.bound_of declared)) }
    ensures moved { OnOk result (walk.new ≡ numbering.moved (numbering.ended walk.old.counter) walk.old) }
{
    let block = block_of(alloc, known, walk.counter, declared)?;
    walk.end_block()?;
    Ok(block)
}
