//! The tokens of expressions and declarations.

ghost use Rattle.std.specs.Prelude.{◌≡◌, OnOk};
ghost use Rattle.hdc_tree.specs.NameSpelling.{each_onto};
ghost use Rattle.hdc_tree.specs.ExpressionSpelling.{aexp_onto, alt_onto, alts_onto, apply_onto, arrow_guard_onto, block_onto, comma_exp_onto, comma_qual_onto, decl_onto, equal_guard_onto, exp_onto, link_onto, list_exp_onto, next_alt_onto, next_decl_onto, operand_onto, qual_onto, rhs_onto, where_onto};

use crate::expression::{
    Aexp, Alt, Alts, Apply, ArrowGuard, Block, CommaExp, CommaQual, Decl, EqualGuard, Exp, Link,
    ListExp, NextAlt, NextDecl, Operand, Qual, Rhs, Where,
};
use crate::head_speller::put_head;
use crate::pattern_speller::{put_apat, put_apats, put_pat};
use crate::speller::Speller;
use crate::type_speller::put_type_exp;
use hdc_base::{Key, Want, Word};

#[cycle(put_expressions)]
#[tactic(auto, using(crate::proofs::ExpressionEquations::expressions_equations))]
fn put_aexp(out: &mut Speller, part: &Aexp) -> Result<(), Want>
    ensures { OnOk result (out.new ≡ aexp_onto part.now out.old) }
{
    match part {
        Aexp::Var(var) => out.var(var),
        Aexp::Con(name) => out.capital(name),
        Aexp::Literal(at, literal) => out.literal(*at, literal),
        Aexp::Unit(open_at, close_at) => {
            out.key(*close_at, Key::KCloseParen)?;
            out.key(*open_at, Key::KOpenParen)
        }
        Aexp::Nil(open_at, close_at) => {
            out.key(*close_at, Key::KCloseBracket)?;
            out.key(*open_at, Key::KOpenBracket)
        }
        Aexp::Cons(open_at, at, close_at) => {
            out.key(*close_at, Key::KCloseParen)?;
            out.key(*at, Key::KColon)?;
            out.key(*open_at, Key::KOpenParen)
        }
        Aexp::Paren(open_at, inner, close_at) => {
            out.key(*close_at, Key::KCloseParen)?;
            put_exp(out, inner.get())?;
            out.key(*open_at, Key::KOpenParen)
        }
        Aexp::Tuple(open_at, first, rest, close_at) => {
            out.key(*close_at, Key::KCloseParen)?;
            put_comma_exps(out, rest.as_slice())?;
            put_exp(out, first.get())?;
            out.key(*open_at, Key::KOpenParen)
        }
        Aexp::List(list) => put_list_exp(out, list),
        Aexp::LeftSection(open_at, left, op, close_at) => {
            out.key(*close_at, Key::KCloseParen)?;
            out.op(op)?;
            put_exp(out, left.get())?;
            out.key(*open_at, Key::KOpenParen)
        }
        Aexp::RightSection(open_at, op, right, close_at) => {
            out.key(*close_at, Key::KCloseParen)?;
            put_exp(out, right.get())?;
            out.op(op)?;
            out.key(*open_at, Key::KOpenParen)
        }
    }
}

#[cycle(put_expressions)]
#[tactic(auto, using(crate::proofs::ExpressionEquations::expressions_equations))]
fn put_alt(out: &mut Speller, part: &Alt) -> Result<(), Want>
    ensures { OnOk result (out.new ≡ alt_onto part.now out.old) }
{
    match part {
        Alt::Blank => Ok(()),
        Alt::Arrow(pat, arrow, exp, local) => {
            put_where(out, local)?;
            put_exp(out, exp.get())?;
            out.key(*arrow, Key::KRightArrow)?;
            put_pat(out, pat)
        }
        Alt::Guarded(pat, first, rest, local) => {
            put_where(out, local)?;
            put_arrow_guards(out, rest.as_slice())?;
            put_arrow_guard(out, first.get())?;
            put_pat(out, pat)
        }
    }
}

#[cycle(put_expressions)]
#[tactic(auto, using(crate::proofs::ExpressionEquations::expressions_equations))]
fn put_decl(out: &mut Speller, part: &Decl) -> Result<(), Want>
    ensures { OnOk result (out.new ≡ decl_onto part.now out.old) }
{
    match part {
        Decl::Empty => Ok(()),
        Decl::Signature(var, rest, at, part) => {
            put_type_exp(out, part)?;
            out.key(*at, Key::KDoubleColon)?;
            out.comma_vars(rest.as_slice())?;
            out.var(var)
        }
        Decl::Equation(head, rhs) => {
            put_rhs(out, rhs)?;
            put_head(out, head)
        }
        Decl::Binding(pat, rhs) => {
            put_rhs(out, rhs)?;
            put_pat(out, pat)
        }
    }
}

#[cycle(put_expressions)]
#[tactic(auto, using(crate::proofs::ExpressionEquations::expressions_equations))]
fn put_list_exp(out: &mut Speller, part: &ListExp) -> Result<(), Want>
    ensures { OnOk result (out.new ≡ list_exp_onto part.now out.old) }
{
    match part {
        ListExp::Members(open_at, first, rest, close_at) => {
            out.key(*close_at, Key::KCloseBracket)?;
            put_comma_exps(out, rest.as_slice())?;
            put_exp(out, first.get())?;
            out.key(*open_at, Key::KOpenBracket)
        }
        ListExp::Range(open_at, low, dots, high, close_at) => {
            out.key(*close_at, Key::KCloseBracket)?;
            put_exp(out, high.get())?;
            out.key(*dots, Key::KDots)?;
            put_exp(out, low.get())?;
            out.key(*open_at, Key::KOpenBracket)
        }
        ListExp::Comprehension(open_at, head, bar, first, rest, close_at) => {
            out.key(*close_at, Key::KCloseBracket)?;
            put_comma_quals(out, rest.as_slice())?;
            put_qual(out, first)?;
            out.key(*bar, Key::KBar)?;
            put_exp(out, head.get())?;
            out.key(*open_at, Key::KOpenBracket)
        }
    }
}

#[cycle(put_expressions)]
#[tactic(auto, using(crate::proofs::ExpressionEquations::expressions_equations))]
fn put_operand(out: &mut Speller, part: &Operand) -> Result<(), Want>
    ensures { OnOk result (out.new ≡ operand_onto part.now out.old) }
{
    match part {
        Operand::Applied(apply) => put_apply(out, apply),
        Operand::Lambda(at, first, rest, arrow, body) => {
            put_exp(out, body.get())?;
            out.key(*arrow, Key::KRightArrow)?;
            put_apats(out, rest.as_slice())?;
            put_apat(out, first)?;
            out.key(*at, Key::KBackslash)
        }
        Operand::Let(at, decls, in_at, body) => {
            put_exp(out, body.get())?;
            out.key(*in_at, Key::KIn)?;
            put_block(out, decls)?;
            out.key(*at, Key::KLet)
        }
        Operand::If(at, condition, then_at, positive, else_at, negative) => {
            put_exp(out, negative.get())?;
            out.key(*else_at, Key::KElse)?;
            put_exp(out, positive.get())?;
            out.key(*then_at, Key::KThen)?;
            put_exp(out, condition.get())?;
            out.key(*at, Key::KIf)
        }
        Operand::Case(at, subject, of_at, alts) => {
            put_alts(out, alts)?;
            out.key(*of_at, Key::KOf)?;
            put_exp(out, subject.get())?;
            out.key(*at, Key::KCase)
        }
    }
}

#[cycle(put_expressions)]
#[tactic(auto, using(crate::proofs::ExpressionEquations::expressions_equations))]
fn put_qual(out: &mut Speller, part: &Qual) -> Result<(), Want>
    ensures { OnOk result (out.new ≡ qual_onto part.now out.old) }
{
    match part {
        Qual::Generator(pat, arrow, exp) => {
            put_exp(out, exp.get())?;
            out.key(*arrow, Key::KLeftArrow)?;
            put_pat(out, pat)
        }
        Qual::Condition(exp) => put_exp(out, exp.get()),
        Qual::Local(at, decls) => {
            put_block(out, decls)?;
            out.key(*at, Key::KLet)
        }
    }
}

/// The tokens of a right side, before others.
#[cycle(put_expressions)]
#[tactic(auto, using(crate::proofs::ExpressionEquations::expressions_equations))]
pub fn put_rhs(out: &mut Speller, part: &Rhs) -> Result<(), Want>
    ensures { OnOk result (out.new ≡ rhs_onto part.now out.old) }
{
    match part {
        Rhs::Equal(equal, exp, local) => {
            put_where(out, local)?;
            put_exp(out, exp.get())?;
            out.key(*equal, Key::KEqual)
        }
        Rhs::Guards(first, rest, local) => {
            put_where(out, local)?;
            put_equal_guards(out, rest.as_slice())?;
            put_equal_guard(out, first.get())
        }
    }
}

#[cycle(put_expressions)]
#[tactic(auto, using(crate::proofs::ExpressionEquations::expressions_equations))]
fn put_where(out: &mut Speller, part: &Where) -> Result<(), Want>
    ensures { OnOk result (out.new ≡ where_onto part.now out.old) }
{
    match part {
        Where::Absent => Ok(()),
        Where::Present(at, decls) => {
            put_block(out, decls)?;
            out.key(*at, Key::KWhere)
        }
    }
}

#[cycle(put_expressions)]
#[tactic(auto, using(crate::proofs::ExpressionEquations::expressions_equations))]
fn put_alts(out: &mut Speller, part: &Alts) -> Result<(), Want>
    ensures { OnOk result (out.new ≡ alts_onto part.now out.old) }
{
    out.key(part.close_at, Key::KCloseBrace)?;
    put_next_alts(out, part.rest.as_slice())?;
    put_alt(out, part.first.get())?;
    out.key(part.open_at, Key::KOpenBrace)
}

#[cycle(put_expressions)]
#[tactic(auto, using(crate::proofs::ExpressionEquations::expressions_equations))]
fn put_apply(out: &mut Speller, part: &Apply) -> Result<(), Want>
    ensures { OnOk result (out.new ≡ apply_onto part.now out.old) }
{
    put_aexps(out, part.args.as_slice())?;
    put_aexp(out, &part.head)
}

#[cycle(put_expressions)]
#[tactic(auto, using(crate::proofs::ExpressionEquations::expressions_equations))]
fn put_arrow_guard(out: &mut Speller, part: &ArrowGuard) -> Result<(), Want>
    ensures { OnOk result (out.new ≡ arrow_guard_onto part.now out.old) }
{
    put_exp(out, &part.exp)?;
    out.key(part.arrow, Key::KRightArrow)?;
    put_exp(out, &part.condition)?;
    out.key(part.bar, Key::KBar)
}

#[cycle(put_expressions)]
#[tactic(auto, using(crate::proofs::ExpressionEquations::expressions_equations))]
fn put_block(out: &mut Speller, part: &Block) -> Result<(), Want>
    ensures { OnOk result (out.new ≡ block_onto part.now out.old) }
{
    out.key(part.close_at, Key::KCloseBrace)?;
    put_next_decls(out, part.rest.as_slice())?;
    put_decl(out, part.first.get())?;
    out.key(part.open_at, Key::KOpenBrace)
}

#[cycle(put_expressions)]
#[tactic(auto, using(crate::proofs::ExpressionEquations::expressions_equations))]
fn put_comma_exp(out: &mut Speller, part: &CommaExp) -> Result<(), Want>
    ensures { OnOk result (out.new ≡ comma_exp_onto part.now out.old) }
{
    put_exp(out, &part.exp)?;
    out.key(part.comma, Key::KComma)
}

#[cycle(put_expressions)]
#[tactic(auto, using(crate::proofs::ExpressionEquations::expressions_equations))]
fn put_comma_qual(out: &mut Speller, part: &CommaQual) -> Result<(), Want>
    ensures { OnOk result (out.new ≡ comma_qual_onto part.now out.old) }
{
    put_qual(out, &part.qual)?;
    out.key(part.comma, Key::KComma)
}

#[cycle(put_expressions)]
#[tactic(auto, using(crate::proofs::ExpressionEquations::expressions_equations))]
fn put_equal_guard(out: &mut Speller, part: &EqualGuard) -> Result<(), Want>
    ensures { OnOk result (out.new ≡ equal_guard_onto part.now out.old) }
{
    put_exp(out, &part.exp)?;
    out.key(part.equal, Key::KEqual)?;
    put_exp(out, &part.condition)?;
    out.key(part.bar, Key::KBar)
}

#[cycle(put_expressions)]
#[tactic(auto, using(crate::proofs::ExpressionEquations::expressions_equations))]
fn put_exp(out: &mut Speller, part: &Exp) -> Result<(), Want>
    ensures { OnOk result (out.new ≡ exp_onto part.now out.old) }
{
    put_operand(out, &part.last)?;
    out.sign(&part.sign)?;
    put_links(out, part.links.as_slice())
}

#[cycle(put_expressions)]
#[tactic(auto, using(crate::proofs::ExpressionEquations::expressions_equations))]
fn put_link(out: &mut Speller, part: &Link) -> Result<(), Want>
    ensures { OnOk result (out.new ≡ link_onto part.now out.old) }
{
    out.op(&part.op)?;
    put_apply(out, &part.left)?;
    out.sign(&part.sign)
}

#[cycle(put_expressions)]
#[tactic(auto, using(crate::proofs::ExpressionEquations::expressions_equations))]
fn put_next_alt(out: &mut Speller, part: &NextAlt) -> Result<(), Want>
    ensures { OnOk result (out.new ≡ next_alt_onto part.now out.old) }
{
    put_alt(out, &part.alt)?;
    out.key(part.semicolon, Key::KSemicolon)
}

#[cycle(put_expressions)]
#[tactic(auto, using(crate::proofs::ExpressionEquations::expressions_equations))]
fn put_next_decl(out: &mut Speller, part: &NextDecl) -> Result<(), Want>
    ensures { OnOk result (out.new ≡ next_decl_onto part.now out.old) }
{
    put_decl(out, &part.decl)?;
    out.key(part.semicolon, Key::KSemicolon)
}

#[cycle(put_expressions)]
fn put_aexps(out: &mut Speller, parts: &[Aexp]) -> Result<(), Want>
    ensures { OnOk result (out.new ≡ each_onto aexp_onto parts.now out.old) }
{
    let mut count = parts.len();
    while count > 0 {
        count -= 1;
        put_aexp(out, &parts[count])?;
    }
    Ok(())
}

#[cycle(put_expressions)]
fn put_arrow_guards(out: &mut Speller, parts: &[ArrowGuard]) -> Result<(), Want>
    ensures { OnOk result (out.new ≡ each_onto arrow_guard_onto parts.now out.old) }
{
    let mut count = parts.len();
    while count > 0 {
        count -= 1;
        put_arrow_guard(out, &parts[count])?;
    }
    Ok(())
}

#[cycle(put_expressions)]
fn put_comma_exps(out: &mut Speller, parts: &[CommaExp]) -> Result<(), Want>
    ensures { OnOk result (out.new ≡ each_onto comma_exp_onto parts.now out.old) }
{
    let mut count = parts.len();
    while count > 0 {
        count -= 1;
        put_comma_exp(out, &parts[count])?;
    }
    Ok(())
}

#[cycle(put_expressions)]
fn put_comma_quals(out: &mut Speller, parts: &[CommaQual]) -> Result<(), Want>
    ensures { OnOk result (out.new ≡ each_onto comma_qual_onto parts.now out.old) }
{
    let mut count = parts.len();
    while count > 0 {
        count -= 1;
        put_comma_qual(out, &parts[count])?;
    }
    Ok(())
}

#[cycle(put_expressions)]
fn put_equal_guards(out: &mut Speller, parts: &[EqualGuard]) -> Result<(), Want>
    ensures { OnOk result (out.new ≡ each_onto equal_guard_onto parts.now out.old) }
{
    let mut count = parts.len();
    while count > 0 {
        count -= 1;
        put_equal_guard(out, &parts[count])?;
    }
    Ok(())
}

#[cycle(put_expressions)]
fn put_links(out: &mut Speller, parts: &[Link]) -> Result<(), Want>
    ensures { OnOk result (out.new ≡ each_onto link_onto parts.now out.old) }
{
    let mut count = parts.len();
    while count > 0 {
        count -= 1;
        put_link(out, &parts[count])?;
    }
    Ok(())
}

#[cycle(put_expressions)]
fn put_next_alts(out: &mut Speller, parts: &[NextAlt]) -> Result<(), Want>
    ensures { OnOk result (out.new ≡ each_onto next_alt_onto parts.now out.old) }
{
    let mut count = parts.len();
    while count > 0 {
        count -= 1;
        put_next_alt(out, &parts[count])?;
    }
    Ok(())
}

#[cycle(put_expressions)]
fn put_next_decls(out: &mut Speller, parts: &[NextDecl]) -> Result<(), Want>
    ensures { OnOk result (out.new ≡ each_onto next_decl_onto parts.now out.old) }
{
    let mut count = parts.len();
    while count > 0 {
        count -= 1;
        put_next_decl(out, &parts[count])?;
    }
    Ok(())
}
