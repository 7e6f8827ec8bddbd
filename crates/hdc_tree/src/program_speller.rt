//! The tokens of programs.

ghost use Rattle.std.specs.Prelude.{◌≡◌, OnOk, IfOk};
ghost use Rattle.hdc_tree.specs.NameSpelling.{each_onto, small_onto};
ghost use Rattle.hdc_tree.specs.ProgramSpelling.{bar_constr_onto, comma_export_onto, comma_name_onto, comma_var_op_onto, constr_onto, data_onto, deriving_onto, export_onto, fixity_key, fixity_onto, module_head_onto, next_top_onto, spell, synonym_onto, top_onto, tree_onto};

use crate::expression_speller::put_rhs;
use crate::head_speller::put_head;
use crate::name::Name;
use crate::program::{
    Associativity, BarConstr, CommaExport, CommaName, CommaVarOp, Constr, Data, Deriving, Export,
    Fixity, ModuleHead, NextTop, Synonym, Top, Tree,
};
use crate::speller::Speller;
use crate::type_speller::{put_atypes, put_type_exp};
use hdc_base::{Key, Tokens, Want, Word};
use std::alloc::Global;

/// The tokens of a tree from the first to the last, each with its place.
pub fn spell(alloc: Global, tree: &Tree) -> Result<Tokens, Want>
    ensures { IfOk result (λ tokens. tokens ≡ spell tree.now) }
{
    let mut out = Speller::new(alloc);
    put_tree(&mut out, tree)?;
    out.tokens()
}

fn put_tree(out: &mut Speller, part: &Tree) -> Result<(), Want>
    ensures { OnOk result (out.new ≡ tree_onto part.now out.old) }
{
    out.key(part.close_at, Key::KCloseBrace)?;
    put_next_tops(out, part.rest.as_slice())?;
    put_top(out, part.first.get())?;
    out.key(part.open_at, Key::KOpenBrace)?;
    put_module_head(out, part.head.get())
}

fn put_module_head(out: &mut Speller, part: &ModuleHead) -> Result<(), Want>
    ensures { OnOk result (out.new ≡ module_head_onto part.now out.old) }
{
    match part {
        ModuleHead::Absent => Ok(()),
        ModuleHead::Plain(at, name, where_at) => {
            out.key(*where_at, Key::KWhere)?;
            out.capital(name)?;
            out.key(*at, Key::KModule)
        }
        ModuleHead::Exporting(at, name, open_at, first, rest, close_at, where_at) => {
            out.key(*where_at, Key::KWhere)?;
            out.key(*close_at, Key::KCloseParen)?;
            put_comma_exports(out, rest.as_slice())?;
            put_export(out, first)?;
            out.key(*open_at, Key::KOpenParen)?;
            out.capital(name)?;
            out.key(*at, Key::KModule)
        }
    }
}

fn put_export(out: &mut Speller, part: &Export) -> Result<(), Want>
    ensures { OnOk result (out.new ≡ export_onto part.now out.old) }
{
    match part {
        Export::Var(var) => out.var(var),
        Export::Con(name) => out.capital(name),
    }
}

fn put_comma_export(out: &mut Speller, part: &CommaExport) -> Result<(), Want>
    ensures { OnOk result (out.new ≡ comma_export_onto part.now out.old) }
{
    put_export(out, &part.export)?;
    out.key(part.comma, Key::KComma)
}

fn put_next_top(out: &mut Speller, part: &NextTop) -> Result<(), Want>
    ensures { OnOk result (out.new ≡ next_top_onto part.now out.old) }
{
    put_top(out, &part.top)?;
    out.key(part.semicolon, Key::KSemicolon)
}

fn put_top(out: &mut Speller, part: &Top) -> Result<(), Want>
    ensures { OnOk result (out.new ≡ top_onto part.now out.old) }
{
    match part {
        Top::Empty => Ok(()),
        Top::Data(data) => put_data(out, data),
        Top::Synonym(synonym) => put_synonym(out, synonym),
        Top::Fixity(fixity) => put_fixity(out, fixity),
        Top::Signature(first, rest, at, signature) => {
            put_type_exp(out, signature)?;
            out.key(*at, Key::KDoubleColon)?;
            out.comma_vars(rest.as_slice())?;
            out.var(first)
        }
        Top::Equation(head, rhs) => {
            put_rhs(out, rhs)?;
            put_head(out, head)
        }
    }
}

fn put_data(out: &mut Speller, part: &Data) -> Result<(), Want>
    ensures { OnOk result (out.new ≡ data_onto part.now out.old) }
{
    put_deriving(out, &part.derived)?;
    put_bar_constrs(out, part.rest.as_slice())?;
    put_constr(out, &part.first)?;
    out.key(part.equal, Key::KEqual)?;
    put_params(out, part.params.as_slice())?;
    out.capital(&part.name)?;
    out.key(part.at, Key::KData)
}

fn put_constr(out: &mut Speller, part: &Constr) -> Result<(), Want>
    ensures { OnOk result (out.new ≡ constr_onto part.now out.old) }
{
    put_atypes(out, part.fields.as_slice())?;
    out.capital(&part.name)
}

fn put_bar_constr(out: &mut Speller, part: &BarConstr) -> Result<(), Want>
    ensures { OnOk result (out.new ≡ bar_constr_onto part.now out.old) }
{
    put_constr(out, &part.constr)?;
    out.key(part.bar, Key::KBar)
}

fn put_deriving(out: &mut Speller, part: &Deriving) -> Result<(), Want>
    ensures { OnOk result (out.new ≡ deriving_onto part.now out.old) }
{
    match part {
        Deriving::Absent => Ok(()),
        Deriving::Con(at, name) => {
            out.capital(name)?;
            out.key(*at, Key::KDeriving)
        }
        Deriving::Unit(at, open_at, close_at) => {
            out.key(*close_at, Key::KCloseParen)?;
            out.key(*open_at, Key::KOpenParen)?;
            out.key(*at, Key::KDeriving)
        }
        Deriving::List(at, open_at, first, rest, close_at) => {
            out.key(*close_at, Key::KCloseParen)?;
            put_comma_names(out, rest.as_slice())?;
            out.capital(first)?;
            out.key(*open_at, Key::KOpenParen)?;
            out.key(*at, Key::KDeriving)
        }
    }
}

fn put_comma_name(out: &mut Speller, part: &CommaName) -> Result<(), Want>
    ensures { OnOk result (out.new ≡ comma_name_onto part.now out.old) }
{
    out.capital(&part.name)?;
    out.key(part.comma, Key::KComma)
}

fn put_synonym(out: &mut Speller, part: &Synonym) -> Result<(), Want>
    ensures { OnOk result (out.new ≡ synonym_onto part.now out.old) }
{
    put_type_exp(out, &part.meaning)?;
    out.key(part.equal, Key::KEqual)?;
    put_params(out, part.params.as_slice())?;
    out.capital(&part.name)?;
    out.key(part.at, Key::KType)
}

fn put_fixity(out: &mut Speller, part: &Fixity) -> Result<(), Want>
    ensures { OnOk result (out.new ≡ fixity_onto part.now out.old) }
{
    put_comma_var_ops(out, part.rest.as_slice())?;
    out.var_op(&part.first)?;
    out.word(part.number_at, Word::Num(part.number))?;
    out.key(part.at, fixity_key(part.associativity))
}

fn put_comma_var_op(out: &mut Speller, part: &CommaVarOp) -> Result<(), Want>
    ensures { OnOk result (out.new ≡ comma_var_op_onto part.now out.old) }
{
    out.var_op(&part.op)?;
    out.key(part.comma, Key::KComma)
}

fn fixity_key(associativity: Associativity) -> Key
    ensures { result ≡ fixity_key associativity }
{
    match associativity {
        Associativity::Neither => Key::KInfix,
        Associativity::Left => Key::KInfixl,
        Associativity::Right => Key::KInfixr,
    }
}

fn put_next_tops(out: &mut Speller, parts: &[NextTop]) -> Result<(), Want>
    ensures { OnOk result (out.new ≡ each_onto next_top_onto parts.now out.old) }
{
    let mut count = parts.len();
    while count > 0 {
        count -= 1;
        put_next_top(out, &parts[count])?;
    }
    Ok(())
}

fn put_comma_exports(out: &mut Speller, parts: &[CommaExport]) -> Result<(), Want>
    ensures { OnOk result (out.new ≡ each_onto comma_export_onto parts.now out.old) }
{
    let mut count = parts.len();
    while count > 0 {
        count -= 1;
        put_comma_export(out, &parts[count])?;
    }
    Ok(())
}

fn put_params(out: &mut Speller, parts: &[Name]) -> Result<(), Want>
    ensures { OnOk result (out.new ≡ each_onto small_onto parts.now out.old) }
{
    let mut count = parts.len();
    while count > 0 {
        count -= 1;
        out.small(&parts[count])?;
    }
    Ok(())
}

fn put_bar_constrs(out: &mut Speller, parts: &[BarConstr]) -> Result<(), Want>
    ensures { OnOk result (out.new ≡ each_onto bar_constr_onto parts.now out.old) }
{
    let mut count = parts.len();
    while count > 0 {
        count -= 1;
        put_bar_constr(out, &parts[count])?;
    }
    Ok(())
}

fn put_comma_names(out: &mut Speller, parts: &[CommaName]) -> Result<(), Want>
    ensures { OnOk result (out.new ≡ each_onto comma_name_onto parts.now out.old) }
{
    let mut count = parts.len();
    while count > 0 {
        count -= 1;
        put_comma_name(out, &parts[count])?;
    }
    Ok(())
}

fn put_comma_var_ops(out: &mut Speller, parts: &[CommaVarOp]) -> Result<(), Want>
    ensures { OnOk result (out.new ≡ each_onto comma_var_op_onto parts.now out.old) }
{
    let mut count = parts.len();
    while count > 0 {
        count -= 1;
        put_comma_var_op(out, &parts[count])?;
    }
    Ok(())
}
