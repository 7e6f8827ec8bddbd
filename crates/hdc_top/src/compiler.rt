//! From a text to its code.

ghost use Rattle.std.specs.Prelude.{◌≤◌, length, map, IfOk};
ghost use Rattle.hdc_resolved.specs.Mirror.{binding_of};
ghost use Rattle.hdc_written.specs.Mirror.{tops_of};
ghost use Rattle.hdc_top.specs.Code.{Carries};
ghost use Rattle.hdc_top.specs.Main.{main_tree};
ghost use Rattle.hdc_top.specs.Results.{Compiles, CompilesLaid, CompilesWhole};

use crate::generator::generate;
use crate::plain::main_expression;
use crate::prelude::prelude_tree;
use crate::reader::{laid_tokens, names_stop, not_yet, parser_stop};
use crate::resolve::resolve;
use hdc_base::{At, Stop, Token, Want};
use hdc_code::Instrs;
use hdc_lex::end_of;
use hdc_parse::parse;
use hdc_resolved::Decl;
use hdc_tree::Tree;
use std::alloc::Global;

/// The code of the program that a text is, or why there is none: a refusal of its lexemes, its layout or its syntax,
/// the limit on lexemes or on nesting, a chain or section of the prelude or of its program that has no tree, a tree that
/// is too deep, a rule on names that is broken, or that it is not of the form that is built.
pub fn compile(alloc: Global, text: &[u8]) -> Result<Instrs, Stop>
    requires { length text.now ≤ 1048576 }
    ensures { Compiles text.now result }
{
    match laid_tokens(alloc, text) {
        Ok(laid) => compile_laid(alloc, laid.as_slice(), end_of(text)),
        Err(stop) => Err(stop),
    }
}

// The code of laid-out tokens, behind which the text ends.
fn compile_laid(alloc: Global, laid: &[Token], end: At) -> Result<Instrs, Stop>
    ensures { CompilesLaid laid.now end result }
{
    match parse(alloc, laid, end) {
        Ok(whole) => compile_whole(alloc, &whole),
        Err(stop) => Err(parser_stop(stop)),
    }
}

// The code of a program.
fn compile_whole(alloc: Global, whole: &Tree) -> Result<Instrs, Stop>
    ensures { CompilesWhole whole.now result }
{
    let prelude = prelude_tree(alloc)?;
    match resolve(alloc, &prelude, whole) {
        Ok(resolved) => match compile_main(alloc, whole, resolved.decls.as_slice())? {
            Some(code) => Ok(code),
            None => Err(not_yet()),
        },
        Err(stop) => Err(names_stop(stop)),
    }
}

// The code of a program with these bindings, if its `main` is an expression of arithmetic and all that it declares.
fn compile_main(alloc: Global, program: &Tree, decls: &[Decl]) -> Result<Option<Instrs>, Want>
    ensures { IfOk result (λ code. Carries (main_tree (tops_of program.now) (map binding_of decls.now)) code) }
{
    match main_expression(program, decls) {
        Some(exp) => generate(alloc, exp),
        None => Ok(None),
    }
}
