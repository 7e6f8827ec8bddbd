//! From a text to its laid-out tokens, and why there is no code.

ghost use Rattle.std.specs.Prelude.{◌≡◌, ◌≤◌, length};
ghost use Rattle.hdc_top.specs.Stopped.{layout_stop, lexer_stop, not_yet, parser_stop, refused_at, names_stop};
ghost use Rattle.hdc_top.specs.Results.{LaysText};

use crate::names::NamesStop;
use hdc_base::{At, Kind, Limit, Refusal, Stop, Tokens, Which};
use hdc_layout::{LayoutStop, lay_out};
use hdc_lex::{Form, LexStop, end_of, lex};
use hdc_parse::ParseStop;
use std::alloc::Global;

/// The laid-out tokens of a text, or why it has none: a refusal of its lexemes or its layout, or the limit
/// on lexemes.
pub(crate) fn laid_tokens(alloc: Global, text: &[u8]) -> Result<Tokens, Stop>
    requires { length text.now ≤ 1048576 }
    ensures { LaysText text.now result }
{
    match lex(alloc, text, Form::Program) {
        Ok(tokens) => match lay_out(alloc, tokens, end_of(text)) {
            Ok(laid) => Ok(laid),
            Err(stop) => Err(layout_stop(stop)),
        },
        Err(stop) => Err(lexer_stop(stop)),
    }
}

/// A text that is not of the form that is built.
pub(crate) fn not_yet() -> Stop
    ensures { result ≡ not_yet }
{
    refused(Kind::NotYet, At { line: 1, col: 1 })
}

// A refusal by no rule of a number.
fn refused(kind: Kind, at: At) -> Stop
    ensures { result ≡ refused_at kind at }
{
    Stop::Refused(Refusal { kind, rule: 0, at })
}

fn lexer_stop(stop: LexStop) -> Stop
    ensures { result ≡ lexer_stop stop }
{
    match stop {
        LexStop::Byte(at) => refused(Kind::Byte, at),
        LexStop::Literal(at) => refused(Kind::Literal, at),
        LexStop::Unclosed(at) => refused(Kind::Unclosed, at),
        LexStop::Tokens(at) => Stop::Limit(Limit::Tokens(Which::Program, at)),
        LexStop::Want => Stop::Want,
    }
}

fn layout_stop(stop: LayoutStop) -> Stop
    ensures { result ≡ layout_stop stop }
{
    match stop {
        LayoutStop::Brace(at) => refused(Kind::Brace, at),
        LayoutStop::Want => Stop::Want,
    }
}

/// A stop of the parser.
pub(crate) fn parser_stop(stop: ParseStop) -> Stop
    ensures { result ≡ parser_stop stop }
{
    match stop {
        ParseStop::Syntax(at) => refused(Kind::Syntax, at),
        ParseStop::Nesting(at) => Stop::Limit(Limit::Nesting(Which::Program, at)),
        ParseStop::Want => Stop::Want,
    }
}

/// A program that breaks a rule on chains, depths or names.
pub(crate) fn names_stop(stop: NamesStop) -> Stop
    ensures { result ≡ names_stop stop }
{
    match stop {
        NamesStop::Fixity(at) => refused(Kind::Fixity, at),
        NamesStop::Depth(at) => Stop::Limit(Limit::Depth(at)),
        NamesStop::Name(breach) => Stop::Refused(Refusal {
            kind: Kind::Name,
            rule: breach.rule,
            at: breach.at,
        }),
        NamesStop::Want => Stop::Want,
    }
}
