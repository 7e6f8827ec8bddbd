//! The texts that are written.

ghost use Rattle.std.specs.Prelude.{◌≡◌, ◌≢◌, ◌++◌, OnOk, IfOk};
ghost use Rattle.std.specs.Fmt.{decimal};
ghost use Rattle.hdc_top.specs.Report.{at_text, src_text, place_text, value_text, trap_text, outcome_text, run_text, kind_name, rule_text, refusal_text, long_name, which_prefix, limit_name, stop_text};

use crate::machine::Record;
use crate::text::{put, put_integer, put_number};
use hdc_base::{At, Kind, Limit, Place, Refusal, Src, Stop, Text, Want, Which};
use hdc_value::{Outcome, TrapKind, Value};
use std::alloc::Global;

/// The report of a run.
pub fn run_text(alloc: Global, record: &Record) -> Result<Text, Want>
    ensures { IfOk result (λ text. text ≡ run_text «record».now.outcome «record».now.ticks) }
{
    let mut text = Vec::new(alloc);
    put_outcome(&mut text, record.outcome)?;
    put_count(&mut text, "\nunfoldings ", record.ticks)?;
    put_count(&mut text, "\nwork ", record.ticks)?;
    put(&mut text, "\nmessages 0\n")?;
    Ok(Text::from_vec(text))
}

/// The line of a refusal or a limit.
pub fn stop_text(alloc: Global, stop: Stop) -> Result<Text, Want>
    requires { stop ≢ Stop.Want }
    ensures { IfOk result (λ text. text ≡ stop_text stop) }
{
    let mut text = Vec::new(alloc);
    match stop {
        Stop::Refused(refusal) => put_refusal(&mut text, refusal)?,
        Stop::Limit(limit) => put_limit(&mut text, limit)?,
        Stop::Want => unreachable!(),
    }
    Ok(Text::from_vec(text))
}

// The name of a count, and the count.
fn put_count(text: &mut Vec<u8>, name: &str, count: u64) -> Result<(), Want>
    ensures { OnOk result (text.new.items ≡ text.old.items ++ name.now ++ decimal count) }
{
    put(text, name)?;
    put_number(text, count)
}

fn put_outcome(text: &mut Vec<u8>, outcome: Outcome) -> Result<(), Want>
    ensures { OnOk result (text.new.items ≡ text.old.items ++ outcome_text outcome) }
{
    match outcome {
        Outcome::Value(Value::Int(n)) => {
            put(text, "value ")?;
            put_integer(text, n)
        }
        Outcome::Trap(trap) => {
            put(text, "trap ")?;
            put(text, trap_text(trap.kind))?;
            put(text, " at ")?;
            put_place(text, trap.place)
        }
    }
}

fn trap_text(kind: TrapKind) -> &'static str
    ensures { result.now ≡ trap_text kind }
{
    match kind {
        TrapKind::Overflow => "overflow",
    }
}

fn put_place(text: &mut Vec<u8>, place: Place) -> Result<(), Want>
    ensures { OnOk result (text.new.items ≡ text.old.items ++ place_text place) }
{
    if let Src::Prelude = place.src {
        put(text, "prelude ")?;
    }
    put_at(text, place.at)
}

fn put_at(text: &mut Vec<u8>, at: At) -> Result<(), Want>
    ensures { OnOk result (text.new.items ≡ text.old.items ++ at_text at) }
{
    put_number(text, u64::from(at.line))?;
    put(text, ":")?;
    put_number(text, u64::from(at.col))
}

fn put_refusal(text: &mut Vec<u8>, refusal: Refusal) -> Result<(), Want>
    ensures { OnOk result (text.new.items ≡ text.old.items ++ refusal_text refusal) }
{
    put(text, "refused ")?;
    put(text, kind_name(refusal.kind))?;
    put_rule(text, refusal.kind, refusal.rule)?;
    put(text, " at ")?;
    put_at(text, refusal.at)?;
    put(text, "\n")
}

// The name of a kind, with the letter of its rules where it has some.
fn kind_name(kind: Kind) -> &'static str
    ensures { result.now ≡ kind_name kind }
{
    match kind {
        Kind::Byte => "byte",
        Kind::Literal => "literal",
        Kind::Unclosed => "unclosed",
        Kind::Brace => "brace",
        Kind::Syntax => "syntax",
        Kind::Fixity => "fixity",
        Kind::Name => "name N",
        Kind::Skeleton => "skeleton S",
        Kind::Typing => "type",
        Kind::Main => "main M",
        Kind::Input => "input",
        Kind::Schedule => "schedule",
        Kind::NotYet => "notyet",
    }
}

// The number of the broken rule, for the kinds that have rules.
fn put_rule(text: &mut Vec<u8>, kind: Kind, rule: u8) -> Result<(), Want>
    ensures { OnOk result (text.new.items ≡ text.old.items ++ rule_text kind rule) }
{
    match kind {
        Kind::Name | Kind::Skeleton | Kind::Main => put_number(text, u64::from(rule)),
        _ => Ok(()),
    }
}

fn put_limit(text: &mut Vec<u8>, limit: Limit) -> Result<(), Want>
    ensures { OnOk result (text.new.items ≡ text.old.items ++ stop_text (Stop.Limit limit)) }
{
    put(text, "limit ")?;
    put_limit_name(text, limit)?;
    put(text, "\n")
}

// The name of a limit, with its place where it has one.
fn put_limit_name(text: &mut Vec<u8>, limit: Limit) -> Result<(), Want>
    ensures { OnOk result (text.new.items ≡ text.old.items ++ limit_name limit) }
{
    match limit {
        Limit::Long(which) => put(text, long_name(which)),
        Limit::Tokens(which, at) => put_named(text, which_prefix(which), "tokens at ", at),
        Limit::Nesting(which, at) => put_named(text, which_prefix(which), "nesting at ", at),
        Limit::Depth(at) => put_named(text, "", "depth at ", at),
        Limit::TypeSize(at) => put_named(text, "", "type size at ", at),
        Limit::Instances => put(text, "instances"),
        Limit::Trace => put(text, "trace"),
    }
}

fn put_named(text: &mut Vec<u8>, prefix: &str, name: &str, at: At) -> Result<(), Want>
    ensures { OnOk result (text.new.items ≡ text.old.items ++ (prefix.now ++ name.now ++ at_text at)) }
{
    put(text, prefix)?;
    put(text, name)?;
    put_at(text, at)
}

fn long_name(which: Which) -> &'static str
    ensures { result.now ≡ long_name which }
{
    match which {
        Which::Program => "long program",
        Which::Input => "long input",
        Which::Schedule => "long schedule",
    }
}

fn which_prefix(which: Which) -> &'static str
    ensures { result.now ≡ which_prefix which }
{
    match which {
        Which::Program => "",
        Which::Input => "input ",
        Which::Schedule => "schedule ",
    }
}
