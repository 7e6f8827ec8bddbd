//! Types are put out in prefix order, and what synonyms mean in their place.
//!
//! Nothing is expanded before it is put out. An argument of a synonym is kept as it is written, with the arguments that stand
//! for its own variables, and is gone through where the synonym's meaning has it. Recursion there is none: what is still to
//! be put out is pending on a stack.

ghost use Rattle.std.specs.Prelude.{◌≡◌, ◌++◌, length, map, OnOk, IfOk, IfSome, List};
ghost use Rattle.hdc_resolved.specs.Mirror.{synonym_of, type_tree_of, types};
ghost use Rattle.hdc_resolved.specs.Syntax.{SynonymOf, synonym_type, type_variable};
ghost use Rattle.hdc_datas.specs.Closures as spec;
ghost use Rattle.hdc_datas.specs.Expanded.{expanded};
ghost use Rattle.hdc_datas.specs.Settled.{AreSettled, HoldsFor, synonyms_of};

use crate::meanings::Meanings;
use crate::projection::root_of;
use hdc_resolved::{Synonym, Type};
use hdc_type_names::place_of;
use hdc_value::TypeNode;
use sqlite_items::Items;
use std::alloc::{AllocError, Global};

/// Where the arguments of one use of a synonym are among all arguments.
#[derive(Clone, Copy)]
pub(crate) struct Environment {
    pub(crate) start: usize,
    pub(crate) count: usize,
}

/// A type, and the arguments that stand for its variables; without them variables stay.
#[derive(Clone, Copy)]
pub(crate) struct Closure<'t> {
    pub(crate) part: &'t Type,
    pub(crate) environment: Option<Environment>,
}

/// What is still to be put out, the next one last, and all arguments of synonyms that were gone through.
#[derive(Drop)]
pub(crate) struct Expansion<'t> {
    pub(crate) arguments: Items<Closure<'t>>,
    pub(crate) pending: Items<Closure<'t>>,
}

/// Adds a type in prefix order, in which synonyms are expanded.
pub(crate) fn add_expanded<'t>(
    alloc: Global,
    nodes: &mut Items<TypeNode>,
    synonyms: &'t [Synonym],
    ends: &'t [u32],
    projections: &'t [Option<u32>],
    part: &'t Type,
) -> Result<(), AllocError>
    requires { AreSettled (map synonym_of synonyms.now) ends.now projections.now }
    ensures { OnOk result (nodes.new ≡ nodes.old ++ expanded (map synonym_of synonyms.now) (type_tree_of part.now)) }
{
    let meanings = Meanings {
        synonyms,
        ends,
        projections,
    };
    let mut expansion = Expansion {
        arguments: Items::new(alloc),
        pending: Items::new(alloc),
    };
    expansion.push(part, None)?;
    // Each step puts a node out or goes to what a synonym means, so memory ends long before the steps do.
    for _ in 0..u64::MAX {
        match expansion.next() {
            Some(closure) => {
                expansion.put(nodes, &meanings, closure.part, closure.environment)?;
            }
            None => return Ok(()),
        }
    }
    Err(AllocError)
}

impl<'t> Expansion<'t> {
    // The next one is taken from what is pending.
    fn next(&mut self) -> Option<Closure<'t>>
        requires { spec.IsWell self.old }
        ensures { spec.Takes self.old self.new result }
    {
        self.pending.pop()
    }

    // One more is pending.
    fn push(&mut self, part: &'t Type, environment: Option<Environment>) -> Result<(), AllocError>
        requires well { spec.IsWell self.old }
        requires within { spec.IsWithin (length self.old.arguments) environment }
        ensures { OnOk result (spec.Puts (λ ss. spec.type_in ss self.old environment (type_tree_of part.now)) self.old self.new) }
    {
        self.pending.push(Closure { part, environment })?;
        Ok(())
    }

    // Types one behind another are pending.
    fn push_all(
        &mut self,
        parts: &'t [Type],
        environment: Option<Environment>,
    ) -> Result<(), AllocError>
        requires well { spec.IsWell self.old }
        requires within { spec.IsWithin (length self.old.arguments) environment }
        ensures { OnOk result (spec.Puts (λ ss. spec.types_in ss self.old environment (types (map type_tree_of parts.now))) self.old self.new) }
    {
        let mut count = parts.len();
        while count > 0 {
            count -= 1;
            self.push(&parts[count], environment)?;
        }
        Ok(())
    }

    // Puts the root of a type out, and lets its parts be pending; a synonym that means an argument is passed over.
    fn put(
        &mut self,
        nodes: &mut Items<TypeNode>,
        meanings: &Meanings<'t>,
        part: &'t Type,
        environment: Option<Environment>,
    ) -> Result<(), AllocError>
        requires settled { HoldsFor meanings.now }
        requires well { spec.IsWell self.old }
        requires within { spec.IsWithin (length self.old.arguments) environment }
        ensures { OnOk result (spec.IsPut (synonyms_of meanings.now) (spec.type_in (synonyms_of meanings.now) self.old environment (type_tree_of part.now)) nodes.old self.old nodes.new self.new) }
    {
        self.put_root(
            nodes,
            meanings,
            root_of(meanings.projections, part),
            environment,
        )
    }

    // The same of a type whose root is mostly no such synonym.
    fn put_root(
        &mut self,
        nodes: &mut Items<TypeNode>,
        meanings: &Meanings<'t>,
        part: &'t Type,
        environment: Option<Environment>,
    ) -> Result<(), AllocError>
        requires settled { HoldsFor meanings.now }
        requires well { spec.IsWell self.old }
        requires within { spec.IsWithin (length self.old.arguments) environment }
        ensures { OnOk result (spec.IsPut (synonyms_of meanings.now) (spec.type_in (synonyms_of meanings.now) self.old environment (type_tree_of part.now)) nodes.old self.old nodes.new self.new) }
    {
        match part {
            Type::Int => nodes.push(TypeNode::Int),
            Type::Char => nodes.push(TypeNode::Char),
            Type::List(element) => {
                nodes.push(TypeNode::List)?;
                self.push(element.get(), environment)
            }
            Type::Tuple(members) => {
                let count = place_of(members.len())?;
                nodes.push(TypeNode::Tuple(count))?;
                self.push_all(members.as_slice(), environment)
            }
            Type::Fun(argument, behind) => {
                nodes.push(TypeNode::Fun)?;
                self.push(behind.get(), environment)?;
                self.push(argument.get(), environment)
            }
            Type::Data(number, arguments) => {
                let count = place_of(arguments.len())?;
                nodes.push(TypeNode::Data(*number, count))?;
                self.push_all(arguments.as_slice(), environment)
            }
            Type::Synonym(number, arguments) => {
                self.enter(meanings, *number, arguments.as_slice(), environment)
            }
            Type::Var(number) => self.put_variable(nodes, *number, environment),
            Type::Unknown(_arguments) => nodes.push(TypeNode::Tuple(0)),
        }
    }

    // Puts a variable out where it stays; else what stands for it is pending.
    fn put_variable(
        &mut self,
        nodes: &mut Items<TypeNode>,
        number: u32,
        environment: Option<Environment>,
    ) -> Result<(), AllocError>
        requires well { spec.IsWell self.old }
        requires within { spec.IsWithin (length self.old.arguments) environment }
        ensures { OnOk result ((ss : List SynonymOf) → spec.IsPut ss (spec.type_in ss self.old environment (type_variable number)) nodes.old self.old nodes.new self.new) }
    {
        match environment {
            Some(within) => match self.argument(number, within) {
                Some(argument) => self.push(argument.part, argument.environment),
                None => Ok(()),
            },
            None => nodes.push(TypeNode::Var(number)),
        }
    }

    // What stands for a variable, if there is such an argument.
    fn argument(&self, number: u32, environment: Environment) -> Option<Closure<'t>>
        requires well { spec.IsWell self.now }
        requires within { spec.IsWithin (length self.now.arguments) (Some environment) }
        ensures within { IfSome result (λ c. spec.IsWithin (length self.now.arguments) c.environment) }
        ensures value { (ss : List SynonymOf) → spec.stands_for ss (spec.values_in ss self.now) result ≡ spec.type_in ss self.now (Some environment) (type_variable number) }
    {
        let place = number as usize;
        if place < environment.count {
            Some(self.arguments.as_slice()[environment.start + place])
        } else {
            None
        }
    }

    // What a synonym means with these arguments is pending.
    fn enter(
        &mut self,
        meanings: &Meanings<'t>,
        number: u32,
        arguments: &'t [Type],
        environment: Option<Environment>,
    ) -> Result<(), AllocError>
        requires settled { HoldsFor meanings.now }
        requires well { spec.IsWell self.old }
        requires within { spec.IsWithin (length self.old.arguments) environment }
        ensures { OnOk result (spec.Goes (synonyms_of meanings.now) (spec.type_in (synonyms_of meanings.now) self.old environment (synonym_type number (types (map type_tree_of arguments.now)))) self.old self.new) }
    {
        match meanings.find(number, arguments.len()) {
            Some(meaning) => {
                let inner = self.open(meanings, arguments, environment)?;
                self.push(meaning, Some(inner))
            }
            None => Ok(()),
        }
    }

    // Keeps the arguments of a use of a synonym.
    fn open(
        &mut self,
        meanings: &Meanings<'t>,
        arguments: &'t [Type],
        environment: Option<Environment>,
    ) -> Result<Environment, AllocError>
        requires settled { HoldsFor meanings.now }
        requires well { spec.IsWell self.old }
        requires within { spec.IsWithin (length self.old.arguments) environment }
        ensures { IfOk result (λ inner. spec.Opens (synonyms_of meanings.now) environment (types (map type_tree_of arguments.now)) inner self.old self.new) }
    {
        let start = self.arguments.len();
        for part in arguments {
            let closure = self.close(meanings, part, environment);
            self.arguments.push(closure)?;
        }
        Ok(Environment {
            start,
            count: arguments.len(),
        })
    }

    // A type in its environment; for a variable what stands for it, so that none leads to another.
    fn close(
        &self,
        meanings: &Meanings<'t>,
        part: &'t Type,
        environment: Option<Environment>,
    ) -> Closure<'t>
        requires settled { HoldsFor meanings.now }
        requires well { spec.IsWell self.now }
        requires within { spec.IsWithin (length self.now.arguments) environment }
        ensures within { spec.IsWithin (length self.now.arguments) result.environment }
        ensures value { spec.value_of (synonyms_of meanings.now) (spec.values_in (synonyms_of meanings.now) self.now) result ≡ spec.type_in (synonyms_of meanings.now) self.now environment (type_tree_of part.now) }
    {
        self.close_root(root_of(meanings.projections, part), environment)
    }

    fn close_root(&self, part: &'t Type, environment: Option<Environment>) -> Closure<'t>
        requires well { spec.IsWell self.now }
        requires within { spec.IsWithin (length self.now.arguments) environment }
        ensures within { spec.IsWithin (length self.now.arguments) result.environment }
        ensures value { (ss : List SynonymOf) → spec.value_of ss (spec.values_in ss self.now) result ≡ spec.type_in ss self.now environment (type_tree_of part.now) }
    {
        if let Type::Var(number) = part
            && let Some(within) = environment
            && let Some(argument) = self.argument(*number, within)
        {
            argument
        } else {
            Closure { part, environment }
        }
    }
}
