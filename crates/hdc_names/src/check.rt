//! Whether each chain and section of a program has a tree, and none is too deep.

ghost use Rattle.std.specs.Prelude.{◌≡◌, OnOk, IfOk};
ghost use Rattle.hdc_written.specs.Mirror as mirror;
ghost use Rattle.hdc_written.specs.Mirror.{tops_of};
ghost use Rattle.hdc_names.specs.Fixities as fixities;
ghost use Rattle.hdc_names.specs.Trees.{IsChecked};
ghost use Rattle.hdc_names.specs.Trees as spec;
ghost use Rattle.hdc_names.specs.Walk as model;

use crate::fixity::Fixity;
use crate::found::Found;
use crate::operator::{bind_standard, program_scope, undeclared};
use crate::pattern_nodes::note_head;
use crate::type_nodes::{note_data, note_type};
use crate::walk::{Walk, walk_rhs};
use hdc_base::At;
use hdc_tree::{NextTop, Top, Tree};
use hdc_written::{Scope, bind_head};
use std::alloc::{AllocError, Global};

/// Why a program has no operator trees, or too deep ones.
#[derive(Clone, Copy, Debug, PartialEq, Eq)]
pub enum TreesStop {
    /// A chain or section has none; the first place of those that have none.
    Fixity(At),
    /// A tree has a node at depth 1,025; the first place of such nodes.
    Depth(At),
    /// Want of memory.
    Want,
}

impl From<AllocError> for TreesStop {
    ghost from_gives = { λ _ s. s ≡ spec.want };

    fn from(_error: AllocError) -> TreesStop {
        TreesStop::Want
    }
}

/// Whether each chain and section of the prelude and the program has a tree, and no tree has a node at depth
/// 1,025. The root of a right side, a pattern or a type has depth 1.
///
/// # Errors
///
/// `Fixity` where one has none, at the first place of the prelude's, or else of the program's; else `Depth` where
/// there is such a node, at the first place of the prelude's, or else of the program's; `Want` where memory is
/// wanting.
pub fn check_trees(alloc: Global, prelude: &Tree, program: &Tree) -> Result<(), TreesStop>
    ensures { IsChecked (tops_of prelude.now) (tops_of program.now) result }
{
    let before = check_prelude(alloc, prelude)?;
    let found = check_program(alloc, program)?;
    judge(before, found)
}

fn check_prelude(alloc: Global, prelude: &Tree) -> Result<Found, AllocError>
    ensures { IfOk result (λ found. found ≡ (model.walk_tops (tops_of prelude.now) (model.at_first fixities.standard)).found) }
{
    let mut scope = Scope::new(alloc);
    bind_standard(&mut scope)?;
    check_tree(alloc, scope, prelude)
}

fn check_program(alloc: Global, program: &Tree) -> Result<Found, AllocError>
    ensures { IfOk result (λ found. found ≡ (model.walk_tops (tops_of program.now) (model.at_first (fixities.program_scope (tops_of program.now)))).found) }
{
    let scope = program_scope(alloc, program)?;
    check_tree(alloc, scope, program)
}

// What is found in a tree in a scope.
fn check_tree<'t>(
    alloc: Global,
    scope: Scope<'t, Fixity>,
    tree: &'t Tree,
) -> Result<Found, AllocError>
    ensures { IfOk result (λ found. found ≡ (model.walk_tops (tops_of tree.now) (model.at_first scope.entry)).found) }
{
    let mut walk = Walk {
        scope,
        found: Found::nothing(),
    };
    walk_tree(alloc, &mut walk, tree)?;
    Ok(walk.found)
}

// The chains and sections count before the depths, and the prelude before the program.
fn judge(before: Found, found: Found) -> Result<(), TreesStop>
    ensures { result ≡ spec.judged before found }
{
    if let Some(at) = before.fault {
        return Err(TreesStop::Fixity(at));
    }
    if let Some(at) = found.fault {
        return Err(TreesStop::Fixity(at));
    }
    if let Some(at) = before.deep {
        return Err(TreesStop::Depth(at));
    }
    if let Some(at) = found.deep {
        return Err(TreesStop::Depth(at));
    }
    Ok(())
}

fn walk_tree<'t>(alloc: Global, walk: &mut Walk<'t>, tree: &'t Tree) -> Result<(), AllocError>
    ensures { OnOk result (walk.new ≡ model.walk_tops (tops_of tree.now) walk.old) }
{
    walk_top(alloc, walk, tree.first.get())?;
    walk_tops(alloc, walk, tree.rest.as_slice())
}

fn walk_tops<'t>(alloc: Global, walk: &mut Walk<'t>, parts: &'t [NextTop]) -> Result<(), AllocError>
    ensures { OnOk result (walk.new ≡ model.walk_tops (mirror.tops_behind parts.now) walk.old) }
{
    for part in parts {
        walk_top(alloc, walk, &part.top)?;
    }
    Ok(())
}

fn walk_top<'t>(alloc: Global, walk: &mut Walk<'t>, part: &'t Top) -> Result<(), AllocError>
    ensures { OnOk result (walk.new ≡ model.walk_top part.now walk.old) }
{
    match part {
        Top::Empty => Ok(()),
        Top::Data(data) => note_data(&mut walk.found, data),
        Top::Synonym(synonym) => note_type(&mut walk.found, 1, &synonym.meaning),
        Top::Fixity(_fixity) => Ok(()),
        Top::Signature(_first, _rest, _at, signature) => note_type(&mut walk.found, 1, signature),
        Top::Equation(head, rhs) => {
            note_head(&mut walk.found, head)?;
            let size = walk.scope.size();
            bind_head(&mut walk.scope, undeclared(), head)?;
            walk_rhs(alloc, walk, 1, rhs)?;
            walk.scope.leave(size);
            Ok(())
        }
    }
}
