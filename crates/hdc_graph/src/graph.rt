//! Graphs of what needs what.

ghost use Rattle.std.specs.Prelude.{◌≡◌, ◌<◌, [], ◌∷◌, ◌++◌, length, slice_set, OnOk, OnErr};
ghost use Rattle.hdc_graph.specs.Needs.{needs_of, IsClosed};

use sqlite_items::Items;
use std::alloc::{AllocError, Global};
use std::marker::Model;

/// For each node, from 0, the nodes that it needs: contracts see a list of lists.
/// Each node that is needed is a node of the graph.
#[derive(Drop)]
pub struct Graph {
    needs: Vec<Items<u32>>,
}

impl Model for Graph {
    ghost use Rattle.std.specs.Prelude.{List, ℕ};
    ghost use Rattle.hdc_graph.specs.Needs.{IsClosed};

    ghost Value = { List (List ℕ) };

    ghost view = { λ graph. graph.needs.items };

    ghost invariant = { λ graph. IsClosed graph.needs.items };
}

impl Graph {
    /// No nodes.
    pub fn new(alloc: Global) -> Graph
        ensures { result ≡ [] }
    {
        Graph {
            needs: Vec::new(alloc),
        }
    }

    /// A graph by what each node needs, from 0.
    pub fn from_needs(needs: Vec<Items<u32>>) -> Graph
        requires { IsClosed needs.items }
        ensures { result ≡ needs.items }
    {
        Graph { needs }
    }

    /// The number of nodes. Each node that is needed is one of them.
    pub fn len(&self) -> usize
        ensures len { result ≡ length self.now }
        ensures closed { IsClosed self.now }
    {
        self.needs.len()
    }

    /// One more node, which needs nothing.
    pub fn add_node(&mut self, alloc: Global) -> Result<(), AllocError>
        ensures ok { OnOk result (self.new ≡ self.old ++ [] ∷ []) }
        ensures err { OnErr result (self.new ≡ self.old) }
    {
        self.needs.push(Items::new(alloc))?;
        Ok(())
    }

    /// The first node needs the second, once more if it did before.
    pub fn add_edge(&mut self, from: u32, to: u32) -> Result<(), AllocError>
        requires from { from < length self.old }
        requires to { to < length self.old }
        ensures ok { OnOk result (self.new ≡ slice_set self.old from (needs_of self.old from ++ to ∷ [])) }
        ensures err { OnErr result (self.new ≡ self.old) }
    {
        self.needs[from as usize].push(to)
    }

    /// The nodes that a node needs.
    pub fn needs(&self, node: usize) -> &[u32]
        requires { node < length self.now }
        ensures { result.now ≡ needs_of self.now node }
    {
        self.needs[node].as_slice()
    }
}
