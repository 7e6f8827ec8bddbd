//! Groups in the order of dependency.

ghost use Rattle.std.specs.Prelude.{◌≡◌, ◌<◌, ◌≤◌, ◌^◌, [], ◌∷◌, ◌++◌, length, slice_set, OnOk, IfOk};
ghost use Rattle.hdc_graph.specs.Groups.{AreGroups, group_at};
ghost use Rattle.hdc_graph.specs.Lists.{AreEmpty};
ghost use Rattle.hdc_graph.specs.Filling.{AreFilled, CanFill};

use crate::components::number_nodes;
use crate::graph::Graph;
use crate::labels::{label_needs, label_nodes, slot};
use crate::schedule::Schedule;
use sqlite_items::Items;
use std::alloc::{AllocError, Global};
use std::marker::Model;

/// Groups of nodes, which contracts see as a list of lists.
#[derive(Debug, Drop)]
pub struct Groups {
    groups: Vec<Items<u32>>,
}

impl Model for Groups {
    ghost use Rattle.std.specs.Prelude.{List, ℕ};

    ghost Value = { List (List ℕ) };

    ghost view = { λ groups. groups.groups.items };
}

/// The groups of a graph, in the order of dependency. A group is a largest set of nodes that reach one another,
/// from its least node on. The next is always the one with the least node among those whose needs are all in
/// groups before. Memory may be wanting.
pub fn find_groups(alloc: Global, graph: &Graph) -> Result<Groups, AllocError>
    requires { length graph.now ≤ 2 ^ 32 }
    ensures { IfOk result (λ groups. AreGroups graph.now groups) }
{
    let numbers = number_nodes(alloc, graph)?;
    let labels = label_nodes(alloc, graph, numbers.as_slice())?;
    let needs = label_needs(alloc, graph, labels.as_slice())?;
    let mut schedule = Schedule::start(alloc, needs, labels)?;
    schedule.run()?;
    let count = schedule.taken.len();
    fill(
        alloc,
        schedule.labels.as_slice(),
        schedule.places.as_slice(),
        count,
    )
}

// Each node comes into the group at the place of its component.
fn fill(
    alloc: Global,
    labels: &[usize],
    places: &[Option<usize>],
    count: usize,
) -> Result<Groups, AllocError>
    requires { CanFill labels.now places.now count }
    ensures { IfOk result (λ groups. AreFilled labels.now places.now count groups) }
{
    let mut groups = Groups::empty(alloc, count)?;
    for node in 0..labels.len() {
        if let Some(place) = slot(places, labels[node]) {
            groups.push(place, node as u32)?;
        }
    }
    Ok(groups)
}

impl Groups {
    /// The number of groups.
    pub fn len(&self) -> usize
        ensures { result ≡ length self.now }
    {
        self.groups.len()
    }

    /// A group.
    pub fn group(&self, index: usize) -> &[u32]
        requires { index < length self.now }
        ensures { result.now ≡ group_at self.now index }
    {
        self.groups[index].as_slice()
    }

    // That many empty groups.
    fn empty(alloc: Global, count: usize) -> Result<Groups, AllocError>
        ensures { IfOk result (λ groups. AreEmpty count groups) }
    {
        let mut groups = Groups {
            groups: Vec::new(alloc),
        };
        for _ in 0..count {
            groups.add_group(alloc)?;
        }
        Ok(groups)
    }

    // One more group, with nothing in it.
    fn add_group(&mut self, alloc: Global) -> Result<(), AllocError>
        ensures { OnOk result (self.new ≡ self.old ++ [] ∷ []) }
    {
        self.groups.push(Items::new(alloc))?;
        Ok(())
    }

    // One more node of a group.
    fn push(&mut self, index: usize, node: u32) -> Result<(), AllocError>
        requires { index < length self.old }
        ensures { OnOk result (self.new ≡ slice_set self.old index (group_at self.old index ++ node ∷ [])) }
    {
        self.groups[index].push(node)
    }
}
