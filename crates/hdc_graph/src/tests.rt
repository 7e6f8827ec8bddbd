//! Groups and components, worked out by hand.

use super::{Components, Graph, Groups, find_components, find_groups, one_order};
use std::alloc::{AllocError, Global};
use std::test::Fail;

// The graph of that many nodes with these needs; each pair is a node and one that it needs.
fn graph(alloc: Global, nodes: u32, needs: &[(u32, u32)]) -> Result<Graph, AllocError> {
    let mut graph = Graph::new(alloc);
    for _ in 0..nodes {
        graph.add_node(alloc)?;
    }
    for (from, to) in needs {
        let len = graph.len();
        if (*from as usize) < len && (*to as usize) < len {
            graph.add_edge(*from, *to)?;
        }
    }
    Ok(graph)
}

fn groups(graph: &Graph, alloc: Global) -> Result<Groups, AllocError> {
    if graph.len() > u32::MAX as usize {
        return Err(AllocError);
    }
    find_groups(alloc, graph)
}

fn components(graph: &Graph, alloc: Global) -> Result<Components, AllocError> {
    if graph.len() > u32::MAX as usize {
        return Err(AllocError);
    }
    find_components(alloc, graph)
}

#[test]
fn least_group_comes_first(rt: HostRuntime) -> Result<(), Fail> {
    one_order();
    let graph = graph(rt.alloc(), 3, &[(0, 2)])?;
    let groups = groups(&graph, rt.alloc())?;
    assert_eq!(rt; groups.len(), 3);
    assert_eq!(rt; groups.group(0), [1].as_slice());
    assert_eq!(rt; groups.group(1), [2].as_slice());
    assert_eq!(rt; groups.group(2), [0].as_slice());
    Ok(())
}

// 0 needs 4; 1 and 3 need each other, and 3 needs 5; 2 needs itself and 1; 5 needs 4.
#[test]
fn groups_of_several(rt: HostRuntime) -> Result<(), Fail> {
    let needs = [
        (0, 4),
        (1, 3),
        (3, 1),
        (3, 5),
        (2, 2),
        (2, 1),
        (5, 4),
        (5, 4),
    ];
    let graph = graph(rt.alloc(), 6, &needs)?;
    let groups = groups(&graph, rt.alloc())?;
    assert_eq!(rt; groups.len(), 5);
    assert_eq!(rt; groups.group(0), [4].as_slice());
    assert_eq!(rt; groups.group(1), [0].as_slice());
    assert_eq!(rt; groups.group(2), [5].as_slice());
    assert_eq!(rt; groups.group(3), [1, 3].as_slice());
    assert_eq!(rt; groups.group(4), [2].as_slice());
    Ok(())
}

#[test]
fn components_of_several(rt: HostRuntime) -> Result<(), Fail> {
    let graph = graph(rt.alloc(), 4, &[(0, 1), (1, 0), (2, 2), (3, 2)])?;
    let components = components(&graph, rt.alloc())?;
    assert_eq!(rt; components.numbers.len(), 4);
    assert_eq!(rt;
        components.cyclic.as_slice(),
        [true, true, true, false].as_slice()
    );
    assert_eq!(rt; components.cyclic.len(), 4);
    assert!(rt; components.reaches_itself(2));
    assert_eq!(rt; components.number(0), components.number(1));
    assert!(rt; components.number(2) < components.number(3));
    assert!(rt; components.number(0) != components.number(2));
    Ok(())
}

const LONG: u32 = 100_000;

// Each node needs the next one, and the last one the first if that closes the chain.
fn chain(alloc: Global, closed: bool) -> Result<Graph, AllocError> {
    let mut needs = Vec::new(alloc);
    for node in 1..LONG {
        needs.push((node - 1, node))?;
    }
    if closed {
        needs.push((LONG - 1, 0))?;
    }
    graph(alloc, LONG, needs.as_slice())
}

#[test]
fn long_chain(rt: HostRuntime) -> Result<(), Fail> {
    let graph = chain(rt.alloc(), false)?;
    let groups = groups(&graph, rt.alloc())?;
    assert_eq!(rt; groups.len(), LONG as usize);
    assert_eq!(rt; groups.group(0), [LONG - 1].as_slice());
    Ok(())
}

#[test]
fn long_cycle(rt: HostRuntime) -> Result<(), Fail> {
    let graph = chain(rt.alloc(), true)?;
    let groups = groups(&graph, rt.alloc())?;
    assert_eq!(rt; groups.len(), 1);
    assert_eq!(rt; groups.group(0).len(), LONG as usize);
    Ok(())
}
