//! Orders, worked out by hand.

use super::{evaluation_order, one_order_of_values};
use hdc_graph::Graph;
use sqlite_items::Items;
use std::alloc::{AllocError, Global};
use std::test::Fail;

// The order of the values of a graph with these needs; each pair is a node and one that it needs.
fn order(alloc: Global, values: &[bool], needs: &[(u32, u32)]) -> Result<Items<u32>, AllocError> {
    let mut graph = Graph::new(alloc);
    for _ in values {
        graph.add_node(alloc)?;
    }
    for (from, to) in needs {
        let len = graph.len();
        if (*from as usize) < len && (*to as usize) < len {
            graph.add_edge(*from, *to)?;
        }
    }
    if graph.len() != values.len() || values.len() > u32::MAX as usize {
        return Err(AllocError);
    }
    evaluation_order(alloc, &graph, values)
}

// 0 needs the function 1, which needs 3; 2 needs nothing.
#[test]
fn functions_lead_to_values(rt: HostRuntime) -> Result<(), Fail> {
    one_order_of_values();
    let values = [true, false, true, true];
    let order = order(rt.alloc(), values.as_slice(), [(0, 1), (1, 3)].as_slice())?;
    assert_eq!(rt; order.as_slice(), [2, 3, 0].as_slice());
    Ok(())
}

// The functions 0 and 4 need one another, and 0 needs 3; 1 needs 4; 2 and 3 need nothing.
#[test]
fn functions_that_need_one_another(rt: HostRuntime) -> Result<(), Fail> {
    let values = [false, true, true, true, false];
    let order = order(
        rt.alloc(),
        values.as_slice(),
        [(0, 4), (4, 0), (0, 3), (1, 4)].as_slice(),
    )?;
    assert_eq!(rt; order.as_slice(), [2, 3, 1].as_slice());
    Ok(())
}
