ghost use Rattle.std.specs.Prelude.{◌<◌};

use crate::labels::{least_behind, rising_labels};
use crate::tests::listed::{Arrow, Listed, edges_lead_to_nodes};
use crate::{
    WeightedEdge, fill_costs, fill_heights, first_on_cycle, first_too_costly, first_too_high,
    reaches_bad,
};
use std::alloc::{AllocError, Global};
use std::test::Fail;

fn arrow(from: usize, node: usize, weight: usize) -> Arrow {
    Arrow {
        from,
        edge: WeightedEdge { node, weight },
    }
}

// What is asked of a graph.
#[derive(Drop)]
struct Findings {
    heights: Vec<u8>,
    costs: Vec<u32>,
    on_cycle: Option<usize>,
    too_high: Option<usize>,
    too_costly: Option<usize>,
    searched: Vec<bool>,
}

// Whether the labels leave it open that a node is on a cycle, so that it is searched from.
fn searched(alloc: Global, graph: &Listed<'_>) -> Result<Vec<bool>, AllocError> {
    edges_lead_to_nodes(graph);
    let labels = rising_labels(alloc, graph)?;
    let mut buffer = Vec::new(alloc);
    let mut searched = Vec::new(alloc);
    for node in 0..graph.count {
        let least = least_behind(graph, node, &labels, &mut buffer)?;
        searched.push(least <= labels[node])?;
    }
    Ok(searched)
}

fn findings_of(alloc: Global, graph: &Listed<'_>) -> Result<Findings, AllocError> {
    edges_lead_to_nodes(graph);
    let mut heights = Vec::new(alloc);
    fill_heights(alloc, graph, &mut heights)?;
    let mut costs = Vec::new(alloc);
    fill_costs(alloc, graph, &heights, &mut costs)?;
    let on_cycle = first_on_cycle(alloc, graph, 0, &heights)?;
    let too_high = first_too_high(graph, 0, &heights);
    let too_costly = first_too_costly(graph, 0, &heights, &costs);
    let searched = searched(alloc, graph)?;
    Ok(Findings {
        heights,
        costs,
        on_cycle,
        too_high,
        too_costly,
        searched,
    })
}

// A graph of four nodes: its edges as from, to and weight, and what is answered. Each node costs its number of its own.
#[derive(Drop)]
struct Row {
    edges: &'static [(usize, usize, usize)],
    heights: [u8; 4],
    costs: [u32; 4],
    on_cycle: [bool; 4],
    too_costly: Option<usize>,
}

fn rows() -> [Row; 10] {
    [
        Row {
            edges: &[],
            heights: [1, 1, 1, 1],
            costs: [0, 1, 2, 3],
            on_cycle: [false, false, false, false],
            too_costly: None,
        },
        Row {
            edges: &[(0, 1, 1), (0, 2, 1), (1, 3, 1), (2, 3, 1)],
            heights: [3, 2, 2, 1],
            costs: [9, 4, 5, 3],
            on_cycle: [false, false, false, false],
            too_costly: None,
        },
        Row {
            edges: &[(3, 2, 1), (3, 2, 10), (2, 1, 0), (2, 0, 5)],
            heights: [1, 1, 2, 3],
            costs: [0, 1, 2, 25],
            on_cycle: [false, false, false, false],
            too_costly: None,
        },
        Row {
            edges: &[(2, 2, 0)],
            heights: [1, 1, 0, 1],
            costs: [0, 1, 0, 3],
            on_cycle: [false, false, true, false],
            too_costly: None,
        },
        Row {
            edges: &[(0, 2, 1), (1, 3, 1), (2, 3, 1), (3, 1, 1)],
            heights: [0, 0, 0, 0],
            costs: [0, 0, 0, 0],
            on_cycle: [false, true, false, true],
            too_costly: None,
        },
        Row {
            edges: &[(1, 0, 1), (0, 1, 1), (1, 2, 1), (2, 3, 1), (3, 3, 1)],
            heights: [0, 0, 0, 0],
            costs: [0, 0, 0, 0],
            on_cycle: [true, true, false, true],
            too_costly: None,
        },
        Row {
            edges: &[(3, 2, 1), (2, 1, 1), (1, 3, 1), (1, 0, 1), (0, 0, 1)],
            heights: [0, 0, 0, 0],
            costs: [0, 0, 0, 0],
            on_cycle: [true, true, true, true],
            too_costly: None,
        },
        Row {
            edges: &[(0, 1, 65_536), (2, 1, 65_534), (3, 1, 65_534)],
            heights: [2, 1, 2, 2],
            costs: [65_536, 1, 65_536, 65_537],
            on_cycle: [false, false, false, false],
            too_costly: Some(3),
        },
        Row {
            edges: &[(1, 0, usize::MAX), (2, 1, usize::MAX), (3, 2, usize::MAX)],
            heights: [1, 2, 3, 4],
            costs: [0, 1, 65_537, 65_537],
            on_cycle: [false, false, false, false],
            too_costly: Some(2),
        },
        Row {
            edges: &[(0, 1, 65_537), (2, 1, 1), (2, 3, 1), (3, 2, 1)],
            heights: [2, 1, 0, 0],
            costs: [65_537, 1, 0, 0],
            on_cycle: [false, false, true, true],
            too_costly: Some(0),
        },
    ]
}

#[test]
fn small_graphs_have_their_heights_costs_and_cycles(rt: HostRuntime) -> Result<(), Fail> {
    let alloc = rt.alloc();
    for row in rows() {
        let mut arrows = Vec::new(alloc);
        for (from, node, weight) in row.edges {
            arrows.push(arrow(*from, *node, *weight))?;
        }
        let graph = Listed {
            count: 4,
            arrows: &arrows,
            bad: 0,
        };
        let found = findings_of(alloc, &graph)?;
        assert_eq!(rt; &found.heights[..], &row.heights[..]);
        assert_eq!(rt; &found.costs[..], &row.costs[..]);
        assert_eq!(rt; &found.searched[..], &row.on_cycle[..]);
        assert_eq!(rt; found.on_cycle, row.on_cycle.iter().position(|on| *on));
        assert_eq!(rt; found.too_costly, row.too_costly);
    }
    Ok(())
}

// An edge from each node to the next. The one from the last leads to no node.
fn chain(alloc: Global, count: usize) -> Result<Vec<Arrow>, AllocError> {
    let mut arrows = Vec::new(alloc);
    for from in 0..count {
        arrows.push(arrow(from, from.saturating_add(1), 1))?;
    }
    Ok(arrows)
}

#[test]
fn a_hundred_nodes_one_behind_another_are_not_too_high(rt: HostRuntime) -> Result<(), Fail> {
    let alloc = rt.alloc();
    for (count, too_high) in [(0, None), (100, None), (101, Some(0)), (103, Some(0))] {
        let arrows = chain(alloc, count)?;
        let graph = Listed {
            count,
            arrows: &arrows,
            bad: 0,
        };
        let found = findings_of(alloc, &graph)?;
        assert_eq!(rt; found.too_high, too_high);
        assert_eq!(rt; found.on_cycle, None);
        assert_eq!(rt; found.heights.len(), count);
        assert!(rt; !found.searched.contains(&true));
    }
    Ok(())
}

// Whether a bad node is reached from a node, and then from another one, and the marks behind both searches. Nodes before
// `first` are searched from one by one.
fn two_searches(
    alloc: Global,
    graph: &Listed<'_>,
    first: usize,
    one: usize,
    other: usize,
) -> Result<(bool, bool, Vec<bool>), AllocError>
    requires one { one < graph.now.count }
    requires other { other < graph.now.count }
{
    edges_lead_to_nodes(graph);
    let mut marks = vec![in alloc; false; graph.count]?;
    let of_one = reaches_bad(alloc, graph, first, vec![in alloc; one]?, &mut marks)?;
    let of_other = reaches_bad(alloc, graph, first, vec![in alloc; other]?, &mut marks)?;
    Ok((of_one, of_other, marks))
}

#[test]
fn nodes_are_marked_where_no_bad_node_is_reached(rt: HostRuntime) -> Result<(), Fail> {
    let alloc = rt.alloc();
    let arrows = chain(alloc, 4)?;
    let mut graph = Listed {
        count: 4,
        arrows: &arrows,
        bad: 1,
    };
    let (clean, bad, marks) = two_searches(alloc, &graph, 0, 2, 0)?;
    assert_eq!(rt; (clean, bad), (false, true));
    assert_eq!(rt; &marks[..], &[false, false, true, true][..]);
    graph.bad = 4;
    let (clean, again, marks) = two_searches(alloc, &graph, 0, 3, 1)?;
    assert_eq!(rt; (clean, again), (false, false));
    assert_eq!(rt; &marks[..], &[false, true, true, true][..]);
    Ok(())
}

#[test]
fn nodes_before_the_first_stay_marked_where_a_bad_node_is_found(
    rt: HostRuntime,
) -> Result<(), Fail> {
    let alloc = rt.alloc();
    let graph = Listed {
        count: 5,
        arrows: &[
            arrow(2, 0, 1),
            arrow(2, 3, 1),
            arrow(3, 4, 1),
            arrow(0, 1, 1),
        ],
        bad: 4,
    };
    let (bad, again, marks) = two_searches(alloc, &graph, 2, 2, 3)?;
    assert_eq!(rt; (bad, again), (true, true));
    assert_eq!(rt; &marks[..], &[true, true, false, false, false][..]);
    Ok(())
}
