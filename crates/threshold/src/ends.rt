//! The two diagrams in which the probability is 0 and 1.

ghost use Rattle.std.specs.Prelude.{◌≡◌, IfErr, IfOk};
ghost use Rattle.first_fault.specs.Answers.{IsFaultOrNoMemory, Passes};
ghost use Rattle.maid_model.specs.Diagrams.{IsDiagram};
ghost use Rattle.threshold.specs.Ends.{AreEnds, AreTotals, IsEnd, place_pass};
ghost use Rattle.threshold.specs.Faults.{node_with, scoped_pass, span_fault};
ghost use Rattle.threshold.specs.Weights.{IsCell, KeepsRange, rewritten_diagram};

use crate::SpanFault;
use crate::weights::{Place, Scales, new_table, weight_there};
use diagram_graph::copy_nodes;
use maid_model::{Diagram, GREATEST_NUMBER, Node};
use smallvec::SmallVec;
use std::alloc::{AllocError, Global};
use weight_scale::{BoundPlace, bound};
use whole_num::lcm_within;

/// The total of a table, what the other states of a row weigh, and the least common multiple of
/// both.
#[derive(Clone, Copy)]
struct Totals {
    table: u128,
    others: u128,
    common: u128,
}

/// The diagrams in which the probability is 0 and 1.
#[derive(Drop)]
pub(crate) struct Ends {
    pub nought: Diagram,
    pub one: Diagram,
}

/// The node with other cells.
fn with_cells(alloc: Global, node: &Node, cells: Vec<i128>) -> Result<Node, AllocError>
    ensures { IfOk result (λ made. made ≡ node_with node.now cells.items) }
{
    Ok(Node {
        kind: node.kind,
        owner: node.owner,
        more: SmallVec::from_slice(alloc, node.more.as_slice())?,
        states: node.states,
        parents: SmallVec::from_slice(alloc, node.parents.as_slice())?,
        cells,
    })
}

/// The diagram with the weights of the table written anew.
fn rewrite(
    alloc: Global,
    diagram: &Diagram,
    place: Place,
    scales: Scales,
) -> Result<Diagram, AllocError>
    requires cell { IsCell diagram.now.nodes place }
    requires fits { KeepsRange diagram.now.nodes place scales }
    requires kept { IsDiagram (rewritten_diagram diagram.now place scales) }
    ensures { IfOk result (λ made. made ≡ rewritten_diagram diagram.now place scales) }
{
    let _count = diagram.count();
    let cells = new_table(alloc, diagram, place, scales)?;
    let mut nodes = copy_nodes(alloc, diagram)?;
    let made = with_cells(alloc, diagram.node(place.node), cells)?;
    nodes[place.node] = made;
    Diagram::from_nodes(alloc, nodes, diagram.agents(), diagram.decimals())
}

/// The diagram in which the probability is 0: the other states share the whole total.
fn at_nought(
    alloc: Global,
    diagram: &Diagram,
    place: Place,
    totals: Totals,
) -> Result<Diagram, AllocError>
    requires cell { IsCell diagram.now.nodes place }
    requires totals { AreTotals diagram.now.nodes place totals }
    ensures { IfOk result (IsEnd diagram.now place 0 totals.common) }
{
    let _count = diagram.count();
    let scales = Scales {
        times: totals.common / totals.table,
        given: 0,
        each: totals.common / totals.others,
    };
    rewrite(alloc, diagram, place, scales)
}

/// The diagram in which the probability is 1: the state has the whole total.
fn at_one(
    alloc: Global,
    diagram: &Diagram,
    place: Place,
    totals: Totals,
) -> Result<Diagram, AllocError>
    requires cell { IsCell diagram.now.nodes place }
    requires totals { AreTotals diagram.now.nodes place totals }
    ensures { IfOk result (IsEnd diagram.now place 1 totals.common) }
{
    let _count = diagram.count();
    let scales = Scales {
        times: totals.common / totals.table,
        given: totals.common,
        each: 0,
    };
    rewrite(alloc, diagram, place, scales)
}

/// The totals of the place, or why it has none.
fn find_totals(diagram: &Diagram, place: Place) -> Result<Totals, SpanFault>
    requires { IsCell diagram.now.nodes place }
    ensures totals { IfOk result (AreTotals diagram.now.nodes place) }
    ensures refused { IfErr result (IsFaultOrNoMemory span_fault (place_pass diagram.now place)) }
{
    let table = diagram.weight_total(place.node);
    let weight = weight_there(diagram, place);
    if weight == table {
        return Err(SpanFault::NoOthers);
    }
    let others = table - weight;
    match lcm_within(table, others, GREATEST_NUMBER) {
        Some(common) => Ok(Totals {
            table,
            others,
            common,
        }),
        None => Err(SpanFault::WeightBound {
            node: Some(place.node),
        }),
    }
}

/// Refuses a diagram that doesn't keep the weight bound.
fn keep_bound(diagram: &Diagram) -> Result<(), SpanFault>
    ensures rows { Passes span_fault (scoped_pass diagram.now) result }
    ensures diagram { IsDiagram diagram.now }
{
    match bound(diagram) {
        BoundPlace::Within => Ok(()),
        BoundPlace::Node(v) => Err(SpanFault::WeightBound { node: Some(v) }),
        BoundPlace::Utilities => Err(SpanFault::WeightBound { node: None }),
    }
}

/// The diagrams in which the probability is 0 and 1, where both have room for their sums.
pub(crate) fn find_ends(alloc: Global, diagram: &Diagram, place: Place) -> Result<Ends, SpanFault>
    requires { IsCell diagram.now.nodes place }
    ensures rows { Passes span_fault (place_pass diagram.now place) result }
    ensures ends { IfOk result (λ ends. AreEnds diagram.now place ends.nought ends.one) }
    ensures diagram { IfOk result (λ ends. IsDiagram diagram.now) }
{
    let _count = diagram.count();
    let totals = find_totals(diagram, place)?;
    let nought = at_nought(alloc, diagram, place, totals)?;
    // The bound looks at totals alone, which are those of the other diagram.
    keep_bound(&nought)?;
    let one = at_one(alloc, diagram, place, totals)?;
    Ok(Ends { nought, one })
}
