//! The weights of a chance table, written anew.

ghost use Rattle.std.specs.Prelude.{◌≡◌, ◌==◌, ◌<◌, ◌≤◌, IfOk, pos};
ghost use Rattle.maid_model.specs.Diagrams.{IsDiagram, greatest_number};
ghost use Rattle.maid_model.specs.Nodes.{rows_of, states_of};
ghost use Rattle.reach_laws.specs.Threshold.{state_weight};
ghost use Rattle.threshold.specs.Weights.{IsCell, KeepsRange, new_table, new_weight, scaled};

use maid_model::Diagram;
use std::alloc::{AllocError, Global};

/// A state in a row of a chance node's table.
#[derive(Clone, Copy)]
pub(crate) struct Place {
    pub node: usize,
    pub state: usize,
    pub row: usize,
}

/// How the weights of a table are written anew.
#[derive(Clone, Copy)]
pub(crate) struct Scales {
    /// In other rows each weight is so many times as much.
    pub times: u128,
    /// What the state weighs in its row.
    pub given: u128,
    /// In the row each other weight is so many times as much.
    pub each: u128,
}

impl Scales {
    /// The new weight of a state.
    fn scaled(self, in_row: bool, is_state: bool, weight: u128) -> u128
        requires { scaled self in_row is_state weight ≤ greatest_number }
        ensures { result ≡ scaled self in_row is_state weight }
    {
        if !in_row {
            weight * self.times
        } else if is_state {
            self.given
        } else {
            self.each * weight
        }
    }
}

/// The weight of the state in the row.
pub(crate) fn weight_there(diagram: &Diagram, place: Place) -> u128
    requires { IsCell diagram.now.nodes place }
    ensures weight { pos result ≡ state_weight diagram.now.nodes place.node place.state place.row }
    ensures diagram { IsDiagram diagram.now }
{
    let cells = diagram.cells(place.node);
    cells[place.row * diagram.states(place.node) + place.state].unsigned_abs()
}

/// The new weight of a state in a row.
fn new_weight(diagram: &Diagram, place: Place, scales: Scales, state: usize, row: usize) -> u128
    requires cell { IsCell diagram.now.nodes place }
    requires fits { KeepsRange diagram.now.nodes place scales }
    requires state { state < states_of diagram.now.nodes place.node }
    requires row { row < rows_of diagram.now.nodes place.node }
    ensures weight { result ≡ new_weight diagram.now.nodes place scales state row }
    ensures small { result ≤ greatest_number }
{
    let node = place.node;
    let old = weight_there(diagram, Place { node, state, row });
    scales.scaled(row == place.row, state == place.state, old)
}

/// The new table.
pub(crate) fn new_table(
    alloc: Global,
    diagram: &Diagram,
    place: Place,
    scales: Scales,
) -> Result<Vec<i128>, AllocError>
    requires cell { IsCell diagram.now.nodes place }
    requires fits { KeepsRange diagram.now.nodes place scales }
    ensures { IfOk result (λ cells. cells.items ≡ new_table diagram.now.nodes place scales) }
{
    let states = diagram.states(place.node);
    let rows = diagram.rows(place.node);
    let mut cells = Vec::with_capacity(alloc, rows * states)?;
    for row in 0..rows {
        for state in 0..states {
            cells.push(new_weight(diagram, place, scales, state, row) as i128)?;
        }
    }
    Ok(cells)
}
