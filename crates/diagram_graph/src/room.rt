//! The cells of rules.

ghost use Rattle.std.specs.Prelude.{◌≡◌, ◌<◌, ◌≤◌, length};
ghost use Rattle.maid_model.specs.declared.limits.TheConstants.{MOST_CELLS};
ghost use Rattle.diagram_graph.specs.Room.{cells_at, rule_cells, rule_cells_at};

use maid_model::{Diagram, Kind};

/// How many cells the node's table or rule has.
pub(crate) fn cells_at(diagram: &Diagram, v: usize) -> usize
    requires { v < length diagram.now.nodes }
    ensures cells { result ≡ cells_at diagram.now.nodes v }
    ensures few { result ≤ MOST_CELLS }
{
    diagram.rows(v) * diagram.states(v)
}

/// How many cells the node's rule has, none where it is no decision.
fn rule_cells_at(diagram: &Diagram, v: usize) -> usize
    requires { v < length diagram.now.nodes }
    ensures cells { result ≡ rule_cells_at diagram.now.nodes v }
    ensures few { result ≤ MOST_CELLS }
{
    match diagram.kind(v) {
        Kind::Decision => cells_at(diagram, v),
        Kind::Chance | Kind::Utility => 0,
    }
}

/// How many cells all rules have together.
pub(crate) fn rule_cells(diagram: &Diagram) -> usize
    ensures { result ≡ rule_cells diagram.now.nodes }
{
    let mut cells = 0;
    for v in 0..diagram.count() {
        cells += rule_cells_at(diagram, v);
    }
    cells
}
