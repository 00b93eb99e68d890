//! How far apart the rows and cells of one node lie that differ by one state of another.

ghost use Rattle.std.specs.Prelude.{◌≡◌, ◌<◌, ◌≤◌, length};
ghost use Rattle.maid_model.specs.Nodes.{rows_of};
ghost use Rattle.tree_checker.specs.Walks.{cell_step, row_step};

use maid_model::Diagram;

/// How many rows further the node's row is for each further state of `by`; 0 where that is none of
/// its parents.
pub(crate) fn row_step(diagram: &Diagram, node: usize, by: usize) -> usize
    requires { node < length diagram.now.nodes }
    ensures step { result ≡ row_step diagram.now.nodes node by }
    ensures within { result ≤ rows_of diagram.now.nodes node }
{
    let mut step = 0;
    for u in diagram.parents(node) {
        let across = step * diagram.states(*u);
        step = if *u == by { across + 1 } else { across };
    }
    step
}

/// How many cells further the cell that a world picks in the node is for each further state of
/// `by`; 0 where there is no such node.
pub(crate) fn cell_step(diagram: &Diagram, node: usize, by: usize) -> usize
    requires node { node ≤ length diagram.now.nodes }
    requires by { by < length diagram.now.nodes }
    ensures { result ≡ cell_step diagram.now.nodes node by }
{
    if node == diagram.count() {
        return 0;
    }
    let across = row_step(diagram, node, by) * diagram.states(node);
    if node == by { across + 1 } else { across }
}
