//! Which decisions rely on the table of a chance node, as they would on the rule of a decision in
//! its place.

ghost use Rattle.std.specs.Prelude.{◌≡◌, ◌<◌, ◌↔◌, IsTrue, is_some, length};
ghost use Rattle.std.specs.List.{list_all};
ghost use Rattle.maid_model.specs.Nodes.{IsDecision};
ghost use Rattle.threshold.specs.Control.{IsFreeOf};

use bayes_ball::reach_from_goals;
use maid_model::{Diagram, Row};

/// Whether the decision does not rely on the node's table. It searches once, from the decision's
/// goals.
pub(crate) fn is_free(diagram: &Diagram, decision: usize, node: usize) -> bool
    requires decision { IsDecision diagram.now.nodes decision }
    requires node { node < length diagram.now.nodes }
    ensures { IsTrue result ↔ IsFreeOf diagram.now.nodes decision node }
{
    let _count = diagram.count();
    !reach_from_goals(diagram, decision).reached_parent_of(node)
}

/// Whether no row is marked as never reached.
pub(crate) fn all_reached(rows: &[Row]) -> bool
    ensures { result ≡ list_all (λ row. is_some row.worth) rows.now }
{
    rows.iter().all(|row| row.worth.is_some())
}
