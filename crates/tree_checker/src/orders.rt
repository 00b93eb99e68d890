//! The order of a report.

ghost use Rattle.std.specs.Prelude.{ℕ, ◌<◌, ◌↔◌, Contains, IsTrue};
ghost use Rattle.node_sets.specs.declared.sets.TheConstants.{MOST_NODES};
ghost use Rattle.node_sets.specs.Sets.{IsIn};
ghost use Rattle.maid_model.specs.Accepted.{IsReliedFirst};
ghost use Rattle.maid_model.specs.Nodes.{IsDecision};
ghost use Rattle.relevance_graph.specs.Relevant.{IsRelevance};

use maid_model::Diagram;
use node_sets::NodeSet;
use relevance_graph::Relevance;

/// Whether all nodes of the list are in the set.
fn are_placed(list: &[usize], placed: &NodeSet) -> bool
    requires { (v : ℕ) → Contains list.now v → v < MOST_NODES }
    ensures { IsTrue result ↔ ((v : ℕ) → Contains list.now v → IsIn placed.now v) }
{
    for v in list {
        if !placed.holds(*v) {
            return false;
        }
    }
    true
}

/// Whether each decision of the order stands after those that it relies on.
pub(crate) fn is_relied_first(diagram: &Diagram, relevance: &Relevance, order: &[usize]) -> bool
    requires relevance { IsRelevance diagram.now.nodes relevance.now }
    requires decisions { (v : ℕ) → Contains order.now v → IsDecision diagram.now.nodes v }
    ensures { IsTrue result ↔ IsReliedFirst diagram.now.nodes order.now }
{
    let _count = diagram.count();
    let mut placed = NodeSet::empty();
    for v in order {
        if !are_placed(relevance.relied_on(*v), &placed) {
            return false;
        }
        placed.insert(*v);
    }
    true
}
