//! A look for the first arc that is not requisite.

ghost use Rattle.std.specs.Prelude.{◌<◌, length};
ghost use Rattle.maid_model.specs.Nodes.{IsDecision};
ghost use Rattle.requisite_trim.specs.Steps.{TellsFirstUnneeded, TellsFirstUnneededAt, TellsNextArc};

use bayes_ball::{all_reach_goals, reach_from_goals};
use maid_model::Diagram;

/// The first parent of the decision that is not requisite. It searches from all goals only where
/// there is one, and not at all where there are no parents.
fn first_unneeded(diagram: &Diagram, decision: usize) -> Option<usize>
    requires { IsDecision diagram.now.nodes decision }
    ensures { TellsFirstUnneeded diagram.now.nodes decision result }
{
    if diagram.parents(decision).is_empty() {
        return None;
    }
    // Mostly each parent is requisite, which the nearest goals show.
    if all_reach_goals(diagram, decision, &diagram.arcs().parents(decision)) {
        return None;
    }
    let marks = reach_from_goals(diagram, decision);
    for parent in diagram.parents(decision) {
        if !marks.reached(*parent) {
            return Some(*parent);
        }
    }
    None
}

/// The first parent of the node that is not requisite, where it is a decision.
fn first_unneeded_at(diagram: &Diagram, v: usize) -> Option<usize>
    requires { v < length diagram.now.nodes }
    ensures { TellsFirstUnneededAt diagram.now.nodes v result }
{
    if diagram.is_decision(v) {
        first_unneeded(diagram, v)
    } else {
        None
    }
}

/// The first arc that is not requisite, in text order of decisions and then in the order of the
/// decision's parents.
pub(crate) fn first_to_remove(diagram: &Diagram) -> Option<(usize, usize)>
    ensures { TellsNextArc diagram.now.nodes result }
{
    for decision in 0..diagram.count() {
        if let Some(parent) = first_unneeded_at(diagram, decision) {
            return Some((parent, decision));
        }
    }
    None
}
