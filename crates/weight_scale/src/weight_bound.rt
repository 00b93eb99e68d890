//! The weight bound of decisions and agents, and the place at which the first that fails does so.

ghost use Rattle.std.specs.Prelude.{◌≡◌, ◌<◌, length};
ghost use Rattle.maid_model.specs.Diagrams.{IsDiagram};
ghost use Rattle.maid_model.specs.Nodes.{IsDecision};
ghost use Rattle.weight_scale.specs.Bound.{IsBoundPlace};
ghost use Rattle.weight_scale.specs.ScopePlaces.{IsPlaceOf, IsPlaceOfDecisions, KeepsDecisionBounds};

use crate::scopes::{scope_for, scope_of};
use maid_model::Diagram;

/// Where the weight bound of a diagram fails: nowhere, first at a node, or at the utilities.
#[derive(Clone, Copy, Debug, PartialEq, Eq)]
pub enum BoundPlace {
    Within,
    Node(usize),
    Utilities,
}

// Where the bound of the node fails, if it is a decision.
fn place_at(diagram: &Diagram, v: usize) -> BoundPlace
    requires { v < length diagram.now.nodes }
    ensures decision { IsDecision diagram.now.nodes v → IsPlaceOf diagram.now v result }
    ensures other { (IsDecision diagram.now.nodes v → ⊥) → result ≡ BoundPlace.Within }
{
    match scope_of(diagram, v) {
        Some(scope) => scope.place(diagram),
        None => BoundPlace::Within,
    }
}

// Where the bound of the first decision that fails does so.
fn place_of_decisions(diagram: &Diagram) -> BoundPlace
    ensures place { IsPlaceOfDecisions diagram.now result }
    ensures diagram { IsDiagram diagram.now }
{
    for v in 0..diagram.count() {
        match place_at(diagram, v) {
            BoundPlace::Within => {}
            place => return place,
        }
    }
    BoundPlace::Within
}

// Where the bound of the first agent that fails does so.
fn place_of_agents(diagram: &Diagram) -> BoundPlace
    requires { KeepsDecisionBounds diagram.now }
    ensures { IsBoundPlace diagram.now result }
{
    for agent in 0..diagram.agents() {
        match scope_for(diagram, agent).place(diagram) {
            BoundPlace::Within => {}
            place => return place,
        }
    }
    BoundPlace::Within
}

/// Where the weight bound of the diagram fails. It is tried for the scope of each decision in text
/// order, then for that of each agent; the first that fails counts. Its place is the first node of
/// the scope up to which the product of the chance totals, and in a decision's scope of the
/// decisions' counts of states too, passes 2^126 - 1, or else the utilities. It takes no memory;
/// for each decision and each agent it looks at each node a few times, and once over the cells of
/// the scope's utilities and the first row of its chance tables.
pub fn bound(diagram: &Diagram) -> BoundPlace
    ensures place { IsBoundPlace diagram.now result }
    ensures only { (place : BoundPlace) → IsBoundPlace diagram.now place → place ≡ result }
    ensures diagram { IsDiagram diagram.now }
{
    match place_of_decisions(diagram) {
        BoundPlace::Within => place_of_agents(diagram),
        place => place,
    }
}
