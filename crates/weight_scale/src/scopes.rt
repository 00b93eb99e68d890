//! The scope of a decision or of an agent, and where its bound fails.

ghost use Rattle.std.specs.Prelude.{◌≡◌, ℕ, ◌<◌, ◌↔◌, length, Contains, IsTrue};
ghost use Rattle.node_sets.specs.Sets.{IsIn};
ghost use Rattle.maid_model.specs.Gains.{greatest_abs};
ghost use Rattle.maid_model.specs.Nodes.{IsDecision};
ghost use Rattle.maid_model.specs.Relevance.{IsGoal};
ghost use Rattle.maid_model.specs.Scopes.{scope_for, scope_of};
ghost use Rattle.weight_scale.specs.Given.{IsPlaceGiven, scope_given};
ghost use Rattle.weight_scale.specs.Range.{IsWithinRange};
ghost use Rattle.weight_scale.specs.ScopePlaces.{factor_by, greatest_sum, IsScopeIfDecision, IsScopeFor, IsPlaceIn, HasRoomInScope};

use crate::weight_bound::BoundPlace;
use maid_model::{Diagram, GREATEST_NUMBER, Kind, goals_of};
use node_sets::{NodeSet, ancestors};
use part_laws::parts_are_diagrams;
use whole_num::{add_within, mul_within};

/// Which nodes of a scope count in its product: in an agent's the chance nodes, in a decision's the
/// decisions too.
#[derive(Clone, Copy)]
pub(crate) enum Counted {
    ChanceAndDecisions,
    ChanceAlone,
}

/// The scope of a decision or of an agent, and the utilities for which it is one.
#[derive(Clone, Copy)]
pub(crate) struct Scope {
    counted: Counted,
    nodes: NodeSet,
    utilities: NodeSet,
}

/// The scope of a decision: the nodes from which a path of nought or more arcs leads to it, or to a
/// utility of its agent that descends from it. It takes no memory, and looks at each node a few
/// times.
pub fn decision_scope(diagram: &Diagram, decision: usize) -> NodeSet
    requires { IsDecision diagram.now.nodes decision }
    ensures { (v : ℕ) → IsIn result v ↔ Contains (scope_of diagram.now.nodes decision) v }
{
    scope_of_goals(diagram, decision, goals_of(diagram, decision))
}

/// The same where the decision's goals are known.
fn scope_of_goals(diagram: &Diagram, decision: usize, goals: NodeSet) -> NodeSet
    requires decision { IsDecision diagram.now.nodes decision }
    requires goals { (v : ℕ) → IsIn goals v ↔ IsGoal diagram.now.nodes decision v }
    ensures { (v : ℕ) → IsIn result v ↔ Contains (scope_of diagram.now.nodes decision) v }
{
    // A path from another node to the decision comes in by a parent.
    let parents = diagram.parents(decision);
    let mut ends = goals;
    ends.insert_all(parents);
    let mut scope = ancestors(diagram, ends);
    scope.insert(decision);
    scope
}

/// The scope of an agent: the nodes from which a path of nought or more arcs leads to one of its
/// utilities. It takes no memory, and looks at each node a few times.
pub fn agent_scope(diagram: &Diagram, agent: usize) -> NodeSet
    ensures { (v : ℕ) → IsIn result v ↔ Contains (scope_for diagram.now.nodes agent) v }
{
    ancestors(diagram, diagram.utilities_of(agent))
}

/// The scope of an agent where a node's state is given: the nodes from which a path of nought or
/// more arcs leads to the node or to one of the agent's utilities. It takes no memory, and looks at
/// each node a few times.
pub fn scope_given(diagram: &Diagram, node: usize, agent: usize) -> NodeSet
    requires { node < length diagram.now.nodes }
    ensures { (v : ℕ) → IsIn result v ↔ Contains (scope_given diagram.now.nodes node agent) v }
{
    parts_are_diagrams();
    let mut ends = diagram.utilities_of(agent);
    ends.insert(node);
    ancestors(diagram, ends)
}

/// The scope of the node, if it is a decision: what leads to it, or to a utility of its agent that
/// descends from it.
pub(crate) fn scope_of(diagram: &Diagram, v: usize) -> Option<Scope>
    requires { v < length diagram.now.nodes }
    ensures { IsScopeIfDecision diagram.now.nodes v result }
{
    match diagram.kind(v) {
        Kind::Decision => {
            let goals = goals_of(diagram, v);
            Some(Scope {
                counted: Counted::ChanceAndDecisions,
                nodes: scope_of_goals(diagram, v, goals),
                utilities: goals,
            })
        }
        Kind::Chance | Kind::Utility => None,
    }
}

/// The scope of the agent: what leads to one of its utilities.
pub(crate) fn scope_for(diagram: &Diagram, agent: usize) -> Scope
    ensures { IsScopeFor diagram.now.nodes agent result }
{
    let utilities = diagram.utilities_of(agent);
    Scope {
        counted: Counted::ChanceAlone,
        nodes: ancestors(diagram, utilities),
        utilities,
    }
}

fn greatest_abs(cells: &[i128]) -> u128
    ensures { result ≡ greatest_abs cells.now }
{
    let mut greatest = 0;
    for cell in cells {
        greatest = cell.unsigned_abs().max(greatest);
    }
    greatest
}

impl Scope {
    // With what a node of the scope counts in its product: a chance node with its total, a decision
    // with the count of its states where decisions count.
    fn factor(&self, diagram: &Diagram, v: usize) -> u128
        requires { v < length diagram.now.nodes }
        ensures { result ≡ factor_by self.now.counted diagram.now.nodes v }
    {
        match (diagram.kind(v), self.counted) {
            (Kind::Chance, _) => diagram.weight_total(v),
            (Kind::Decision, Counted::ChanceAndDecisions) => diagram.states(v) as u128,
            (Kind::Decision, Counted::ChanceAlone) | (Kind::Utility, _) => 1,
        }
    }

    // The greatest absolute values of the scope's utilities added up, if the sum isn't too great.
    fn greatest(&self, diagram: &Diagram) -> Option<u128>
        ensures { IsWithinRange result (greatest_sum diagram.now.nodes self.now) }
    {
        let count = diagram.count();
        let mut sum = 0;
        let mut next = 0;
        'nodes: while let Some(v) = self.utilities.first_between(next, count) {
            sum = add_within(sum, greatest_abs(diagram.cells(v)), GREATEST_NUMBER)?;
            next = v + 1;
        }
        Some(sum)
    }

    // Whether the scope's product keeps the bound with its utilities, too.
    fn has_room(&self, diagram: &Diagram, product: u128) -> bool
        requires { 0 < product }
        ensures { IsTrue result ↔ HasRoomInScope diagram.now self.now product }
    {
        let scale = 10u128.pow(diagram.decimals());
        match self.greatest(diagram) {
            Some(utility) => mul_within(product, scale.max(utility), GREATEST_NUMBER).is_some(),
            None => false,
        }
    }

    /// Where the scope's bound fails.
    pub(crate) fn place(&self, diagram: &Diagram) -> BoundPlace
        ensures { IsPlaceIn diagram.now self.now result }
    {
        let count = diagram.count();
        let mut product = 1;
        let mut next = 0;
        'nodes: while let Some(v) = self.nodes.first_between(next, count) {
            match mul_within(product, self.factor(diagram, v), GREATEST_NUMBER) {
                Some(longer) => product = longer,
                None => return BoundPlace::Node(v),
            }
            next = v + 1;
        }
        if self.has_room(diagram, product) {
            BoundPlace::Within
        } else {
            BoundPlace::Utilities
        }
    }
}

/// Where the weight bound of an agent's scope fails where a node's state is given. It takes no
/// memory; it goes over all arcs a few times, and once over the cells of the agent's utilities and
/// the first row of the scope's chance tables.
pub fn place_given(diagram: &Diagram, node: usize, agent: usize) -> BoundPlace
    requires { node < length diagram.now.nodes }
    ensures { IsPlaceGiven diagram.now node agent result }
{
    let scope = Scope {
        nodes: scope_given(diagram, node, agent),
        ..scope_for(diagram, agent)
    };
    scope.place(diagram)
}
