//! The limits that a diagram under evidence must keep to be solved, and its answer.

ghost use Rattle.std.specs.Prelude.{◌≡◌, ◌≢◌, ◌<◌, ◌≤◌, length, IfOk};
ghost use Rattle.first_fault.specs.Answers.{Passes};
ghost use Rattle.maid_model.specs.declared.diagrams.Kind.TheVariants.{Utility};
ghost use Rattle.maid_model.specs.Answers.{IsAnswer};
ghost use Rattle.maid_model.specs.Diagrams.{IsDiagram};
ghost use Rattle.maid_model.specs.Nodes.{node_at, states_of};
ghost use Rattle.maid_model.specs.Placing.{IsRelianceOrder};
ghost use Rattle.reach_laws.specs.Evidence.{IsEvidence};
ghost use Rattle.relevance_graph.specs.Relevant.{IsRelevance};
ghost use Rattle.rule_solver.specs.Faults.{solve_fault};
ghost use Rattle.evidence.specs.Bounds.{KeepsBoundsGiven};
ghost use Rattle.evidence.specs.Faults.{answer_pass, further_pass, given_fault, given_size_pass};
ghost use Rattle.evidence.specs.Faults.{limits_pass};
ghost use Rattle.evidence.specs.Plans.{HasAllPlans, HasFurtherPlans};
ghost use Rattle.evidence.specs.Sizes.{HasSpace};
ghost use Rattle.evidence.specs.Stakes.{IsMass};
ghost use Rattle.evidence.specs.Unsolved.{ordered_pass};

use crate::faults::GivenFault;
use crate::measures::{GivenPlans, plan_all};
use crate::sums::mass_of;
use maid_model::{Diagram, Solved};
use relevance_graph::{Relevance, find_relevance};
use rule_solver::{
    SolveFault, Workspaces, counted_plans_have_room, keep_bound, keeps_plan_limits,
    orders_list_decisions, solve_by,
};
use size_precheck::sizes_of_plans;
use std::alloc::Global;
use weight_scale::{BoundPlace, place_given};

/// Refuses a diagram of which a further scope doesn't keep the weight bound: that of an agent
/// where the node is given, or the one where there is no agent.
fn keep_bound_given(diagram: &Diagram, node: usize) -> Result<(), SolveFault>
    requires { node < length diagram.now.nodes }
    ensures { Passes solve_fault (further_pass diagram.now node) result }
{
    for agent in 0..diagram.agents().max(1) {
        match place_given(diagram, node, agent) {
            BoundPlace::Within => {}
            BoundPlace::Node(v) => return Err(SolveFault::WeightBound { node: Some(v) }),
            BoundPlace::Utilities => return Err(SolveFault::WeightBound { node: None }),
        }
    }
    Ok(())
}

/// The plans of the run and the further ones, made once. Refuses what is too large.
fn keep_sizes(
    alloc: Global,
    diagram: &Diagram,
    order: &[usize],
    node: usize,
) -> Result<GivenPlans, SolveFault>
    requires order { IsRelianceOrder diagram.now.nodes order.now }
    requires within { node < length diagram.now.nodes }
    requires kind { (node_at diagram.now.nodes node).kind ≢ Utility }
    ensures rows { Passes solve_fault (given_size_pass diagram.now node) result }
    ensures plans { IfOk result (HasAllPlans diagram.now.nodes order.now node) }
{
    sizes_of_plans();
    orders_list_decisions();
    counted_plans_have_room();
    let plans = plan_all(alloc, diagram, order, node)?;
    if !keeps_plan_limits(&plans.size) {
        return Err(SolveFault::TooLarge {
            cells: plans.size.cells,
            work: plans.size.work,
        });
    }
    Ok(plans)
}

/// All plans, made once, of a diagram within the limits of a run under evidence, or the first of
/// the limits that it doesn't keep.
fn keep_limits(
    alloc: Global,
    diagram: &Diagram,
    order: &[usize],
    node: usize,
) -> Result<GivenPlans, SolveFault>
    requires order { IsRelianceOrder diagram.now.nodes order.now }
    requires within { node < length diagram.now.nodes }
    requires kind { (node_at diagram.now.nodes node).kind ≢ Utility }
    ensures rows { Passes solve_fault (limits_pass diagram.now node) result }
    ensures diagram { IfOk result (λ p. IsDiagram diagram.now) }
    ensures plans { IfOk result (HasAllPlans diagram.now.nodes order.now node) }
{
    keep_bound(diagram)?;
    keep_bound_given(diagram, node)?;
    keep_sizes(alloc, diagram, order, node)
}

/// The answer of a diagram, the mass of the evidence, the plans, and the room in which they run.
#[derive(Drop)]
pub(crate) struct Answered {
    pub solved: Solved,
    /// What the plan that keeps the node sums to at the state.
    pub mass: u128,
    pub plans: GivenPlans,
    pub spaces: Workspaces,
}

impl Answered {
    /// The answer alone.
    pub(crate) fn into_solved(self) -> Solved
        ensures { result ≡ self.solved }
    {
        self.solved
    }
}

/// The answer of a diagram within the limits of a run under evidence that is possible, or the first
/// refusal. All plans are made once, and the workspaces are reserved once.
fn answer_ordered(
    alloc: Global,
    diagram: &Diagram,
    relevance: &Relevance,
    order: &[usize],
    node: usize,
    state: usize,
) -> Result<Answered, GivenFault>
    requires relevance { IsRelevance diagram.now.nodes relevance.now }
    requires order { IsRelianceOrder diagram.now.nodes order.now }
    requires within { node < length diagram.now.nodes }
    requires evidence { IsEvidence diagram.now.nodes node }
    requires state { state < states_of diagram.now.nodes node }
    ensures rows { Passes given_fault (ordered_pass diagram.now node state) result }
    ensures diagram { IfOk result (λ a. IsDiagram diagram.now) }
    ensures ok { IfOk result (λ a. IsAnswer diagram.now a.solved) }
    ensures bounds { IfOk result (λ a. KeepsBoundsGiven diagram.now node) }
    ensures mass { IfOk result (λ a. IsMass diagram.now.nodes node state a.mass) }
    ensures positive { IfOk result (λ a. 0 < a.mass) }
    ensures plans { IfOk result (λ a. HasFurtherPlans diagram.now.nodes node a.plans) }
    ensures ready { IfOk result (λ a. HasSpace diagram.now.nodes node a.spaces) }
{
    let plans = keep_limits(alloc, diagram, order, node)?;
    let mut spaces = Workspaces::reserve(alloc, plans.size.cells as usize)?;
    // No rule counts in the mass, so impossible evidence is refused before anything is solved.
    let mass = mass_of(alloc, diagram, node, state, &plans.alone, &mut spaces)?;
    if mass == 0 {
        return Err(GivenFault::Impossible);
    }
    let solved = solve_by(alloc, diagram, relevance, order, &plans.run, &mut spaces)?;
    Ok(Answered {
        solved,
        mass,
        plans,
        spaces,
    })
}

/// The answer of a diagram in which the node has the state, or the first refusal: the relevance
/// cycle, the weight bound in the scopes of a run, then in the further ones, the sizes of all
/// plans, and evidence that is impossible.
pub(crate) fn answer(
    alloc: Global,
    diagram: &Diagram,
    node: usize,
    state: usize,
) -> Result<Answered, GivenFault>
    requires within { node < length diagram.now.nodes }
    requires evidence { IsEvidence diagram.now.nodes node }
    requires state { state < states_of diagram.now.nodes node }
    ensures rows { Passes given_fault (answer_pass diagram.now node state) result }
    ensures diagram { IfOk result (λ a. IsDiagram diagram.now) }
    ensures ok { IfOk result (λ a. IsAnswer diagram.now a.solved) }
    ensures bounds { IfOk result (λ a. KeepsBoundsGiven diagram.now node) }
    ensures mass { IfOk result (λ a. IsMass diagram.now.nodes node state a.mass) }
    ensures positive { IfOk result (λ a. 0 < a.mass) }
    ensures plans { IfOk result (λ a. HasFurtherPlans diagram.now.nodes node a.plans) }
    ensures ready { IfOk result (λ a. HasSpace diagram.now.nodes node a.spaces) }
{
    let relevance = find_relevance(alloc, diagram)?;
    match relevance.order() {
        Ok(order) => answer_ordered(alloc, diagram, &relevance, order, node, state),
        Err(cycle) => Err(GivenFault::Cycle {
            list: Vec::from_slice(alloc, cycle)?,
        }),
    }
}
