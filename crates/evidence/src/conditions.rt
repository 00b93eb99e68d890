//! A diagram under evidence, answered.

ghost use Rattle.std.specs.Prelude.{◌≡◌, ◌<◌, IfOk, length};
ghost use Rattle.first_fault.specs.Answers.{Passes};
ghost use Rattle.maid_model.specs.declared.diagrams.Kind.TheVariants.{Chance};
ghost use Rattle.maid_model.specs.Answers.{IsAnswer};
ghost use Rattle.maid_model.specs.Nodes.{node_at, states_of};
ghost use Rattle.reach_laws.specs.Evidence.{IsEvidence, all_seeing_diagram};
ghost use Rattle.evidence.specs.Bounds.{KeepsBoundsGiven};
ghost use Rattle.evidence.specs.Conditional.{IsBestGiven, IsPerfectSeeing, IsWorthGiven, IsWorthIn};
ghost use Rattle.evidence.specs.Faults.{answer_pass, given_fault, given_pass};
ghost use Rattle.evidence.specs.Plans.{HasUtilityPlans};
ghost use Rattle.evidence.specs.Sizes.{HasSpace};
ghost use Rattle.evidence.specs.Stakes.{IsMass};

use crate::faults::GivenFault;
use crate::limits::answer;
use crate::sights::see;
use crate::sums::list_gains;
use maid_laws::answers_are_subgame_perfect;
use maid_model::{Diagram, Profile, Ratio, Solved};
use part_laws::scoped_sums_fit;
use reach_laws::{best_given, seen_everywhere};
use rule_solver::Workspaces;
use size_precheck::Plan;
use std::alloc::{AllocError, Global};

/// A diagram under evidence.
#[derive(Debug, Drop)]
pub struct Conditioned {
    /// The diagram in which every decision sees the node.
    pub diagram: Diagram,
    /// Its answer.
    pub solved: Solved,
    /// What the answer is worth to each agent where the node has the state, in lowest terms.
    pub gains: Vec<Ratio>,
}

// What the answer is worth to each agent where the node has the state, whose worlds have this mass.
fn worth_given(
    alloc: Global,
    diagram: &Diagram,
    solved: &Solved,
    node: usize,
    state: usize,
    mass: u128,
    plans: &[Option<Plan>],
    spaces: &mut Workspaces,
) -> Result<Vec<Ratio>, AllocError>
    requires answer { IsAnswer diagram.now solved.now }
    requires within { node < length diagram.now.nodes }
    requires kind { (node_at diagram.now.nodes node).kind ≡ Chance }
    requires state { state < states_of diagram.now.nodes node }
    requires bounds { KeepsBoundsGiven diagram.now node }
    requires planned { HasUtilityPlans diagram.now.nodes node plans.now }
    requires ready { HasSpace diagram.now.nodes node spaces.old }
    requires mass { IsMass diagram.now.nodes node state mass }
    requires positive { 0 < mass }
    ensures gains { IfOk result (λ v. IsWorthIn diagram.now node state solved.now v.items) }
{
    scoped_sums_fit();
    let _count = diagram.count();
    let profile = Profile::pure(alloc, diagram, &solved.answers)?;
    list_gains(alloc, diagram, &profile, node, state, mass, plans, spaces)
}

// The answer of a diagram in which every decision sees the node, and what it is worth to each agent
// where the node has the state.
fn condition(
    alloc: Global,
    seen: &Diagram,
    node: usize,
    state: usize,
) -> Result<(Solved, Vec<Ratio>), GivenFault>
    requires within { node < length seen.now.nodes }
    requires evidence { IsEvidence seen.now.nodes node }
    requires state { state < states_of seen.now.nodes node }
    ensures rows { Passes given_fault (answer_pass seen.now node state) result }
    ensures ok { IfOk result (λ made. IsAnswer seen.now made.0) }
    ensures gains { IfOk result (λ made. IsWorthIn seen.now node state made.0 made.1.items) }
{
    let mut answered = answer(alloc, seen, node, state)?;
    let (solved, mass) = (&answered.solved, answered.mass);
    let (plans, spaces) = (&answered.plans.utilities, &mut answered.spaces);
    let gains = worth_given(alloc, seen, solved, node, state, mass, plans, spaces);
    // Of the run only the answer is kept, whether there are gains or not.
    Ok((answered.into_solved(), gains?))
}

/// The diagram under evidence: every decision sees the chance node, as its last parent where it
/// didn't see it, and the node is known to have the state. The answer is that of this diagram,
/// and each agent's expected utility is conditional: its gain over the worlds in which the node
/// has the state, over their weight.
///
/// It copies the diagram, and solves the copy as `rule_solver::solve` does. Beside the plans of the
/// run there is one that keeps the node, and one that keeps it with each utility. All plans are
/// made once, and run in workspaces that are reserved once, with the most cells of a plan. The one
/// that keeps the node alone is run first: impossible evidence is refused before anything is
/// solved.
///
/// # Errors
///
/// The first of these that holds: `BelowDecision` where the node descends from a decision;
/// `RulesTooLarge` where, with the node as a parent more, a decision has more than 16 parents, its
/// rule more than 65,536 cells, or all rules together more than 262,144; then, of the diagram in
/// which every decision sees the node, `Cycle` where its relevance graph has one; `WeightBound`
/// where a scope of a run passes the weight bound, or else a further one, of what leads to the node
/// or to an agent's utilities: one for each agent, and one where there is none; `TooLarge` where a
/// plan has more than 4,194,304 cells, or all plans together more than 134,217,728 steps of work;
/// and `Impossible` where the worlds in which the node has the state weigh nought. `NoMemory` may
/// come at any point.
pub fn given(
    alloc: Global,
    diagram: &Diagram,
    node: usize,
    state: usize,
) -> Result<Conditioned, GivenFault>
    requires within { node < length diagram.now.nodes }
    requires kind { (node_at diagram.now.nodes node).kind ≡ Chance }
    requires state { state < states_of diagram.now.nodes node }
    // An answer where nothing refuses the evidence, and else the first refusal that applies.
    ensures rows { Passes given_fault (given_pass diagram.now node state) result }
    // The diagram in which every decision sees the node.
    ensures diagram { IfOk result (λ c. c.diagram ≡ all_seeing_diagram diagram.now node) }
    // Its answer.
    ensures ok { IfOk result (λ c. IsAnswer (all_seeing_diagram diagram.now node) c.solved) }
    // What the answer is worth, as sums over the worlds in which the node has the state.
    ensures gains { IfOk result (λ c. IsWorthGiven diagram.now node state c.solved c.gains.items) }
    // From no subgame start does an agent gain by other rules of its own.
    ensures subgame_perfect { IfOk result (λ c. IsPerfectSeeing diagram.now node c.solved) }
    // No profile is worth more, where the node has the state, to an agent that owns all decisions.
    ensures best { IfOk result (λ c. IsBestGiven diagram.now node state c.solved) }
{
    seen_everywhere();
    best_given();
    answers_are_subgame_perfect();
    let seen = see(alloc, diagram, node)?;
    let (solved, gains) = condition(alloc, &seen, node, state)?;
    Ok(Conditioned {
        diagram: seen,
        solved,
        gains,
    })
}
