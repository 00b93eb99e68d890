//! The optimum of an agent that decides alone: choices of its decisions, and what they are worth to
//! it. What a row or another agent gets is left out.

ghost use Rattle.std.specs.Prelude.{◌≡◌, ◌<◌, ◌≤◌, ◌*◌, IfOk, IfSome, OnOk, length};
ghost use Rattle.first_fault.specs.Answers.{Passes};
ghost use Rattle.maid_model.specs.declared.limits.TheConstants.{MOST_PLAN_CELLS};
ghost use Rattle.maid_model.specs.declared.diagrams.Kind.TheVariants.{Utility};
ghost use Rattle.maid_model.specs.Diagrams.{IsDiagram};
ghost use Rattle.maid_model.specs.Nodes.{IsDecision, node_at};
ghost use Rattle.maid_model.specs.Placing.{IsRelianceOrder};
ghost use Rattle.maid_model.specs.Profiles.{IsProfile};
ghost use Rattle.maid_model.specs.Scopes.{KeepsScopedBounds};
ghost use Rattle.maid_model.specs.Subgames.{OwnsAll};
ghost use Rattle.maid_model.specs.Values.{IsOptimum};
ghost use Rattle.maid_model.specs.Gains.{gain_in};
ghost use Rattle.part_laws.specs.ScopeLaws.{HasSmallRules, HasUnitRules};
ghost use Rattle.plan_sums.specs.Plans.{worth_plan};
ghost use Rattle.relevance_graph.specs.Relevant.{IsRelevance};
ghost use Rattle.size_precheck.specs.Decisions.{AreDecisionPlans, ArePlans};
ghost use Rattle.size_precheck.specs.Sizes.{IsPlanned, ArePlansOfWorths};
ghost use Rattle.rule_solver.specs.Bases.{HasTotalsIn};
ghost use Rattle.rule_solver.specs.Faults.{solve_fault, solve_pass};
ghost use Rattle.rule_solver.specs.Kept.{IsKeptDiagram};
ghost use Rattle.rule_solver.specs.Masses.{IsExpected};
ghost use Rattle.rule_solver.specs.Optima.{ChoosesAll, ChoosesRows, IsChosenBy};
ghost use Rattle.rule_solver.specs.Rooms.{AreBothReadyForWorths, AreLeft, AreReadyFor, AreReadyForDecision, AreReadyForDecisions, AreReadyForWorths, HasRoomForRun};
ghost use Rattle.rule_solver.specs.Rows.{IsBest};
ghost use Rattle.rule_solver.specs.Totals.{HasTotals};
ghost use Rattle.rule_solver.specs.Worths.{IsWorthIfOwned, AreWorthsFor};

use crate::SolveFault;
use crate::bases::TurningBase;
use crate::decision_sums::Setting;
use crate::keeping::{KeptDiagram, find_by};
use crate::limits::{keep_bound, keep_sizes};
use crate::rows::{first_best, row_gains};
use crate::spaces::Workspaces;
use crate::totals::list_totals;
use crate::worths::{Stake, worth};
use cell_rings::{Gain, SmallGain};
use eliminate::RunLists;
use factor_core::Workspace;
use maid_laws::{answers_are_best, exchange, one_agent};
use maid_model::{Answer, Diagram, Kind, Profile, Ratio, Row};
use part_laws::{parts_decide, scoped_sums_fit, scopes_are_parts};
use relevance_graph::Relevance;
use size_precheck::{DecisionPlans, Plan, RunPlans};
use std::alloc::{AllocError, Global};
use weight_scale::{agent_scope, decision_scope};

/// The first best state of a row, where `gains` has a number for each row and state, the state
/// fastest.
fn choice_at(gains: &[i128], rows: usize, states: usize, row: usize) -> usize
    requires all { length gains.now ≡ rows * states }
    requires some { 0 < states }
    requires row { row < rows }
    ensures within { result < states }
    ensures best { IsBest (λ s. gain_in gains.now states s row) states result }
{
    first_best(row_gains(gains, rows, states, row))
}

/// The first best state of each row, without what it is worth.
fn choose_rows(
    alloc: Global,
    gains: &[i128],
    rows: usize,
    states: usize,
) -> Result<Vec<Row>, AllocError>
    requires all { length gains.now ≡ rows * states }
    requires some { 0 < states }
    ensures { IfOk result (λ v. ChoosesRows (gain_in gains.now states) states rows v.items) }
{
    let mut chosen = Vec::with_capacity(alloc, rows)?;
    for row in 0..rows {
        let choice = choice_at(gains, rows, states, row);
        chosen.push(Row {
            choice,
            worth: None,
        })?;
    }
    Ok(chosen)
}

/// What is chosen at the decision against the base, by the plans of its goals. The plan of its rows
/// is not run: where a row has no mass no state gains anything, and any choice is best.
fn choose(
    alloc: Global,
    diagram: &Diagram,
    base: &TurningBase,
    decision: usize,
    plans: &DecisionPlans,
    spaces: &mut Workspaces,
) -> Result<Vec<Row>, AllocError>
    requires decision { IsDecision diagram.now.nodes decision }
    requires profile { IsProfile diagram.now.nodes base.now.profile }
    requires rules { HasSmallRules diagram.now.nodes base.now.profile decision }
    requires totals { HasTotalsIn diagram.now.nodes base.now }
    requires bound { KeepsScopedBounds diagram.now }
    requires planned { AreDecisionPlans diagram.now.nodes decision plans.now }
    requires ready { AreReadyForDecision diagram.now.nodes decision spaces.old }
    ensures rows { IfOk result
        (λ v. IsChosenBy diagram.now.nodes base.now.profile decision v.items) }
    ensures again { OnOk result (spaces.new ≡ spaces.old) }
{
    // The part of the scope has the whole's best states.
    scopes_are_parts();
    parts_decide();
    let states = diagram.states(decision);
    let rows = diagram.rows(decision);
    let setting = Setting {
        diagram,
        base: &base.profile,
        decision,
        totals: &base.totals,
        scope: decision_scope(diagram, decision),
    };
    let gains = setting.row_gains(alloc, &plans.goals, &plans.joint_order, spaces)?;
    choose_rows(alloc, &gains, rows, states)
}

/// What is chosen at each decision of the order of solving, each against its base in the rules
/// chosen before it, by its plans.
fn choose_all(
    alloc: Global,
    diagram: &Diagram,
    relevance: &Relevance,
    order: &[usize],
    plans: &[DecisionPlans],
    spaces: &mut Workspaces,
) -> Result<Vec<Answer>, AllocError>
    requires bound { KeepsScopedBounds diagram.now }
    requires relevance { IsRelevance diagram.now.nodes relevance.now }
    requires order { IsRelianceOrder diagram.now.nodes order.now }
    requires planned { ArePlans diagram.now.nodes order.now plans.now }
    requires ready { AreReadyForDecisions diagram.now.nodes spaces.old }
    ensures answers { IfOk result (λ v. ChoosesAll diagram.now.nodes order.now v.items) }
    ensures again { OnOk result (spaces.new ≡ spaces.old) }
{
    let mut answers = Vec::with_capacity(alloc, order.len())?;
    let mut base = TurningBase::uniform(alloc, diagram)?;
    for (place, decision) in order.iter().enumerate() {
        base.turn(alloc, diagram, relevance, &answers, *decision)?;
        let plans = &plans[place];
        let rows = choose(alloc, diagram, &base, *decision, plans, spaces)?;
        answers.push(Answer {
            decision: *decision,
            rows,
        })?;
    }
    Ok(answers)
}

/// What the utility's plan sums to where the agent owns it, and else 0, without a run of the plan.
fn worth_for(
    diagram: &Diagram,
    profile: &Profile,
    agent: usize,
    totals: &[u128],
    utility: usize,
    plan: &Plan,
    small: &mut Workspace<SmallGain>,
    wide: &mut Workspace<Gain>,
    lists: &mut RunLists,
) -> i128
    requires diagram { IsDiagram diagram.now }
    requires within { utility < length diagram.now.nodes }
    requires kind { (node_at diagram.now.nodes utility).kind ≡ Utility }
    requires profile { IsProfile diagram.now.nodes profile.now }
    requires rules { HasUnitRules diagram.now.nodes profile.now }
    requires bound { KeepsScopedBounds diagram.now }
    requires totals { HasTotals diagram.now.nodes profile.now totals.now }
    requires planned { IsPlanned diagram.now.nodes (worth_plan utility) plan.now }
    requires ready { AreReadyFor diagram.now.nodes (worth_plan utility) small.old wide.old }
    ensures worth { IsWorthIfOwned diagram.now.nodes profile.now agent utility result }
    ensures again { (small.new ≡ small.old) × (wide.new ≡ wide.old) }
{
    if diagram.owns(agent, utility) {
        worth(diagram, profile, totals, utility, plan, small, wide, lists)
    } else {
        0
    }
}

/// The worth of each of the agent's utilities, and 0 at other nodes. It runs the plans of these
/// utilities alone.
fn list_worths_for(
    alloc: Global,
    diagram: &Diagram,
    profile: &Profile,
    agent: usize,
    totals: &[u128],
    plans: &[Plan],
    small: &mut Workspace<SmallGain>,
    wide: &mut Workspace<Gain>,
    lists: &mut RunLists,
) -> Result<Vec<i128>, AllocError>
    requires profile { IsProfile diagram.now.nodes profile.now }
    requires rules { HasUnitRules diagram.now.nodes profile.now }
    requires bound { KeepsScopedBounds diagram.now }
    requires totals { HasTotals diagram.now.nodes profile.now totals.now }
    requires planned { ArePlansOfWorths diagram.now.nodes plans.now }
    requires ready { AreBothReadyForWorths diagram.now.nodes small.old wide.old }
    ensures worths { IfOk result (AreWorthsFor diagram.now.nodes profile.now agent) }
    ensures again { OnOk result ((small.new ≡ small.old) × (wide.new ≡ wide.old)) }
{
    let mut worths = Vec::with_capacity(alloc, diagram.count())?;
    let mut place = 0;
    for v in 0..diagram.count() {
        match diagram.kind(v) {
            Kind::Utility => {
                let plan = &plans[place];
                let worth = worth_for(diagram, profile, agent, totals, v, plan, small, wide, lists);
                worths.push(worth)?;
                place += 1;
            }
            Kind::Chance | Kind::Decision => worths.push(0)?,
        }
    }
    Ok(worths)
}

/// What the profile, whose rules are pure, is worth to the agent, by the plans of the utilities'
/// worths.
fn expected_for(
    alloc: Global,
    diagram: &Diagram,
    profile: &Profile,
    agent: usize,
    plans: &[Plan],
    spaces: &mut Workspaces,
) -> Result<Ratio, AllocError>
    requires agent { agent < diagram.now.agents }
    requires bound { KeepsScopedBounds diagram.now }
    requires profile { IsProfile diagram.now.nodes profile.now }
    requires pure { HasUnitRules diagram.now.nodes profile.now }
    requires planned { ArePlansOfWorths diagram.now.nodes plans.now }
    requires ready { AreReadyForWorths diagram.now.nodes spaces.old }
    ensures worth { IfOk result (IsExpected diagram.now profile.now agent) }
    ensures again { OnOk result (spaces.new ≡ spaces.old) }
{
    let _agents = diagram.agents();
    let totals = list_totals(alloc, diagram, profile)?;
    let (small, wide) = (&mut spaces.small, &mut spaces.wide);
    let lists = &mut spaces.lists;
    let worths = list_worths_for(
        alloc, diagram, profile, agent, &totals, plans, small, wide, lists,
    )?;
    let stake = Stake {
        diagram,
        profile,
        agent,
        totals: &totals,
        worths: &worths,
        scope: agent_scope(diagram, agent),
    };
    Ok(stake.expected())
}

/// The agent's optimum in a diagram whose decisions have this order of solving, by the plans of its
/// run, in workspaces that another run has left where they have the room. It leaves its own.
fn optimum_along(
    alloc: Global,
    diagram: &Diagram,
    agent: usize,
    relevance: &Relevance,
    order: &[usize],
    run: &RunPlans,
    left: &mut Option<Workspaces>,
) -> Result<Ratio, AllocError>
    requires alone { OwnsAll diagram.now.nodes agent }
    requires within { agent < diagram.now.agents }
    requires bound { KeepsScopedBounds diagram.now }
    requires relevance { IsRelevance diagram.now.nodes relevance.now }
    requires order { IsRelianceOrder diagram.now.nodes order.now }
    requires plans { ArePlans diagram.now.nodes order.now run.now.decisions.items }
    requires worths { ArePlansOfWorths diagram.now.nodes run.now.worths.items }
    requires room { HasRoomForRun diagram.now.nodes run.now.size.cells }
    requires limit { run.now.size.cells ≤ MOST_PLAN_CELLS }
    requires left { AreLeft left.old }
    ensures optimum { IfOk result (IsOptimum diagram.now.nodes diagram.now.decimals agent) }
    ensures left { AreLeft left.new }
{
    scoped_sums_fit();
    answers_are_best();
    exchange();
    one_agent();
    let _count = diagram.count();
    let cells = run.size.cells as usize;
    let mut spaces = Workspaces::with_room(alloc, left.take(), cells)?;
    let answers = choose_all(
        alloc,
        diagram,
        relevance,
        order,
        &run.decisions,
        &mut spaces,
    )?;
    let profile = Profile::pure(alloc, diagram, &answers)?;
    let optimum = expected_for(alloc, diagram, &profile, agent, &run.worths, &mut spaces)?;
    *left = Some(spaces);
    Ok(optimum)
}

/// The agent's optimum in a diagram within the limits, or the first of them that it doesn't keep.
fn optimum_ordered(
    alloc: Global,
    diagram: &Diagram,
    agent: usize,
    relevance: &Relevance,
    order: &[usize],
    kept: Option<&KeptDiagram>,
    left: &mut Option<Workspaces>,
) -> Result<Ratio, SolveFault>
    requires alone { OwnsAll diagram.now.nodes agent }
    requires within { agent < diagram.now.agents }
    requires relevance { IsRelevance diagram.now.nodes relevance.now }
    requires order { IsRelianceOrder diagram.now.nodes order.now }
    requires kept { IfSome kept (λ known. IsKeptDiagram diagram.now.nodes known.now) }
    requires left { AreLeft left.old }
    ensures rows { Passes solve_fault (solve_pass diagram.now) result }
    ensures ok { IfOk result (IsOptimum diagram.now.nodes diagram.now.decimals agent) }
    ensures left { AreLeft left.new }
{
    keep_bound(diagram)?;
    let run = keep_sizes(alloc, diagram, order, kept)?;
    Ok(optimum_along(alloc, diagram, agent, relevance, order, &run, left)?)
}

/// The optimum of the agent that owns all decisions of the diagram: what `solve` prints for it, at
/// less cost. The plans of rows are made and counted, but not run, and so are those of other
/// agents' utilities. Where plans and searches are kept, the plans are copied, and only the others
/// are made. So it is for a diagram that was looked at before some of its nodes became decisions.
/// It runs in the workspaces that are left of another run, where they have the room, and leaves its
/// own.
///
/// # Errors
///
/// Those of `solve`.
pub fn optimum_with(
    alloc: Global,
    diagram: &Diagram,
    agent: usize,
    kept: Option<&KeptDiagram>,
    left: &mut Option<Workspaces>,
) -> Result<Ratio, SolveFault>
    requires alone { OwnsAll diagram.now.nodes agent }
    requires within { agent < diagram.now.agents }
    // What is kept are plans and searches of the diagram.
    requires kept { IfSome kept (λ known. IsKeptDiagram diagram.now.nodes known.now) }
    requires left { AreLeft left.old }
    // The optimum where nothing refuses the diagram, and else the first refusal that applies.
    ensures rows { Passes solve_fault (solve_pass diagram.now) result }
    ensures optimum { IfOk result (IsOptimum diagram.now.nodes diagram.now.decimals agent) }
    // What is left, if anything is, serves the next run.
    ensures left { AreLeft left.new }
{
    let relevance = find_by(alloc, diagram, kept)?;
    match relevance.order() {
        Ok(order) => optimum_ordered(alloc, diagram, agent, &relevance, order, kept, left),
        Err(cycle) => Err(SolveFault::Cycle {
            list: Vec::from_slice(alloc, cycle)?,
        }),
    }
}
