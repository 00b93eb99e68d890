//! The answers of decisions, one after another.

ghost use Rattle.std.specs.Prelude.{◌≡◌, IfOk, OnOk};
ghost use Rattle.maid_model.specs.Nodes.{IsDecision};
ghost use Rattle.maid_model.specs.Placing.{IsRelianceOrder};
ghost use Rattle.maid_model.specs.Profiles.{IsProfile};
ghost use Rattle.maid_model.specs.Scopes.{KeepsScopedBounds};
ghost use Rattle.part_laws.specs.ScopeLaws.{HasSmallRules};
ghost use Rattle.relevance_graph.specs.Relevant.{IsRelevance};
ghost use Rattle.size_precheck.specs.Decisions.{AreDecisionPlans, ArePlans};
ghost use Rattle.rule_solver.specs.Rooms.{AreReadyForDecision, AreReadyForDecisions};
ghost use Rattle.rule_solver.specs.Answered.{AreAnswersInOrder, AreRowsAgainst};
ghost use Rattle.rule_solver.specs.Bases.{HasTotalsIn};

use crate::bases::TurningBase;
use crate::decision_sums::Setting;
use crate::rows::answer_rows;
use crate::spaces::Workspaces;
use maid_model::{Answer, Diagram, Row};
use part_laws::{parts_decide, scopes_are_parts};
use relevance_graph::Relevance;
use size_precheck::DecisionPlans;
use std::alloc::{AllocError, Global};
use weight_scale::decision_scope;

/// What is answered at the decision against the base, by its plans.
fn answer_decision(
    alloc: Global,
    diagram: &Diagram,
    base: &TurningBase,
    decision: usize,
    plans: &DecisionPlans,
    spaces: &mut Workspaces,
) -> Result<Vec<Row>, AllocError>
    requires decision { IsDecision diagram.now.nodes decision }
    requires profile { IsProfile diagram.now.nodes base.now.profile }
    requires rules { HasSmallRules diagram.now.nodes base.now.profile decision }
    requires totals { HasTotalsIn diagram.now.nodes base.now }
    requires bound { KeepsScopedBounds diagram.now }
    requires planned { AreDecisionPlans diagram.now.nodes decision plans.now }
    requires ready { AreReadyForDecision diagram.now.nodes decision spaces.old }
    ensures rows { IfOk result (AreRowsAgainst diagram.now base.now.profile decision) }
    ensures again { OnOk result (spaces.new ≡ spaces.old) }
{
    // The part of the scope has the whole's best states, rows without mass and fractions.
    scopes_are_parts();
    parts_decide();
    let states = diagram.states(decision);
    let setting = Setting {
        diagram,
        base: &base.profile,
        decision,
        totals: &base.totals,
        scope: decision_scope(diagram, decision),
    };
    let sums = setting.row_sums(alloc, plans, spaces)?;
    answer_rows(alloc, &sums.gains, &sums.masses, states, diagram.scale())
}

/// What is answered at each decision of the order of solving, each against its base in the rules
/// answered before it, by its plans.
pub(crate) fn answer_all(
    alloc: Global,
    diagram: &Diagram,
    relevance: &Relevance,
    order: &[usize],
    plans: &[DecisionPlans],
    spaces: &mut Workspaces,
) -> Result<Vec<Answer>, AllocError>
    requires bound { KeepsScopedBounds diagram.now }
    requires relevance { IsRelevance diagram.now.nodes relevance.now }
    requires order { IsRelianceOrder diagram.now.nodes order.now }
    requires planned { ArePlans diagram.now.nodes order.now plans.now }
    requires ready { AreReadyForDecisions diagram.now.nodes spaces.old }
    ensures answers { IfOk result (AreAnswersInOrder diagram.now order.now) }
    ensures again { OnOk result (spaces.new ≡ spaces.old) }
{
    let mut answers = Vec::with_capacity(alloc, order.len())?;
    let mut base = TurningBase::uniform(alloc, diagram)?;
    for (place, decision) in order.iter().enumerate() {
        base.turn(alloc, diagram, relevance, &answers, *decision)?;
        let plans = &plans[place];
        let rows = answer_decision(alloc, diagram, &base, *decision, plans, spaces)?;
        answers.push(Answer {
            decision: *decision,
            rows,
        })?;
    }
    Ok(answers)
}
