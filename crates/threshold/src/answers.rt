//! The fractions at which all answers hold.

ghost use Rattle.std.specs.Prelude.{◌≡◌, ◌↔◌, All, IfOk, IsTrue, OnOk};
ghost use Rattle.maid_model.specs.Answers.{answered};
ghost use Rattle.relevance_graph.specs.Relevant.{IsRelevance};
ghost use Rattle.rule_solver.specs.Rooms.{AreLeft};
ghost use Rattle.size_precheck.specs.Families.{IsPlanner};
ghost use Rattle.threshold.specs.Answers.{AnswerStands, ArePlansOfAnswer, AreReadyForAnswer};
ghost use Rattle.threshold.specs.Answers.{HoldsAllAnswers, HoldsAnswer, IsAnswerOf, IsHeld};
ghost use Rattle.threshold.specs.Answers.{IsQuestion, IsThresholdSetting, KeepsPlanCells};
ghost use Rattle.threshold.specs.Held.{IsRange, Narrows};

use crate::control::{all_reached, is_free};
use crate::ends::Ends;
use crate::held::{Held, all_fractions, narrow_rows};
use crate::weights::{Place, weight_there};
use maid_model::{Answer, Diagram, Solved};
use relevance_graph::{Relevance, walks_to_goals_stand};
use rule_solver::{Workspaces, base_of, measured_plans_have_room, row_gains_by, spaces_for};
use size_precheck::{DecisionPlans, Planner, greedy_orders, kept_plans_stand, plan_decision_by};
use std::alloc::{AllocError, Global};

/// A diagram with its relevance graph and its answer, the place whose probability moves, and the
/// diagrams in which it is 0 and 1.
#[derive(Drop)]
struct Question<'a> {
    diagram: &'a Diagram,
    relevance: &'a Relevance,
    solved: &'a Solved,
    place: Place,
    nought: &'a Diagram,
    one: &'a Diagram,
}

impl<'a> Question<'a> {
    /// Whether the answer surely holds at all fractions: its decision does not rely on the table of
    /// the place's node, and all its rows are reached, or the place has weight, so that none
    /// becomes reached.
    fn stands(&self, answer: &Answer) -> bool
        requires setting { IsQuestion self.now }
        requires answer { IsAnswerOf self.now.solved.now answer.now }
        ensures { IsTrue result ↔ AnswerStands self.now answer.now }
    {
        let node = self.place.node;
        let reached = all_reached(&answer.rows);
        let weight = weight_there(self.diagram, self.place);
        (weight > 0 || reached) && is_free(self.diagram, answer.decision, node)
    }

    /// Whether all answers surely hold at all fractions.
    fn all_stand(&self) -> bool
        requires setting { IsQuestion self.now }
        ensures { IsTrue result ↔ All (AnswerStands self.now) self.now.solved.now.answers }
    {
        let solved = self.solved;
        for answer in &solved.answers {
            if !self.stands(answer) {
                return false;
            }
        }
        true
    }

    /// The fractions of the interval at which an answer holds too: its decision's gains in both
    /// diagrams, with one base and by the same plans, tell them.
    fn narrow_by_gains(
        &self,
        alloc: Global,
        held: Held,
        answer: &Answer,
        plans: &DecisionPlans,
        spaces: &mut Workspaces,
    ) -> Result<Held, AllocError>
        requires setting { IsQuestion self.now }
        requires answer { IsAnswerOf self.now.solved.now answer.now }
        requires planned { ArePlansOfAnswer self.now answer.now plans.now }
        requires ready { AreReadyForAnswer self.now answer.now spaces.old }
        requires range { IsRange held }
        ensures held { IfOk result (Narrows (HoldsAnswer self.now answer.now) held) }
        ensures again { OnOk result (spaces.new ≡ spaces.old) }
    {
        // Plans and their sizes look at the diagram's shape alone.
        greedy_orders();
        kept_plans_stand();
        let (solved, decision) = (self.solved, answer.decision);
        let base = base_of(
            alloc,
            self.diagram,
            self.relevance,
            &solved.answers,
            decision,
        )?;
        let nought = row_gains_by(alloc, self.nought, &base, decision, plans, spaces)?;
        let one = row_gains_by(alloc, self.one, &base, decision, plans, spaces)?;
        Ok(narrow_rows(
            held,
            &nought,
            &one,
            self.diagram.states(decision),
            &answer.rows,
        ))
    }

    /// The same, by plans of the decision that are made here, in workspaces that another decision
    /// has left, where they have the room. It leaves its own.
    fn narrow(
        &self,
        alloc: Global,
        planner: &Planner,
        held: Held,
        answer: &Answer,
        left: &mut Option<Workspaces>,
    ) -> Result<Held, AllocError>
        requires setting { IsQuestion self.now }
        requires planner { IsPlanner self.now.diagram.now.nodes planner.now }
        requires room { KeepsPlanCells self.now }
        requires answer { IsAnswerOf self.now.solved.now answer.now }
        requires left { AreLeft left.old }
        requires range { IsRange held }
        ensures held { IfOk result (Narrows (HoldsAnswer self.now answer.now) held) }
        ensures left { AreLeft left.new }
    {
        let (diagram, decision) = (self.diagram, answer.decision);
        let plans = plan_decision_by(alloc, diagram, planner, decision)?;
        let mut spaces = spaces_for(alloc, diagram, decision, &plans, left.take())?;
        let held = self.narrow_by_gains(alloc, held, answer, &plans, &mut spaces)?;
        *left = Some(spaces);
        Ok(held)
    }

    /// The fractions from 0 to 1 at which all answers hold. A decision whose answer surely holds at
    /// all of them has neither plan nor sum; another is planned when its turn comes, and leaves its
    /// workspaces to the next.
    fn narrow_all(&self, alloc: Global, planner: &Planner) -> Result<Held, AllocError>
        requires setting { IsQuestion self.now }
        requires planner { IsPlanner self.now.diagram.now.nodes planner.now }
        requires room { KeepsPlanCells self.now }
        ensures range { IfOk result IsRange }
        ensures held { IfOk result (HoldsAllAnswers self.now) }
    {
        // A decision relies on the table as it would on a rule in its place.
        walks_to_goals_stand();
        let solved = self.solved;
        let mut held = all_fractions();
        let mut left = None;
        for answer in &solved.answers {
            if !self.stands(answer) {
                held = self.narrow(alloc, planner, held, answer, &mut left)?;
            }
        }
        Ok(held)
    }

    /// The fractions from 0 to 1 at which all answers hold, by their decisions' gains. It makes
    /// what all plans share, and goes over the decisions in the order of solving. It plans only
    /// those whose answer may not hold at all fractions.
    fn hold_by_gains(&self, alloc: Global) -> Result<Held, AllocError>
        requires { IsQuestion self.now }
        ensures range { IfOk result IsRange }
        ensures held { IfOk result (HoldsAllAnswers self.now) }
    {
        // Each plan has a size, and those of a small enough run have room.
        greedy_orders();
        measured_plans_have_room();
        let planner = Planner::new(alloc, self.diagram)?;
        self.narrow_all(alloc, &planner)
    }
}

/// The fractions from 0 to 1 at which all answers hold. Where each surely holds at all of them,
/// nothing is planned and no gain is summed.
pub(crate) fn hold_answers(
    alloc: Global,
    diagram: &Diagram,
    relevance: &Relevance,
    solved: &Solved,
    place: Place,
    ends: &Ends,
) -> Result<Held, AllocError>
    requires setting { IsThresholdSetting diagram.now solved.now place
        ends.now.nought ends.now.one }
    requires relevance { IsRelevance diagram.now.nodes relevance.now }
    ensures range { IfOk result IsRange }
    ensures held { IfOk result (IsHeld diagram.now.nodes (answered diagram.now solved.now) place) }
{
    walks_to_goals_stand();
    let question = Question {
        diagram,
        relevance,
        solved,
        place,
        nought: &ends.nought,
        one: &ends.one,
    };
    if question.all_stand() {
        return Ok(all_fractions());
    }
    question.hold_by_gains(alloc)
}
