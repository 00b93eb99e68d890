//! The base of a decision in the rules chosen so far, made anew or from that of another decision.

ghost use Rattle.std.specs.Prelude.{◌≡◌, ◌<◌, [], All, IfOk, OnOk, length, map};
ghost use Rattle.maid_model.specs.Answers.{FitsAnswer};
ghost use Rattle.maid_model.specs.Graph.{AllDifferent};
ghost use Rattle.maid_model.specs.Nodes.{IsDecision};
ghost use Rattle.maid_model.specs.Profiles.{IsProfile, IsRule, Replaces, uniform_rule};
ghost use Rattle.relevance_graph.specs.Relevant.{IsRelevance};
ghost use Rattle.rule_solver.specs.Bases.{HasTotalsIn, HoldsToo, HoldsWithout, IsAnsweredBase, IsTurningBase, ReliesOnAnswered, Turns, decision_at};
ghost use Rattle.rule_solver.specs.Masses.{KeepsStates};

use crate::totals::list_totals;
use maid_model::{Answer, Diagram, Profile, Rule, profile_has_rules};
use node_sets::NodeSet;
use relevance_graph::Relevance;
use std::alloc::{AllocError, Global};

/// The base of a decision that relies on answered decisions alone: their answered rules where it
/// relies on them, and uniform rules at all other decisions.
pub fn base_of(
    alloc: Global,
    diagram: &Diagram,
    relevance: &Relevance,
    answers: &[Answer],
    decision: usize,
) -> Result<Profile, AllocError>
    requires decision { IsDecision diagram.now.nodes decision }
    requires relevance { IsRelevance diagram.now.nodes relevance.now }
    requires fits { All (FitsAnswer diagram.now.nodes) answers.now }
    requires once { AllDifferent (map (λ a. a.decision) answers.now) }
    requires relied { ReliesOnAnswered diagram.now.nodes answers.now decision }
    ensures base { IfOk result (IsAnsweredBase diagram.now.nodes answers.now decision) }
    ensures room { IfOk result (KeepsStates diagram.now.nodes) }
{
    // A profile has a rule for each decision.
    profile_has_rules();
    let mut base = Profile::uniform(alloc, diagram)?;
    for answer in answers {
        let relied = relevance.relies(decision, answer.decision);
        if relied {
            base.put(Rule::pure(alloc, diagram, answer.decision, &answer.rows)?);
        }
    }
    Ok(base)
}

/// The rule that gives every state the weight 1.
fn uniform_rule(alloc: Global, diagram: &Diagram, decision: usize) -> Result<Rule, AllocError>
    requires { IsDecision diagram.now.nodes decision }
    ensures { IfOk result (λ r. r ≡ uniform_rule diagram.now.nodes decision) }
{
    let states = diagram.states(decision);
    let cells = diagram.rows(decision) * states;
    Ok(Rule {
        decision,
        total: states as u128,
        weights: vec![in alloc; 1; cells]?,
    })
}

/// The base of one decision after another.
#[derive(Drop)]
pub(crate) struct TurningBase {
    pub profile: Profile,
    /// The total of each node's table or rule in the profile.
    pub totals: Vec<u128>,
    /// The answered decisions that have the rules of their answers. All others have uniform rules.
    pub held: NodeSet,
}

impl TurningBase {
    /// Uniform rules at all decisions.
    pub(crate) fn uniform(alloc: Global, diagram: &Diagram) -> Result<TurningBase, AllocError>
        ensures { IfOk result (IsTurningBase diagram.now.nodes []) }
    {
        let profile = Profile::uniform(alloc, diagram)?;
        let totals = list_totals(alloc, diagram, &profile)?;
        Ok(TurningBase {
            profile,
            totals,
            held: NodeSet::empty(),
        })
    }

    /// Puts the rule and its total in the place of those of its decision. It takes no memory.
    fn put(&mut self, diagram: &Diagram, rule: Rule)
        requires decision { IsDecision diagram.now.nodes rule.decision }
        requires rule { IsRule diagram.now.nodes rule }
        requires profile { IsProfile diagram.now.nodes self.old.profile }
        requires totals { HasTotalsIn diagram.now.nodes self.old }
        ensures replaced { Replaces self.old.profile self.new.profile rule }
        ensures profile { IsProfile diagram.now.nodes self.new.profile }
        ensures totals { HasTotalsIn diagram.now.nodes self.new }
        ensures held { self.new.held ≡ self.old.held }
    {
        // A profile has a rule for each decision.
        profile_has_rules();
        self.totals[rule.decision] = rule.total;
        self.profile.put(rule);
    }

    /// Puts in the rule of the answer at that place.
    fn hold_answered(
        &mut self,
        alloc: Global,
        diagram: &Diagram,
        answers: &[Answer],
        place: usize,
    ) -> Result<(), AllocError>
        requires fits { All (FitsAnswer diagram.now.nodes) answers.now }
        requires once { AllDifferent (map (λ a. a.decision) answers.now) }
        requires place { place < length answers.now }
        requires turning { IsTurningBase diagram.now.nodes answers.now self.old }
        ensures turning { OnOk result (IsTurningBase diagram.now.nodes answers.now self.new) }
        ensures holds { OnOk result
            (HoldsToo (decision_at answers.now place) self.old.held self.new.held) }
    {
        let _count = diagram.count();
        let answer = &answers[place];
        let decision = answer.decision;
        let rule = Rule::pure(alloc, diagram, decision, &answer.rows)?;
        self.put(diagram, rule);
        self.held.insert(decision);
        Ok(())
    }

    /// Puts in the uniform rule of a decision.
    fn hold_uniform(
        &mut self,
        alloc: Global,
        diagram: &Diagram,
        answers: &[Answer],
        decision: usize,
    ) -> Result<(), AllocError>
        requires decision { IsDecision diagram.now.nodes decision }
        requires turning { IsTurningBase diagram.now.nodes answers.now self.old }
        ensures turning { OnOk result (IsTurningBase diagram.now.nodes answers.now self.new) }
        ensures holds { OnOk result (HoldsWithout decision self.old.held self.new.held) }
    {
        let _count = diagram.count();
        let rule = uniform_rule(alloc, diagram, decision)?;
        self.put(diagram, rule);
        self.held.remove(decision);
        Ok(())
    }

    /// Gives the answered decision at that place the rule of its answer where it is relied on, and
    /// else the uniform rule, unless it has that already.
    fn turn_one(
        &mut self,
        alloc: Global,
        diagram: &Diagram,
        answers: &[Answer],
        place: usize,
        relied: bool,
    ) -> Result<(), AllocError>
        requires fits { All (FitsAnswer diagram.now.nodes) answers.now }
        requires once { AllDifferent (map (λ a. a.decision) answers.now) }
        requires place { place < length answers.now }
        requires turning { IsTurningBase diagram.now.nodes answers.now self.old }
        ensures turning { OnOk result (IsTurningBase diagram.now.nodes answers.now self.new) }
        ensures turns { OnOk result
            (Turns (decision_at answers.now place) relied self.old.held self.new.held) }
    {
        let _count = diagram.count();
        let answer = &answers[place];
        let decision = answer.decision;
        let holds = self.held.holds(decision);
        if relied {
            if holds {
                return Ok(());
            }
            return self.hold_answered(alloc, diagram, answers, place);
        }
        if holds {
            return self.hold_uniform(alloc, diagram, answers, decision);
        }
        Ok(())
    }

    /// Makes the base of the last decision that of the next one, which relies on answered decisions
    /// alone. It puts in no rule that the base has already.
    pub(crate) fn turn(
        &mut self,
        alloc: Global,
        diagram: &Diagram,
        relevance: &Relevance,
        answers: &[Answer],
        decision: usize,
    ) -> Result<(), AllocError>
        requires decision { IsDecision diagram.now.nodes decision }
        requires relevance { IsRelevance diagram.now.nodes relevance.now }
        requires fits { All (FitsAnswer diagram.now.nodes) answers.now }
        requires once { AllDifferent (map (λ a. a.decision) answers.now) }
        requires relied { ReliesOnAnswered diagram.now.nodes answers.now decision }
        requires turning { IsTurningBase diagram.now.nodes answers.now self.old }
        ensures turning { OnOk result (IsTurningBase diagram.now.nodes answers.now self.new) }
        ensures base { OnOk result
            (IsAnsweredBase diagram.now.nodes answers.now decision self.new.profile) }
        ensures room { OnOk result (KeepsStates diagram.now.nodes self.new.profile) }
    {
        for place in 0..answers.len() {
            let answer = &answers[place];
            let answered = answer.decision;
            let relied = relevance.relies(decision, answered);
            self.turn_one(alloc, diagram, answers, place, relied)?;
        }
        Ok(())
    }
}
