//! Rules and profiles.

ghost use Rattle.std.specs.Prelude.{◌≡◌, ◌<◌, IfOk, length, slice_index, slice_index_or};
ghost use Rattle.maid_model.specs.Profiles.{HasRule, HasUniformTotals, IsProfile, KeepsProfiles, Replaces, no_rule, uniform_profile, uniform_rule};
ghost use Rattle.maid_model.specs.Tables.{weights_of, rule_total};
ghost use Rattle.maid_model.specs.Nodes.{IsDecision};
ghost use Rattle.maid_model.specs.Private.{IsFirstAt};

use crate::diagrams::{Diagram, Kind};
use std::alloc::{AllocError, Global};
use std::marker::Model;

/// A decision's rule: for each row of its parents' states one weight a state, the first parent
/// slowest and the decision's own state fastest. Each row adds up to `total`.
#[derive(Debug, Drop)]
pub struct Rule {
    pub decision: usize,
    pub total: u128,
    pub weights: Vec<u128>,
}

impl Model for Rule {
    ghost use Rattle.maid_model.specs.Views.{RuleView};

    ghost Value = { RuleView };

    ghost view = { λ r.
        record { decision = r.decision; total = r.total; weights = r.weights.items } };
}

impl Rule {
    /// The rule that gives every state the weight 1.
    fn uniform(alloc: Global, diagram: &Diagram, decision: usize) -> Result<Rule, AllocError>
        requires { IsDecision diagram.now.nodes decision }
        ensures { IfOk result (λ r. r ≡ uniform_rule diagram.now.nodes decision) }
    {
        let states = diagram.states(decision);
        let cells = diagram.rows(decision) * states;
        Ok(Rule {
            decision,
            total: states as u128,
            weights: vec![in alloc; 1; cells]?,
        })
    }
}

/// One rule for each decision, in text order of the decisions.
#[derive(Debug, Drop)]
pub struct Profile {
    rules: Vec<Rule>,
}

impl Model for Profile {
    ghost use Rattle.std.specs.Prelude.{List};
    ghost use Rattle.maid_model.specs.Views.{RuleView};

    ghost Value = { List RuleView };

    ghost view = { λ p. p.rules.items };
}

impl Profile {
    /// The profile of these rules. It takes no memory.
    pub fn from_rules(rules: Vec<Rule>) -> Profile
        ensures { result ≡ rules.items }
    {
        Profile { rules }
    }

    /// The profile that gives every state of every decision the weight 1.
    pub fn uniform(alloc: Global, diagram: &Diagram) -> Result<Profile, AllocError>
        ensures rules { IfOk result (λ p. p ≡ uniform_profile diagram.now.nodes) }
        ensures total { IfOk result (HasUniformTotals diagram.now.nodes) }
        ensures profile { IfOk result (IsProfile diagram.now.nodes) }
    {
        let mut rules = Vec::new(alloc);
        for v in 0..diagram.count() {
            if let Kind::Decision = diagram.kind(v) {
                rules.push(Rule::uniform(alloc, diagram, v)?)?;
            }
        }
        Ok(Profile { rules })
    }

    /// The rules, in text order of their decisions.
    pub fn rules(&self) -> &[Rule]
        ensures { result.now ≡ self.now }
    {
        &self.rules
    }

    /// The rule of the decision.
    pub fn rule(&self, decision: usize) -> &Rule
        requires { HasRule self.now decision }
        ensures decision { result.now.decision ≡ decision }
        ensures total { result.now.total ≡ rule_total self.now decision }
        ensures weights { result.now.weights ≡ weights_of self.now decision }
    {
        &self.rules[place_of(&self.rules, decision)]
    }

    /// The first place at which a rule of the decision stands.
    pub(crate) fn place(&self, decision: usize) -> usize
        requires { HasRule self.now decision }
        ensures { IsFirstAt self.now decision result }
    {
        place_of(&self.rules, decision)
    }

    /// A weight of the rule at a place.
    pub(crate) fn weight_at(&self, place: usize, cell: usize) -> u128
        requires place { place < length self.now }
        requires cell { cell < length (slice_index_or self.now place no_rule).weights }
        ensures { result ≡ slice_index (slice_index_or self.now place no_rule).weights cell }
    {
        self.rules[place].weights[cell]
    }

    /// Puts the rule in the place of the one for its decision. It takes no memory.
    pub fn put(&mut self, rule: Rule)
        requires { HasRule self.old rule.decision }
        ensures replaced { Replaces self.old self.new rule }
        ensures profile { KeepsProfiles self.old self.new rule }
    {
        let place = place_of(&self.rules, rule.decision);
        self.rules[place] = rule;
    }
}

/// The first place at which a rule of the decision stands.
fn place_of(rules: &[Rule], decision: usize) -> usize
    requires { HasRule rules.now decision }
    ensures { IsFirstAt rules.now decision result }
{
    for (place, rule) in rules.iter().enumerate() {
        if rule.decision == decision {
            return place;
        }
    }
    unreachable!()
}
