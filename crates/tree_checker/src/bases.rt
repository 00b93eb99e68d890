//! The base of a decision in the rules of a report.

ghost use Rattle.std.specs.Prelude.{◌≡◌, IfOk};
ghost use Rattle.maid_model.specs.Answers.{IsBase};
ghost use Rattle.maid_model.specs.Nodes.{IsDecision};
ghost use Rattle.maid_model.specs.Profiles.{IsProfile};
ghost use Rattle.relevance_graph.specs.Relevant.{IsRelevance};
ghost use Rattle.tree_checker.specs.Judged.{rule_as};

use maid_model::{Diagram, Profile, Rule, profile_has_rules};
use relevance_graph::Relevance;
use std::alloc::{AllocError, Global};

/// A copy of the rule, as that of a decision with this number.
pub(crate) fn copy_rule(alloc: Global, rule: &Rule, decision: usize) -> Result<Rule, AllocError>
    ensures { IfOk result (λ r. r ≡ rule_as rule.now decision) }
{
    Ok(Rule {
        decision,
        total: rule.total,
        weights: Vec::from_slice(alloc, &rule.weights)?,
    })
}

/// The base of the decision: the chosen rules at the decisions that it relies on, and uniform rules
/// at all others.
pub(crate) fn base_of(
    alloc: Global,
    diagram: &Diagram,
    relevance: &Relevance,
    chosen: &Profile,
    decision: usize,
) -> Result<Profile, AllocError>
    requires decision { IsDecision diagram.now.nodes decision }
    requires relevance { IsRelevance diagram.now.nodes relevance.now }
    requires chosen { IsProfile diagram.now.nodes chosen.now }
    ensures { IfOk result (IsBase diagram.now.nodes chosen.now decision) }
{
    // A profile has a rule for each decision.
    profile_has_rules();
    let mut base = Profile::uniform(alloc, diagram)?;
    for on in relevance.relied_on(decision) {
        base.put(copy_rule(alloc, chosen.rule(*on), *on)?);
    }
    Ok(base)
}
