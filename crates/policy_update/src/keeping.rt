//! What is kept from round to round.

ghost use Rattle.std.specs.Prelude.{◌≡◌, ◌<◌, IfOk};
ghost use Rattle.std.specs.List.{AllZip};
ghost use Rattle.maid_laws.specs.Optimum.{IsPure};
ghost use Rattle.maid_model.specs.Nodes.{decisions_of};
ghost use Rattle.node_sets.specs.declared.sets.TheConstants.{MOST_NODES};
ghost use Rattle.policy_update.specs.Kept.{AddsAffected, AreDecisionsAndScopes, IsKept, IsScopeOf};
ghost use Rattle.size_precheck.specs.Decisions.{ArePlans};

use maid_model::{Diagram, Profile};
use node_sets::NodeSet;
use rule_solver::list_totals;
use size_precheck::DecisionPlans;
use std::alloc::{AllocError, Global};
use weight_scale::decision_scope;

/// What all rounds share, since no rule changes it that is pure: plans and scopes look at the
/// diagram's shape alone, and the total of a pure rule is 1.
#[derive(Drop)]
pub(crate) struct Kept<'a> {
    /// The decisions in text order.
    pub decisions: &'a [usize],
    /// Their plans.
    pub plans: &'a [DecisionPlans],
    /// Their scopes.
    pub scopes: Vec<NodeSet>,
    /// The total of each node's table or rule.
    pub totals: Vec<u128>,
}

/// The scopes of the decisions.
fn list_scopes(
    alloc: Global,
    diagram: &Diagram,
    decisions: &[usize],
) -> Result<Vec<NodeSet>, AllocError>
    requires { decisions.now ≡ decisions_of diagram.now.nodes }
    ensures { IfOk result (λ scopes.
        AllZip (IsScopeOf diagram.now.nodes) (decisions_of diagram.now.nodes) scopes.items) }
{
    let mut scopes = Vec::with_capacity(alloc, decisions.len())?;
    for decision in decisions {
        scopes.push(decision_scope(diagram, *decision))?;
    }
    Ok(scopes)
}

impl<'a> Kept<'a> {
    /// What is kept of the decisions, which have these plans, in a profile of pure rules.
    pub(crate) fn new(
        alloc: Global,
        diagram: &Diagram,
        decisions: &'a [usize],
        profile: &Profile,
        plans: &'a [DecisionPlans],
    ) -> Result<Kept<'a>, AllocError>
        requires decisions { decisions.now ≡ decisions_of diagram.now.nodes }
        requires pure { IsPure diagram.now.nodes profile.now }
        requires planned { ArePlans diagram.now.nodes (decisions_of diagram.now.nodes) plans.now }
        ensures { IfOk result (IsKept diagram.now.nodes) }
    {
        Ok(Kept {
            decisions,
            plans,
            scopes: list_scopes(alloc, diagram, decisions)?,
            totals: list_totals(alloc, diagram, profile)?,
        })
    }

    /// Adds the decisions whose scope has this one to the set: what their states gain may look at
    /// its rule.
    pub(crate) fn add_affected(&self, decision: usize, set: &mut NodeSet)
        requires lists { AreDecisionsAndScopes self.now }
        requires decision { decision < MOST_NODES }
        ensures { AddsAffected self.now decision set.old set.new }
    {
        for place in 0..self.scopes.len() {
            if self.scopes[place].holds(decision) {
                set.insert(self.decisions[place]);
            }
        }
    }
}
