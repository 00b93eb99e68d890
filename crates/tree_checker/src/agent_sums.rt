//! An agent's sum over all worlds of a diagram, under rules that are exchanged one by one.

ghost use Rattle.std.specs.Prelude.{◌≡◌, ◌<◌, [], IfOk, length, slice_index_or, slice_set};
ghost use Rattle.diagram_graph.specs.Cycles.{lists_in};
ghost use Rattle.maid_model.specs.Bounds.{HasRoomForWeight};
ghost use Rattle.maid_model.specs.Gains.{gain_of, mass};
ghost use Rattle.maid_model.specs.Nodes.{IsDecision};
ghost use Rattle.maid_model.specs.Profiles.{IsProfile, IsRule, Replaces};
ghost use Rattle.tree_checker.specs.AgentSums.{IsAgentSum};

use crate::factors::all_factors;
use crate::walks::add_worlds;
use diagram_graph::topological;
use maid_model::{Diagram, Profile, Rule, World, profile_has_rules};
use node_sets::NodeSet;
use std::alloc::{AllocError, Global};

/// An agent of a diagram, a profile of it, and what walks down its nodes look at: all but the
/// factors of the exchanged rules is made once.
#[derive(Drop)]
pub struct AgentSum {
    pub agent: usize,
    pub rules: Profile,
    /// The agent's utilities.
    marks: NodeSet,
    /// All nodes, parents first.
    order: Vec<usize>,
    /// The factors of each node under the rules.
    factors: Vec<Vec<u128>>,
    /// The first world, in which a walk goes through the others.
    world: World,
}

/// Writes the weights in the place of the node's factors.
fn set_factors(factors: &mut [Vec<u128>], v: usize, weights: &[u128])
    requires node { v < length factors.old }
    requires count { length (slice_index_or (lists_in factors.old) v []) ≡ length weights.now }
    ensures { lists_in factors.new ≡ slice_set (lists_in factors.old) v weights.now }
{
    factors[v].copy_from_slice(weights);
}

impl AgentSum {
    /// The agent's sum under these rules.
    ///
    /// # Errors
    ///
    /// Only where memory runs out.
    pub fn new(
        alloc: Global,
        diagram: &Diagram,
        rules: Profile,
        agent: usize,
    ) -> Result<AgentSum, AllocError>
        requires { IsProfile diagram.now.nodes rules }
        ensures sum { IfOk result (IsAgentSum diagram.now.nodes) }
        ensures agent { IfOk result (λ sum. sum.agent ≡ agent) }
        ensures rules { IfOk result (λ sum. sum.rules ≡ rules) }
    {
        let factors = all_factors(alloc, diagram, &rules, diagram.count())?;
        let order = topological(alloc, diagram)?;
        let world = World::first(alloc, diagram)?;
        Ok(AgentSum {
            agent,
            rules,
            marks: diagram.utilities_of(agent),
            order,
            factors,
            world,
        })
    }

    /// The sum, over all worlds of the diagram, of the world's weight under the rules times the
    /// agent's utilities. It goes down the nodes once for each choice of states of those before,
    /// but for what has no weight, and takes no memory.
    pub fn gain(&mut self, diagram: &Diagram) -> i128
        requires sum { IsAgentSum diagram.now.nodes self.old }
        requires fits { HasRoomForWeight diagram.now (mass diagram.now.nodes self.old.rules) }
        ensures gain { result ≡ gain_of diagram.now.nodes self.old.rules self.old.agent }
        ensures again { self.new ≡ self.old }
    {
        let mut gains = [0];
        let mut masses = [0];
        add_worlds(
            diagram,
            &self.rules,
            &self.marks,
            diagram.count(),
            &self.order,
            &self.factors,
            &mut self.world,
            &mut gains,
            &mut masses,
        );
        gains[0]
    }

    /// Puts the rule in the place of the one for its decision. It takes no memory.
    pub fn put(&mut self, diagram: &Diagram, rule: Rule)
        requires sum { IsAgentSum diagram.now.nodes self.old }
        requires decision { IsDecision diagram.now.nodes rule.decision }
        requires rule { IsRule diagram.now.nodes rule }
        ensures sum { IsAgentSum diagram.now.nodes self.new }
        ensures agent { self.new.agent ≡ self.old.agent }
        ensures replaced { Replaces self.old.rules self.new.rules rule }
    {
        // A profile has a rule for each decision.
        profile_has_rules();
        let _count = diagram.count();
        set_factors(&mut self.factors, rule.decision, &rule.weights);
        self.rules.put(rule);
    }
}
