//! What the sums of plans give to an agent where a node's state is given.

ghost use Rattle.std.specs.Prelude.{◌≡◌, ◌<◌, ◌≤◌, true, if◌then◌else◌, length, nat_abs};
ghost use Rattle.maid_model.specs.Diagrams.{greatest_number};
ghost use Rattle.maid_model.specs.Nodes.{is_utility_of};
ghost use Rattle.maid_model.specs.Scopes.{chance_factor};
ghost use Rattle.node_sets.specs.Sets.{holds};
ghost use Rattle.evidence.specs.Stakes.{HoldsGivenStake, IsFractionTo};
ghost use Rattle.evidence.specs.Stakes.{chances_in, given_gain_to, given_share_of, mass_to};

use maid_model::{Diagram, Kind, Ratio, descent_is_tested};
use node_sets::{NodeSet, ancestors};

/// The total of a chance node of a set, and 1 at another node.
fn chance_factor(diagram: &Diagram, set: &NodeSet, v: usize) -> u128
    requires { v < length diagram.now.nodes }
    ensures { result ≡ (if holds set.now v then chance_factor diagram.now.nodes v else 1) }
{
    let kind = diagram.kind(v);
    if !set.holds(v) {
        return 1;
    }
    match kind {
        Kind::Chance => diagram.weight_total(v),
        Kind::Decision | Kind::Utility => 1,
    }
}

/// The product of the totals of a set's chance nodes.
fn chance_product(diagram: &Diagram, set: &NodeSet) -> u128
    requires { chances_in diagram.now.nodes set.now ≤ greatest_number }
    ensures { result ≡ chances_in diagram.now.nodes set.now }
{
    let mut product = 1;
    for v in 0..diagram.count() {
        product *= chance_factor(diagram, set, v);
    }
    product
}

/// An agent where a node's state is given, and what its conditional expected utility is made of.
#[derive(Drop)]
pub(crate) struct Stake<'a> {
    pub diagram: &'a Diagram,
    pub node: usize,
    pub agent: usize,
    /// What the plan that keeps the node sums to at the state.
    pub mass: u128,
    /// What it sums to with each utility.
    pub worths: &'a [i128],
    /// The nodes from which a path leads to the node or to one of the agent's utilities.
    pub scope: NodeSet,
}

impl<'a> Stake<'a> {
    /// The weight of the worlds with the state in the agent's scope.
    fn mass(&self) -> u128
        requires stake { HoldsGivenStake self.now }
        ensures { result ≡ mass_to self.now }
    {
        descent_is_tested();
        let planned = ancestors(self.diagram, NodeSet::of(self.node));
        let left = self.scope.difference(&planned);
        self.mass * chance_product(self.diagram, &left)
    }

    /// What a utility gives to the agent's gain: its worth times the totals of the scope's nodes
    /// that its plan lacks.
    fn given(&self, utility: usize) -> i128
        requires stake { HoldsGivenStake self.now }
        requires within { utility < length self.now.diagram.now.nodes }
        requires owned { is_utility_of self.now.diagram.now.nodes self.now.agent utility ≡ true }
        ensures { result ≡ given_share_of self.now utility }
    {
        descent_is_tested();
        let mut ends = NodeSet::of(self.node);
        ends.insert(utility);
        let mut planned = ancestors(self.diagram, ends);
        planned.remove(utility);
        let left = self.scope.difference(&planned);
        self.worths[utility] * chance_product(self.diagram, &left) as i128
    }

    /// The same of any node: 0 where it is none of the agent's utilities.
    fn given_by(&self, v: usize) -> i128
        requires stake { HoldsGivenStake self.now }
        requires within { v < length self.now.diagram.now.nodes }
        ensures { result ≡ given_share_of self.now v }
    {
        if self.diagram.is_utility_of(self.agent, v) {
            self.given(v)
        } else {
            0
        }
    }

    /// The agent's gain over the worlds with the state in the agent's scope.
    fn gain(&self) -> i128
        requires stake { HoldsGivenStake self.now }
        ensures gain { result ≡ given_gain_to self.now }
        ensures small { nat_abs result ≤ greatest_number }
    {
        let mut gain = 0;
        for v in 0..self.diagram.count() {
            gain += self.given_by(v);
        }
        gain
    }

    /// What the profile is worth to the agent where the state is given.
    pub(crate) fn expected(&self) -> Ratio
        requires stake { HoldsGivenStake self.now }
        ensures { IsFractionTo self.now result }
    {
        let mass = self.mass();
        Ratio::reduced(self.gain(), mass * self.diagram.scale())
    }
}
