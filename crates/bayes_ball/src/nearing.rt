//! A search from the goals of a decision that ends as soon as some nodes are reached.

ghost use Rattle.std.specs.Prelude.{ℕ, ◌↔◌, IsTrue};
ghost use Rattle.node_sets.specs.Sets.{IsIn};
ghost use Rattle.maid_model.specs.Nodes.{IsDecision};
ghost use Rattle.bayes_ball.specs.Finding.{AreAllMarked, FindsGoals};
ghost use Rattle.bayes_ball.specs.Search.{AllReachGoals};

use crate::goals::family_of;
use crate::waves::{go_down, go_up};
use maid_model::Diagram;
use node_sets::{NodeSet, children_of_any};

/// Goes on from the nodes below that have not been followed to their children, marks those that are
/// new there and utilities of the agent, and says whether there was any to follow.
fn find_goals(
    diagram: &Diagram,
    agent: usize,
    below: &mut NodeSet,
    followed: &mut NodeSet,
    up: &mut NodeSet,
) -> bool
    ensures { FindsGoals diagram.now.nodes agent
        below.old followed.old up.old below.new followed.new up.new result }
{
    let fresh = below.difference(followed);
    if fresh.is_empty() {
        return false;
    }
    let found = children_of_any(diagram, &fresh).difference(below);
    *followed = followed.union(&fresh);
    *up = up.union(&diagram.utilities_among(agent, &found));
    *below = below.union(&found);
    true
}

/// Whether each of the nodes has a mark.
fn are_all_marked(nodes: &NodeSet, down: &NodeSet, up: &NodeSet) -> bool
    ensures { IsTrue result ↔ AreAllMarked nodes.now down.now up.now }
{
    nodes.difference(&down.union(up)).is_empty()
}

/// Whether an active walk leads to a goal of the decision from each of these nodes, given the
/// decision and its parents. It goes on, wave by wave, from the decision to its descendants and
/// from the goals that it has found among these along walks, and ends as soon as each node is
/// reached, mostly long before all goals are found. It takes no memory; at worst its cost is that
/// of `reach_from_goals`.
pub fn all_reach_goals(diagram: &Diagram, decision: usize, nodes: &NodeSet) -> bool
    requires { IsDecision diagram.now.nodes decision }
    ensures { IsTrue result ↔ AllReachGoals diagram.now.nodes decision nodes.now }
{
    let agent = diagram.agent_of(decision);
    let family = family_of(diagram, decision);
    let mut below = NodeSet::of(decision);
    let mut down = NodeSet::empty();
    let mut up = NodeSet::empty();
    let mut followed = NodeSet::empty();
    let mut followed_down = NodeSet::empty();
    let mut followed_up = NodeSet::empty();
    'waves: while !are_all_marked(nodes, &down, &up) {
        // No step waits for another to end: walks spread while goals are still looked for.
        let went = find_goals(diagram, agent, &mut below, &mut followed, &mut up)
            | go_down(diagram, &family, &mut down, &up, &mut followed_down)
            | go_up(diagram, &family, &down, &mut up, &mut followed_up);
        if !went {
            return false;
        }
    }
    true
}
