//! The steps of a search: waves from all nodes that newly lead on, until none does.

ghost use Rattle.std.specs.Prelude.{◌↔◌, ℕ};
ghost use Rattle.node_sets.specs.Sets.{IsIn};
ghost use Rattle.bayes_ball.specs.Flow.{Way};
ghost use Rattle.bayes_ball.specs.Spread.{AreClosed, AreFresh, AreLeadingUp, FlowAllFrom, GoesDown, GoesUp, IsMarked, LeadsDown};

use maid_model::Diagram;
use node_sets::{NodeSet, children_of_any, parents_of_any};

/// The nodes from which walks that arrived there go on down the arcs.
fn leading_down(given: &NodeSet, down: &NodeSet, up: &NodeSet) -> NodeSet
    ensures { (v : ℕ) → IsIn result v ↔ LeadsDown given.now down.now up.now v }
{
    down.union(up).difference(given)
}

/// The nodes from which walks that arrived there go on up the arcs into them.
pub(crate) fn leading_up(given: &NodeSet, down: &NodeSet, up: &NodeSet) -> NodeSet
    ensures { AreLeadingUp given.now down.now up.now result }
{
    given.intersection(down).union(&up.difference(given))
}

/// The live nodes of the first set that are not in the second.
fn fresh_of(diagram: &Diagram, leading: &NodeSet, followed: &NodeSet) -> NodeSet
    ensures { AreFresh diagram.now.nodes leading.now followed.now result }
{
    leading
        .intersection(diagram.live_nodes())
        .difference(followed)
}

/// Goes on down from the live nodes that lead down and have not been followed down, and says
/// whether there are any.
pub(crate) fn go_down(
    diagram: &Diagram,
    given: &NodeSet,
    down: &mut NodeSet,
    up: &NodeSet,
    followed: &mut NodeSet,
) -> bool
    ensures { GoesDown diagram.now.nodes given.now up.now
        down.old followed.old down.new followed.new result }
{
    let fresh = fresh_of(diagram, &leading_down(given, down, up), followed);
    if fresh.is_empty() {
        return false;
    }
    let children = children_of_any(diagram, &fresh).intersection(diagram.live_nodes());
    *followed = followed.union(&fresh);
    *down = down.union(&children);
    true
}

/// Goes on up from the live nodes that lead up and have not been followed up, and says whether
/// there are any.
pub(crate) fn go_up(
    diagram: &Diagram,
    given: &NodeSet,
    down: &NodeSet,
    up: &mut NodeSet,
    followed: &mut NodeSet,
) -> bool
    ensures { GoesUp diagram.now.nodes given.now down.now
        up.old followed.old up.new followed.new result }
{
    let fresh = fresh_of(diagram, &leading_up(given, down, up), followed);
    if fresh.is_empty() {
        return false;
    }
    let parents = parents_of_any(diagram, &fresh).intersection(diagram.live_nodes());
    *followed = followed.union(&fresh);
    *up = up.union(&parents);
    true
}

/// Adds the marks to which walks go on from those that are there.
pub fn close(diagram: &Diagram, given: &NodeSet, down: &mut NodeSet, up: &mut NodeSet)
    ensures kept { (w : Way) (v : ℕ) → IsMarked down.old up.old w v → IsMarked down.new up.new w v }
    ensures sound { FlowAllFrom diagram.now.nodes given.now down.old up.old down.new up.new }
    ensures closed { AreClosed diagram.now.nodes given.now down.new up.new }
{
    let mut followed_down = NodeSet::empty();
    let mut followed_up = NodeSet::empty();
    'waves: while go_down(diagram, given, down, up, &mut followed_down)
        | go_up(diagram, given, down, up, &mut followed_up)
    {}
}
