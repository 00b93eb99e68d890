//! Searches for active walks, from a node, from an extra parent of one, or from any of several
//! nodes.

ghost use Rattle.std.specs.Prelude.{ℕ, ◌<◌, ◌↔◌, length};
ghost use Rattle.node_sets.specs.declared.sets.TheConstants.{MOST_NODES};
ghost use Rattle.node_sets.specs.Sets.{IsIn};
ghost use Rattle.bayes_ball.specs.Search.{CanStart, CanStartAtAll, TellsReach, TellsReachFromAny};
ghost use Rattle.bayes_ball.specs.Flow.{Way};
ghost use Rattle.bayes_ball.specs.Spread.{IsMarked, StartsAt, node_of};

use crate::marks::Marks;
use crate::waves::close;
use maid_model::Diagram;
use node_sets::NodeSet;

/// Where a search starts: at a node, or at an extra parent of a node.
#[derive(Clone, Copy, Debug, PartialEq, Eq)]
pub enum Start {
    Node(usize),
    ParentOf(usize),
}

/// The start alone, at which a walk arrives down an arc, or up one.
fn begin(start: Start) -> (NodeSet, NodeSet)
    requires { node_of start < MOST_NODES }
    ensures { (w : Way) (v : ℕ) → IsMarked result.0 result.1 w v ↔ StartsAt start w v }
{
    match start {
        Start::Node(x) => (NodeSet::empty(), NodeSet::of(x)),
        Start::ParentOf(x) => (NodeSet::of(x), NodeSet::empty()),
    }
}

/// Where active walks lead from the start. A node to start from must be live and not given; it is
/// enough that a node is live to start from an extra parent of it. After a search from a node the
/// marks also tell of which nodes an extra parent has an active walk to it; after one from an extra
/// parent they don't.
///
/// It takes no memory, and looks at most once at the children and once at the parents of each node
/// to which a walk leads.
pub fn reach(diagram: &Diagram, start: Start, given: &NodeSet) -> Marks
    requires given { (v : ℕ) → IsIn given.now v → v < length diagram.now.nodes }
    requires start { CanStart diagram.now.nodes given.now start }
    ensures { TellsReach diagram.now.nodes given.now start result }
{
    let _count = diagram.count();
    let (mut down, mut up) = begin(start);
    close(diagram, given, &mut down, &mut up);
    Marks::of(given, &down, &up)
}

/// Where active walks lead from some of the starts, all of which must be live and not given. The
/// marks also tell of which nodes an extra parent has an active walk to some of the starts. Memory
/// and cost are those of one `reach`.
pub fn reach_from_any(diagram: &Diagram, starts: &NodeSet, given: &NodeSet) -> Marks
    requires given { (v : ℕ) → IsIn given.now v → v < length diagram.now.nodes }
    requires starts { CanStartAtAll diagram.now.nodes given.now starts.now }
    ensures { TellsReachFromAny diagram.now.nodes given.now starts.now result }
{
    let _count = diagram.count();
    let mut down = NodeSet::empty();
    let mut up = *starts;
    close(diagram, given, &mut down, &mut up);
    Marks::of(given, &down, &up)
}
