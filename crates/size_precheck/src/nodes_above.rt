//! From where paths of arcs lead to each node.

ghost use Rattle.std.specs.Prelude.{◌≡◌, ◌<◌, ◌↔◌, length, IfOk, IsTrue};
ghost use Rattle.node_sets.specs.declared.sets.TheConstants.{MOST_NODES};
ghost use Rattle.size_precheck.specs.Above.{AreAboveKnown, AreAllAbove, FindsMore, IsAbove, KnowsParents};

use maid_model::Diagram;
use node_sets::{Graph, NodeSet, ancestors};
use std::alloc::{AllocError, Global};

/// How often the nodes are gone over in text order. It takes once more than arcs of one path lead
/// back in the text, so that few texts leave any node: it is searched for.
const PASSES: usize = 16;

/// Whether all parents of the node are known.
fn knows_parents(diagram: &Diagram, known: &NodeSet, v: usize) -> bool
    requires { v < MOST_NODES }
    ensures { IsTrue result ↔ KnowsParents diagram.now.nodes known.now v }
{
    diagram.parent_set(v).difference(known).is_empty()
}

/// The node, and all from which a path of arcs leads to it: what stands above its parents, which
/// are known.
fn join_parents(diagram: &Diagram, above: &[NodeSet], known: &NodeSet, v: usize) -> NodeSet
    requires within { v < length diagram.now.nodes }
    requires all { length above.now ≡ length diagram.now.nodes }
    requires found { AreAboveKnown diagram.now.nodes known.now above.now }
    requires parents { KnowsParents diagram.now.nodes known.now v }
    ensures { IsAbove diagram.now.nodes v result }
{
    let parents = diagram.parents(v);
    let mut set = NodeSet::of(v);
    for parent in parents {
        set = set.union(&above[*parent]);
    }
    set
}

/// Finds the nodes of which all parents are known, in text order, and says whether there was one.
fn go_over(diagram: &Diagram, above: &mut [NodeSet], known: &mut NodeSet) -> bool
    requires all { length above.old ≡ length diagram.now.nodes }
    requires found { AreAboveKnown diagram.now.nodes known.old above.old }
    ensures all { length above.new ≡ length above.old }
    ensures found { AreAboveKnown diagram.now.nodes known.new above.new }
    ensures more { IsTrue result ↔ FindsMore known.old known.new }
{
    let mut more = false;
    for v in 0..diagram.count() {
        if !known.holds(v) && knows_parents(diagram, known, v) {
            above[v] = join_parents(diagram, above, known, v);
            known.insert(v);
            more = true;
        }
    }
    more
}

/// Finds the nodes that are not known, each by a search.
fn search_rest(diagram: &Diagram, above: &mut [NodeSet], known: &NodeSet)
    requires all { length above.old ≡ length diagram.now.nodes }
    requires found { AreAboveKnown diagram.now.nodes known.now above.old }
    ensures all { length above.new ≡ length above.old }
    ensures found { AreAllAbove diagram.now.nodes above.new }
{
    for v in 0..diagram.count() {
        if !known.holds(v) {
            above[v] = ancestors(diagram, NodeSet::of(v));
        }
    }
}

/// Finds what stands above each node.
fn find_all(diagram: &Diagram, above: &mut [NodeSet])
    requires all { length above.old ≡ length diagram.now.nodes }
    ensures all { length above.new ≡ length above.old }
    ensures found { AreAllAbove diagram.now.nodes above.new }
{
    let mut known = NodeSet::empty();
    for _ in 0..PASSES {
        if !go_over(diagram, above, &mut known) {
            break;
        }
    }
    search_rest(diagram, above, &known);
}

/// For each node the set of it and of all from which a path of arcs leads to it.
pub fn list_above(alloc: Global, diagram: &Diagram) -> Result<Vec<NodeSet>, AllocError>
    ensures all { IfOk result (λ above. length above.items ≡ length diagram.now.nodes) }
    ensures found { IfOk result (λ above. AreAllAbove diagram.now.nodes above.items) }
{
    let mut above = vec![in alloc; NodeSet::empty(); diagram.count()]?;
    find_all(diagram, &mut above);
    Ok(above)
}
