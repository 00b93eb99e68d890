//! Each call once, over a small graph.

ghost use Rattle.std.specs.Prelude.{[], ◌∷◌, ◌==◌, if◌then◌else◌};

use crate::{ArcSets, Graph, NodeSet, ancestors, children_of_any, descendants, parents_of_any};

/// Two nodes and an arc from the first to the second.
struct OneArc;

impl Graph for OneArc {
    ghost parents_of = { λ g v. if v == 1 then 0 ∷ [] else [] };

    fn parent_set(&self, v: usize) -> NodeSet {
        if v == 1 {
            NodeSet::of(0)
        } else {
            NodeSet::empty()
        }
    }

    fn child_set(&self, u: usize) -> NodeSet {
        if u == 0 {
            NodeSet::of(1)
        } else {
            NodeSet::empty()
        }
    }
}

// numbers in each word of a set, and at their ends
#[test]
fn holds_what_was_added(rt: HostRuntime) {
    let mut set = NodeSet::empty();
    for v in [0, 63, 64, 255] {
        let is_new = set.insert(v);
        assert!(rt; is_new);
    }
    let is_new = set.insert(63);
    assert!(rt; !is_new);
    let is_new = set.insert_all(&[63, 100]);
    assert!(rt; is_new && set.holds(100));
    let is_new = set.insert_all(&[0, 100]);
    assert!(rt; !is_new);
    set.remove(64);
    set.remove(65);
    assert!(rt; set.holds(0) && set.holds(63) && set.holds(255));
    assert!(rt; !set.holds(1) && !set.holds(62) && !set.holds(64) && !set.holds(128));
    assert_eq!(rt; set.first_from(1), Some(63));
    assert_eq!(rt; set.first_from(101), Some(255));
    assert_eq!(rt; set.first_from(256), None);
    assert_eq!(rt; set.first_between(1, 63), None);
    assert_eq!(rt; set.first_between(1, 64), Some(63));
}

#[test]
fn joins_sets(rt: HostRuntime) {
    let mut left = NodeSet::of(7);
    left.insert(200);
    let mut right = NodeSet::of(200);
    right.insert(130);
    let either = left.union(&right);
    let both = left.intersection(&right);
    let rest = left.difference(&right);
    assert!(rt; either.holds(7) && either.holds(200) && either.holds(130) && !either.holds(71));
    assert!(rt; !both.holds(7) && both.holds(200) && !both.holds(130));
    assert!(rt; rest.holds(7) && !rest.holds(200) && !rest.holds(130));
}

#[test]
fn keeps_arcs(rt: HostRuntime) {
    let mut arcs = ArcSets::none();
    arcs.add_arcs_into(200, &[3, 70]);
    arcs.add_arcs_into(3, &[255]);
    let into = arcs.parents(200);
    assert!(rt; into.holds(3) && into.holds(70) && !into.holds(255));
    let out = arcs.children(3);
    assert!(rt; out.holds(200) && !out.holds(3) && !out.holds(255));
    let before = arcs.children(255);
    assert!(rt; before.holds(3) && !before.holds(200));
    let none = arcs.parents(70);
    assert!(rt; none.is_empty());
}

// an arc of the same tail into another node stays, and the node may gain arcs again
#[test]
fn takes_arcs_away(rt: HostRuntime) {
    let mut arcs = ArcSets::none();
    arcs.add_arcs_into(200, &[3, 70, 255]);
    arcs.add_arcs_into(7, &[70, 200]);
    arcs.remove_arcs_into(200);
    let into = arcs.parents(200);
    assert!(rt; into.is_empty());
    let first = arcs.children(3);
    let last = arcs.children(255);
    assert!(rt; first.is_empty() && last.is_empty());
    let out = arcs.children(70);
    assert!(rt; out.holds(7) && !out.holds(200));
    let others = arcs.parents(7);
    assert!(rt; others.holds(70) && others.holds(200));
    arcs.remove_arcs_into(70);
    arcs.add_arcs_into(200, &[3]);
    let again = arcs.parents(200);
    assert!(rt; again.holds(3) && !again.holds(70));
    let children = arcs.children(3);
    assert!(rt; children.holds(200) && !children.holds(70));
}

#[test]
fn steps_along_an_arc(rt: HostRuntime) {
    let children = children_of_any(&OneArc, &NodeSet::of(0));
    assert!(rt; children.holds(1) && !children.holds(0));
    let parents = parents_of_any(&OneArc, &NodeSet::of(1));
    assert!(rt; parents.holds(0) && !parents.holds(1));
}

#[test]
fn follows_an_arc(rt: HostRuntime) {
    let below_first = descendants(&OneArc, NodeSet::of(0));
    assert!(rt; below_first.holds(0) && below_first.holds(1) && !below_first.holds(2));
    let below_second = descendants(&OneArc, NodeSet::of(1));
    assert!(rt; !below_second.holds(0) && below_second.holds(1));
    let above_first = ancestors(&OneArc, NodeSet::of(0));
    assert!(rt; above_first.holds(0) && !above_first.holds(1));
    let above_second = ancestors(&OneArc, NodeSet::of(1));
    assert!(rt; above_second.holds(0) && above_second.holds(1) && !above_second.holds(2));
}
