//! The arcs of a graph as sets: each node's parents and each node's children.

ghost use Rattle.std.specs.Prelude.{ℕ, ◌<◌, ◌⊎◌, ◌↔◌, ◌≡◌, Contains};
ghost use Rattle.node_sets.specs.declared.sets.TheConstants.{MOST_NODES};
ghost use Rattle.node_sets.specs.Sets.{IsIn};
ghost use Rattle.node_sets.specs.Arcs.{HasParent, HasChild};

use crate::sets::{MOST_NODES, NodeSet};

/// Each node's parents and each node's children.
#[derive(Clone, Copy, Debug)]
pub struct ArcSets {
    /// The parents of the node of that number.
    parents: [NodeSet; MOST_NODES],
    /// The children of the node of that number.
    children: [NodeSet; MOST_NODES],
}

impl ArcSets {
    /// No arcs.
    pub fn none() -> ArcSets
        ensures parents { (u v : ℕ) → HasParent result u v → ⊥ }
        ensures children { (u v : ℕ) → HasChild result u v → ⊥ }
    {
        let none = [NodeSet::empty(); MOST_NODES];
        ArcSets {
            parents: none,
            children: none,
        }
    }

    /// Adds an arc into the node from each node of the list.
    pub fn add_arcs_into(&mut self, v: usize, list: &[usize])
        requires node { v < MOST_NODES }
        requires list { (u : ℕ) → Contains list.now u → u < MOST_NODES }
        ensures parents { (u w : ℕ) → HasParent self.new u w
            ↔ (HasParent self.old u w ⊎ (Contains list.now u × (w ≡ v))) }
        ensures children { (u w : ℕ) → HasChild self.new u w
            ↔ (HasChild self.old u w ⊎ (Contains list.now u × (w ≡ v))) }
    {
        let mut parents = self.parents[v];
        parents.insert_all(list);
        self.parents[v] = parents;
        for u in list {
            let mut children = self.children[*u];
            children.insert(v);
            self.children[*u] = children;
        }
    }

    /// Takes away the arcs into the node. It goes through the node's parents once.
    pub fn remove_arcs_into(&mut self, v: usize)
        requires { v < MOST_NODES }
        ensures parents { (u w : ℕ) → HasParent self.new u w
            ↔ (HasParent self.old u w × (w ≡ v → ⊥)) }
        ensures children { (u w : ℕ) → HasChild self.new u w
            ↔ (HasChild self.old u w × (HasParent self.old u v × (w ≡ v) → ⊥)) }
    {
        let parents = self.parents[v];
        self.parents[v] = NodeSet::empty();
        let mut from = 0;
        'parents: while let Some(u) = parents.first_from(from) {
            let mut children = self.children[u];
            children.remove(v);
            self.children[u] = children;
            from = u + 1;
        }
    }

    /// The node's parents.
    pub fn parents(&self, v: usize) -> NodeSet
        requires { v < MOST_NODES }
        ensures { (u : ℕ) → IsIn result u ↔ HasParent self.now u v }
    {
        self.parents[v]
    }

    /// The node's children.
    pub fn children(&self, u: usize) -> NodeSet
        requires { u < MOST_NODES }
        ensures { (v : ℕ) → IsIn result v ↔ HasChild self.now u v }
    {
        self.children[u]
    }
}
