//! Items and what each of them needs.

ghost use Rattle.std.specs.Prelude.{◌≡◌, ℕ, ◌<◌, List, length, map};
ghost use Rattle.diagram_graph.specs.Needs.{needs_of};

use maid_model::Diagram;

/// Numbered items, each with a list of the items that it needs.
pub trait Needs {
    ghost lists: { Self → List (List ℕ) };

    /// How many items there are.
    fn count(&self) -> usize
        ensures { result ≡ length (lists self.now) };

    /// What an item needs.
    fn needs(&self, item: usize) -> &[usize]
        requires { item < length (lists self.now) }
        ensures { result.now ≡ needs_of (lists self.now) item };
}

/// Each item needs what is in its list.
impl Needs for &[Vec<usize>] {
    ghost lists = { λ rows. map (λ row. row.items) rows.now };

    fn count(&self) -> usize {
        self.len()
    }

    fn needs(&self, item: usize) -> &[usize] {
        &self[item]
    }
}

/// Each node needs its parents.
impl Needs for Diagram {
    ghost lists = { λ diagram. map (λ node. node.parents) diagram.nodes };

    fn count(&self) -> usize {
        Diagram::count(self)
    }

    fn needs(&self, item: usize) -> &[usize] {
        self.node(item).parents.as_slice()
    }
}
