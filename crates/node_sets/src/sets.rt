//! Sets of node numbers.

ghost use Rattle.std.specs.Prelude.{◌≡◌, ℕ, ◌<◌, ◌≤◌, ◌⊎◌, ◌↔◌, Contains, MatchBool, MatchOption};
ghost use Rattle.node_sets.specs.declared.sets.TheConstants.{MOST_NODES};

/// How many nodes a diagram may have.
pub const MOST_NODES: usize = 256;

/// A set of node numbers below `MOST_NODES`.
#[derive(Clone, Copy, Debug, PartialEq, Eq)]
pub struct NodeSet {
    /// Bit `v % 64` of word `v / 64` is set where v is in the set.
    words: [u64; 4],
}

impl NodeSet {
    ghost use Rattle.node_sets.specs.Sets.{Adds, HasNoneFrom, IsFirstFrom, IsIn, TellsFirstBetween, holds};

    /// The set without a node.
    pub fn empty() -> NodeSet
        ensures { (x : ℕ) → IsIn result x → ⊥ }
    {
        NodeSet { words: [0; 4] }
    }

    /// The set with this node alone.
    pub fn of(v: usize) -> NodeSet
        requires { v < MOST_NODES }
        ensures { (x : ℕ) → IsIn result x ↔ (x ≡ v) }
    {
        let mut set = NodeSet::empty();
        set.insert(v);
        set
    }

    /// Whether the node is in the set.
    pub fn holds(&self, v: usize) -> bool
        requires { v < MOST_NODES }
        ensures { result ≡ holds self.now v }
    {
        (self.words[v / 64] >> (v % 64)) & 1 == 1
    }

    /// Whether no node is in the set.
    pub fn is_empty(&self) -> bool
        ensures { MatchBool result (HasNoneFrom self.now 0) ((v : ℕ) × IsFirstFrom self.now 0 v) }
    {
        self.first_from(0).is_none()
    }

    /// The first node of the set from this number on. It looks at each of the words once at most,
    /// so a walk through the whole set takes about as long as it has nodes.
    pub fn first_from(&self, from: usize) -> Option<usize>
        requires { from ≤ MOST_NODES }
        ensures { MatchOption result (HasNoneFrom self.now from) (IsFirstFrom self.now from) }
    {
        let first = from / 64;
        if first == self.words.len() {
            return None;
        }
        let rest = self.words[first] >> (from % 64);
        if rest != 0 {
            return Some(from + rest.trailing_zeros() as usize);
        }
        for i in first + 1..self.words.len() {
            if self.words[i] != 0 {
                return Some(64 * i + self.words[i].trailing_zeros() as usize);
            }
        }
        None
    }

    /// The first node of the set from one number on and below another. It looks at the words as
    /// `first_from` does.
    pub fn first_between(&self, from: usize, end: usize) -> Option<usize>
        requires { from ≤ MOST_NODES }
        ensures { TellsFirstBetween self.now from end result }
    {
        match self.first_from(from) {
            Some(v) if v < end => Some(v),
            _ => None,
        }
    }

    /// Adds the node, and says whether that is new.
    pub fn insert(&mut self, v: usize) -> bool
        requires { v < MOST_NODES }
        ensures { Adds (λ x. x ≡ v) self.old self.new result }
    {
        if self.holds(v) {
            return false;
        }
        self.words[v / 64] |= 1u64 << (v % 64);
        true
    }

    /// Adds the nodes of the list, and says whether one of them is new.
    pub fn insert_all(&mut self, list: &[usize]) -> bool
        requires { (v : ℕ) → Contains list.now v → v < MOST_NODES }
        ensures { Adds (Contains list.now) self.old self.new result }
    {
        let mut changed = false;
        for v in list {
            changed |= self.insert(*v);
        }
        changed
    }

    /// Takes the node out.
    pub fn remove(&mut self, v: usize)
        requires { v < MOST_NODES }
        ensures { (x : ℕ) → IsIn self.new x ↔ (IsIn self.old x × (x ≡ v → ⊥)) }
    {
        self.words[v / 64] &= !(1u64 << (v % 64));
    }

    /// The nodes that are in this set or in the other.
    pub fn union(&self, other: &NodeSet) -> NodeSet
        ensures { (x : ℕ) → IsIn result x ↔ (IsIn self.now x ⊎ IsIn other.now x) }
    {
        let [a, b, c, d] = self.words;
        let [e, f, g, h] = other.words;
        NodeSet {
            words: [a | e, b | f, c | g, d | h],
        }
    }

    /// The nodes that are in both sets.
    pub fn intersection(&self, other: &NodeSet) -> NodeSet
        ensures { (x : ℕ) → IsIn result x ↔ (IsIn self.now x × IsIn other.now x) }
    {
        let [a, b, c, d] = self.words;
        let [e, f, g, h] = other.words;
        NodeSet {
            words: [a & e, b & f, c & g, d & h],
        }
    }

    /// The nodes that are in this set and not in the other.
    pub fn difference(&self, other: &NodeSet) -> NodeSet
        ensures { (x : ℕ) → IsIn result x ↔ (IsIn self.now x × (IsIn other.now x → ⊥)) }
    {
        let [a, b, c, d] = self.words;
        let [e, f, g, h] = other.words;
        NodeSet {
            words: [a & !e, b & !f, c & !g, d & !h],
        }
    }
}
