//! Worlds, one after another.

ghost use Rattle.std.specs.Prelude.{◌≡◌, ◌<◌, ◌*◌, IfOk, IsTrue, IsFalse, length};
ghost use Rattle.maid_model.specs.Nodes.{counts_of, states_of, rows_of};
ghost use Rattle.maid_model.specs.Tables.{row_of, cell_of};
ghost use Rattle.maid_model.specs.Worlds.{IsLastWorld, IsNextWorld, IsWorld, first_world, world_of};

use crate::diagrams::Diagram;
use std::alloc::{AllocError, Global};
use std::marker::Model;

/// A state for each node; a utility has state 0.
#[derive(Debug, Drop)]
pub struct World {
    pub states: Vec<usize>,
}

impl Model for World {
    ghost use Rattle.std.specs.Prelude.{List, ℕ};

    ghost Value = { List ℕ };

    ghost view = { λ w. w.states.items };
}

impl World {
    /// The first world of the diagram: each node in its first state.
    pub fn first(alloc: Global, diagram: &Diagram) -> Result<World, AllocError>
        ensures first { IfOk result (λ w. w ≡ first_world (length diagram.now.nodes)) }
        ensures world { IfOk result (IsWorld (counts_of diagram.now.nodes)) }
    {
        let states = vec![in alloc; 0; diagram.count()]?;
        Ok(World { states })
    }

    /// The row of the node's table that this world picks.
    pub fn row(&self, diagram: &Diagram, v: usize) -> usize
        requires node { v < length diagram.now.nodes }
        requires world { IsWorld (counts_of diagram.now.nodes) self.now }
        ensures { result ≡ row_of diagram.now.nodes v (world_of self.now) }
    {
        let mut row = 0;
        for u in diagram.parents(v) {
            row = row * diagram.states(*u) + self.states[*u];
        }
        row
    }

    /// The place of the cell that this world picks in a table with a column for each of the node's
    /// states.
    pub fn cell(&self, diagram: &Diagram, v: usize) -> usize
        requires node { v < length diagram.now.nodes }
        requires world { IsWorld (counts_of diagram.now.nodes) self.now }
        ensures cell { result ≡ cell_of diagram.now.nodes v (world_of self.now) }
        ensures within { result < rows_of diagram.now.nodes v * states_of diagram.now.nodes v }
    {
        self.row(diagram, v) * diagram.states(v) + self.states[v]
    }

    /// Goes on to the next world in list order, the last node fastest. `false` where this was the
    /// last one, and then it is the first again. It takes no memory.
    pub fn next(&mut self, diagram: &Diagram) -> bool
        requires { IsWorld (counts_of diagram.now.nodes) self.old }
        ensures world { IsWorld (counts_of diagram.now.nodes) self.new }
        ensures more { IsTrue result → IsNextWorld (counts_of diagram.now.nodes) self.old self.new }
        ensures last { IsFalse result → IsLastWorld (counts_of diagram.now.nodes) self.old }
        ensures again { IsFalse result → self.new ≡ first_world (length diagram.now.nodes) }
    {
        let mut v = self.states.len();
        while v > 0 {
            v -= 1;
            let last = diagram.states(v) - 1;
            let state = self.states[v];
            if state < last {
                self.states[v] = state + 1;
                return true;
            }
            self.states[v] = 0;
        }
        false
    }
}
