//! The graph of a text has no cycle.

ghost use Rattle.std.specs.Prelude.{◌≡◌, ℕ, ◌<◌, length, slice_index};
ghost use Rattle.diagram_graph.specs.Cycles.{ListedArc, lists_in};
ghost use Rattle.net_build.specs.Linking.{graph_steps};
ghost use Rattle.first_fault.specs.Answers.{Passes};
ghost use Rattle.net_build.specs.Passes.{build_fault};
ghost use Rattle.net_build.specs.LinkCalls.{cycle_fault};

use crate::faults::{BuildFault, BuildKind};
use crate::nodes::Head;
use diagram_graph::first_cycle;
use std::alloc::Global;

// The cycle as a fault at its first node.
fn cycle_fault(heads: &[Head], cycle: Vec<usize>) -> BuildFault
    requires some { 0 < length cycle.items }
    requires within { slice_index cycle.items 0 < length heads.now }
    ensures { result ≡ cycle_fault heads.now cycle }
{
    let at = heads[cycle[0]].at;
    BuildKind::GraphCycle { list: cycle }.at(at)
}

/// No parents lead round in a cycle.
pub fn check_graph(alloc: Global, heads: &[Head], parents: &[Vec<usize>]) -> Result<(), BuildFault>
    requires len { length parents.now ≡ length heads.now }
    requires known { (u v : ℕ) → ListedArc (lists_in parents.now) u v → u < length parents.now }
    ensures { Passes build_fault (graph_steps heads.now (lists_in parents.now)) result }
{
    match first_cycle(alloc, parents)? {
        Some(cycle) => Err(cycle_fault(heads, cycle)),
        None => Ok(()),
    }
}
