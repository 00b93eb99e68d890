//! What is found of the control of one chance node.

ghost use Rattle.std.specs.Prelude.{◌≡◌, IfOk, IfSome};
ghost use Rattle.maid_model.specs.declared.diagrams.Kind.TheVariants.{Chance};
ghost use Rattle.maid_model.specs.Nodes.{node_at};
ghost use Rattle.optimum_gap.specs.Baselines.{HoldsBaseline};
ghost use Rattle.rule_solver.specs.Kept.{IsKeptDiagram};
ghost use Rattle.rule_solver.specs.Rooms.{AreLeft};
ghost use Rattle.control_incentive.specs.Steps.{IsControlFoundOf};

use diagram_graph::{MakeFault, decide_at};
use maid_model::Diagram;
use optimum_gap::{Baseline, Found, edits_keep_scopes};
use relevance_graph::walks_to_goals_stand;
use rule_solver::{KeptDiagram, Workspaces, kept_diagrams_stand};
use std::alloc::{AllocError, Global};

/// What is found of the control of a chance node that matters to the agent or doesn't. Where it
/// does, the agent decides at the node in a copy of the baseline's diagram, which is solved once,
/// and then the node is put back. The plans and searches that are kept stand there. It runs in the
/// workspaces that are left of another run, and leaves its own.
pub(crate) fn find(
    alloc: Global,
    baseline: &Baseline,
    copy: &mut Diagram,
    kept: Option<&KeptDiagram>,
    left: &mut Option<Workspaces>,
    matters: bool,
    node: usize,
) -> Result<Found, AllocError>
    requires baseline { HoldsBaseline baseline.now }
    requires copy { copy.old ≡ baseline.now.diagram.now }
    requires kept { IfSome kept (λ known. IsKeptDiagram baseline.now.diagram.now.nodes known.now) }
    requires left { AreLeft left.old }
    requires chance { (node_at baseline.now.diagram.now.nodes node).kind ≡ Chance }
    ensures found { IfOk result (IsControlFoundOf baseline.now node matters) }
    ensures again { copy.new ≡ copy.old }
    ensures left { AreLeft left.new }
{
    edits_keep_scopes();
    kept_diagrams_stand();
    walks_to_goals_stand();
    if !matters {
        return Ok(Found::Worthless);
    }
    let _count = baseline.diagram.count();
    match decide_at(alloc, copy, node, baseline.agent) {
        Ok(chance) => {
            let found = baseline.gain(alloc, copy, kept, left);
            copy.exchange(node, chance);
            found
        }
        Err(MakeFault::TooLarge) => Ok(Found::TooLarge),
        Err(MakeFault::NoMemory) => Err(AllocError),
    }
}
