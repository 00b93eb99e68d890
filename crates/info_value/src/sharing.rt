//! What the lines share.

ghost use Rattle.std.specs.Prelude.{◌≡◌, ◌<◌, IfOk, OnOk, length};
ghost use Rattle.node_sets.specs.declared.sets.TheConstants.{MOST_NODES};
ghost use Rattle.size_precheck.specs.Kept.{DifferAt};
ghost use Rattle.rule_solver.specs.Kept.{IsKeptDiagram};
ghost use Rattle.info_value.specs.Shared.{IsShared};

use diagram_graph::copy_diagram;
use maid_model::Diagram;
use rule_solver::{KeptDiagram, Workspaces};
use size_precheck::{Plan, keep_edited, plan_worths};
use std::alloc::{AllocError, Global};

/// What the lines share, once one of them has solved an edited diagram.
#[derive(Drop)]
pub(crate) struct Shared {
    /// A copy of the diagram before the edits. A line that edits it takes it, and gives it back as
    /// it was.
    pub copy: Option<Diagram>,
    /// The plans of the utilities' worths in the diagram before the edits.
    pub worths: Option<Vec<Plan>>,
    /// The workspaces that the last run has left.
    pub left: Option<Workspaces>,
}

impl Shared {
    /// Takes the copy of the diagram, or makes one where there is none.
    pub(crate) fn take_copy(
        &mut self,
        alloc: Global,
        diagram: &Diagram,
    ) -> Result<Diagram, AllocError>
        requires shared { IsShared diagram.now self.old }
        ensures copy { IfOk result (λ copy. copy ≡ diagram.now) }
        ensures shared { OnOk result (IsShared diagram.now self.new) }
    {
        match self.copy.take() {
            Some(copy) => Ok(copy),
            None => copy_diagram(alloc, diagram),
        }
    }

    /// What is kept for the run in an edited diagram, in which the parents of one node alone are
    /// other than in the diagram before: the plans of the worths, of which those stay to which that
    /// node does not lead.
    pub(crate) fn keep(
        &mut self,
        alloc: Global,
        diagram: &Diagram,
        edited: &Diagram,
        changed: usize,
    ) -> Result<KeptDiagram, AllocError>
        requires shared { IsShared diagram.now self.old }
        requires changed { changed < MOST_NODES }
        requires edited { DifferAt diagram.now.nodes edited.now.nodes changed }
        ensures kept { IfOk result (IsKeptDiagram edited.now.nodes) }
        ensures shared { OnOk result (IsShared diagram.now self.new) }
    {
        let worths = match self.worths.take() {
            Some(worths) => worths,
            None => plan_worths(alloc, diagram)?,
        };
        let plans = keep_edited(alloc, edited, &worths, changed)?;
        self.worths = Some(worths);
        Ok(KeptDiagram {
            plans,
            searches: Vec::new(alloc),
        })
    }
}
