//! Optima of edited diagrams against the optimum before.

ghost use Rattle.std.specs.Prelude.{◌<◌, IfOk, IfSome};
ghost use Rattle.maid_model.specs.Subgames.{OwnsAll};
ghost use Rattle.rule_solver.specs.Kept.{IsKeptDiagram};
ghost use Rattle.rule_solver.specs.Rooms.{AreLeft};
ghost use Rattle.optimum_gap.specs.Baselines.{HaveNearScopes, HoldsBaseline};
ghost use Rattle.optimum_gap.specs.Found.{IsGain, IsLoss, TellsRefusal};

use crate::differences::difference;
use crate::found::Found;
use maid_model::{Diagram, Ratio};
use rule_solver::{KeptDiagram, SolveFault, Workspaces, optimum_with};
use std::alloc::{AllocError, Global};

/// Why a diagram that the solver refuses has no value.
fn refused(fault: SolveFault) -> Result<Found, AllocError>
    ensures { TellsRefusal fault result }
{
    match fault {
        SolveFault::Cycle { list } => Ok(Found::Cycle(list)),
        SolveFault::WeightBound { .. } => Ok(Found::Bound),
        SolveFault::TooLarge { .. } => Ok(Found::TooLarge),
        SolveFault::NoMemory => Err(AllocError),
    }
}

/// A diagram in which one agent decides alone, and its optimum there. Edits of the diagram are
/// compared with it.
#[derive(Drop)]
pub struct Baseline<'a> {
    pub diagram: &'a Diagram,
    pub agent: usize,
    pub optimum: Ratio,
}

impl<'a> Baseline<'a> {
    /// What the agent gains by the edit: its optimum in the edited diagram less the optimum before.
    /// The edited diagram is solved once; the reason is the solver's where it is refused. What is
    /// kept of that diagram is not made again. The run takes workspaces that another left, if they
    /// have the room, and leaves its own.
    ///
    /// # Errors
    ///
    /// Only where memory runs out.
    pub fn gain(
        &self,
        alloc: Global,
        edited: &Diagram,
        kept: Option<&KeptDiagram>,
        left: &mut Option<Workspaces>,
    ) -> Result<Found, AllocError>
        requires baseline { HoldsBaseline self.now }
        requires alone { OwnsAll edited.now.nodes self.now.agent }
        requires within { self.now.agent < edited.now.agents }
        requires near { HaveNearScopes self.now.diagram.now edited.now self.now.agent }
        requires kept { IfSome kept (λ known. IsKeptDiagram edited.now.nodes known.now) }
        requires left { AreLeft left.old }
        ensures gain { IfOk result (IsGain self.now.diagram.now edited.now self.now.agent) }
        ensures left { AreLeft left.new }
    {
        let _before = self.diagram.count();
        let _after = edited.count();
        match optimum_with(alloc, edited, self.agent, kept, left) {
            Ok(more) => Ok(Found::Value(difference(more, self.optimum))),
            Err(fault) => refused(fault),
        }
    }

    /// What the agent loses by the edit: the optimum before less that in the edited diagram, which
    /// is solved once. What is kept of that diagram is not made again. The run takes workspaces
    /// that another left, if they have the room, and leaves its own.
    ///
    /// # Errors
    ///
    /// Only where memory runs out.
    pub fn loss(
        &self,
        alloc: Global,
        edited: &Diagram,
        kept: Option<&KeptDiagram>,
        left: &mut Option<Workspaces>,
    ) -> Result<Found, AllocError>
        requires baseline { HoldsBaseline self.now }
        requires alone { OwnsAll edited.now.nodes self.now.agent }
        requires within { self.now.agent < edited.now.agents }
        requires near { HaveNearScopes self.now.diagram.now edited.now self.now.agent }
        requires kept { IfSome kept (λ known. IsKeptDiagram edited.now.nodes known.now) }
        requires left { AreLeft left.old }
        ensures loss { IfOk result (IsLoss self.now.diagram.now edited.now self.now.agent) }
        ensures left { AreLeft left.new }
    {
        let _before = self.diagram.count();
        let _after = edited.count();
        match optimum_with(alloc, edited, self.agent, kept, left) {
            Ok(less) => Ok(Found::Value(difference(self.optimum, less))),
            Err(fault) => refused(fault),
        }
    }
}
