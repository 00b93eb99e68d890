//! Why no diagram under evidence is answered.

ghost use Rattle.std.specs.Prelude.{◌≡◌};

use rule_solver::SolveFault;
use std::alloc::AllocError;
use thiserror::Error;

/// Why no diagram under evidence is answered.
#[derive(Debug, Drop, Error)]
pub enum GivenFault {
    /// The node descends from a decision.
    #[error("the node descends from a decision")]
    BelowDecision,
    /// Where every decision sees the node, one of them has more than 16 parents, or rules have
    /// too many cells.
    #[error("too many parents or cells of rules")]
    RulesTooLarge,
    /// No order of solving has all decisions. Each decision of the list relies on the next, and
    /// the last on the first.
    #[error("a relevance cycle of the decisions {list:?}")]
    Cycle { list: Vec<usize> },
    /// The numbers don't surely fit: in the first scope that passes the weight bound, the first
    /// node in text at which the running product passes it, or `None` where the utilities pass
    /// it.
    #[error("the weight bound is passed at {node:?}")]
    WeightBound { node: Option<usize> },
    /// The plans are too large: `cells` is the most cells of one of them, and `work` that of all
    /// together, each counted up to 10 to the power of 18.
    #[error("too large: {cells} cells, {work} steps of work")]
    TooLarge { cells: u128, work: u128 },
    /// The worlds in which the node has the state weigh nought.
    #[error("the node never has the state")]
    Impossible,
    /// Memory ran out, which says nothing of the diagram.
    #[error("out of memory")]
    NoMemory,
}

impl From<AllocError> for GivenFault {
    ghost use Rattle.evidence.specs.declared.faults.GivenFault.TheVariants.{NoMemory};

    ghost from_gives = { λ _ fault. fault ≡ NoMemory };

    fn from(_failed: AllocError) -> GivenFault {
        GivenFault::NoMemory
    }
}

impl From<SolveFault> for GivenFault {
    ghost use Rattle.evidence.specs.Unsolved.{is_unsolved};

    ghost from_gives = { is_unsolved };

    fn from(fault: SolveFault) -> GivenFault {
        match fault {
            SolveFault::Cycle { list } => GivenFault::Cycle { list },
            SolveFault::WeightBound { node } => GivenFault::WeightBound { node },
            SolveFault::TooLarge { cells, work } => GivenFault::TooLarge { cells, work },
            SolveFault::NoMemory => GivenFault::NoMemory,
        }
    }
}
