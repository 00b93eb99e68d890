//! Why a diagram isn't solved.

ghost use Rattle.std.specs.Prelude.{◌≡◌};

use std::alloc::AllocError;
use thiserror::Error;

/// Why a diagram isn't solved.
#[derive(Debug, Drop, Error)]
pub enum SolveFault {
    /// No order of solving has all decisions. Each decision of the list relies on the next, and the
    /// last on the first.
    #[error("a relevance cycle of the decisions {list:?}")]
    Cycle { list: Vec<usize> },
    /// The numbers don't surely fit: in the first scope that passes the weight bound, the first
    /// node in text at which the running product passes it, or `None` where the utilities pass it.
    #[error("the weight bound is passed at {node:?}")]
    WeightBound { node: Option<usize> },
    /// The run is too large: `cells` is the most cells of one of its plans, and `work` that of all
    /// plans together, each counted up to 10 to the power of 18.
    #[error("too large: {cells} cells, {work} steps of work")]
    TooLarge { cells: u128, work: u128 },
    /// Memory ran out, which says nothing of the diagram.
    #[error("out of memory")]
    NoMemory,
}

impl From<AllocError> for SolveFault {
    ghost use Rattle.rule_solver.specs.declared.faults.SolveFault.TheVariants.{NoMemory};

    ghost from_gives = { λ _ fault. fault ≡ NoMemory };

    fn from(_error: AllocError) -> SolveFault {
        SolveFault::NoMemory
    }
}
