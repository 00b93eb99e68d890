//! Why it is not told how far a probability may move.

ghost use Rattle.std.specs.Prelude.{◌≡◌};

use std::alloc::AllocError;
use thiserror::Error;

/// Why it is not told how far a probability may move.
#[derive(Clone, Copy, Debug, PartialEq, Eq, Error)]
pub enum SpanFault {
    /// All other weights of the row are nought: there is no proportion in which to share the rest.
    #[error("no other state of the row has weight")]
    NoOthers,
    /// The numbers of the changed diagrams don't surely fit. At the moved node the least common
    /// multiple of its table's total and of what the other states of the row weigh is too great; or
    /// with that in the place of the total a scope passes the weight bound, first at the node, or
    /// by the utilities where it is `None`.
    #[error("the weight bound is passed at {node:?}")]
    WeightBound { node: Option<usize> },
    /// Memory ran out, which says nothing of the diagram.
    #[error("out of memory")]
    NoMemory,
}

impl From<AllocError> for SpanFault {
    ghost use Rattle.threshold.specs.declared.faults.SpanFault.TheVariants.{NoMemory};

    ghost from_gives = { λ _ fault. fault ≡ NoMemory };

    fn from(_error: AllocError) -> SpanFault {
        SpanFault::NoMemory
    }
}
