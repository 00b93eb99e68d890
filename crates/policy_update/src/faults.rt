//! Why a diagram isn't updated.

ghost use Rattle.std.specs.Prelude.{◌≡◌};

use maid_model::Ratio;
use std::alloc::AllocError;
use thiserror::Error;

/// Why a diagram isn't updated.
#[derive(Debug, Drop, Error)]
pub enum UpdateFault {
    /// Two decisions have different owners.
    #[error("not one agent")]
    NotOneAgent,
    /// The numbers don't surely fit: in the first scope that passes the weight bound, the first
    /// node in text at which the running product passes it, or `None` where the utilities pass it.
    #[error("the weight bound is passed at {node:?}")]
    WeightBound { node: Option<usize> },
    /// The run is too large: `cells` is the most cells of one of its plans, and `work` that of all
    /// plans together, each counted up to 10 to the power of 18.
    #[error("too large: {cells} cells, {work} steps of work")]
    TooLarge { cells: u128, work: u128 },
    /// Each of the first `rounds` rounds raised, and after them the owner of all decisions has the
    /// expected utility `gain`.
    #[error("rounds spent: {rounds}, with the gain {gain:?}")]
    RoundsSpent { rounds: u64, gain: Ratio },
    /// Memory ran out, which says nothing of the diagram.
    #[error("out of memory")]
    NoMemory,
}

impl From<AllocError> for UpdateFault {
    ghost use Rattle.policy_update.specs.declared.faults.UpdateFault.TheVariants.{NoMemory};

    ghost from_gives = { λ _ fault. fault ≡ NoMemory };

    fn from(_error: AllocError) -> UpdateFault {
        UpdateFault::NoMemory
    }
}
