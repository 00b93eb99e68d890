//! Why no pure equilibrium is found.

ghost use Rattle.std.specs.Prelude.{◌≡◌};

use std::alloc::AllocError;
use thiserror::Error;

/// Why no pure equilibrium is found.
#[derive(Clone, Copy, Debug, PartialEq, Eq, Error)]
pub enum PureFault {
    /// The numbers don't surely fit: in the first scope that passes the weight bound, the first
    /// node in text at which the running product passes it, or `None` where the utilities pass it.
    #[error("the weight bound is passed at {node:?}")]
    WeightBound { node: Option<usize> },
    /// The search is too large: the pure profiles are more than 65,536, or the worlds of the
    /// diagram more than 1,048,576, or the two together make more than 16,777,216 pairs. Each is
    /// counted up to 10 to the power of 18.
    #[error("too large: {profiles} profiles, {leaves} leaves")]
    TooLarge { profiles: u128, leaves: u128 },
    /// From each of the pure profiles, which are so many, some agent gains by other rules of its
    /// own.
    #[error("no pure equilibrium among {profiles} profiles")]
    NoPure { profiles: u128 },
    /// Memory ran out, which says nothing of the diagram.
    #[error("out of memory")]
    NoMemory,
}

impl From<AllocError> for PureFault {
    ghost use Rattle.pure_search.specs.declared.faults.PureFault.TheVariants.{NoMemory};

    ghost from_gives = { λ _ fault. fault ≡ NoMemory };

    fn from(_error: AllocError) -> PureFault {
        PureFault::NoMemory
    }
}
