//! Why a text's tree stands for no diagram.

ghost use Rattle.std.specs.Prelude.{◌≡◌};

use std::alloc::{AllocError, AllocFailed};
use thiserror::Error;

/// A limit of diagrams.
#[derive(Clone, Copy, Debug, PartialEq, Eq)]
pub enum Limit {
    /// 256 nodes, utilities among them.
    Nodes,
    /// 255 bytes in a node's name.
    NameBytes,
    /// 256 states of a node.
    States,
    /// 16 agents.
    Agents,
    /// 16 parents of a node.
    Parents,
    /// 65,536 cells of one table or rule.
    Cells,
    /// 262,144 cells of all rules together.
    Rules,
}

/// What a fault is.
#[derive(Debug, Drop)]
pub enum BuildKind {
    /// An earlier block has the name.
    DoubleName,
    /// An attribute that counts stands a second time.
    DoubleAttribute,
    /// A chance node or a decision has no `states`.
    MissingStates,
    /// The `states` are no list of one or more strings.
    BadStates,
    /// A label has a byte below 32 or more than 255 bytes.
    BadLabel,
    /// The `agent` is no string, or the `agents` are no list of one or more strings, or one has a
    /// byte below 32 or more than 255 bytes.
    BadAgent,
    /// An agent stands twice in a list of `agents`.
    RepeatedAgent,
    /// No node has the name.
    UnknownName,
    /// An earlier potential has the head.
    DoublePotential,
    /// A name stands twice behind a potential's bar.
    RepeatedParent,
    /// A utility stands behind a potential's bar.
    UtilityParent,
    /// A chance or utility node has no potential, or its potential has no `data`.
    MissingTable,
    /// These nodes are parents of one another in a ring.
    GraphCycle { list: Vec<usize> },
    /// A leaf of `data` is no number.
    NotANumber,
    /// `data` has another count of numbers than the table has cells.
    WrongCount { want: usize, got: usize },
    /// The number has no value within the limits of decimals.
    NumberTooLong,
    /// A number of a chance table is below nought.
    Negative,
    /// A row of a chance table has the total nought.
    ZeroRow,
    /// The common total of a chance table's rows is too great.
    WideWeight,
    /// A utility value is too great or too little, to the scale of all utilities.
    WideValue,
    /// A limit is passed, and by how much there is. Cells are counted up to 10^18.
    LimitPassed { which: Limit, got: u128 },
}

impl BuildKind {
    ghost use Rattle.std.specs.Prelude.{◌≡◌};

    /// The fault of this kind at a token's place.
    pub(crate) fn at(self, place: u32) -> BuildFault
        ensures { result ≡ BuildFault.Fault place self }
    {
        BuildFault::Fault {
            at: place as usize,
            kind: self,
        }
    }
}

/// Why a tree stands for no diagram: its first fault and the place of that in the text, or that
/// memory ran out, which says nothing of the text.
#[derive(Debug, Drop, Error)]
pub enum BuildFault {
    #[error("fault at {at}")]
    Fault { at: usize, kind: BuildKind },
    #[error("out of memory")]
    NoMemory,
}

impl<T: Drop> From<AllocFailed<T>> for BuildFault {
    ghost use Rattle.net_build.specs.declared.faults.BuildFault.TheVariants.{NoMemory};

    ghost from_gives = { λ _ fault. fault ≡ NoMemory };

    fn from(_failed: AllocFailed<T>) -> BuildFault {
        BuildFault::NoMemory
    }
}

impl From<AllocError> for BuildFault {
    ghost use Rattle.net_build.specs.declared.faults.BuildFault.TheVariants.{NoMemory};

    ghost from_gives = { λ _ fault. fault ≡ NoMemory };

    fn from(_failed: AllocError) -> BuildFault {
        BuildFault::NoMemory
    }
}
