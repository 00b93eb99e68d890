//! Why a run does not write the whole text of its form.

ghost use Rattle.std.specs.Prelude.{◌≡◌};
ghost use Rattle.app_forms.specs.Refusal.{status_of, line_of};
ghost use Rattle.app_forms.specs.Reading.{TellsIfMade};

use crate::{Status, lines};
use std::alloc::{AllocError, AllocFailed};

/// Why a run doesn't write the whole text of its form.
#[derive(Drop)]
pub enum Refusal {
    /// The words are of no form.
    Usage,
    /// Something is wrong with a file or with what it holds, as the line says.
    Told {
        /// The status that the run ends with.
        status: Status,
        /// The line for `err`.
        line: Vec<u8>,
    },
    /// `out` couldn't be written.
    WriteFault,
    /// Memory ran out.
    NoMemory,
}

impl Refusal {
    /// The status that a run ends with.
    pub fn status(&self) -> Status
        ensures { result ≡ status_of self.now }
    {
        match self {
            Refusal::Usage => Status::Usage,
            Refusal::Told { status, .. } => *status,
            Refusal::WriteFault => Status::WriteFault,
            Refusal::NoMemory => Status::NoMemory,
        }
    }

    /// The line for `err`.
    pub fn line(&self) -> &[u8]
        ensures { result.now ≡ line_of self.now }
    {
        match self {
            Refusal::Usage => lines::USAGE.as_bytes(),
            Refusal::Told { line, .. } => line.as_slice(),
            Refusal::WriteFault => lines::WRITE_FAULT.as_bytes(),
            Refusal::NoMemory => lines::NO_MEMORY.as_bytes(),
        }
    }
}

/// The refusal of that status, if memory suffices for its line.
pub fn told(status: Status, line: Result<Vec<u8>, AllocError>) -> Refusal
    ensures { TellsIfMade status line result }
{
    match line {
        Ok(line) => Refusal::Told { status, line },
        Err(AllocError) => Refusal::NoMemory,
    }
}

impl From<AllocError> for Refusal {
    ghost use Rattle.std.specs.Prelude.{◌≡◌};
    ghost use Rattle.app_forms.specs.declared.refusal.Refusal.TheVariants.{NoMemory};

    ghost from_gives = { λ _ refusal. refusal ≡ NoMemory };

    fn from(_error: AllocError) -> Refusal {
        Refusal::NoMemory
    }
}

impl<T: Drop> From<AllocFailed<T>> for Refusal {
    ghost use Rattle.std.specs.Prelude.{◌≡◌};
    ghost use Rattle.app_forms.specs.declared.refusal.Refusal.TheVariants.{NoMemory};

    ghost from_gives = { λ _ refusal. refusal ≡ NoMemory };

    fn from(_failed: AllocFailed<T>) -> Refusal {
        Refusal::NoMemory
    }
}
