//! Why a row was not read.

ghost use Rattle.std.specs.Prelude.{◌≡◌};
ghost use Rattle.node_record.specs.declared.fault.RowFault.TheVariants.{NoMemory};

use fine_model;
use std::alloc::{AllocError, AllocFailed};

/// Why a row was not read.
#[derive(Debug, Drop)]
pub enum RowFault {
    /// Nothing that starts at this place is a row.
    Bad { at: usize },
    NoMemory,
}

impl From<AllocError> for RowFault {
    ghost from_gives = { λ _ e. e ≡ NoMemory };

    fn from(_refused: AllocError) -> RowFault {
        RowFault::NoMemory
    }
}

impl From<fine_model::NoMemory> for RowFault {
    ghost from_gives = { λ _ e. e ≡ NoMemory };

    fn from(_refused: fine_model::NoMemory) -> RowFault {
        RowFault::NoMemory
    }
}

impl<T: Drop> From<(fine_model::NoMemory, T)> for RowFault {
    ghost from_gives = { λ _ e. e ≡ NoMemory };

    fn from(_refused: (fine_model::NoMemory, T)) -> RowFault {
        RowFault::NoMemory
    }
}
