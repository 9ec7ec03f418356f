//! Why a partition was not read.

ghost use Rattle.std.specs.Prelude.{◌≡◌};
ghost use Rattle.log_partition.specs.declared.fault.DecodeFault.TheVariants.{NoMemory};

use fine_model;

/// Why a header was not read.
#[derive(Debug, Drop)]
pub enum HeaderFault {
    /// The field at this place of the region is the first that fails its test.
    Bad { at: u32 },
}

/// Why a body was not read.
#[derive(Debug, Drop)]
pub enum DecodeFault {
    /// The row or index entry at this offset of the body is the first bad one.
    Bad { at: u32 },
    NoMemory,
}

impl From<fine_model::NoMemory> for DecodeFault {
    ghost from_gives = { λ _ e. e ≡ NoMemory };

    fn from(_refused: fine_model::NoMemory) -> DecodeFault {
        DecodeFault::NoMemory
    }
}

impl<T: Drop> From<(fine_model::NoMemory, T)> for DecodeFault {
    ghost from_gives = { λ _ e. e ≡ NoMemory };

    fn from(_refused: (fine_model::NoMemory, T)) -> DecodeFault {
        DecodeFault::NoMemory
    }
}
