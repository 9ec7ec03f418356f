//! Why calls of disks are refused.

ghost use Rattle.std.specs.Prelude.{◌≡◌};
ghost use Rattle.log_disk.specs.declared.refusal.DiskRefusal.TheVariants as refusal;

use std::alloc::{AllocError, AllocFailed};

/// A call of the device failed.
#[derive(Clone, Copy, Debug, PartialEq, Eq)]
pub struct Failed;

/// Memory ran out.
#[derive(Clone, Copy, Debug, PartialEq, Eq)]
pub struct NoMemory;

/// Why a call of a disk that takes memory was refused.
#[derive(Clone, Copy, Debug, PartialEq, Eq)]
pub enum DiskRefusal {
    Failed,
    NoMemory,
}

impl From<Failed> for DiskRefusal {
    ghost from_gives = { λ _ e. e ≡ refusal.Failed };

    fn from(_: Failed) -> Self {
        DiskRefusal::Failed
    }
}

impl From<NoMemory> for DiskRefusal {
    ghost from_gives = { λ _ e. e ≡ refusal.NoMemory };

    fn from(_: NoMemory) -> Self {
        DiskRefusal::NoMemory
    }
}

impl From<AllocError> for DiskRefusal {
    ghost from_gives = { λ _ e. e ≡ refusal.NoMemory };

    fn from(_: AllocError) -> Self {
        DiskRefusal::NoMemory
    }
}

impl<T: Drop> From<AllocFailed<T>> for DiskRefusal {
    ghost from_gives = { λ _ e. e ≡ refusal.NoMemory };

    fn from(_: AllocFailed<T>) -> Self {
        DiskRefusal::NoMemory
    }
}

impl From<AllocError> for NoMemory {
    fn from(_: AllocError) -> Self {
        NoMemory
    }
}

impl<T: Drop> From<AllocFailed<T>> for NoMemory {
    fn from(_: AllocFailed<T>) -> Self {
        NoMemory
    }
}
