//! Why a log was not opened.

ghost use Rattle.std.specs.Prelude.{◌≡◌};
ghost use Rattle.reopen.specs.declared.fault.OpenFault.TheVariants as fault;

use fine_model::NoMemory;
use thiserror::Error;

/// Why a log was not opened. The three in the middle are what is wrong with the log's chain of partitions.
#[derive(Debug, Drop, Error)]
pub enum OpenFault {
    /// The disk failed.
    #[error("the disk failed")]
    Disk,
    /// A field of a sealed region's header fails its test, or names a region that another partition has; the place is that
    /// of the first such field.
    #[error("a region is damaged")]
    BadRegion { region: u32, at: u32 },
    /// The epochs of a region begin behind the chain's end.
    #[error("epochs are missing")]
    Gap { after: u64, region: u32 },
    /// The epochs of a region begin within those of another, and end behind them.
    #[error("two regions have the same epochs")]
    Overlap { region: u32, other: u32 },
    #[error("memory ran out")]
    NoMemory,
}

impl From<NoMemory> for OpenFault {
    ghost from_gives = { λ _ e. e ≡ fault.NoMemory };

    fn from(_refused: NoMemory) -> OpenFault {
        OpenFault::NoMemory
    }
}
