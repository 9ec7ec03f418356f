//! A node as a bucket keeps it.

ghost use Rattle.std.specs.Prelude.{◌≤◌};
ghost use Rattle.fine_model.specs.BoundLaws.{FitsNode};
ghost use Rattle.fine_model.specs.RowBytes.{greatest};
ghost use Rattle.node_cache.specs.Fits.{FitsNode-prop};

use fine_model::{Copied, NoMemory, Node};

/// A cached node: its content and version, both within the format's bounds, and the last epoch that may have changed it.
#[derive(Debug, Drop, PartialEq, Eq)]
pub struct Cached {
    pub node: Node,
    pub version: u64,
    pub epoch: u64,
    pub ghost fits: { FitsNode node } by { FitsNode-prop node },
    pub ghost in_range: { version ≤ greatest },
}

impl Copied for Cached {
    fn copy(&self) -> Result<Cached, NoMemory> {
        Ok(Cached {
            node: self.node.copy()?,
            version: self.version,
            epoch: self.epoch,
        })
    }
}
