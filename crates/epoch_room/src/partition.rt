//! The open epoch as a partition.

ghost use Rattle.std.specs.Prelude.{◌≤◌, IfOk, IsPermutation, IsSortedBy};
ghost use Rattle.fine_model.specs.Merge.{encoded_len};
ghost use Rattle.fine_model.specs.RowBytes.{longest_region};
ghost use Rattle.node_record.specs.Keys.{is_key_below};
ghost use Rattle.epoch_room.specs.Partition.{IsPartitionOf};

use crate::epoch::OpenEpoch;
use fine_model::{NoMemory, Range};
use log_partition::{Partition, encode};
use node_record::RowAt;
use std::alloc::Global;

/// Keys in the order of their nodes, and of their versions at each node. It takes no memory.
fn sorted(mut keys: Vec<RowAt>) -> Vec<RowAt>
    ensures permuted { IsPermutation keys.items result.items }
    ensures sorted { IsSortedBy is_key_below result.items }
{
    keys.sort_unstable_by(|a, b| a.node.cmp(&b.node).then(a.version.cmp(&b.version)));
    keys
}

/// The partition of the open epoch's rows, of a range of epochs. The rows are not read, but for the keys before their bodies.
pub fn as_partition(
    alloc: Global,
    epoch: &OpenEpoch,
    range: Range,
    region_len: u64,
) -> Result<Partition, NoMemory>
    requires within { encoded_len epoch.now.rows ≤ region_len }
    requires region_len { region_len ≤ longest_region }
    ensures { IfOk result (IsPartitionOf region_len range epoch.now.rows) }
{
    let keys = sorted(epoch.keys(alloc)?);
    encode(alloc, range, epoch.bytes(), keys.as_slice(), region_len)
}
