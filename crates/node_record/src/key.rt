//! Rows that are found in bytes by their fronts alone.

ghost use Rattle.std.specs.Prelude.{◌≡◌, ◌<◌, IfOk, List, length};
ghost use Rattle.fine_model.specs.declared.Row.{Row};
ghost use Rattle.node_record.specs.Keys.{AreKeysOf, AreRows, IsKeyOf, SortedLaw, StartsAt};

use crate::fields::part;
use fine_model::NodeId;
use fine_model::format::ROW_FRONT;
use std::alloc::{AllocError, Global};

/// Where a row lies in bytes, and what it is sorted by.
#[derive(Clone, Copy, Debug, PartialEq, Eq)]
pub struct RowAt {
    pub node: NodeId,
    pub version: u64,
    pub at: u32,
    pub len: u32,
}

/// The key of the row that starts at a place, read off the 19 bytes before its body. It takes no memory.
pub fn front_at(bytes: &[u8], at: u32) -> RowAt
    requires { (row : Row) × StartsAt bytes.now at row }
    ensures at { result.at ≡ at }
    ensures key { (row : Row) → StartsAt bytes.now at row → IsKeyOf bytes.now row result }
{
    let start = at as usize;
    RowAt {
        node: NodeId {
            bucket: u16::from_be_bytes(part::<2>(bytes, start + 1)),
            number: u32::from_be_bytes(part::<4>(bytes, start + 3)),
        },
        version: u64::from_be_bytes(part::<8>(bytes, start + 7)),
        at,
        len: ROW_FRONT as u32 + u32::from_be_bytes(part::<4>(bytes, start + 15)),
    }
}

/// The keys of rows that stand one behind the other in bytes. Of each row the 19 bytes before its body are read, and memory is taken first for so many keys.
pub fn keys_of(alloc: Global, bytes: &[u8], count: usize) -> Result<Vec<RowAt>, AllocError>
    requires rows { (rows : List Row) × AreRows bytes.now rows }
    requires small { length bytes.now < 4294967296 }
    ensures { (rows : List Row) → AreRows bytes.now rows → IfOk result (λ keys. AreKeysOf bytes.now rows keys.items) }
{
    let mut keys = Vec::with_capacity(alloc, count)?;
    let mut at: u32 = 0;
    while (at as usize) < bytes.len() {
        let key = front_at(bytes, at);
        keys.push(key)?;
        at += key.len;
    }
    Ok(keys)
}

/// Keys that were sorted are the keys of the same rows in another order, in which the rows ascend as the keys do.
pub fn sorted_law()
    ensures { SortedLaw }
{}
