//! Fields that stand one after the other.

ghost use Rattle.std.specs.Prelude.{◌≡◌, ℕ, ◌≤◌, List, Option, [], length, drop, map};
ghost use Rattle.node_record.specs.Reading.{Gives, Passes, behind, ascending_at, key_at, pair_at, child_at, items_at};

use crate::fault::RowFault;
use crate::fields::{child, key, key_in, pair_in, sure};
use crate::places::is_below;
use fine_model::{Bytes, Items};
use std::alloc::Global;

/// What is read from a place on, in a row that starts at `start`.
pub trait Field: Sized {
    ghost reads: { List ℕ → Option (Self × List ℕ) };

    fn read(alloc: Global, bytes: &[u8], start: usize, at: usize) -> Result<(Self, usize), RowFault>
        requires { at ≤ length bytes.now }
        ensures { Gives (λ x. x) bytes.now start result (reads (drop at bytes.now)) };
}

/// A key.
impl Field for Bytes {
    ghost reads = { key_at };

    fn read(
        alloc: Global,
        bytes: &[u8],
        start: usize,
        at: usize,
    ) -> Result<(Bytes, usize), RowFault> {
        key(alloc, bytes, start, at)
    }
}

/// A key and a value.
impl Field for (Bytes, Bytes) {
    ghost reads = { pair_at };

    fn read(
        alloc: Global,
        bytes: &[u8],
        start: usize,
        at: usize,
    ) -> Result<((Bytes, Bytes), usize), RowFault> {
        let ((key, value), at) = pair_in(bytes, start, at)?;
        Ok((
            (
                Bytes::from_slice(alloc, key)?,
                Bytes::from_slice(alloc, value)?,
            ),
            at,
        ))
    }
}

/// The number of a child.
impl Field for u32 {
    ghost reads = { child_at };

    fn read(
        _alloc: Global,
        bytes: &[u8],
        start: usize,
        at: usize,
    ) -> Result<(u32, usize), RowFault> {
        child(bytes, start, at)
    }
}

/// The room that is taken beside that for the items of an image, since the rows behind it mostly add to them.
const SPARE: usize = 4;

/// So many fields.
pub fn items<T: Field + Drop>(
    alloc: Global,
    count: u8,
    bytes: &[u8],
    start: usize,
    at: usize,
) -> Result<(Items<T>, usize), RowFault>
    requires { at ≤ length bytes.now }
    ensures { Gives (λ xs. xs) bytes.now start result (items_at T.reads count (drop at bytes.now)) }
{
    let mut items = Vec::with_capacity(alloc, count as usize + SPARE)?;
    let mut end = at;
    for _ in 0..count {
        let (item, after) = T::read(alloc, bytes, start, end)?;
        items.push_reserved(item);
        end = after;
    }
    Ok((Items::from_vec(items), end))
}

/// The place behind so many pairs, whose keys ascend.
pub fn pairs_end(bytes: &[u8], start: usize, at: usize, count: u8) -> Result<usize, RowFault>
    requires { at ≤ length bytes.now }
    ensures { Passes bytes.now start result (behind (ascending_at (map (λ p. p.0)) pair_at [] count (drop at bytes.now))) }
{
    // No key is empty, so each stands behind the one before the first.
    let mut before: &[u8] = &[];
    let mut end = at;
    for _ in 0..count {
        let ((key, _), after) = pair_in(bytes, start, end)?;
        sure(is_below(before, key), start)?;
        before = key;
        end = after;
    }
    Ok(end)
}

/// The place behind so many keys, which ascend from the key before them.
#[tactic(auto, unfolding(crate::specs::Reading::items_at))]
pub fn keys_end(
    bytes: &[u8],
    start: usize,
    at: usize,
    count: u8,
    before: &[u8],
) -> Result<usize, RowFault>
    requires { at ≤ length bytes.now }
    ensures { Passes bytes.now start result (behind (ascending_at (λ keys. keys) key_at before.now count (drop at bytes.now))) }
{
    if count == 0 {
        return Ok(at);
    }
    let (key, at) = key_in(bytes, start, at)?;
    sure(is_below(before, key), start)?;
    keys_end(bytes, start, at, count - 1, key)
}

/// The place behind so many children.
#[tactic(auto, unfolding(crate::specs::Reading::items_at))]
pub fn children_end(bytes: &[u8], start: usize, at: usize, count: u8) -> Result<usize, RowFault>
    requires { at ≤ length bytes.now }
    ensures { Passes bytes.now start result (behind (items_at child_at count (drop at bytes.now))) }
{
    if count == 0 {
        return Ok(at);
    }
    let (_, at) = child(bytes, start, at)?;
    children_end(bytes, start, at, count - 1)
}
