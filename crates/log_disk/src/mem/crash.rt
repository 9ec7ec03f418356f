//! What a crash leaves of regions in memory.

ghost use Rattle.std.specs.Prelude.{◌≡◌, ℕ, ◌<◌, drop, length, map, nat_eq, slice_index, slice_index_or, IfOk};
ghost use Rattle.std.specs.List.{list_any};
ghost use Rattle.log_disk.specs.Crash.{covers, pending_in, picked_byte, crash_image};
ghost use Rattle.log_disk.specs.MemDisk.{range_of};
ghost use Rattle.log_disk.specs.Region.{bytes_of, synced_of};

use super::Written;
use super::region::Region;
use std::alloc::{AllocError, Global};

/// The regions after a crash, where the bytes of the unsynced ranges are picked: pending byte `j`, counted by region and
/// offset, becomes `picks[j]` where there is one, and else what the last sync left.
pub fn crash_regions(
    alloc: Global,
    rows: &[Region],
    unsynced: &[Written],
    picks: &[u8],
) -> Result<Vec<Region>, AllocError>
    requires { length rows.now < 4294967296 }
    ensures bytes { IfOk result (λ left. map bytes_of left.items ≡ crash_image (record { synced = map synced_of rows.now; unsynced = map range_of unsynced.now }) picks.now) }
    ensures synced { IfOk result (λ left. map synced_of left.items ≡ map bytes_of left.items) }
{
    let mut left = Vec::new(alloc);
    let mut rest = picks;
    for (region, row) in rows.iter().enumerate() {
        let mut bytes = Vec::from_slice(alloc, row.left())?;
        rest = pick_bytes(&mut bytes, unsynced, region as u32, rest);
        left.push(Region::of_bytes(alloc, bytes)?)?;
    }
    Ok(left)
}

// Writes picks over the bytes of a region that lie in unsynced ranges, and answers the picks that are left.
fn pick_bytes<'a>(bytes: &mut [u8], unsynced: &[Written], region: u32, picks: &'a [u8]) -> &'a [u8]
    ensures bytes { (at : ℕ) → at < length bytes.old → slice_index bytes.new at ≡ picked_byte (map range_of unsynced.now) region (slice_index bytes.old at) picks.now at }
    ensures rest { result.now ≡ drop (pending_in (map range_of unsynced.now) region (length bytes.old)) picks.now }
{
    if !has_written(unsynced, region) {
        return picks;
    }
    let mut rest = picks;
    for at in 0..bytes.len() {
        if is_written(unsynced, region, at as u64) {
            rest = pick(&mut bytes[at], rest);
        }
    }
    rest
}

// Writes the next pick over a byte, and answers the picks behind it.
fn pick<'a>(byte: &mut u8, picks: &'a [u8]) -> &'a [u8]
    ensures byte { byte.new ≡ slice_index_or picks.now 0 byte.old }
    ensures rest { result.now ≡ drop 1 picks.now }
{
    match picks {
        [next, rest @ ..] => {
            *byte = *next;
            rest
        }
        [] => picks,
    }
}

// Whether a region has an unsynced range.
fn has_written(unsynced: &[Written], region: u32) -> bool
    ensures { result ≡ list_any (λ written. nat_eq written.region region) unsynced.now }
{
    unsynced.iter().any(|written| written.region == region)
}

// Whether a byte of a region lies in an unsynced range.
fn is_written(unsynced: &[Written], region: u32, at: u64) -> bool
    ensures { result ≡ list_any (λ written. covers region at (range_of written)) unsynced.now }
{
    unsynced.iter().any(|written| written.region == region
        && written.from <= at
        && at < written.end)
}
