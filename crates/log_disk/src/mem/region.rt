//! One region of a disk in memory.

ghost use Rattle.std.specs.Prelude.{◌≡◌, ◌+◌, ◌<◌, ◌≤◌, ◌++◌, take, drop, length, map, replicate, slice_range, None, OnOk, OnErr, IfOk};
ghost use Rattle.log_disk.specs.Disk.{SameOutside, zeros, region_of, with_bytes};
ghost use Rattle.std.specs.Bool.{OnTrue, OnFalse};
ghost use Rattle.log_disk.specs.Region.{bytes_of, synced_of};

use std::alloc::{AllocError, Global};
use std::mem;
use std::sync::Arc;

/// The bytes of a region, which eyes share, and what the last sync left where that is kept apart from them.
#[derive(Drop)]
pub struct Region {
    pub bytes: Arc<Vec<u8>, Global>,
    pub synced: Option<Arc<Vec<u8>, Global>>,
}

impl Region {
    pub fn zeros(alloc: Global, len: u64) -> Result<Region, AllocError>
        ensures bytes { IfOk result (λ region. bytes_of region ≡ replicate len 0) }
        ensures synced { IfOk result (λ region. region.synced ≡ None) }
    {
        Region::of_bytes(alloc, vec![in alloc; 0; len as usize]?)
    }

    /// Another owner of the bytes.
    pub fn share(&self) -> Result<Arc<Vec<u8>, Global>, AllocError>
        ensures { IfOk result (λ arc. arc.value.items ≡ bytes_of self.now) }
    {
        Arc::try_clone(&self.bytes)
    }

    /// Writes over bytes. The first write after a sync copies the region, so that what the sync left is kept, and so does
    /// one to bytes that an eye still shares; the others write in place.
    pub fn write(&mut self, alloc: Global, at: usize, bytes: &[u8]) -> Result<(), AllocError>
        requires { at + length bytes.now ≤ length (bytes_of self.old) }
        ensures written { OnOk result (bytes_of self.new ≡ take at (bytes_of self.old) ++ bytes.now ++ drop (at + length bytes.now) (bytes_of self.old)) }
        ensures synced { synced_of self.new ≡ synced_of self.old }
        ensures err { OnErr result (self.new ≡ self.old) }
    {
        let end = at + bytes.len();
        if self.synced.is_some() && write_alone(&mut self.bytes, at, bytes) {
            return Ok(());
        }
        let mut fresh = Vec::from_slice(alloc, self.bytes.as_slice())?;
        fresh[at..end].copy_from_slice(bytes);
        let was = mem::replace(&mut self.bytes, Arc::new(alloc, fresh)?);
        if self.synced.is_none() {
            self.synced = Some(was);
        }
        Ok(())
    }

    /// What the last sync left.
    pub fn left(&self) -> &[u8]
        ensures { result.now ≡ synced_of self.now }
    {
        match &self.synced {
            Some(kept) => kept.as_slice(),
            None => self.bytes.as_slice(),
        }
    }

    /// A region of these bytes, all of them synced.
    pub fn of_bytes(alloc: Global, bytes: Vec<u8>) -> Result<Region, AllocError>
        ensures bytes { IfOk result (λ region. bytes_of region ≡ bytes.items) }
        ensures synced { IfOk result (λ region. region.synced ≡ None) }
    {
        Ok(Region {
            bytes: Arc::new(alloc, bytes)?,
            synced: None,
        })
    }

    /// What is there counts as synced.
    pub fn settle(&mut self)
        ensures bytes { bytes_of self.new ≡ bytes_of self.old }
        ensures synced { self.new.synced ≡ None }
    {
        self.synced = None;
    }
}

// Writes over bytes that no eye shares, or says that one does.
fn write_alone(shared: &mut Arc<Vec<u8>, Global>, at: usize, bytes: &[u8]) -> bool
    requires { at + length bytes.now ≤ length shared.old.value.items }
    ensures written { OnTrue result (shared.new.value.items ≡ take at shared.old.value.items ++ bytes.now ++ drop (at + length bytes.now) shared.old.value.items) }
    ensures same { OnFalse result (shared.new ≡ shared.old) }
{
    let end = at + bytes.len();
    match Arc::get_mut(shared) {
        Some(own) => {
            own[at..end].copy_from_slice(bytes);
            true
        }
        None => false,
    }
}

/// Regions of zeros.
pub fn zero_regions(alloc: Global, regions: u32, len: u64) -> Result<Vec<Region>, AllocError>
    ensures bytes { IfOk result (λ rows. map bytes_of rows.items ≡ zeros regions len) }
    ensures synced { IfOk result (λ rows. map synced_of rows.items ≡ zeros regions len) }
{
    let mut rows = Vec::new(alloc);
    for _r in 0..regions {
        rows.push(Region::zeros(alloc, len)?)?;
    }
    Ok(rows)
}

/// Reads bytes of one of the regions.
pub fn read_region(rows: &[Region], region: usize, at: usize, out: &mut [u8])
    requires there { region < length rows.now }
    requires within { at + length out.old ≤ length (region_of (map bytes_of rows.now) region) }
    ensures { out.new ≡ slice_range (region_of (map bytes_of rows.now) region) at (at + length out.old) }
{
    let bytes = rows[region].bytes.as_slice();
    out.copy_from_slice(&bytes[at..at + out.len()]);
}

/// Writes over bytes of one of the regions.
pub fn write_region(
    alloc: Global,
    rows: &mut Vec<Region>,
    region: usize,
    at: usize,
    bytes: &[u8],
) -> Result<(), AllocError>
    requires there { region < length rows.old.items }
    requires within { at + length bytes.now ≤ length (region_of (map bytes_of rows.old.items) region) }
    ensures written { OnOk result (map bytes_of rows.new.items ≡ with_bytes (map bytes_of rows.old.items) region at bytes.now) }
    ensures outside { OnOk result (SameOutside region at (at + length bytes.now) (map bytes_of rows.old.items) (map bytes_of rows.new.items)) }
    ensures len { length rows.new.items ≡ length rows.old.items }
    ensures synced { map synced_of rows.new.items ≡ map synced_of rows.old.items }
    ensures err { OnErr result (rows.new.items ≡ rows.old.items) }
{
    let row = &mut rows[region];
    row.write(alloc, at, bytes)
}

/// What is there in all regions counts as synced.
pub fn settle_all(rows: &mut [Region])
    ensures bytes { map bytes_of rows.new ≡ map bytes_of rows.old }
    ensures synced { map synced_of rows.new ≡ map bytes_of rows.old }
{
    for row in rows.iter_mut() {
        row.settle();
    }
}

/// Another owner of the bytes of each region.
pub fn share_all(alloc: Global, rows: &[Region]) -> Result<Vec<Arc<Vec<u8>, Global>>, AllocError>
    ensures { IfOk result (λ shared. map (λ bytes. bytes.value.items) shared.items ≡ map bytes_of rows.now) }
{
    let mut shared = Vec::new(alloc);
    for row in rows {
        shared.push(row.share()?)?;
    }
    Ok(shared)
}
