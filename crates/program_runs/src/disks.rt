//! Disks in memory: new ones, what a crash leaves of one, and bytes of their regions.

ghost use Rattle.std.specs.Prelude.{◌≡◌, [], IfOk, length};
ghost use Rattle.command_words.specs.Words.{IsGeometry};
ghost use Rattle.log_disk.specs.Disk.{IsWithin};
ghost use Rattle.program_runs.specs.Disks.{IsLeft, IsReady, KeepsGeometry};

use log_disk::{FaultPlan, LogDisk, MemDisk};
use std::alloc::Global;
use std::test::Fail;

/// Bytes of a region from a place on.
pub type Piece<'a> = (u32, u64, &'a [u8]);

/// A new disk of so many regions of a length in bytes, all of whose bytes are 0, and whose calls fail by a plan.
pub fn new_disk(
    alloc: Global,
    regions: u32,
    region_len: u64,
    plan: FaultPlan,
) -> Result<MemDisk, Fail>
    requires { IsGeometry (regions, region_len) }
    ensures { IfOk result (λ disk. IsReady disk.disk) }
{
    Ok(MemDisk::new(alloc, regions, region_len, plan)?)
}

/// The disk after a crash, which has nothing unsynced, and of which no call fails.
pub fn crash(disk: MemDisk, picks: &[u8]) -> Result<MemDisk, Fail>
    requires { IsLeft disk.disk }
    ensures { IfOk result (λ disk. IsReady disk.disk) }
{
    Ok(disk.crashed(picks)?)
}

/// Writes bytes at a place of a region that has room for them.
fn write_piece(disk: &mut MemDisk, region: u32, at: u64, bytes: &[u8]) -> Result<(), Fail>
    requires within { IsWithin disk.old.disk region at (length bytes.now) }
    requires no_eyes { disk.old.disk.eyes ≡ [] }
    ensures { KeepsGeometry disk.old.disk disk.new.disk }
{
    disk.write(region, at, bytes)?;
    Ok(())
}

/// Writes bytes, which a crash leaves.
pub fn set_piece(disk: &mut MemDisk, piece: &Piece) -> Result<(), Fail>
    requires no_eyes { disk.old.disk.eyes ≡ [] }
    ensures { KeepsGeometry disk.old.disk disk.new.disk }
{
    let (region, at, bytes) = *piece;
    if disk.regions() <= region || disk.region_len().saturating_sub(at) < 1 + bytes.len() as u64 {
        return Err("piece")?;
    }
    write_piece(disk, region, at, bytes)?;
    disk.sync()?;
    Ok(())
}

/// Whether the log has these bytes.
pub fn has_piece(alloc: Global, disk: &mut MemDisk, piece: &Piece) -> Result<bool, Fail>
    requires no_eyes { disk.old.disk.eyes ≡ [] }
    ensures { KeepsGeometry disk.old.disk disk.new.disk }
{
    let (region, at, bytes) = *piece;
    let mut found = Vec::from_slice(alloc, bytes)?;
    if disk.regions() <= region || disk.region_len().saturating_sub(at) < 1 + bytes.len() as u64 {
        return Ok(false);
    }
    disk.read(region, at, &mut found)?;
    Ok(found.as_slice() == bytes)
}
