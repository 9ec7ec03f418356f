//! What a room writes to its disk.
//!
//! None of these calls asks that nothing be unsynced before. Whatever they answer, they touch no region but their own, neither in what a
//! read gives nor in what is unsynced.

ghost use Rattle.std.specs.Prelude.{◌+◌, ◌≡◌, ◌<◌, ◌≤◌, [], ◌∷◌, length, Contains, OnOk, IsErrOf};
ghost use Rattle.fine_model.specs.Regions.{body_start};
ghost use Rattle.log_disk.specs.Disk.{IsSound, IsUnseen, with_bytes};
ghost use Rattle.epoch_room.specs.Gate.{LeavesBehind, LeavesNow, LeavesOpening, LeavesSealing, HasBytes, KeepsBeside, IsUngated, TouchesOnly, gate};

use crate::answers::DiskResult;
use fine_model::format::SEALED_GATE;
use fine_model::{Mark, body_start};
use log_disk::{DiskRefusal, LogDisk};

/// How many bytes a header has behind the gate.
pub fn header_len(mark: Mark) -> usize
    ensures { 1 + result ≡ body_start mark }
{
    body_start(mark) as usize - 1
}

/// Opens the gate of a region in which a part was written from byte 1 on: syncs, writes the gate, and syncs.
///
/// A crash at any moment leaves what it could leave before, or what a read gave before with any byte at the gate. After `NoMemory` all
/// is synced, and the gate is as it was.
pub fn open_gate<D: LogDisk>(disk: &mut D, lead: u32) -> DiskResult<()>
    requires sound { IsSound (D.state disk.old) }
    requires there { lead < (D.state disk.old).regions }
    requires long { 1 ≤ (D.state disk.old).region_len }
    requires unseen { IsUnseen (D.state disk.old) lead }
    ensures touches { TouchesOnly (lead ∷ []) (IsErrOf result DiskRefusal.Failed) (D.state disk.old) (D.state disk.new) }
    ensures read { KeepsBeside (lead ∷ []) (D.state disk.old) (D.state disk.new) }
    ensures leaves { LeavesOpening lead (D.state disk.old) (D.state disk.new) }
    ensures synced { OnOk result ((D.state disk.new).unsynced ≡ []) }
    ensures bytes { OnOk result (HasBytes (λ image. with_bytes image lead 0 gate) (D.state disk.old) (D.state disk.new)) }
    ensures kept { IsErrOf result DiskRefusal.NoMemory → (D.state disk.new).unsynced ≡ [] }
    ensures no_memory { IsErrOf result DiskRefusal.NoMemory → HasBytes (λ image. image) (D.state disk.old) (D.state disk.new) }
    ensures untouched { IsErrOf result DiskRefusal.NoMemory → LeavesNow (D.state disk.old) (D.state disk.new) }
    ensures unsynced { Contains (D.state disk.old).unsynced lead → IsErrOf result DiskRefusal.Failed → Contains (D.state disk.new).unsynced lead }
{
    disk.sync()?;
    disk.write(lead, 0, &[SEALED_GATE])?;
    disk.sync()?;
    Ok(())
}

/// Writes bytes behind the gate of a region, and opens the gate: so an epoch, a merged or gathered part and a part that is taken in are sealed.
///
/// A crash at any moment leaves what it could leave before, torn behind the gate that was there, or all that a read gives then, with any
/// byte at the gate. After `NoMemory` nothing was begun, or all is synced with the bytes behind the gate that was there. After `Failed` the region is unsynced.
pub fn seal_region<D: LogDisk>(disk: &mut D, lead: u32, bytes: &[u8]) -> DiskResult<()>
    requires sound { IsSound (D.state disk.old) }
    requires there { lead < (D.state disk.old).regions }
    requires within { 1 + length bytes.now ≤ (D.state disk.old).region_len }
    requires unseen { IsUnseen (D.state disk.old) lead }
    ensures touches { TouchesOnly (lead ∷ []) (IsErrOf result DiskRefusal.Failed) (D.state disk.old) (D.state disk.new) }
    ensures read { KeepsBeside (lead ∷ []) (D.state disk.old) (D.state disk.new) }
    ensures leaves { LeavesSealing lead bytes.now (D.state disk.old) (D.state disk.new) }
    ensures synced { OnOk result ((D.state disk.new).unsynced ≡ []) }
    ensures bytes { OnOk result (HasBytes (λ image. with_bytes (with_bytes image lead 1 bytes.now) lead 0 gate) (D.state disk.old) (D.state disk.new)) }
    ensures no_memory { IsErrOf result DiskRefusal.NoMemory → IsUngated lead bytes.now (D.state disk.old) (D.state disk.new) }
    ensures untouched { IsErrOf result DiskRefusal.NoMemory → LeavesBehind (lead ∷ []) (D.state disk.old) (D.state disk.new) }
    ensures unsynced { IsErrOf result DiskRefusal.Failed → Contains (D.state disk.new).unsynced lead }
{
    disk.write(lead, 1, bytes)?;
    open_gate(disk, lead)
}
