//! What a room writes to its disk where parts are erased.

ghost use Rattle.std.specs.Prelude.{◌≡◌, ◌<◌, ◌≤◌, true, false, IsErrOf};
ghost use Rattle.std.specs.List.{AllByRecursion};
ghost use Rattle.log_disk.specs.Disk.{IsSound, IsUnseen};
ghost use Rattle.epoch_room.specs.Closing.{ClosesGates, WritesGates};

use crate::answers::DiskResult;
use log_disk::{DiskRefusal, LogDisk};

/// The first byte of a region whose gate is closed.
const CLOSED_GATE: u8 = 0;

/// Whether the disk failed.
pub fn has_failed(written: &DiskResult<()>) -> bool
    ensures yes { result ≡ true → IsErrOf written.now DiskRefusal.Failed }
    ensures no { result ≡ false → IsErrOf written.now DiskRefusal.Failed → ⊥ }
{
    match written {
        Ok(()) => false,
        Err(refusal) => match refusal {
            DiskRefusal::Failed => true,
            DiskRefusal::NoMemory => false,
        },
    }
}

/// Writes the closed gates of regions, one behind the other, and answers how many were begun.
fn write_gates<D: LogDisk>(disk: &mut D, leads: &[u32]) -> (usize, DiskResult<()>)
    requires sound { IsSound (D.state disk.old) }
    requires there { AllByRecursion (λ r. r < (D.state disk.old).regions) leads.now }
    requires long { 1 ≤ (D.state disk.old).region_len }
    requires unseen { AllByRecursion (IsUnseen (D.state disk.old)) leads.now }
    ensures { WritesGates leads.now result.0 result.1 (D.state disk.old) (D.state disk.new) }
{
    for (begun, lead) in leads.iter().enumerate() {
        if let Err(refusal) = disk.write(*lead, 0, &[CLOSED_GATE]) {
            return match refusal {
                DiskRefusal::Failed => (begun + 1, Err(DiskRefusal::Failed)),
                DiskRefusal::NoMemory => (begun, Err(DiskRefusal::NoMemory)),
            };
        }
    }
    (leads.len(), Ok(()))
}

/// Closes the gates of regions: writes them, and syncs once. Answers how many were begun.
///
/// A crash at any moment leaves what it could leave before, with any bytes at the gates of any of these regions. Where one wants memory,
/// those before it are closed and synced, and no other was begun.
pub fn close_gates<D: LogDisk>(disk: &mut D, leads: &[u32]) -> (usize, DiskResult<()>)
    requires sound { IsSound (D.state disk.old) }
    requires there { AllByRecursion (λ r. r < (D.state disk.old).regions) leads.now }
    requires long { 1 ≤ (D.state disk.old).region_len }
    requires unseen { AllByRecursion (IsUnseen (D.state disk.old)) leads.now }
    ensures { ClosesGates leads.now result.0 result.1 (D.state disk.old) (D.state disk.new) }
{
    let (begun, written) = write_gates(disk, leads);
    if begun == 0 || has_failed(&written) {
        return (begun, written);
    }
    match disk.sync() {
        Ok(()) => (begun, written),
        Err(_failed) => (begun, Err(DiskRefusal::Failed)),
    }
}
