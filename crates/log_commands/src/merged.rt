//! Merging neighbours until none fit.

ghost use Rattle.std.specs.Prelude.{◌≡◌, None, true, false};
ghost use Rattle.std.specs.List.{list_all};
ghost use Rattle.fine_model.specs.Boards.{is_empty};
ghost use Rattle.log_commands.specs.Merged.{MergesAll, MergesOnce};

use epoch_room::Room;
use fine_model::RunFault;
use log_disk::LogDisk;
use room_merges::merge_now;
use room_steps::of_merge;
use std::alloc::Global;

/// Merges the first neighbours that fit: true, or false where none do.
fn merge_once<D: LogDisk>(alloc: Global, room: &mut Room<D>) -> Result<bool, RunFault>
    requires no_job { room.old.room.job ≡ None }
    requires board { list_all is_empty room.old.room.board ≡ true }
    requires opened { room.old.room.is_shut ≡ false }
    ensures { MergesOnce room.old room.new result }
{
    let _whole = room.sealed();
    let merged = merge_now(alloc, room);
    let _merged = room.sealed();
    match merged {
        Ok(merged) => Ok(merged),
        Err(fault) => Err(of_merge(fault)),
    }
}

/// Merges neighbours until none fit what is free. Nothing is sealed or added.
///
/// `Disk` comes only where the disk or a read failed in this call. After `Memory` and `Damaged` no call failed. `Damaged` names a row or an index entry of
/// a live part that is bad by what was read. With each fault, neighbours that were merged before stay so.
pub(crate) fn merge_all<D: LogDisk>(alloc: Global, room: &mut Room<D>) -> Result<(), RunFault>
    requires no_job { room.old.room.job ≡ None }
    requires board { list_all is_empty room.old.room.board ≡ true }
    requires opened { room.old.room.is_shut ≡ false }
    ensures { MergesAll room.old room.new result }
{
    let _whole = room.sealed();
    loop {
        match merge_once(alloc, room) {
            Ok(merged) => {
                if !merged {
                    return Ok(());
                }
            }
            Err(fault) => return Err(fault),
        }
    }
}
