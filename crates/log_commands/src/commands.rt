//! The commands `ranges` and `merge`.

ghost use Rattle.std.specs.Prelude.{◌≡◌, ◌≤◌, ◌<◌, None, true, false, [], ◌∷◌};
ghost use Rattle.std.specs.List.{list_all};
ghost use Rattle.log_disk.specs.Disk.{HasRisen, OnlyFails};
ghost use Rattle.fine_model.specs.Boards.{is_empty};
ghost use Rattle.fine_model.specs.Headline.{OneOf};
ghost use Rattle.fine_model.specs.RowBytes.{longest_header, longest_region};
ghost use Rattle.epoch_room.specs.Whole.{IsIdle};
ghost use Rattle.log_commands.specs.Ends.{Ends, MergesAnyWell, MergesWell, RangesWell};
ghost use Rattle.log_commands.specs.Found.{FindsChain, IsUntouched};
ghost use Rattle.log_commands.specs.Merged.{EndsRoom, KeepsLog, MergesLog, PrintsMerged, ShowsNone};

use crate::merged::merge_all;
use crate::opening::{find_chain, open_fault};
use crate::printing::{print_chain, print_fault};
use crate::status::Status;
use epoch_room::Room;
use fine_model::RunFault;
use log_disk::LogDisk;
use reopen::open_log;
use script_text::Sink;
use std::alloc::Global;

/// What a command leaves: its status, and the disk with all eyes closed.
#[derive(Drop)]
pub struct Finish<D> {
    pub status: u8,
    pub disk: D,
}

/// Finds the chain and prints it; all that `print_ranges` says of it, in one clause.
fn print_found<K: Sink, D: LogDisk>(alloc: Global, out: &mut K, disk: D) -> Finish<D>
    requires region_len { (longest_header ≤ (D.state disk).region_len) × ((D.state disk).region_len ≤ longest_region) }
    ensures ends { Ends (FindsChain (D.state disk) (D.state result.disk)) result.status (K.written out.old) (K.written out.new) }
    ensures failed { result.status ≡ 5 → HasRisen (K.faults out.old) (K.faults out.new) }
{
    let mut disk = disk;
    match find_chain(alloc, &mut disk) {
        Ok(chain) => Finish {
            status: print_chain(out, chain.parts.as_slice()).number(),
            disk,
        },
        Err(fault) => Finish {
            status: print_fault(out, fault).number(),
            disk,
        },
    }
}

/// Prints the live chain of a log: a line for each part with its epochs, its first region and its rows, and the chain's last epoch. It reads headers alone, and
/// writes nothing to the disk.
///
/// The regions have 70 bytes to 64 MiB. The status is 0 where the chain was printed; 7 where it is damaged, 6 where the disk failed, and 1 where memory ran out, with the
/// fault's line alone; and 5 where the text could not be written whole. The disk comes back as it was, but for its counts where it failed.
pub fn print_ranges<K: Sink, D: LogDisk>(alloc: Global, out: &mut K, disk: D) -> Finish<D>
    requires region_len { (longest_header ≤ (D.state disk).region_len) × ((D.state disk).region_len ≤ longest_region) }

    // What is printed, and why; and what becomes of the disk.
    ensures ends { Ends (FindsChain (D.state disk) (D.state result.disk)) result.status (K.written out.old) (K.written out.new) }

    // Where the output and the disk are told: the chain of the entry's bytes is printed, or its damage.
    ensures ranges { RangesWell (K.faults out.old, K.faults out.new) (D.state disk) (D.state result.disk) result.status (K.written out.old) (K.written out.new) }

    // The counts of faults that the statuses tell.
    ensures output_failed { result.status ≡ 5 → HasRisen (K.faults out.old) (K.faults out.new) }
    ensures disk_failed { result.status ≡ 6 → OnlyFails (D.state disk) (D.state result.disk) }
    ensures disk_told { (D.state disk).faults < (D.state result.disk).faults → OneOf (5 ∷ 6 ∷ []) result.status }
    ensures known { OneOf (0 ∷ 1 ∷ 5 ∷ 6 ∷ 7 ∷ []) result.status }

    // What stands on the disk.
    ensures unchanged { OneOf (0 ∷ 1 ∷ 7 ∷ []) result.status → D.state result.disk ≡ D.state disk }
    ensures untouched { IsUntouched (D.state disk) (D.state result.disk) }
    ensures still_told { (D.state result.disk).told ≡ (D.state disk).told }
{
    print_found(alloc, out, disk)
}

/// Prints the chain of a room behind merging, or the fault that ended it.
fn print_merged<K: Sink, D: LogDisk>(
    out: &mut K,
    room: &Room<D>,
    merged: Result<(), RunFault>,
) -> Status
    ensures ends { PrintsMerged room.now merged result (K.written out.old) (K.written out.new) }
    ensures failed { result ≡ 5 → HasRisen (K.faults out.old) (K.faults out.new) }
{
    match merged {
        Ok(()) => print_chain(out, room.parts().as_slice()),
        Err(fault) => print_fault(out, fault),
    }
}

/// Merges the neighbours of a room, prints what is to be printed, and gives the disk back.
fn merge_room<K: Sink, D: LogDisk>(alloc: Global, out: &mut K, room: Room<D>) -> Finish<D>
    requires no_job { room.room.job ≡ None }
    requires board { list_all is_empty room.room.board ≡ true }
    requires opened { room.room.is_shut ≡ false }
    ensures ends { EndsRoom room (D.state result.disk) result.status (K.written out.old) (K.written out.new) }
    ensures failed { result.status ≡ 5 → HasRisen (K.faults out.old) (K.faults out.new) }
{
    let mut room = room;
    let merged = merge_all(alloc, &mut room);
    let status = print_merged(out, &room, merged);
    Finish {
        status: status.number(),
        disk: room.into_disk(),
    }
}

/// Opens the log, merges and prints; all that `merge_and_print` says of it, in one clause.
fn merge_found<K: Sink, D: LogDisk>(alloc: Global, out: &mut K, disk: D) -> Finish<D>
    requires idle { IsIdle (D.state disk) }
    ensures ends { Ends (MergesLog (D.state disk) (D.state result.disk)) result.status (K.written out.old) (K.written out.new) }
    ensures failed { result.status ≡ 5 → HasRisen (K.faults out.old) (K.faults out.new) }
{
    // A disk that tells its geometry is a sound one.
    let _regions = disk.regions();
    match open_log(alloc, disk) {
        Ok(room) => {
            let _made = room.sealed();
            merge_room(alloc, out, room)
        }
        Err((fault, disk)) => Finish {
            status: print_fault(out, open_fault(fault)).number(),
            disk,
        },
    }
}

/// Merges neighbours of a log's chain until no two fit what is free, and prints the chain: a line for each part with its epochs, its first region and its rows, and the
/// chain's last epoch. What was merged is erased.
///
/// The disk has 4 to 64 regions of 4 KiB to 64 MiB, whole KiB; nothing is unsynced, and no eye is open. The status is 0 where the chain was printed; 7 where the chain is damaged, or a
/// row or an index entry of two neighbours is; 6 where the disk failed, and 1 where memory ran out, with the fault's line alone; and 5 where the text could not be written whole.
/// Whatever the status, neighbours that were merged stay so, a crash at any moment leaves the log that was there, and the disk comes back.
pub fn merge_and_print<K: Sink, D: LogDisk>(alloc: Global, out: &mut K, disk: D) -> Finish<D>
    requires idle { IsIdle (D.state disk) }

    // What is printed, and why; and what becomes of the disk.
    ensures ends { Ends (MergesLog (D.state disk) (D.state result.disk)) result.status (K.written out.old) (K.written out.new) }

    // Where the output and the disk are told, and the log shows rows: every image shows the log at entry, and the chain on return is printed. On any log: what is printed and named.
    ensures merge { MergesWell (K.faults out.old, K.faults out.new) (D.state disk) (D.state result.disk) result.status (K.written out.old) (K.written out.new) }
    ensures any { MergesAnyWell (K.faults out.old, K.faults out.new) (D.state disk) (D.state result.disk) result.status (K.written out.old) (K.written out.new) }

    // The counts of faults that the statuses tell.
    ensures output_failed { result.status ≡ 5 → HasRisen (K.faults out.old) (K.faults out.new) }
    ensures disk_failed { result.status ≡ 6 → HasRisen (D.state disk).faults (D.state result.disk).faults }
    ensures disk_told { (D.state disk).faults < (D.state result.disk).faults → OneOf (5 ∷ 6 ∷ []) result.status }
    ensures known { OneOf (0 ∷ 1 ∷ 5 ∷ 6 ∷ 7 ∷ []) result.status }

    // Status 7 comes on a log alone that shows no rows.
    ensures damaged { result.status ≡ 7 → ShowsNone (D.state disk) }

    // What stands on the disk.
    ensures keeps { KeepsLog (D.state disk) (D.state result.disk) }
{
    let finish = merge_found(alloc, out, disk);
    // So is the one that comes back.
    let _regions = finish.disk.regions();
    finish
}
