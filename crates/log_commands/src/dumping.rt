//! The command `dump`.

ghost use Rattle.std.specs.Prelude.{◌≡◌, ◌⊎◌, ◌<◌, [], ◌∷◌, true, None};
ghost use Rattle.std.specs.List.{list_all};
ghost use Rattle.fine_model.specs.Boards.{is_empty};
ghost use Rattle.fine_model.specs.Headline.{OneOf};
ghost use Rattle.fine_model.specs.Report.{dump};
ghost use Rattle.log_disk.specs.Disk.{HasRisen};
ghost use Rattle.epoch_room.specs.Whole.{IsIdle};
ghost use Rattle.script_text.specs.Streams.{Puts};
ghost use Rattle.log_commands.specs.Dumps.{DumpsAny, DumpsWell, Ends, EndsRoom, IsUnsoundLog, LeavesBeside, Prints};

use crate::map::read_map;
use crate::opening::open_fault;
use crate::printing::print_fault;
use crate::status::Status;
use epoch_room::Room;
use fine_model::{Bytes, Pairs, RunFault};
use log_disk::LogDisk;
use reopen::open_log;
use script_text::{Sink, write_dump};
use std::alloc::Global;

/// Prints pairs, and tells the status.
fn print_pairs<K: Sink>(out: &mut K, pairs: &[(Bytes, Bytes)]) -> Status
    ensures status { (result ≡ 5) ⊎ (result ≡ 0) }
    ensures puts { Puts (dump pairs.now) (result ≡ 5) (K.written out.old) (K.written out.new) }
    ensures failed { result ≡ 5 → HasRisen (K.faults out.old) (K.faults out.new) }
{
    match write_dump(out, pairs) {
        Ok(()) => Status::DONE,
        Err(_) => Status::OUTPUT,
    }
}

/// Prints what was found, and tells the status.
fn print_found<K: Sink>(out: &mut K, found: Result<Pairs, RunFault>) -> Status
    ensures prints { Prints found result (K.written out.old) (K.written out.new) }
    ensures failed { result ≡ 5 → HasRisen (K.faults out.old) (K.faults out.new) }
{
    match found {
        Ok(pairs) => print_pairs(out, pairs.as_slice()),
        Err(fault) => print_fault(out, fault),
    }
}

/// Reads the map of a room, prints it, and gives the disk back.
fn dump_room<K: Sink, D: LogDisk>(alloc: Global, out: &mut K, room: Room<D>) -> (Status, D)
    requires no_job { room.room.job ≡ None }
    requires board { list_all is_empty room.room.board ≡ true }
    ensures ends { EndsRoom room (D.state result.1) result.0 (K.written out.old) (K.written out.new) }
    ensures failed { result.0 ≡ 5 → HasRisen (K.faults out.old) (K.faults out.new) }
{
    let mut room = room;
    let found = read_map(alloc, &mut room);
    let _read = room.sealed();
    let status = print_found(out, found);
    (status, room.into_disk())
}

/// Opens the log, reads and prints; all that `dump_and_print` says of it, in one clause.
fn dump_log<K: Sink, D: LogDisk>(alloc: Global, out: &mut K, disk: D) -> (Status, D)
    requires idle { IsIdle (D.state disk) }
    ensures ends { Ends (D.state disk) (D.state result.1) result.0 (K.written out.old) (K.written out.new) }
    ensures failed { result.0 ≡ 5 → HasRisen (K.faults out.old) (K.faults out.new) }
{
    match open_log(alloc, disk) {
        Ok(room) => {
            let _made = room.sealed();
            dump_room(alloc, out, room)
        }
        Err((fault, disk)) => (print_fault(out, open_fault(fault)), disk),
    }
}

/// Prints all pairs of a log in the byte order of their keys, a line each, and how many there are. Opening the log reads its headers; the pairs are read through a view, one bucket after another.
/// Nothing is written to the disk, which comes back with every status.
///
/// The disk has 4 to 64 regions of 4 KiB to 64 MiB, whole KiB; nothing is unsynced, and no eye is open. The status is 0 where the pairs were printed; 7 where the chain, a row, an index entry or
/// a tree is damaged, 6 where the disk failed, and 1 where memory ran out, with the fault's line alone; and 5 where the text could not be written whole.
pub fn dump_and_print<K: Sink, D: LogDisk>(alloc: Global, out: &mut K, disk: D) -> (Status, D)
    requires idle { IsIdle (D.state disk) }

    // What is printed, and why; and what becomes of the disk.
    ensures ends { Ends (D.state disk) (D.state result.1) result.0 (K.written out.old) (K.written out.new) }

    // Where the output and the disk are told: the map of a sound log is printed.
    ensures sound { DumpsWell (K.faults out.old, K.faults out.new) (D.state disk) (D.state result.1) result.0 (K.written out.old) (K.written out.new) }

    // The same of every log: the pairs that are found by the bytes at entry are printed, or damage that is there.
    ensures any { DumpsAny (K.faults out.old, K.faults out.new) (D.state disk) (D.state result.1) result.0 (K.written out.old) (K.written out.new) }

    // The counts of faults that the statuses tell.
    ensures output_failed { result.0 ≡ 5 → HasRisen (K.faults out.old) (K.faults out.new) }
    ensures disk_failed { result.0 ≡ 6 → HasRisen (D.state disk).faults (D.state result.1).faults }
    ensures disk_told { (D.state disk).faults < (D.state result.1).faults → OneOf (1 ∷ 5 ∷ 6 ∷ []) result.0 }
    ensures known { OneOf (0 ∷ 1 ∷ 5 ∷ 6 ∷ 7 ∷ []) result.0 }

    // Status 7 comes for a log alone that is not sound.
    ensures damaged { result.0 ≡ 7 → IsUnsoundLog (D.state disk) }

    // What stands on the disk.
    ensures still_told { (D.state result.1).told ≡ (D.state disk).told }
    ensures beside { LeavesBeside (D.state disk) (D.state result.1) }
{
    dump_log(alloc, out, disk)
}
