//! Printing what a command found, and its status.

ghost use Rattle.std.specs.Prelude.{◌≡◌, ◌⊎◌};
ghost use Rattle.fine_model.specs.Report.{fault_line, ranges};
ghost use Rattle.log_disk.specs.Disk.{HasRisen};
ghost use Rattle.script_text.specs.Streams.{Puts};
ghost use Rattle.log_commands.specs.Ends.{fault_status};

use crate::status::Status;
use fine_model::{Part, Reason, RunFault};
use script_text::{Sink, write_ranges, write_reason};

/// The status of a fault: 1 where memory ran out, 6 where the disk failed, and 7 where the log is damaged.
pub fn fault_status(fault: RunFault) -> Status
    ensures { result ≡ fault_status fault }
{
    match fault {
        RunFault::Memory => Status::MEMORY,
        RunFault::Disk => Status::DISK,
        RunFault::Damaged { .. } => Status::DAMAGED,
    }
}

/// Prints the parts of a chain and its end, and tells the status.
pub(crate) fn print_chain<K: Sink>(out: &mut K, chain: &[Part]) -> Status
    ensures status { (result ≡ 5) ⊎ (result ≡ 0) }
    ensures puts { Puts (ranges chain.now) (result ≡ 5) (K.written out.old) (K.written out.new) }
    ensures failed { result ≡ 5 → HasRisen (K.faults out.old) (K.faults out.new) }
{
    match write_ranges(out, chain) {
        Ok(()) => Status::DONE,
        Err(_) => Status::OUTPUT,
    }
}

/// Prints the line of a fault, and tells its status, or 5 where the text could not be written whole.
#[tactic(auto, unfolding(fine_model::specs::Report::reason_bytes))]
pub fn print_fault<K: Sink>(out: &mut K, fault: RunFault) -> Status
    ensures status { (result ≡ 5) ⊎ (result ≡ fault_status fault) }
    ensures puts { Puts (fault_line fault) (result ≡ 5) (K.written out.old) (K.written out.new) }
    ensures failed { result ≡ 5 → HasRisen (K.faults out.old) (K.faults out.new) }
{
    match write_reason(out, Reason::Fault { fault }) {
        Ok(()) => fault_status(fault),
        Err(_) => Status::OUTPUT,
    }
}
