//! Printing how a run ended, and its status.

ghost use Rattle.std.specs.Prelude.{◌≡◌, ◌⊎◌};
ghost use Rattle.std.specs.List.{list_any};
ghost use Rattle.log_disk.specs.Disk.{HasRisen};
ghost use Rattle.fine_model.specs.declared.Reason.TheVariants as reason;
ghost use Rattle.fine_model.specs.declared.RunFault.TheVariants as run_fault;
ghost use Rattle.fine_model.specs.Outcomes.{is_refused};
ghost use Rattle.fine_model.specs.Report.{reason_bytes, report};
ghost use Rattle.script_text.specs.Streams.{Puts};
ghost use Rattle.script_text.specs.Summaries.{summary_of};
ghost use Rattle.fine_top.specs.Running.{reason_status, run_status};

use fine_model::{Outcome, Ran, Reason, RunFault, Script};
use log_commands::{Status, fault_status};
use script_text::{GeneratedRun, Sink, write_reason, write_report, write_summary};

fn is_refused(outcome: &Outcome) -> bool
    ensures { result ≡ is_refused outcome.now }
{
    matches!(outcome, Outcome::Refused { .. })
}

/// Whether a transaction was refused.
fn has_refused(outcomes: &[Outcome]) -> bool
    ensures { result ≡ list_any is_refused outcomes.now }
{
    outcomes.iter().any(|outcome| is_refused(outcome))
}

/// The status of outcomes and a fault: that of the fault, or whether a transaction was refused.
fn run_status(outcomes: &[Outcome], fault: Option<RunFault>) -> Status
    ensures { result ≡ run_status outcomes.now fault }
{
    match fault {
        Some(fault) => fault_status(fault),
        None => {
            if has_refused(outcomes) {
                Status::REFUSED
            } else {
                Status::DONE
            }
        }
    }
}

/// The status of a call that ended before anything was run.
fn reason_status(reason: Reason) -> Status
    ensures { result ≡ reason_status reason }
{
    match reason {
        Reason::Words => Status::WORDS,
        Reason::Script { .. } => Status::SCRIPT,
        Reason::Source => Status::SOURCE,
        Reason::Fault { fault } => fault_status(fault),
    }
}

/// Prints the line of a reason, and tells the status.
pub(crate) fn print_reason<K: Sink>(out: &mut K, reason: Reason) -> Status
    ensures status { (result ≡ 5) ⊎ (result ≡ reason_status reason) }
    ensures puts { Puts (reason_bytes reason) (result ≡ 5) (K.written out.old) (K.written out.new) }
    ensures failed { result ≡ 5 → HasRisen (K.faults out.old) (K.faults out.new) }
{
    match write_reason(out, reason) {
        Ok(()) => reason_status(reason),
        Err(_) => Status::OUTPUT,
    }
}

/// Prints the line of want of memory, and tells the status.
pub(crate) fn print_no_memory<K: Sink>(out: &mut K) -> Status
    ensures status { (result ≡ 5) ⊎ (result ≡ reason_status (reason.Fault run_fault.Memory)) }
    ensures puts { Puts (reason_bytes (reason.Fault run_fault.Memory)) (result ≡ 5) (K.written out.old) (K.written out.new) }
    ensures failed { result ≡ 5 → HasRisen (K.faults out.old) (K.faults out.new) }
{
    print_reason(
        out,
        Reason::Fault {
            fault: RunFault::Memory,
        },
    )
}

/// Prints the report of a run, and tells the status.
pub(crate) fn print_report<K: Sink>(out: &mut K, script: &Script, ran: &Ran) -> Status
    ensures status { (result ≡ 5) ⊎ (result ≡ run_status ran.now.outcomes ran.now.fault) }
    ensures puts { Puts (report script.now ran.now) (result ≡ 5) (K.written out.old) (K.written out.new) }
    ensures failed { result ≡ 5 → HasRisen (K.faults out.old) (K.faults out.new) }
{
    match write_report(out, script, ran) {
        Ok(()) => run_status(ran.outcomes.as_slice(), ran.fault),
        Err(_) => Status::OUTPUT,
    }
}

/// Prints the summary of a generated run, and tells the status.
pub(crate) fn print_run<K: Sink>(out: &mut K, run: &GeneratedRun) -> Status
    ensures status { (result ≡ 5) ⊎ (result ≡ run_status run.now.outcomes.now run.now.fault) }
    ensures puts { Puts (summary_of run.now) (result ≡ 5) (K.written out.old) (K.written out.new) }
    ensures failed { result ≡ 5 → HasRisen (K.faults out.old) (K.faults out.new) }
{
    match write_summary(out, run) {
        Ok(()) => run_status(run.outcomes, run.fault),
        Err(_) => Status::OUTPUT,
    }
}
