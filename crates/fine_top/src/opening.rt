//! What a run begins with: the script, and the log of the disk.

ghost use Rattle.std.specs.Prelude.{◌≡◌, ◌≤◌, IfOk, IfErr, Err};
ghost use Rattle.log_disk.specs.Disk.{HasRisen, OnlyFails};
ghost use Rattle.fine_model.specs.declared.Reason.TheVariants as reason;
ghost use Rattle.fine_model.specs.declared.RunFault.TheVariants as run_fault;
ghost use Rattle.fine_model.specs.RowBytes.{longest_header, longest_region};
ghost use Rattle.fine_top.specs.Running.{EndsEarly, IsReason, OpensRun, reason_of};

use fine_model::{Reason, RunFault, Script};
use log_commands::find_chain;
use log_disk::LogDisk;
use reopen::Chain;
use script_text::{ScriptFault, Source, read_script};
use std::alloc::Global;

/// A script that may be run, and the chain of the log that it runs on.
#[derive(Drop)]
pub struct Opened {
    pub script: Script,
    pub chain: Chain,
}

/// The reason for which a script was not read.
fn reason_of(fault: ScriptFault) -> Reason
    ensures { result ≡ reason_of fault }
{
    match fault {
        ScriptFault::Many { line } | ScriptFault::TooLong { line } | ScriptFault::Bad { line } => {
            Reason::Script { line }
        }
        ScriptFault::Read => Reason::Source,
        ScriptFault::NoMemory => Reason::Fault {
            fault: RunFault::Memory,
        },
    }
}

/// Reads the script and the headers of the log, in this order.
pub fn open_run<S: Source, D: LogDisk>(
    alloc: Global,
    source: &mut S,
    disk: &mut D,
) -> Result<Opened, Reason>
    requires region_len { (longest_header ≤ (D.state disk.old).region_len) × ((D.state disk.old).region_len ≤ longest_region) }
    ensures ok { IfOk result (OpensRun (S.left source.old) (D.state disk.old)) }
    ensures same { IfOk result (λ opened. D.state disk.new ≡ D.state disk.old) }
    ensures reason { IfErr result (IsReason (HasRisen (S.faults source.old) (S.faults source.new)) (S.left source.old) (D.state disk.old)) }
    ensures early { IfErr result (λ reason. EndsEarly reason (D.state disk.old) (D.state disk.new)) }
    ensures source_failed { result ≡ Err reason.Source → HasRisen (S.faults source.old) (S.faults source.new) }
{
    let script = match read_script(alloc, source) {
        Ok(script) => script,
        Err(fault) => return Err(reason_of(fault)),
    };
    match find_chain(alloc, disk) {
        Ok(chain) => Ok(Opened { script, chain }),
        Err(fault) => Err(Reason::Fault { fault }),
    }
}
