//! Finding the chain of a log, for the commands.

ghost use Rattle.std.specs.Prelude.{◌≡◌, ◌≤◌, IfOk, IfErr, Ok, Err};
ghost use Rattle.fine_model.specs.RowBytes.{longest_header, longest_region};
ghost use Rattle.reopen.specs.Opening.{SeesChain};
ghost use Rattle.log_commands.specs.Found.{FindsChain, open_fault};

use fine_model::{Damage, RunFault};
use log_disk::LogDisk;
use reopen::{Chain, OpenFault, read_chain};
use std::alloc::Global;

/// The fault that a command tells, of a log that was not opened: what its chain is damaged by, or that the disk failed, or memory ran out.
pub fn open_fault(fault: OpenFault) -> RunFault
    ensures { result ≡ open_fault fault }
{
    let what = match fault {
        OpenFault::Disk => return RunFault::Disk,
        OpenFault::NoMemory => return RunFault::Memory,
        OpenFault::BadRegion { region, at } => Damage::Region { region, at },
        OpenFault::Gap { after, region } => Damage::Gap { after, region },
        OpenFault::Overlap { region, other } => Damage::Overlap { region, other },
    };
    RunFault::Damaged { what }
}

/// Finds the chain of a log: reads the first 70 bytes of each region, and writes nothing.
///
/// `Damaged` tells the first damage of the chain. After `Disk` the disk is as it was but for its counts, and else as it was.
pub fn find_chain<D: LogDisk>(alloc: Global, disk: &mut D) -> Result<Chain, RunFault>
    requires region_len { (longest_header ≤ (D.state disk.old).region_len) × ((D.state disk.old).region_len ≤ longest_region) }
    ensures ok { IfOk result (λ chain. SeesChain (D.state disk.old) chain × FindsChain (D.state disk.old) (D.state disk.new) (Ok chain.parts)) }
    ensures err { IfErr result (λ fault. FindsChain (D.state disk.old) (D.state disk.new) (Err fault)) }
{
    match read_chain(alloc, disk) {
        Ok(chain) => Ok(chain),
        Err(fault) => Err(open_fault(fault)),
    }
}
