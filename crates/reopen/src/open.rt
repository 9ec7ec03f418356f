//! Opening a log.

ghost use Rattle.std.specs.Prelude.{◌≡◌, IfOk, IfErr};
ghost use Rattle.log_disk.specs.Disk.{OnlyFails};
ghost use Rattle.epoch_room.specs.Value.{made};
ghost use Rattle.epoch_room.specs.Whole.{IsIdle};
ghost use Rattle.epoch_room.specs.Meaning.{StandsAtFirst};
ghost use Rattle.reopen.specs.declared.fault.OpenFault.TheVariants as fault;
ghost use Rattle.reopen.specs.Opening.{OpensRoom, TellsDamage};

use crate::fault::OpenFault;
use crate::headers::read_chain;
use epoch_room::Room;
use log_disk::LogDisk;
use std::alloc::Global;

/// Opens a log: reads the first 70 bytes of each region, in ascending order, and makes a room of the chain that they show.
///
/// The disk has 4 to 64 regions of 4,096 to 67,108,864 bytes, whole KiB; nothing is unsynced, and no eye is open. `BadRegion`, `Gap` and
/// `Overlap` come exactly where the format has no chain, and tell what it says. `Disk` comes only where the disk failed. With a refusal
/// the disk comes back, as it was but for its counts. The room stands for what the log shows, with no history.
pub fn open_log<D: LogDisk>(alloc: Global, disk: D) -> Result<Room<D>, (OpenFault, D)>
    requires { IsIdle (D.state disk) }
    ensures room { IfOk result (OpensRoom (D.state disk)) }
    ensures stands { IfOk result (λ room. StandsAtFirst room (D.state disk).told) }
    ensures damage { IfErr result (λ e. TellsDamage (D.state disk) e.0) }
    ensures failed { IfErr result (λ e. e.0 ≡ fault.Disk → OnlyFails (D.state disk) (D.state e.1)) }
    ensures same { IfErr result (λ e. (e.0 ≡ fault.Disk → ⊥) → D.state e.1 ≡ D.state disk) }
{
    let mut disk = disk;
    match read_chain(alloc, &mut disk) {
        Err(fault) => Err((fault, disk)),
        Ok(chain) => match Room::make(alloc, disk, chain.parts, chain.retired) {
            Ok(room) => Ok(room),
            Err((_refused, disk)) => Err((OpenFault::NoMemory, disk)),
        },
    }
}
