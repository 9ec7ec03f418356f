//! Disks whose every crash is specified, and eyes on their regions.
//!
//! A disk is a row of regions of one length. Between two syncs each written range may hold any bytes after a crash, and
//! bytes outside of these ranges stay. After a sync that succeeded, a crash leaves what a read gives.
#![tactic(auto)]

ghost use Rattle.std.specs.Prelude.{◌≡◌, ◌≢◌, ◌+◌, ◌<◌, ◌≤◌, length, All, Any, Contains, OnOk, OnErr, IfOk, IsErr, IsErrOf};
ghost use Rattle.log_disk.specs.Disk.{Disk, Eye, IsWithin, IsUnseen, IsSound, Reads, Writes, Syncs, OnlyFails, Opens, Closes, Looks};

mod eyes;
mod faults;
mod file;
pub mod laws;
mod mem;
mod refusal;

pub use file::{FileAsk, FileCall, FileDisk, FileEye, FileNotes, MakeFault};
pub use mem::{FaultPlan, MemDisk, MemEye};
pub use refusal::{DiskRefusal, Failed, NoMemory};

/// A view of some regions of a disk, which stay as they are as long as it is open.
pub trait LogEye: Drop {
    /// What contracts see of an eye: its number, its regions, their length, its bytes where it tells them, how often a
    /// read of it has failed, and how many bytes its reads asked for.
    ghost state: { Self → Eye };

    /// The number under which the eye is open on its disk.
    fn number(&self) -> u64
        ensures { result ≡ (state self.now).number };

    /// Reads the bytes of a region from `at` on, as they were when the eye was opened.
    ///
    /// `Failed` comes only where the eye's count of faults rose in this call; what `out` then holds is not told. In
    /// each case the eye is as before, but for that count, and for the bytes taken, which rise by the length of `out`.
    fn read(&mut self, region: u32, at: u64, out: &mut [u8]) -> Result<(), Failed>
        requires named { Contains (state self.old).regions region }
        requires within { at + length out.old ≤ (state self.old).region_len }
        ensures { Looks region at out.new (IsErr result) (state self.old) (state self.new) };
}

/// A row of regions of one length.
///
/// Each call counts its failures: `Failed` comes only where the disk's count of faults, and its own count, rose in this
/// call, and every other answer leaves both counts as they were. A counter at its last value counts as risen.
pub trait LogDisk: Sized + Send + Drop {
    type Eye: LogEye + Send;

    /// What contracts see of a disk: its geometry, the bytes and the moments where it tells them, the regions with
    /// unsynced writes, its open eyes, the numbers that eyes got so far, and its counts of faults.
    ghost state: { Self → Disk };

    /// How many regions there are, numbered from 0.
    fn regions(&self) -> u32
        ensures regions { result ≡ (state self.now).regions }
        ensures sound { IsSound (state self.now) };

    /// The length of each region in bytes.
    fn region_len(&self) -> u64
        ensures region_len { result ≡ (state self.now).region_len }
        ensures sound { IsSound (state self.now) };

    /// Reads the bytes of a region from `at` on, the newest write included.
    ///
    /// After `Failed` the disk is as before, but for its counts; what `out` then holds is not told.
    fn read(&mut self, region: u32, at: u64, out: &mut [u8]) -> Result<(), Failed>
        requires { IsWithin (state self.old) region at (length out.old) }
        ensures { Reads region at out.new (IsErr result) (state self.old) (state self.new) };

    /// Writes bytes to a region from `at` on. No eye that is open may name the region.
    ///
    /// From its start on, until a sync succeeds, a crash may leave any bytes in the range. After `Failed` that is so
    /// too, and what a read gives in the range is not told. `NoMemory` leaves the disk as it was.
    fn write(&mut self, region: u32, at: u64, bytes: &[u8]) -> Result<(), DiskRefusal>
        requires within { IsWithin (state self.old) region at (length bytes.now) }
        requires unseen { IsUnseen (state self.old) region }
        ensures begun { result ≢ Err DiskRefusal.NoMemory → Writes region at bytes.now (IsErr result) (state self.old) (state self.new) }
        ensures no_memory { IsErrOf result DiskRefusal.NoMemory → state self.new ≡ state self.old };

    /// Makes all writes durable: after `Ok` nothing is unsynced, and a crash leaves what a read gives.
    ///
    /// After `Failed` all ranges that were unsynced still are. It takes no memory.
    fn sync(&mut self) -> Result<(), Failed>
        ensures ok { OnOk result (Syncs (state self.old) (state self.new)) }
        ensures err { OnErr result (OnlyFails (state self.old) (state self.new)) };

    /// Opens an eye on regions none of which has unsynced writes, under a number that was not given before.
    ///
    /// After `Failed`, which comes also where all numbers of 64 bits are spent, the disk is as before but for its
    /// counts. `NoMemory` leaves it as it was.
    fn eye(&mut self, regions: &[u32]) -> Result<Self::Eye, DiskRefusal>
        requires there { All (λ r. r < (state self.old).regions) regions.now }
        requires synced { All (λ r. Contains (state self.old).unsynced r → ⊥) regions.now }
        ensures ok { IfOk result (λ eye. Opens regions.now (Self.Eye.state eye) (state self.old) (state self.new)) }
        ensures failed { IsErrOf result DiskRefusal.Failed → OnlyFails (state self.old) (state self.new) }
        ensures no_memory { IsErrOf result DiskRefusal.NoMemory → state self.new ≡ state self.old };

    /// Closes an eye whose number is open here, and adds its count of faults to the disk's, but not to its own count.
    fn close(&mut self, eye: Self::Eye)
        requires { Any (λ e. e.number ≡ (Self.Eye.state eye).number) (state self.old).eyes }
        ensures { Closes (Self.Eye.state eye) (state self.old) (state self.new) };
}
