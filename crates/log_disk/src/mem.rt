//! A disk in memory, which tells its bytes and every moment that it was in.

ghost use Rattle.std.specs.Prelude.{◌≡◌, ◌≢◌, ◌+◌, ◌<◌, ◌≤◌, ◌||◌, ◌==◌, [], length, All, Any, Contains, Some, Err, OnOk, OnErr, IfOk, IsErr, IsErrOf, is_err};
ghost use Rattle.log_disk.specs.Disk.{zeros, new_disk, told_anew, last_count, IsWithin, IsUnseen, Reads, Writes, Syncs, OnlyFails, Opens, Closes, Looks};
ghost use Rattle.log_disk.specs.Plan.{no_faults, no_calls, next, one_read, one_write, one_sync, one_eye, is_planned, read_fails, write_fails, sync_fails, eye_fails, eye_reads_of};
ghost use Rattle.log_disk.specs.Schedule.{plan_of};
ghost use Rattle.log_disk.specs.Crash.{IsCrashOf};

use crate::eyes::OpenEyes;
use crate::faults::Faults;
use crate::{DiskRefusal, Failed, LogDisk, LogEye, NoMemory};
use std::alloc::{AllocError, Global};
use std::marker::Model;
use std::snapshot::Snapshot;
use std::sync::Arc;

mod crash;
mod plan;
mod region;

use crash::crash_regions;
pub use plan::FaultPlan;
use plan::Schedule;
use region::{Region, read_region, settle_all, share_all, write_region, zero_regions};

/// A range that was written since the last sync.
#[derive(Clone, Copy)]
struct Written {
    region: u32,
    from: u64,
    end: u64,
}

/// What a disk holds at one moment.
#[derive(Drop)]
struct Present {
    regions: Vec<Region>,
    unsynced: Vec<Written>,
}

/// Regions in memory, with a plan of the calls that fail: exactly those.
///
/// Contracts see the disk, its plan and how many calls there were. It keeps one entry for each write and each sync, which has the moment before it for contracts, and no bytes.
#[derive(Drop)]
pub struct MemDisk {
    alloc: Global,
    region_len: u64,
    present: Present,
    past: Vec<Snapshot<Present>>,
    schedule: Schedule,
    eyes: OpenEyes,
    faults: Faults,
}

impl Model for MemDisk {
    ghost use Rattle.std.specs.Prelude.{ℕ};
    ghost use Rattle.log_disk.specs.Plan.{PlannedDisk};

    ghost Value = { PlannedDisk };

    ghost use Rattle.log_disk.specs.MemDisk.{planned_disk, IsKeptWell};

    ghost view = { planned_disk };

    ghost invariant = { IsKeptWell };
}

impl MemDisk {
    /// A disk of zeros, all of them synced, which fails where the plan says so.
    ///
    /// `NoMemory` is the only refusal.
    pub fn new(
        alloc: Global,
        regions: u32,
        region_len: u64,
        plan: FaultPlan,
    ) -> Result<MemDisk, NoMemory>
        ensures { IfOk result (λ made. made ≡ record { disk = new_disk regions region_len (Some (told_anew (zeros regions region_len))); plan = plan_of plan; calls = no_calls }) }
    {
        let rows = zero_regions(alloc, regions, region_len)?;
        Ok(MemDisk {
            alloc,
            region_len,
            present: Present {
                regions: rows,
                unsynced: Vec::new(alloc),
            },
            past: Vec::new(alloc),
            schedule: Schedule::new(plan),
            eyes: OpenEyes::none(alloc),
            faults: Faults::none(),
        })
    }

    /// The disk as a crash now leaves it, where the bytes of the unsynced ranges are picked. No eye is open.
    ///
    /// The pending bytes are counted by region and offset. Pending byte `j` becomes `picks[j]` where there is one, and
    /// else what the last sync left. The disk that comes back has nothing unsynced, a plan with no faults, and all counts
    /// at 0. `NoMemory` is the only refusal; this disk is then gone.
    pub fn crashed(self, picks: &[u8]) -> Result<MemDisk, NoMemory>
        requires { self.disk.eyes ≡ [] }
        ensures crash { IfOk result (λ left. IsCrashOf self.disk picks.now left.disk) }
        ensures anew { IfOk result (λ left. (left.plan ≡ no_faults) × (left.calls ≡ no_calls)) }
    {
        let alloc = self.alloc;
        let rows = crash_regions(alloc, &self.present.regions, &self.present.unsynced, picks)?;
        Ok(MemDisk {
            alloc,
            region_len: self.region_len,
            present: Present {
                regions: rows,
                unsynced: Vec::new(alloc),
            },
            past: Vec::new(alloc),
            schedule: Schedule::new(FaultPlan::none(alloc)),
            eyes: OpenEyes::none(alloc),
            faults: Faults::none(),
        })
    }
}

impl LogDisk for MemDisk {
    type Eye = MemEye;

    ghost state = { λ planned. planned.disk };

    fn regions(&self) -> u32 {
        self.present.regions.len() as u32
    }

    fn region_len(&self) -> u64 {
        self.region_len
    }

    fn read(&mut self, region: u32, at: u64, out: &mut [u8]) -> Result<(), Failed>
        requires { IsWithin self.old.disk region at (length out.old) }
        ensures reads { Reads region at out.new (IsErr result) self.old.disk self.new.disk }
        ensures planned { is_err result ≡ read_fails self.old.plan self.new.calls }
        ensures calls { self.new.calls ≡ one_read self.old.calls }
        ensures plan { self.new.plan ≡ self.old.plan }
    {
        if self.schedule.read_fails() {
            self.faults.count();
            return Err(Failed);
        }
        read_region(&self.present.regions, region as usize, at as usize, out);
        Ok(())
    }

    fn write(&mut self, region: u32, at: u64, bytes: &[u8]) -> Result<(), DiskRefusal>
        requires within { IsWithin self.old.disk region at (length bytes.now) }
        requires unseen { IsUnseen self.old.disk region }
        ensures begun { result ≢ Err DiskRefusal.NoMemory → Writes region at bytes.now (IsErr result) self.old.disk self.new.disk }
        ensures no_memory { IsErrOf result DiskRefusal.NoMemory → self.new.disk ≡ self.old.disk }
        ensures planned { result ≢ Err DiskRefusal.NoMemory → is_err result ≡ write_fails self.old.plan self.new.calls }
        ensures calls { self.new.calls ≡ one_write self.old.calls }
        ensures plan { self.new.plan ≡ self.old.plan }
    {
        let fails = self.schedule.write_fails();
        // Room for the entry of this write, and for that of the next sync.
        self.past.reserve(2)?;
        self.present.unsynced.reserve(1)?;
        let before = Snapshot::of(&self.present);
        let written = Written {
            region,
            from: at,
            end: at + bytes.len() as u64,
        };
        if fails {
            self.past.push_reserved(before);
            self.present.unsynced.push_reserved(written);
            self.faults.count();
            return Err(DiskRefusal::Failed);
        }
        let rows = &mut self.present.regions;
        write_region(self.alloc, rows, region as usize, at as usize, bytes)?;
        self.past.push_reserved(before);
        self.present.unsynced.push_reserved(written);
        Ok(())
    }

    fn sync(&mut self) -> Result<(), Failed>
        ensures ok { OnOk result (Syncs self.old.disk self.new.disk) }
        ensures err { OnErr result (OnlyFails self.old.disk self.new.disk) }
        ensures planned { is_err result ≡ sync_fails self.old.plan self.new.calls }
        ensures calls { self.new.calls ≡ one_sync self.old.calls }
        ensures plan { self.new.plan ≡ self.old.plan }
    {
        if self.schedule.sync_fails() {
            self.faults.count();
            return Err(Failed);
        }
        if self.present.unsynced.is_empty() {
            return Ok(());
        }
        let before = Snapshot::of(&self.present);
        self.past.push_reserved(before);
        settle_all(&mut self.present.regions);
        self.present.unsynced.clear();
        Ok(())
    }

    /// `Failed` comes where the plan says so, and where all numbers of 64 bits are spent. The reads that fail by this eye are
    /// those which the plan names with its number.
    fn eye(&mut self, regions: &[u32]) -> Result<MemEye, DiskRefusal>
        requires there { All (λ r. r < self.old.disk.regions) regions.now }
        requires synced { All (λ r. Contains self.old.disk.unsynced r → ⊥) regions.now }
        ensures ok { IfOk result (λ opened. Opens regions.now opened.eye self.old.disk self.new.disk) }
        ensures failed { IsErrOf result DiskRefusal.Failed → OnlyFails self.old.disk self.new.disk }
        ensures no_memory { IsErrOf result DiskRefusal.NoMemory → self.new.disk ≡ self.old.disk }
        ensures planned { result ≢ Err DiskRefusal.NoMemory → is_err result ≡ (eye_fails self.old.plan self.new.calls || (length self.old.disk.given == last_count)) }
        ensures fails { IfOk result (λ opened. opened.fails ≡ eye_reads_of self.old.plan opened.eye.number) }
        ensures unread { IfOk result (λ opened. opened.reads ≡ 0) }
        ensures calls { self.new.calls ≡ one_eye self.old.calls }
        ensures plan { self.new.plan ≡ self.old.plan }
    {
        let planned = self.schedule.eye_fails();
        let spent = self.eyes.are_spent();
        if planned | spent {
            self.faults.count();
            return Err(DiskRefusal::Failed);
        }
        self.eyes.reserve()?;
        let named = Vec::from_slice(self.alloc, regions)?;
        let bytes = share_all(self.alloc, &self.present.regions)?;
        let failing = self
            .schedule
            .failing_reads(self.alloc, self.eyes.given + 1)?;
        let number = self.eyes.open(&named);
        Ok(MemEye {
            number,
            regions: named,
            bytes,
            region_len: self.region_len,
            failing,
            reads: 0,
            faults: 0,
            taken: 0,
        })
    }

    fn close(&mut self, eye: MemEye)
        requires { Any (λ e. e.number ≡ eye.eye.number) self.old.disk.eyes }
        ensures closes { Closes eye.eye self.old.disk self.new.disk }
        ensures calls { self.new.calls ≡ self.old.calls }
        ensures plan { self.new.plan ≡ self.old.plan }
    {
        let number = eye.number;
        self.faults.add(eye.faults);
        self.eyes.close(number);
    }
}

/// An eye on a disk in memory, with which it shares its bytes.
#[derive(Drop)]
pub struct MemEye {
    number: u64,
    regions: Vec<u32>,
    bytes: Vec<Arc<Vec<u8>, Global>>,
    region_len: u64,
    failing: Vec<u64>,
    reads: u64,
    faults: u64,
    taken: u64,
}

impl Model for MemEye {
    ghost use Rattle.std.specs.Prelude.{ℕ};
    ghost use Rattle.log_disk.specs.Plan.{PlannedEye};

    ghost Value = { PlannedEye };

    ghost use Rattle.log_disk.specs.MemEye.{planned_eye, IsEyeKeptWell};

    ghost view = { planned_eye };

    ghost invariant = { IsEyeKeptWell };
}

impl MemEye {
    /// How many bytes the reads of this eye asked for so far, or the greatest number where they are more.
    pub fn taken(&self) -> u64
        ensures { result ≡ self.now.eye.taken }
    {
        self.taken
    }
}

impl LogEye for MemEye {
    ghost state = { λ planned. planned.eye };

    fn number(&self) -> u64 {
        self.number
    }

    fn read(&mut self, region: u32, at: u64, out: &mut [u8]) -> Result<(), Failed>
        requires named { Contains self.old.eye.regions region }
        requires within { at + length out.old ≤ self.old.eye.region_len }
        ensures looks { Looks region at out.new (IsErr result) self.old.eye self.new.eye }
        ensures planned { is_err result ≡ is_planned self.old.fails self.new.reads }
        ensures reads { self.new.reads ≡ next self.old.reads }
        ensures fails { self.new.fails ≡ self.old.fails }
    {
        self.taken = self.taken.saturating_add(out.len() as u64);
        self.reads = self.reads.saturating_add(1);
        if self.failing.as_slice().contains(&self.reads) {
            self.faults = self.faults.saturating_add(1);
            return Err(Failed);
        }
        let from = at as usize;
        let bytes = self.bytes[region as usize].as_slice();
        out.copy_from_slice(&bytes[from..from + out.len()]);
        Ok(())
    }
}
