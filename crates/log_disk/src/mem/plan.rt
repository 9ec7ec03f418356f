//! Which calls of a disk in memory fail.

ghost use Rattle.std.specs.Prelude.{◌≡◌, IfOk};
ghost use Rattle.log_disk.specs.Plan.{no_faults, no_calls, is_stopped, next, one_read, one_write, one_sync, one_eye, read_fails, write_fails, sync_fails, eye_fails, eye_reads_of};
ghost use Rattle.log_disk.specs.Schedule.{plan_of, calls_of};

use std::alloc::{AllocError, Global};

/// The calls that fail: the numbers, from 1, of those of each kind, pairs of an eye's number and the number of a read of
/// it, and the number, over reads, writes, syncs and eyes together, from which every such call fails (`u64::MAX` for
/// never). Reads of an eye are not counted by `stop`, and do not fail by it. A call that is answered `NoMemory` counts.
#[derive(Debug, Drop)]
pub struct FaultPlan {
    pub reads: Vec<u64>,
    pub writes: Vec<u64>,
    pub syncs: Vec<u64>,
    pub eyes: Vec<u64>,
    pub eye_reads: Vec<(u64, u64)>,
    pub stop: u64,
}

impl FaultPlan {
    /// A plan by which no call fails.
    pub fn none(alloc: Global) -> FaultPlan
        ensures { plan_of result ≡ no_faults }
    {
        FaultPlan {
            reads: Vec::new(alloc),
            writes: Vec::new(alloc),
            syncs: Vec::new(alloc),
            eyes: Vec::new(alloc),
            eye_reads: Vec::new(alloc),
            stop: u64::MAX,
        }
    }
}

/// A plan, and how many calls of each kind there were.
#[derive(Drop)]
pub struct Schedule {
    plan: FaultPlan,
    reads: u64,
    writes: u64,
    syncs: u64,
    eyes: u64,
    all: u64,
}

impl Schedule {
    pub fn new(plan: FaultPlan) -> Schedule
        ensures plan { result.plan ≡ plan }
        ensures calls { calls_of result ≡ no_calls }
    {
        Schedule {
            plan,
            reads: 0,
            writes: 0,
            syncs: 0,
            eyes: 0,
            all: 0,
        }
    }

    /// Counts a read, and says whether it fails.
    pub fn read_fails(&mut self) -> bool
        ensures fails { result ≡ read_fails (plan_of self.old.plan) (calls_of self.new) }
        ensures calls { calls_of self.new ≡ one_read (calls_of self.old) }
        ensures plan { self.new.plan ≡ self.old.plan }
    {
        self.reads = self.reads.saturating_add(1);
        let stopped = self.is_stopped();
        stopped || self.plan.reads.as_slice().contains(&self.reads)
    }

    /// Counts a write, and says whether it fails.
    pub fn write_fails(&mut self) -> bool
        ensures fails { result ≡ write_fails (plan_of self.old.plan) (calls_of self.new) }
        ensures calls { calls_of self.new ≡ one_write (calls_of self.old) }
        ensures plan { self.new.plan ≡ self.old.plan }
    {
        self.writes = self.writes.saturating_add(1);
        let stopped = self.is_stopped();
        stopped || self.plan.writes.as_slice().contains(&self.writes)
    }

    /// Counts a sync, and says whether it fails.
    pub fn sync_fails(&mut self) -> bool
        ensures fails { result ≡ sync_fails (plan_of self.old.plan) (calls_of self.new) }
        ensures calls { calls_of self.new ≡ one_sync (calls_of self.old) }
        ensures plan { self.new.plan ≡ self.old.plan }
    {
        self.syncs = self.syncs.saturating_add(1);
        let stopped = self.is_stopped();
        stopped || self.plan.syncs.as_slice().contains(&self.syncs)
    }

    /// Counts the opening of an eye, and says whether it fails.
    pub fn eye_fails(&mut self) -> bool
        ensures fails { result ≡ eye_fails (plan_of self.old.plan) (calls_of self.new) }
        ensures calls { calls_of self.new ≡ one_eye (calls_of self.old) }
        ensures plan { self.new.plan ≡ self.old.plan }
    {
        self.eyes = self.eyes.saturating_add(1);
        let stopped = self.is_stopped();
        stopped || self.plan.eyes.as_slice().contains(&self.eyes)
    }

    /// The numbers of the reads of an eye that fail.
    pub fn failing_reads(&self, alloc: Global, eye: u64) -> Result<Vec<u64>, AllocError>
        ensures { IfOk result (λ reads. reads.items ≡ eye_reads_of (plan_of self.now.plan) eye) }
    {
        let mut reads = Vec::new(alloc);
        for (number, read) in &self.plan.eye_reads {
            if *number == eye {
                reads.push(*read)?;
            }
        }
        Ok(reads)
    }

    // Counts a call of any kind, and says whether the plan has stopped all calls.
    fn is_stopped(&mut self) -> bool
        ensures stopped { result ≡ is_stopped self.old.plan.stop self.new.all }
        ensures counted { self.new ≡ record self.old { all = next self.old.all } }
    {
        self.all = self.all.saturating_add(1);
        self.plan.stop != u64::MAX && self.plan.stop <= self.all
    }
}
