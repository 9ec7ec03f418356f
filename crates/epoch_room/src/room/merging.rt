//! A merge of two neighbours, by steps: a job is picked, takes its regions, is written block by block, and is sealed, or given up.

ghost use Rattle.std.specs.Prelude.{if◌then◌else◌, ◌≡◌, ◌+◌, ◌*◌, ◌<◌, ◌≤◌, ◌==◌, ◌++◌, [], ◌∷◌, false, None, Some, IfSome, IsErr, IsSome, drop, filter, find, is_some, length, nat_eq, not, option_map};
ghost use Rattle.std.specs.List.{AllByRecursion, list_any, range_with_len};
ghost use Rattle.fine_model.specs.Boards.{set_of};
ghost use Rattle.fine_model.specs.Chain.{regions_of};
ghost use Rattle.fine_model.specs.Jobs.{job_left, taken_by};
ghost use Rattle.fine_model.specs.RowBytes.{longest_region, most_in_log, most_regions};
ghost use Rattle.fine_model.specs.declared.Mark.TheVariants as mark;
ghost use Rattle.fine_model.specs.Regions.{body_len};
ghost use Rattle.partition_merge.specs.Mergers.{IsCounted};
ghost use Rattle.log_disk.specs.Disk.{SameBeside};
ghost use Rattle.partition_index.specs.Parts.{LiesIn};
ghost use Rattle.epoch_room.specs.Gate.{DirtiesOnly, LeavesBehind, ReadsBehind};
ghost use Rattle.epoch_room.specs.Meaning.{Keeps};
ghost use Rattle.epoch_room.specs.MergeSteps.{free_after, free_dropped, fresh_job, if_enough, job_after, measured_len, neighbours_from, picked, regions_for_job, regions_needed, taken_job, touched, with_job, with_next, WritesJob, WritesOr};

use super::Room;
use crate::answers::RoomFault;
use crate::body::write_body;
use fine_model::format::{INDEX_ENTRY, MOST_REGIONS};
use fine_model::{Header, Job, Mark, Part, Range, fits_in};
use log_disk::{DiskRefusal, LogDisk};
use partition_hold::RegionSet;
use partition_index::place_of;
use partition_merge::Measure;

/// A job of two parts that has taken no region.
fn fresh_job(older: Part, newer: Part) -> Job
    ensures { result ≡ fresh_job (older, newer) }
{
    Job {
        older,
        newer,
        header: None,
        target: 0,
        written: 0,
    }
}

/// A part and the first of those behind it.
fn with_next(older: &Part, behind: &[Part]) -> Option<(Part, Part)>
    ensures { result ≡ with_next older.now behind.now }
{
    let newer = behind.first()?;
    Some((*older, *newer))
}

/// The first two neighbours of a chain, the older one first, of which the older one begins at an epoch or later: None where no part that does has another behind it. It takes no memory.
#[tactic(auto, unfolding(crate::specs::MergeSteps::neighbours_from))]
pub fn first_neighbours(parts: &[Part], from: u64) -> Option<(Part, Part)>
    ensures { result ≡ neighbours_from from parts.now }
{
    let mut left = parts;
    while let Some((older, behind)) = left.split_first() {
        if from <= older.header.range.first {
            return with_next(older, behind);
        }
        left = behind;
    }
    None
}

/// A job of the first two neighbours whose older part begins at an epoch or later; none of a shut room.
fn first_job(parts: &[Part], from: u64, is_shut: bool) -> Option<Job>
    ensures { result ≡ (if is_shut then None else option_map fresh_job (neighbours_from from parts.now)) }
{
    if is_shut {
        return None;
    }
    let (older, newer) = first_neighbours(parts, from)?;
    Some(fresh_job(older, newer))
}

/// The least number of regions, up to eight, in which so many bytes fit.
pub fn regions_needed(region_len: u64, len: u64) -> Option<u8>
    requires len { len < 68719476736 }
    requires short { 1 ≤ region_len }
    requires long { region_len ≤ longest_region }
    ensures { result ≡ regions_needed region_len len }
{
    (1..MOST_REGIONS + 1).find(|regions| fits_in(region_len, *regions, len))
}

/// A number of 32 bits as one of 64.
fn wide(number: u32) -> u64
    ensures same { result ≡ number }
    ensures few { number < 4294967296 }
{
    u64::from(number)
}

/// A number, where no more are needed than there are.
fn if_enough(needed: Option<u8>, most: u32) -> Option<u8>
    ensures { result ≡ if_enough most needed }
{
    needed.filter(|regions| u32::from(*regions) <= most)
}

/// How many of so many free regions merged rows of a measure take; none where they are not in order.
fn regions_for(measure: Measure, region_len: u64, free: u32) -> Option<u8>
    requires short { 1 ≤ region_len }
    requires long { region_len ≤ longest_region }
    ensures { result ≡ (if measure.ordered then if_enough free (regions_needed region_len (measured_len measure)) else None) }
{
    if !measure.ordered {
        return None;
    }
    let len = wide(measure.area) + INDEX_ENTRY as u64 * wide(measure.nodes);
    if_enough(regions_needed(region_len, len), free)
}

/// The mark of a partition over so many regions.
pub fn mark_for(regions: u8) -> Mark
    ensures { result ≡ (if regions == 1 then mark.Two else mark.Three) }
{
    if regions == 1 { Mark::Two } else { Mark::Three }
}

/// Takes the lowest free regions, of which there are enough, for a job.
#[tactic(auto, unfolding(crate::specs::MergeSteps::header_over))]
fn take_regions(free: &mut RegionSet, job: &mut Job, measure: Measure, regions: u8)
    requires some { 1 ≤ regions }
    requires most { regions ≤ most_regions }
    requires enough { regions ≤ length free.old }
    ensures free { free.new ≡ drop regions free.old }
    ensures job { job.new ≡ taken_job job.old measure regions free.old }
{
    let target = free.take_lowest().unwrap_or(0);
    let mut more = [0; 7];
    free.take_into(&mut more[..usize::from(regions - 1)]);
    job.header = Some(Header {
        mark: mark_for(regions),
        range: Range {
            first: job.older.header.range.first,
            last: job.newer.header.range.last,
        },
        rows: measure.rows,
        nodes: measure.nodes,
        area: measure.area,
        regions,
        more,
    });
    job.target = target;
}

/// Adds a region to the free ones, but for one that is lost.
fn give_one_back(free: &mut RegionSet, lost: &RegionSet, region: u32)
    requires small { region < most_in_log }
    requires set { set_of free.old ≡ free.old }
    ensures { free.new ≡ set_of (free.old ++ (if not (list_any (nat_eq region) lost.now) then region ∷ [] else [])) }
{
    if !lost.holds(region) {
        free.insert(region);
    }
}

/// Adds regions to the free ones, but for those that are lost.
fn give_back(free: &mut RegionSet, lost: &RegionSet, regions: &[u32])
    requires small { AllByRecursion (λ r. r < most_in_log) regions.now }
    requires set { set_of free.old ≡ free.old }
    ensures { free.new ≡ set_of (free.old ++ filter (λ r. not (list_any (nat_eq r) lost.now)) regions.now) }
{
    for region in regions {
        give_one_back(free, lost, *region);
    }
}

/// Adds the regions of a job to the free ones, but for those that are lost.
fn free_job(free: &mut RegionSet, lost: &RegionSet, job: &Job)
    requires few { (header : Header) → job.now.header ≡ Some header → (1 ≤ header.regions) × (header.regions ≤ most_regions) }
    requires small { AllByRecursion (λ r. r < most_in_log) (taken_by job.now.target job.now.header) }
    requires set { set_of free.old ≡ free.old }
    ensures { free.new ≡ set_of (free.old ++ filter (λ r. not (list_any (nat_eq r) lost.now)) (taken_by job.now.target job.now.header)) }
{
    if let Some(header) = &job.header {
        give_back(free, lost, &[job.target]);
        give_back(free, lost, &header.more[..usize::from(header.regions - 1)]);
    }
}

/// Adds the one or two regions in which bytes of a job's body lie, which are written behind those that are there.
fn lose_touched(lost: &mut RegionSet, job: &Job, part: &Part, region_len: u64, len: usize)
    requires part { part.now.region ≡ job.now.target }
    requires lies { LiesIn region_len part.now.header }
    requires some { 1 ≤ len }
    requires within { job.now.written + len ≤ body_len part.now.header }
    requires small { AllByRecursion (λ r. r < most_in_log) (regions_of part.now) }
    ensures { lost.new ≡ set_of (lost.old ++ touched region_len job.now part.now.header len) }
{
    let (first, _first_at) = place_of(part, region_len, job.written);
    let (last, _last_at) = place_of(part, region_len, job.written + (len as u32 - 1));
    lost.insert_all(&[first, last]);
}

impl<D: LogDisk> Room<D> {
    /// A job for the first two neighbours of the chain whose older part begins at an epoch or later. It takes no region, and no memory.
    ///
    /// None exactly where there are no such neighbours, or the room is shut. No other merge is out. What was picked is out until
    /// `merge_seal` or `merge_drop`.
    pub fn merge_pick(&mut self, from: u64) -> Option<Job>
        requires no_job { self.old.room.job ≡ None }
        ensures job { result ≡ picked self.old.room from }
        ensures untaken { IfSome result (λ job. job.header ≡ None) }
        ensures room { self.new ≡ with_job self.old (picked self.old.room from) self.old.room.free }
        ensures keeps { Keeps self.old self.new }
    {
        let job = first_job(self.parts.as_slice(), from, self.is_shut);
        self.job = job;
        job
    }

    /// Takes the lowest free regions for merged rows of a measure, as many as their body needs: one, or two to eight of mark Three.
    /// Nothing is written, and no memory is taken; a shut room has them too.
    ///
    /// True exactly where the measure says that the rows are in order, eight regions are enough, and as many as are needed are free; else
    /// nothing changes. Rows out of order come of a damaged part alone; a part of them would have an index that finds not all of them.
    pub fn merge_take(&mut self, job: &mut Job, measure: Measure) -> bool
        requires out { self.old.room.job ≡ Some job.old }
        requires untaken { job.old.header ≡ None }
        requires counted { IsCounted measure }
        ensures taken { result ≡ is_some (regions_for_job self.old.room measure) }
        ensures job { job.new ≡ job_after job.old measure self.old.room.free (regions_for_job self.old.room measure) }
        ensures room { self.new ≡ with_job self.old (Some job.new) (free_after self.old.room.free (regions_for_job self.old.room measure)) }
        ensures keeps { Keeps self.old self.new }
    {
        let _rows = wide(measure.rows);
        let Some(regions) = regions_for(measure, self.disk.region_len(), self.free.len()) else {
            return false;
        };
        take_regions(&mut self.free, job, measure, regions);
        self.job = Some(*job);
        true
    }

    /// Writes bytes of the merged part behind those that were written before. They go behind closed gates, by at most two writes.
    ///
    /// `bytes` are fewer than a region's, and within the length that the job's header tells. After `Ok` the job counts them, and its target
    /// holds them. Whatever it answers, nothing is touched but the one or two regions in which the bytes lie, behind their gates; without
    /// bytes nothing is refused but by a shut room. Every refusal leaves the job as it was. `Disk` comes only where the disk failed in this call, and shuts the room: these
    /// regions are lost. `Shut` comes exactly where an earlier call answered `Disk`, and changes nothing.
    /// After `NoMemory` the room is whole, and the target holds what it held. A crash at any moment of the call leaves an image that
    /// shows what was sealed before.
    pub fn merge_write(&mut self, job: &mut Job, bytes: &[u8]) -> Result<(), RoomFault>
        requires out { self.old.room.job ≡ Some job.old }
        requires taken { IsSome job.old.header }
        requires within { IfSome job.old.header (λ header. job.old.written + length bytes.now ≤ body_len header) }
        requires few { length bytes.now < self.old.room.region_len }
        ensures room { IfSome job.old.header (λ header. WritesOr bytes.now self.old self.new job.old job.new header result) }
        ensures out { self.new.room.job ≡ Some job.new }
        ensures some { self.old.room.is_shut ≡ false → IsErr result → 1 ≤ length bytes.now }
        ensures dirties { IfSome job.old.header (λ header. DirtiesOnly (touched self.old.room.region_len job.old header (length bytes.now)) self.old.disk self.new.disk) }
        ensures read { IfSome job.old.header (λ header. ReadsBehind (touched self.old.room.region_len job.old header (length bytes.now)) self.old.disk self.new.disk) }
        ensures leaves { IfSome job.old.header (λ header. LeavesBehind (touched self.old.room.region_len job.old header (length bytes.now)) self.old.disk self.new.disk) }
        ensures beside { SameBeside self.old.disk self.new.disk }
        ensures keeps { Keeps self.old self.new }
    {
        let Some(header) = job.header else {
            unreachable!()
        };
        self.write_for(job, header, bytes)
    }

    /// Writes bytes for a job with a header; all that `merge_write` says of it, in one clause.
    fn write_for(&mut self, job: &mut Job, header: Header, bytes: &[u8]) -> Result<(), RoomFault>
        requires out { self.old.room.job ≡ Some job.old }
        requires taken { job.old.header ≡ Some header }
        requires within { job.old.written + length bytes.now ≤ body_len header }
        requires few { length bytes.now < self.old.room.region_len }
        ensures { WritesJob bytes.now self.old self.new job.old job.new header result }
    {
        if self.is_shut {
            return Err(RoomFault::Shut { epoch: self.sealed });
        }
        let part = Part {
            region: job.target,
            header,
        };
        match write_body(&mut self.disk, &part, job.written, bytes) {
            Ok(()) => {
                job.written += bytes.len() as u32;
                self.job = Some(*job);
                Ok(())
            }
            Err(refusal) => match refusal {
                DiskRefusal::Failed => {
                    let region_len = self.disk.region_len();
                    lose_touched(&mut self.lost, job, &part, region_len, bytes.len());
                    self.is_shut = true;
                    Err(RoomFault::Disk)
                }
                DiskRefusal::NoMemory => Err(RoomFault::NoMemory),
            },
        }
    }

    /// Gives a job up, also of a shut room. Its regions are free again, but for those that a failed call was writing, which stay lost;
    /// nothing else changes. It calls no disk and takes no memory.
    pub fn merge_drop(&mut self, job: Job)
        requires out { self.old.room.job ≡ Some job }
        ensures room { self.new ≡ with_job self.old None (free_dropped self.old.room) }
        ensures keeps { Keeps self.old self.new }
    {
        free_job(&mut self.free, &self.lost, &job);
        self.job = None;
    }
}
