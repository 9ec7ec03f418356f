//! Merging two neighbours in one call.

ghost use Rattle.std.specs.Prelude.{◌≡◌, ℕ, Contains, None, Some, false, true};
ghost use Rattle.fine_model.specs.Regions.{body_len};
ghost use Rattle.epoch_room.specs.Meaning.{Keeps};
ghost use Rattle.epoch_room.specs.MergeSteps.{free_dropped, with_job};
ghost use Rattle.epoch_room.specs.Whole.{IsWhole};
ghost use Rattle.epoch_room.specs.Returns.{IsPosted};
ghost use Rattle.partition_merge.specs.Mergers.{IsCounted};
ghost use Rattle.room_merges.specs.Merging.{HoldsBody, HoldsJoined, Measures};
ghost use Rattle.room_merges.specs.Pairs.{IsFresh, IsIdle, IsReady, MergesJob, MergesMeasured, MergesPair, SealsPart, WritesPart, measure_in};

use crate::body::write_body;
use crate::fault::{MergeFault, MergeResult};
use epoch_room::{Fit, Room, RoomFault};
use fine_model::{Header, Job, Part};
use log_disk::{LogDisk, LogEye};
use partition_hold::View;
use partition_merge::{Measure, Merger};
use std::alloc::Global;

/// Whether a part is among some.
fn has_part(parts: &[Part], part: &Part) -> bool
    ensures there { result ≡ true → Contains parts.now part.now }
    ensures none { result ≡ false → Contains parts.now part.now → ⊥ }
{
    parts.contains(part)
}

/// Whether a view has both parts of a job.
fn has_both<E: LogEye>(view: &View<E>, job: &Job) -> bool
    ensures older { result ≡ true → Contains view.now.parts job.now.older }
    ensures newer { result ≡ true → Contains view.now.parts job.now.newer }
    ensures none { result ≡ false → Contains view.now.parts job.now.older → Contains view.now.parts job.now.newer → ⊥ }
{
    let parts = view.parts().as_slice();
    has_part(parts, &job.older) && has_part(parts, &job.newer)
}

/// The last sealed epoch of a shut room; None of one that is open.
fn shut_at<D: LogDisk>(room: &Room<D>) -> Option<u64>
    ensures shut { (epoch : ℕ) → result ≡ Some epoch → (room.now.room.is_shut ≡ true) × (epoch ≡ room.now.room.sealed) }
    ensures open { result ≡ None → room.now.room.is_shut ≡ false }
{
    if let Fit::Shut { epoch } = room.fit(0) {
        return Some(epoch);
    }
    None
}

/// Gives a job up.
fn give_up<D: LogDisk>(room: &mut Room<D>, job: Job)
    requires out { room.old.room.job ≡ Some job }
    ensures room { room.new ≡ with_job room.old None (free_dropped room.old.room) }
    ensures keeps { Keeps room.old room.new }
    ensures whole { IsWhole room.new }
{
    room.merge_drop(job);
    let _counts = room.counts();
}

/// Seals the part of a job whose body is written.
fn seal_part<D: LogDisk>(
    room: &mut Room<D>,
    view: &View<D::Eye>,
    job: Job,
    header: Header,
) -> Result<(), RoomFault>
    requires out { room.old.room.job ≡ Some job }
    requires open { room.old.room.is_shut ≡ false }
    requires taken { job.header ≡ Some header }
    requires total { job.written ≡ body_len header }
    requires older { Contains view.now.parts job.older }
    requires newer { Contains view.now.parts job.newer }
    requires posted { IsPosted room.old.room view.now }
    requires region_len { view.now.region_len ≡ room.old.room.region_len }
    requires measured { Measures view.now job.older job.newer (measure_in header) }
    requires body { HoldsBody room.old view.now job }
    requires joined { HoldsJoined room.old view.now job }
    ensures { SealsPart header room.old room.new view.now job result }
{
    let _counts = room.counts();
    let _parts = view.parts();
    match room.merge_seal(job) {
        Ok(()) => Ok(()),
        Err((fault, _job)) => Err(fault),
    }
}

/// Writes and seals the part of a job that has taken its regions. False where the merged rows have not as many bytes as the header says.
fn write_part<D: LogDisk>(
    alloc: Global,
    room: &mut Room<D>,
    view: &mut View<D::Eye>,
    job: &mut Job,
    header: Header,
) -> MergeResult<bool>
    requires ready { IsReady header room.old view.old job.old }
    ensures { WritesPart header room.old room.new view.old view.new job.old job.new result }
{
    let _counts = room.counts();
    match write_body(alloc, room, view, job, header) {
        Ok(is_whole) => {
            if is_whole {
                match seal_part(room, view, *job, header) {
                    Ok(()) => Ok(true),
                    Err(fault) => Err(MergeFault::Room(fault)),
                }
            } else {
                Ok(false)
            }
        }
        Err(fault) => Err(fault),
    }
}

/// Takes regions for the merged rows of a job's two parts, and writes and seals their part.
fn merge_measured<D: LogDisk>(
    alloc: Global,
    room: &mut Room<D>,
    view: &mut View<D::Eye>,
    job: &mut Job,
    measure: Measure,
) -> MergeResult<bool>
    requires fresh { IsFresh room.old view.old job.old }
    requires counted { IsCounted measure }
    requires measured { Measures view.old job.old.older job.old.newer measure }
    ensures { MergesMeasured measure room.old room.new view.old view.new (job.old.older, job.old.newer) job.new result }
{
    let _counts = room.counts();
    if !room.merge_take(job, measure) {
        return Ok(false);
    }
    let Some(header) = job.header else {
        unreachable!()
    };
    write_part(alloc, room, view, job, header)
}

/// Measures the merged rows of a job's two parts, takes regions for them, and writes and seals their part.
fn merge_job<D: LogDisk>(
    alloc: Global,
    room: &mut Room<D>,
    view: &mut View<D::Eye>,
    job: &mut Job,
) -> MergeResult<bool>
    requires fresh { IsFresh room.old view.old job.old }
    ensures { MergesJob room.old room.new view.old view.new (job.old.older, job.old.newer) job.new result }
{
    let _counts = room.counts();
    let _parts = view.parts();
    let mut merger = Merger::new(job.older, job.newer, view.region_len());
    match view.measure(&mut merger) {
        Ok(measure) => merge_measured(alloc, room, view, job, measure),
        Err(fault) => Err(MergeFault::Fetch(fault)),
    }
}

/// Merges the first two neighbours of the chain of which the older one begins at an epoch or later, through a view of the caller that has
/// both: measures their merged rows, takes regions, writes and seals the merged part, and retires the two. No merge is out, before and after.
///
/// True exactly where they were merged. False where there are no such neighbours, the view has not both, their rows are not in order, or
/// more regions are needed than are free, by a measure that was read; then the room is as it was, but for what free regions hold. No other
/// two are tried.
///
/// `Disk` comes only where the disk failed in this call, and shuts the room; the chain is as it was, and of the lowest free regions, which
/// were taken, those are lost that the failed call was writing. `Shut` comes exactly where an earlier
/// call answered `Disk`, and changes nothing. After `NoMemory` and each refusal of a read the room is open, and as after false. A crash
/// at any moment of the call leaves an image that shows what was sealed before.
pub fn merge_pair<D: LogDisk>(
    alloc: Global,
    room: &mut Room<D>,
    view: &mut View<D::Eye>,
    from: u64,
) -> MergeResult<bool>
    requires idle { IsIdle room.old view.old }
    ensures { MergesPair from room.old room.new view.old view.new result }
{
    let _counts = room.counts();
    let _parts = view.parts();
    if let Some(epoch) = shut_at(room) {
        return Err(MergeFault::Room(RoomFault::Shut { epoch }));
    }
    let Some(mut job) = room.merge_pick(from) else {
        return Ok(false);
    };
    if has_both(view, &job) {
        match merge_job(alloc, room, view, &mut job) {
            Ok(merged) => {
                if merged {
                    return Ok(true);
                }
                give_up(room, job);
                Ok(false)
            }
            Err(fault) => {
                give_up(room, job);
                Err(fault)
            }
        }
    } else {
        give_up(room, job);
        Ok(false)
    }
}
