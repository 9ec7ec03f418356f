//! A merge whose job is out while epochs are sealed, through a view that holds what is retired until it comes back.

ghost use Rattle.std.specs.Prelude.{◌≡◌, ◌<◌, ◌≤◌, [], ◌∷◌, Contains, IfOk, IfSome, None, OnOk, true};
ghost use Rattle.fine_model.specs.Regions.{body_len};
ghost use Rattle.partition_hold.specs.Views.{SameView};
ghost use Rattle.partition_merge.specs.Mergers.{IsCounted};
ghost use Rattle.room_merges.specs.Merging.{Measures};
ghost use Rattle.room_merges_tests.specs.Turns.{EndsTurn, IsAt, IsPicked, IsTaken, IsUnderway, IsWritten, Merges};

use crate::fixtures::{Refusal, seal_some, stop_at};
use crate::stops::{left_by, three_parts};
use epoch_room::{EraseFault, Room};
use fine_model::{Header, Job, Part};
use log_disk::{MemDisk, MemEye};
use partition_hold::View;
use partition_merge::{Blocks, Measure, Merger};
use room_merges::{Progress, write_next};
use std::alloc::Global;

// How far a merge came.
#[derive(Clone, Copy, Debug, PartialEq, Eq)]
enum Came {
    NotViewed,
    // The blocks of the body are not as long as the header says, or more than there are turns.
    NotWhole,
    NotWritten,
    NotSealed,
    NotEnded,
    Merged,
}

// A view of all parts of a room, the only one.
fn view_one(room: &mut Room<MemDisk>) -> Option<View<MemEye>>
    requires board { room.old.room.board ≡ None ∷ None ∷ None ∷ [] }
    requires job { room.old.room.job ≡ None }
    ensures at { IfSome result (IsAt room.new) }
    ensures none { result ≡ None → room.new.room.board ≡ None ∷ None ∷ None ∷ [] }
    ensures job { room.new.room.job ≡ None }
{
    match room.view_for(1) {
        Ok(view) => Some(view),
        Err(_fault) => None,
    }
}

// Whether a view has a part.
fn has_part(view: &View<MemEye>, part: &Part) -> bool
    ensures { result ≡ true → Contains view.now.parts part.now }
{
    view.parts().as_slice().contains(part)
}

// The job of the first two neighbours, of which a view has both.
fn pick(room: &mut Room<MemDisk>, view: &View<MemEye>) -> Result<Job, Refusal>
    requires at { IsAt room.old view.now }
    requires job { room.old.room.job ≡ None }
    ensures { IfOk result (IsPicked room.new view.now) }
{
    let Some(job) = room.merge_pick(1) else {
        return Err("neighbours");
    };
    if has_part(view, &job.older) && has_part(view, &job.newer) {
        Ok(job)
    } else {
        Err("parts")
    }
}

// The measure of the merged rows of a job's two parts.
fn measured(view: &mut View<MemEye>, job: &Job) -> Result<Measure, Refusal>
    requires older { Contains view.old.parts job.now.older }
    requires newer { Contains view.old.parts job.now.newer }
    ensures same { SameView view.old view.new }
    ensures counted { IfOk result IsCounted }
    ensures measured { IfOk result (Measures view.old job.now.older job.now.newer) }
{
    let _parts = view.parts();
    let mut merger = Merger::new(job.older, job.newer, view.region_len());
    match view.measure(&mut merger) {
        Ok(measure) => Ok(measure),
        Err(_fault) => Err("measure"),
    }
}

// Takes regions for the merged rows of a job's two parts.
fn take(room: &mut Room<MemDisk>, view: &mut View<MemEye>, job: &mut Job) -> Result<Header, Refusal>
    requires { IsPicked room.old view.old job.old }
    ensures { IfOk result (IsTaken room.new view.new job.new) }
{
    let measure = measured(view, job)?;
    if !room.merge_take(job, measure) {
        return Err("take");
    }
    let Some(header) = job.header else {
        unreachable!()
    };
    Ok(header)
}

// The blocks of the body of a job that has taken its regions, each as long as may be: a byte less than a region.
fn blocks_for(
    alloc: Global,
    room: &Room<MemDisk>,
    view: &View<MemEye>,
    job: &Job,
    header: Header,
) -> Result<Blocks, Refusal>
    requires { IsTaken room.now view.now job.now header }
    ensures { IfOk result (λ blocks. IsUnderway room.now view.now blocks job.now header) }
{
    let _counts = room.counts();
    let _parts = view.parts();
    match Blocks::new(alloc, job.older, job.newer, room.region_len(), 4095) {
        Ok(blocks) => Ok(blocks),
        Err(_no_memory) => Err("memory"),
    }
}

// Whether as many bytes were written for a job as the body has.
fn is_whole(job: Job, header: Header) -> bool
    ensures { result ≡ true → job.written ≡ body_len header }
{
    u64::from(job.written) == u64::from(header.area) + 14 * u64::from(header.nodes)
}

// A turn of the merger, which writes the next block, and one of another, who seals an epoch of one entry, in a node of its own. False where no
// block was left, and no epoch was sealed.
fn write_turn(
    room: &mut Room<MemDisk>,
    alloc: Global,
    number: u32,
    view: &mut View<MemEye>,
    job: &mut Job,
    header: Header,
    blocks: &mut Blocks,
) -> Result<bool, Came>
    requires low { 1 ≤ number }
    requires high { number < 50 }
    requires writing { IsUnderway room.old view.old blocks.old job.old header }
    ensures { EndsTurn header room.new view.new blocks.new job.new result }
{
    match write_next(room, view, job, header, blocks) {
        Ok(progress) => match progress {
            Progress::Written => match seal_some(room, alloc, number, 1, 1) {
                Ok(()) => Ok(true),
                Err(_refused) => Err(Came::NotSealed),
            },
            Progress::Ended => {
                if is_whole(*job, header) {
                    Ok(false)
                } else {
                    Err(Came::NotWhole)
                }
            }
            Progress::TooLong => Err(Came::NotWhole),
        },
        Err(_fault) => Err(Came::NotWritten),
    }
}

// Seals the part of a job whose body is written.
fn seal_part(
    room: &mut Room<MemDisk>,
    view: &View<MemEye>,
    job: Job,
    header: Header,
) -> Result<(), Came>
    requires { IsWritten room.old view.now job header }
    ensures { Merges room.new view.now job result }
{
    let _whole = room.counts();
    let _parts = view.parts();
    match room.merge_seal(job) {
        Ok(()) => Ok(()),
        Err(_refused) => Err(Came::NotEnded),
    }
}

// Writes a body of two blocks, with an epoch sealed behind each, and seals the part of the job.
fn write_part(
    room: &mut Room<MemDisk>,
    alloc: Global,
    view: &mut View<MemEye>,
    job: &mut Job,
    header: Header,
    blocks: &mut Blocks,
) -> Result<(), Came>
    requires { IsUnderway room.old view.old blocks.old job.old header }
    ensures { Merges room.new view.new job.new result }
{
    for number in 25..28 {
        match write_turn(room, alloc, number, view, job, header, blocks) {
            Ok(more) => {
                if !more {
                    return seal_part(room, view, *job, header);
                }
            }
            Err(came) => return Err(came),
        }
    }
    Err(Came::NotWhole)
}

// Writes and seals such a part. A job that comes to no end is given up.
fn end_merge(
    room: &mut Room<MemDisk>,
    alloc: Global,
    view: &mut View<MemEye>,
    mut job: Job,
    header: Header,
    blocks: &mut Blocks,
) -> Came
    requires { IsUnderway room.old view.old blocks.old job header }
    ensures at { IsAt room.new view.new }
    ensures job { room.new.room.job ≡ None }
{
    match write_part(room, alloc, view, &mut job, header, blocks) {
        Ok(()) => Came::Merged,
        Err(came) => {
            room.merge_drop(job);
            came
        }
    }
}

// Merges two parts through a view that stays out, with others' turns between.
fn merge_in_turns(
    room: &mut Room<MemDisk>,
    alloc: Global,
    view: &mut View<MemEye>,
) -> Result<Came, Refusal>
    requires at { IsAt room.old view.old }
    requires job { room.old.room.job ≡ None }
    ensures at { OnOk result (IsAt room.new view.new) }
    ensures job { OnOk result (room.new.room.job ≡ None) }
{
    let mut job = pick(room, view)?;
    let header = take(room, view, &mut job)?;
    let mut blocks = blocks_for(alloc, room, view, &job, header)?;
    Ok(end_merge(room, alloc, view, job, header, &mut blocks))
}

type Erased = Option<Result<(), EraseFault>>;

// Erases the first retired part, if there is one.
fn erase_first(room: &mut Room<MemDisk>) -> Erased
    ensures board { room.new.room.board ≡ room.old.room.board }
    ensures job { room.new.room.job ≡ room.old.room.job }
{
    let lead = room.retired(0)?;
    Some(room.erase(lead))
}

// Whether the first retired part is erased while a view is out, and once it came back.
fn held_until_back(room: &mut Room<MemDisk>, view: View<MemEye>) -> (Erased, Erased)
    requires { IsAt room.old view }
    ensures board { room.new.room.board ≡ None ∷ None ∷ None ∷ [] }
    ensures job { room.new.room.job ≡ room.old.room.job }
{
    let held = erase_first(room);
    room.take_back(view);
    (held, erase_first(room))
}

type Merged = (Came, u64, (Erased, Erased));

// How far a merge between seals comes, the last epoch that is sealed then, and whether a retired part is erased while the view is out, and once
// it came back. Neither a view nor a job is out behind it.
fn merge_between_seals(room: &mut Room<MemDisk>, alloc: Global) -> Result<Merged, Refusal>
    requires board { room.old.room.board ≡ None ∷ None ∷ None ∷ [] }
    requires job { room.old.room.job ≡ None }
    ensures board { OnOk result (room.new.room.board ≡ None ∷ None ∷ None ∷ []) }
    ensures job { OnOk result (room.new.room.job ≡ None) }
{
    let Some(mut view) = view_one(room) else {
        return Ok((Came::NotViewed, room.counts().sealed, (None, None)));
    };
    let came = merge_in_turns(room, alloc, &mut view)?;
    let sealed = room.counts().sealed;
    Ok((came, sealed, held_until_back(room, view)))
}

// What such a merge of three parts answers where the calls fail from a number on, and what a crash then leaves of them.
fn merged_with(
    alloc: Global,
    stop: u64,
    byte: u8,
    len: usize,
) -> Result<(Merged, (u64, u32)), Refusal> {
    let mut room = three_parts(alloc, stop_at(alloc, stop))?;
    let merged = merge_between_seals(&mut room, alloc)?;
    Ok((merged, left_by(alloc, room, byte, len)?))
}

// Whether a part is erased behind a merge, where the calls fail from a number on: not while the view is out.
fn erased_at(came: Came, stop: u64) -> (Erased, Erased) {
    if came != Came::Merged {
        return (None, None);
    }
    let held = Err(EraseFault::Held { seat: 1, buffer: 0 });
    let back = if stop < 31 {
        Err(EraseFault::Disk)
    } else {
        Ok(())
    };
    (Some(held), Some(back))
}

// From which call that fails, and before which, a merge comes so far; the last epoch that is sealed then, and the one that a crash shows where
// each gate that was being written is open. The view's eye takes a call, the first block two and the second one, each seal four, and so does
// sealing the merged part; then come two calls that erase.
fn steps() -> [(u64, u64, Came, u32, u32); 9] {
    [
        (13, 14, Came::NotViewed, 3, 3),
        (14, 16, Came::NotWritten, 3, 3),
        (16, 18, Came::NotSealed, 3, 3),
        (18, 20, Came::NotSealed, 3, 4),
        (20, 21, Came::NotWritten, 4, 4),
        (21, 23, Came::NotSealed, 4, 4),
        (23, 25, Came::NotSealed, 4, 5),
        (25, 29, Came::NotEnded, 5, 5),
        (29, 32, Came::Merged, 5, 5),
    ]
}

// Epochs 1 to 3 have 24 nodes, and each epoch behind them has one.
fn shown_at(epoch: u32) -> (u64, u32) {
    (u64::from(epoch), epoch.saturating_add(21))
}

// What a merge between seals answers, and leaves behind a crash, where the calls fail from a number on: what was not synced is as it was; or
// each gate that was being written is open, or closed, behind which other bytes stand.
fn merged_thrice(alloc: Global, stop: u64) -> Result<[(Merged, (u64, u32)); 3], Refusal> {
    let kept = merged_with(alloc, stop, 0, 0)?;
    let opened = merged_with(alloc, stop, 0xa7, 8192)?;
    let closed = merged_with(alloc, stop, 0, 8192)?;
    Ok([kept, opened, closed])
}

#[test]
fn a_job_is_out_across_two_seals(rt: HostRuntime) {
    for (from, until, came, sealed, opened) in steps() {
        for stop in from..until {
            let merged = (came, u64::from(sealed), erased_at(came, stop));
            assert_eq!(rt;
                merged_thrice(rt.alloc(), stop),
                Ok([
                    (merged, shown_at(sealed)),
                    (merged, shown_at(opened)),
                    (merged, shown_at(sealed))
                ])
            );
        }
    }
}
