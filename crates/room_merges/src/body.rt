//! The body of the merged part goes to the disk block by block.

ghost use Rattle.std.specs.Prelude.{◌≡◌, ◌<◌, ◌≤◌, Contains, Some, false, true, length};
ghost use Rattle.fine_model.specs.Regions.{body_len};
ghost use Rattle.epoch_room.specs.Returns.{IsPosted};
ghost use Rattle.room_merges.specs.Work.{HasBegun, IsWriting, WritesAll, WritesBlock, WritesNext};

use crate::fault::{MergeFault, MergeResult};
use epoch_room::{Room, RoomFault};
use fine_model::format::INDEX_ENTRY;
use fine_model::{Header, Job};
use log_disk::LogDisk;
use partition_hold::View;
use partition_merge::Blocks;
use std::alloc::Global;

/// How far the body of a job is written.
pub enum Progress {
    /// A block more.
    Written,
    /// All blocks were written before.
    Ended,
    /// The next block is longer than what is left of the body, and was not written.
    TooLong,
}

/// How many bytes the body of a part has.
fn body_len(header: &Header) -> u64
    ensures { result ≡ body_len header.now }
{
    u64::from(header.area) + INDEX_ENTRY as u64 * u64::from(header.nodes)
}

/// Whether as many bytes were written for a job as the body has.
fn is_whole(job: &Job, header: &Header) -> bool
    ensures whole { result ≡ true → job.now.written ≡ body_len header.now }
    ensures less { result ≡ false → job.now.written ≡ body_len header.now → ⊥ }
{
    u64::from(job.written) == body_len(header)
}

/// Writes a block behind the bytes that were written for a job, where the body has room for it.
fn write_block<D: LogDisk>(
    room: &mut Room<D>,
    job: &mut Job,
    header: Header,
    block: &[u8],
) -> MergeResult<Progress>
    requires out { room.old.room.job ≡ Some job.old }
    requires open { room.old.room.is_shut ≡ false }
    requires taken { job.old.header ≡ Some header }
    requires few { length block.now < room.old.room.region_len }
    ensures { WritesBlock header block.now room.old room.new job.old job.new result }
{
    let _counts = room.counts();
    if u64::from(job.written) + block.len() as u64 > body_len(&header) {
        return Ok(Progress::TooLong);
    }
    match room.merge_write(job, block) {
        Ok(()) => Ok(Progress::Written),
        Err(fault) => Err(MergeFault::Room(fault)),
    }
}

/// Takes the next block of a job's body through the view and writes it: one turn of a merger that gives the room up between two blocks.
///
/// `header` is that with which the job took its regions, and `blocks` are those of its two parts, which begin as `Blocks::new` makes them, in blocks shorter than a
/// region; what is asked of them lasts while others have turns at the room, by `merge_law`, unless the room was shut in one, as `Room::fit` tells. `Written`: the job
/// counts the block, no more bytes than the header says are written, and the same may be called again. `Ended`: all blocks were written before, and nothing is written now;
/// where the eye tells both parts, the target holds the body of the merged rows, which may have fewer bytes than the header says. `TooLong`: where it does, they have more;
/// nothing was written.
///
/// A fault of a read leaves the room open, and blames one of the two parts. `Disk` shuts the room, and alone does so; what the failed call was writing is lost.
/// `NoMemory` leaves it open. After each the job counts what it counted, and `blocks` are not to be used any more.
pub fn write_next<D: LogDisk>(
    room: &mut Room<D>,
    view: &mut View<D::Eye>,
    job: &mut Job,
    header: Header,
    blocks: &mut Blocks,
) -> MergeResult<Progress>
    requires out { room.old.room.job ≡ Some job.old }
    requires open { room.old.room.is_shut ≡ false }
    requires taken { job.old.header ≡ Some header }
    requires older { Contains view.old.parts job.old.older }
    requires newer { Contains view.old.parts job.old.newer }
    requires writing { IsWriting room.old view.old blocks.old job.old }
    ensures { WritesNext header room.old room.new view.old view.new blocks.new job.old job.new result }
{
    let _counts = room.counts();
    match view.next_block(blocks) {
        Ok(more) => {
            if more {
                write_block(room, job, header, blocks.block())
            } else {
                Ok(Progress::Ended)
            }
        }
        Err(fault) => Err(MergeFault::Fetch(fault)),
    }
}

/// Writes the body of a job that has taken its regions. False where the blocks have more bytes than the header says, or fewer.
fn write_blocks<D: LogDisk>(
    room: &mut Room<D>,
    view: &mut View<D::Eye>,
    job: &mut Job,
    header: Header,
    mut blocks: Blocks,
) -> MergeResult<bool>
    requires begun { HasBegun header room.old view.old blocks job.old }
    ensures { WritesAll header room.old room.new view.old view.new job.old job.new result }
{
    let _counts = room.counts();
    loop {
        match write_next(room, view, job, header, &mut blocks) {
            Ok(progress) => match progress {
                Progress::Written => {}
                Progress::Ended => return Ok(is_whole(job, &header)),
                Progress::TooLong => return Ok(false),
            },
            Err(fault) => return Err(fault),
        }
    }
}

/// The most bytes of a block: 64 KiB, but fewer than a region has.
fn most_in_block(region_len: u64) -> u32
    requires { 4096 ≤ region_len }
    ensures some { 1 ≤ result }
    ensures few { result < region_len }
{
    (region_len - 1).min(65_536) as u32
}

/// Writes the merged rows of a job's two parts, and their index, into the regions that the job has taken. False where they have not as
/// many bytes as the header says. All memory but that of one node's rows is taken before the first write.
pub fn write_body<D: LogDisk>(
    alloc: Global,
    room: &mut Room<D>,
    view: &mut View<D::Eye>,
    job: &mut Job,
    header: Header,
) -> MergeResult<bool>
    requires out { room.old.room.job ≡ Some job.old }
    requires open { room.old.room.is_shut ≡ false }
    requires taken { job.old.header ≡ Some header }
    requires none { job.old.written ≡ 0 }
    requires older { Contains view.old.parts job.old.older }
    requires newer { Contains view.old.parts job.old.newer }
    requires posted { IsPosted room.old.room view.old }
    requires region_len { view.old.region_len ≡ room.old.room.region_len }
    ensures { WritesAll header room.old room.new view.old view.new job.old job.new result }
{
    let _counts = room.counts();
    let _parts = view.parts();
    let region_len = room.region_len();
    let most = most_in_block(region_len);
    match Blocks::new(alloc, job.older, job.newer, region_len, most) {
        Ok(blocks) => write_blocks(room, view, job, header, blocks),
        Err(_no_memory) => Err(MergeFault::Room(RoomFault::NoMemory)),
    }
}
