//! What no clause says: the bytes of regions and what they show, and each call with ample memory.

ghost use Rattle.std.specs.Prelude.{◌≡◌, ◌<◌, true, [], None, IfOk, IfSome};
ghost use Rattle.std.specs.List.{list_all};
ghost use Rattle.fine_model.specs.Boards.{is_empty};
ghost use Rattle.epoch_room.specs.Whole.{IsIdle};

use epoch_room::{EraseFault, Room, RoomFault};
use fine_model::{Damage, Part};
use log_disk::{FaultPlan, LogDisk, MemDisk, NoMemory};
use reopen::{OpenFault, open_log, read_chain};
use std::alloc::Global;

/// A partition of epoch 1 with the first put of `1` at the key `a`, from the gate on, in regions of 16,384 bytes.
const PUT: [u8; 79] =
    *b"\xa7FLP2\x00\x00\x00\x00\x00\x00\x40\x00\x00\x00\x00\x00\x00\x00\x00\x01\x00\x00\x00\x00\x00\x00\x00\x01\x00\x00\x00\x01\x00\x00\x00\x01\x00\x00\x00\x18\x04\x00\x61\x00\x00\x00\x01\x00\x00\x00\x00\x00\x00\x00\x01\x00\x00\x00\x05\x01a\x00\x011\x00\x61\x00\x00\x00\x01\x00\x00\x00\x00\x00\x00\x00\x01";

/// The header of a partition over two regions, of which the second is region 3, and no body: the chain does not depend on it.
const LEAD: [u8; 79] =
    *b"\xa7FLP3\x00\x00\x00\x00\x00\x00\x40\x00\x00\x00\x00\x00\x00\x00\x00\x01\x00\x00\x00\x00\x00\x00\x00\x01\x00\x00\x00\x01\x00\x00\x00\x01\x00\x00\x40\x00\x02\x00\x00\x00\x03\x00\x00\x00\x00\x00\x00\x00\x00\x00\x00\x00\x00\x00\x00\x00\x00\x00\x00\x00\x00\x00\x00\x00\x00\x00\x00\x00\x00\x00\x00\x00\x00\x00";

/// What is written to a region.
#[derive(Clone, Copy)]
enum Shown {
    Nothing,
    /// A partition of the epochs from one to another, whose row has the first one's number as its version.
    Epochs(u8, u8),
    /// A partition of epoch 1 with another byte at a place.
    Flipped(usize, u8),
    /// A partition of these epochs over this region and region 3.
    Wide(u8, u8),
}

use Shown::{Epochs, Flipped, Nothing, Wide};

fn bytes_of(shown: Shown) -> [u8; 79] {
    let (mut bytes, first, last) = match shown {
        Nothing => return [0; 79],
        Epochs(first, last) => (PUT, first, last),
        Flipped(_, _) => (PUT, 1, 1),
        Wide(first, last) => (LEAD, first, last),
    };
    bytes[20] = first;
    bytes[28] = last;
    if let Epochs(first, _) = shown {
        bytes[55] = first;
    }
    if let Flipped(at, byte) = shown {
        if at < 79 {
            bytes[at] = byte;
        }
    }
    bytes
}

fn write(disk: &mut MemDisk, region: u32, bytes: &[u8; 79]) -> bool
    requires region { region < 4 }
    requires disk { (disk.old.disk.regions ≡ 4) × (disk.old.disk.region_len ≡ 16384) × (disk.old.disk.eyes ≡ []) }
    ensures { (disk.new.disk.regions ≡ 4) × (disk.new.disk.region_len ≡ 16384) × (disk.new.disk.eyes ≡ []) }
{
    disk.write(region, 0, bytes).is_ok()
}

/// Whether all four regions are written.
fn write_all(disk: &mut MemDisk, regions: &[Shown; 4]) -> bool
    requires { (disk.old.disk.regions ≡ 4) × (disk.old.disk.region_len ≡ 16384) × (disk.old.disk.eyes ≡ []) }
    ensures { (disk.new.disk.regions ≡ 4) × (disk.new.disk.region_len ≡ 16384) × (disk.new.disk.eyes ≡ []) }
{
    let written = [
        write(disk, 0, &bytes_of(regions[0])),
        write(disk, 1, &bytes_of(regions[1])),
        write(disk, 2, &bytes_of(regions[2])),
        write(disk, 3, &bytes_of(regions[3])),
    ];
    written == [true; 4]
}

fn sync(disk: &mut MemDisk) -> bool
    requires { (disk.old.disk.regions ≡ 4) × (disk.old.disk.region_len ≡ 16384) × (disk.old.disk.eyes ≡ []) }
    ensures { result ≡ true → IsIdle disk.new.disk }
{
    disk.sync().is_ok()
}

/// Whether a new disk shows this. Filling it takes four writes and a sync, and no read.
fn fill(disk: &mut MemDisk, regions: &[Shown; 4]) -> bool
    requires { (disk.old.disk.regions ≡ 4) × (disk.old.disk.region_len ≡ 16384) × (disk.old.disk.eyes ≡ []) }
    ensures { result ≡ true → IsIdle disk.new.disk }
{
    let is_written = write_all(disk, regions);
    sync(disk) && is_written
}

/// A disk that shows this, whose calls fail by a plan. None where it was not filled.
fn planned(alloc: Global, regions: &[Shown; 4], plan: FaultPlan) -> Option<MemDisk>
    ensures { IfSome result (λ idle. IsIdle idle.disk) }
{
    let Ok(mut disk) = MemDisk::new(alloc, 4, 16384, plan) else {
        return None;
    };
    if fill(&mut disk, regions) {
        Some(disk)
    } else {
        None
    }
}

fn disk_of(alloc: Global, regions: &[Shown; 4]) -> Option<MemDisk>
    ensures { IfSome result (λ idle. IsIdle idle.disk) }
{
    planned(alloc, regions, FaultPlan::none(alloc))
}

/// The leads of parts, each as a digit.
fn leads(parts: &[Part]) -> [u8; 4] {
    let mut leads = *b"    ";
    for (lead, part) in leads.iter_mut().zip(parts) {
        *lead = match part.region {
            0 => b'0',
            1 => b'1',
            2 => b'2',
            _ => b'3',
        };
    }
    leads
}

fn damage_of(fault: OpenFault) -> Option<Damage> {
    match fault {
        OpenFault::BadRegion { region, at } => Some(Damage::Region { region, at }),
        OpenFault::Gap { after, region } => Some(Damage::Gap { after, region }),
        OpenFault::Overlap { region, other } => Some(Damage::Overlap { region, other }),
        _ => None,
    }
}

/// The leads of the chain, and of the other sealed parts, or what is wrong.
type Leads = Result<([u8; 4], [u8; 4]), Option<Damage>>;

fn chain_on(alloc: Global, disk: &mut MemDisk) -> Leads
    requires { IsIdle disk.old.disk }
{
    match read_chain(alloc, disk) {
        Ok(chain) => Ok((
            leads(chain.parts.as_slice()),
            leads(chain.retired.as_slice()),
        )),
        Err(fault) => Err(damage_of(fault)),
    }
}

/// So of a disk that shows this.
fn found(alloc: Global, regions: &[Shown; 4]) -> Option<Leads> {
    let mut disk = disk_of(alloc, regions)?;
    Some(chain_on(alloc, &mut disk))
}

/// The leads of the room's live parts, and how many regions are free, or what is wrong.
type Opened = Result<([u8; 4], u32), Option<Damage>>;

fn live_of(room: &Room<MemDisk>) -> ([u8; 4], u32) {
    (leads(room.parts().as_slice()), room.counts().free)
}

fn opened_on(alloc: Global, disk: MemDisk) -> Opened
    requires { IsIdle disk.disk }
{
    match open_log(alloc, disk) {
        Ok(room) => Ok(live_of(&room)),
        Err(refused) => Err(damage_of(refused.0)),
    }
}

/// So of a disk that shows this.
fn opened(alloc: Global, regions: &[Shown; 4]) -> Option<Opened> {
    Some(opened_on(alloc, disk_of(alloc, regions)?))
}

/// What the chain of a disk that shows this comes to, and the room that opens on it.
fn chain_and_room(alloc: Global, regions: &[Shown; 4]) -> (Option<Leads>, Option<Opened>) {
    (found(alloc, regions), opened(alloc, regions))
}

/// What is written to the regions, the leads of the chain and of the other sealed parts, and how many regions are free.
type Chain = ([Shown; 4], [u8; 4], [u8; 4], u32);

const CHAINS: [Chain; 6] = [
    ([Nothing; 4], *b"    ", *b"    ", 4),
    (
        [Nothing, Epochs(1, 1), Nothing, Nothing],
        *b"1   ",
        *b"    ",
        3,
    ),
    // what a crash leaves of a gate that was not synced
    (
        [
            Flipped(0, 0xa6),
            Epochs(1, 1),
            Flipped(0, 0),
            Flipped(0, 0xff),
        ],
        *b"1   ",
        *b"    ",
        3,
    ),
    (
        [Epochs(3, 3), Epochs(1, 1), Epochs(1, 2), Epochs(2, 2)],
        *b"20  ",
        *b"13  ",
        0,
    ),
    (
        [Nothing, Epochs(1, 1), Epochs(1, 1), Nothing],
        *b"1   ",
        *b"2   ",
        2,
    ),
    (
        [Epochs(2, 2), Wide(1, 1), Nothing, Nothing],
        *b"10  ",
        *b"    ",
        1,
    ),
];

#[test]
fn finds_the_chain_among_sealed_regions(rt: HostRuntime) {
    for (regions, chain, retired, free) in CHAINS {
        assert_eq!(rt;
            chain_and_room(rt.alloc(), &regions),
            (Some(Ok((chain, retired))), Some(Ok((chain, free))))
        );
    }
}

/// What is written to the regions, and what is wrong.
type Wrong = ([Shown; 4], Damage);

const WRONG: [Wrong; 7] = [
    // the mark, and the row area's length
    (
        [Nothing, Epochs(1, 1), Flipped(4, b'X'), Flipped(40, 0)],
        Damage::Region { region: 2, at: 1 },
    ),
    (
        [Epochs(3, 3), Flipped(40, 0), Nothing, Nothing],
        Damage::Region { region: 1, at: 37 },
    ),
    // region 3 is sealed itself, or two parts name it
    (
        [Wide(1, 1), Nothing, Nothing, Epochs(2, 2)],
        Damage::Region { region: 0, at: 42 },
    ),
    (
        [Wide(1, 1), Nothing, Wide(2, 2), Nothing],
        Damage::Region { region: 2, at: 42 },
    ),
    (
        [Nothing, Nothing, Epochs(2, 2), Nothing],
        Damage::Gap {
            after: 0,
            region: 2,
        },
    ),
    (
        [Epochs(4, 4), Epochs(1, 2), Nothing, Nothing],
        Damage::Gap {
            after: 2,
            region: 0,
        },
    ),
    (
        [Epochs(2, 3), Epochs(1, 2), Nothing, Nothing],
        Damage::Overlap {
            region: 0,
            other: 1,
        },
    ),
];

#[test]
fn tells_what_is_wrong_with_the_chain(rt: HostRuntime) {
    for (regions, damage) in WRONG {
        let told = Some(damage);
        assert_eq!(rt;
            chain_and_room(rt.alloc(), &regions),
            (Some(Err(told)), Some(Err(told)))
        );
    }
}

/// A plan by which the read of a number fails.
fn failing_read(alloc: Global, failing: u64) -> Option<FaultPlan> {
    let mut plan = FaultPlan::none(alloc);
    if plan.reads.push(failing).is_ok() {
        Some(plan)
    } else {
        None
    }
}

/// What the chain comes to: how many parts, or whether it is the disk's fault.
fn count_parts(alloc: Global, disk: &mut MemDisk) -> Result<usize, bool>
    requires { IsIdle disk.old.disk }
{
    match read_chain(alloc, disk) {
        Ok(chain) => Ok(chain.parts.len()),
        Err(fault) => Err(matches!(fault, OpenFault::Disk)),
    }
}

/// So where the read of a number fails.
fn found_with(alloc: Global, failing: u64) -> Option<Result<usize, bool>> {
    let plan = failing_read(alloc, failing)?;
    let mut disk = planned(alloc, &[Nothing, Epochs(1, 1), Nothing, Epochs(2, 2)], plan)?;
    Some(count_parts(alloc, &mut disk))
}

#[test]
fn reads_each_region_once(rt: HostRuntime) {
    for (failing, found) in [(1, Err(true)), (4, Err(true)), (5, Ok(2))] {
        assert_eq!(rt; found_with(rt.alloc(), failing), Some(found));
    }
}

#[test]
fn what_stands_behind_a_header_does_not_matter(rt: HostRuntime) {
    for at in 70..79 {
        let regions = [Flipped(at, 0x55), Epochs(2, 2), Nothing, Nothing];
        assert_eq!(rt; found(rt.alloc(), &regions), Some(Ok((*b"01  ", *b"    "))));
    }
}

/// Erases the first retired part, if there is one.
fn erase_first(room: &mut Room<MemDisk>) -> Option<Result<(), EraseFault>> {
    let lead = room.retired(0)?;
    Some(room.erase(lead))
}

/// A plan by which a write and a sync fail.
fn failing_calls(alloc: Global, write: u64, sync: u64) -> Option<FaultPlan> {
    let mut plan = FaultPlan::none(alloc);
    if plan.writes.push(write).is_ok() && plan.syncs.push(sync).is_ok() {
        Some(plan)
    } else {
        None
    }
}

/// A room with the live parts 2 and 0 and the retired ones 1 and 3, of which a write and a sync fail.
fn with_retired(alloc: Global, write: u64, sync: u64) -> Option<Room<MemDisk>> {
    let regions = [Epochs(3, 3), Epochs(1, 1), Epochs(1, 2), Epochs(2, 2)];
    let plan = failing_calls(alloc, write, sync)?;
    open_log(alloc, planned(alloc, &regions, plan)?).ok()
}

/// What erasing the first retired part answers, if there is one, and then the rest; behind each, how many regions are free.
type Erased = (
    Option<Result<(), EraseFault>>,
    u32,
    Result<u32, RoomFault>,
    u32,
);

fn erase_all(room: &mut Room<MemDisk>) -> Erased {
    let first = erase_first(room);
    let free = room.counts().free;
    let rest = room.erase_all();
    (first, free, rest, room.counts().free)
}

/// So in such a room.
fn erased(alloc: Global, write: u64, sync: u64) -> Option<Erased> {
    let mut room = with_retired(alloc, write, sync)?;
    Some(erase_all(&mut room))
}

#[test]
fn erases_what_is_retired(rt: HostRuntime) {
    let shut = RoomFault::Shut { epoch: 3 };
    // filling the disk takes four writes and a sync
    for (write, sync, first, free, rest, all_free) in [
        (9, 9, Ok(()), 1, Ok(1), 2),
        (5, 9, Err(EraseFault::Disk), 0, Err(shut), 0),
        (9, 2, Err(EraseFault::Disk), 0, Err(shut), 0),
        (6, 9, Ok(()), 1, Err(RoomFault::Disk), 1),
        (9, 3, Ok(()), 1, Err(RoomFault::Disk), 1),
    ] {
        assert_eq!(rt;
            erased(rt.alloc(), write, sync),
            Some((Some(first), free, rest, all_free))
        );
    }
}

/// Gathers both parts of a room: the answer, and what a crash then leaves of its disk, whose pending bytes are all one.
fn crash_behind(
    room: Room<MemDisk>,
    pick: u8,
) -> Result<(Result<bool, RoomFault>, MemDisk), NoMemory>
    requires board { list_all is_empty room.room.board ≡ true }
    requires no_job { room.room.job ≡ None }
    requires no_eyes { room.disk.eyes ≡ [] }
    ensures { IfOk result (λ r. IsIdle r.1.disk) }
{
    let mut room = room;
    let answer = room.gather(1);
    Ok((answer, room.into_disk().crashed(&[pick; 128])?))
}

/// The leads of the chain alone.
fn live_on(alloc: Global, disk: &mut MemDisk) -> Result<[u8; 4], Option<Damage>>
    requires { IsIdle disk.old.disk }
{
    let (live, _retired) = chain_on(alloc, disk)?;
    Ok(live)
}

type Gathered = (Result<bool, RoomFault>, Result<[u8; 4], Option<Damage>>);

/// So where the disk's calls fail from a number on: the answer, and the leads of the chain that the disk then shows.
fn gathered(alloc: Global, stop: u64, pick: u8) -> Option<Gathered> {
    let mut plan = FaultPlan::none(alloc);
    plan.stop = stop;
    let disk = planned(alloc, &[Epochs(1, 1), Epochs(2, 2), Nothing, Nothing], plan)?;
    let Ok(room) = open_log(alloc, disk) else {
        return None;
    };
    let Ok((answer, mut disk)) = crash_behind(room, pick) else {
        return None;
    };
    Some((answer, live_on(alloc, &mut disk)))
}

#[test]
fn a_crash_inside_a_gathering_leaves_its_part_or_theirs(rt: HostRuntime) {
    let alloc = rt.alloc();
    let (failed, both, one) = (Err(RoomFault::Disk), *b"01  ", *b"2   ");
    // filling the disk takes five calls, and opening it four
    for (stop, pick, answer, chain) in [
        (10, 0xa7, failed, both),
        (11, 0xa7, failed, both),
        (12, 0xa7, failed, both),
        (13, 0xa7, failed, both),
        (14, 0, failed, both),
        (14, 0xa7, failed, one),
        (15, 0, failed, both),
        (15, 0xa7, failed, one),
        (16, 0, Ok(true), one),
    ] {
        assert_eq!(rt; gathered(alloc, stop, pick), Some((answer, Ok(chain))));
    }
}
