//! What no clause says: worked numbers and bytes, each call with ample memory, and a merge on a real file.

ghost use Rattle.std.specs.Prelude.{◌≡◌, ◌+◌, ◌*◌, ◌%◌, ◌<◌, ◌≤◌, false, [], ◌∷◌, None, Some, IfOk, IfSome, IsSome, OnOk, is_some};
ghost use Rattle.std.specs.List.{AllByRecursion};
ghost use Rattle.fine_model.specs.Regions.{body_len};
ghost use Rattle.fine_model.specs.RowBytes.{FitsRow};
ghost use Rattle.fine_model.specs.declared.Mark.TheVariants as mark;
ghost use Rattle.partition_hold.specs.Views.{SameView, opened};
ghost use Rattle.partition_merge.specs.Mergers.{IsCounted};

use epoch_room::{Counts, EraseFault, Fit, Room, RoomFault, Stamp};
use fine_model::{Bytes, Items, Job, NoMemory, Node, NodeId, Pairs, Rec, Row};
use log_disk::{FaultPlan, FileDisk, LogDisk, LogEye, MemDisk};
use partition_hold::View;
use partition_merge::Measure;
use private_log::PrivateLog;
use std::alloc::Global;
use std::fs;
use std::test::Fail;

const MOST: u64 = u64::MAX;

// What is missing where a test does not come to what it asks.
#[derive(Clone, Copy, Debug)]
enum Missing {
    Memory,
    Fit,
    Seal,
    Rows,
    Neighbours,
    Regions,
    Write,
    Merge,
    View,
    File,
}

impl From<NoMemory> for Missing {
    fn from(_refused: NoMemory) -> Missing {
        Missing::Memory
    }
}

// ---- rooms in memory, and epochs; a room that is owned has one exit, since its drop at each costs a check seconds, and its steps borrow it

// A room on a new disk of four regions, each of whose calls fails from a number on.
fn new_room(alloc: Global, region_len: u64, stop: u64) -> Result<Room<MemDisk>, Missing>
    requires low { 4096 ≤ region_len }
    requires high { region_len ≤ 67108864 }
    requires whole { region_len % 1024 ≡ 0 }
    ensures { IfOk result (λ room. (room.room.board ≡ None ∷ None ∷ None ∷ []) × (room.room.job ≡ None)) }
{
    let mut plan = FaultPlan::none(alloc);
    plan.stop = stop;
    let Ok(disk) = MemDisk::new(alloc, 4, region_len, plan) else {
        return Err(Missing::Memory);
    };
    match Room::make(alloc, disk, Items::new(alloc), Items::new(alloc)) {
        Ok(room) => Ok(room),
        Err(_refused) => Err(Missing::Memory),
    }
}

fn text(alloc: Global, text: &[u8]) -> Result<Bytes, NoMemory>
    ensures { IfOk result (λ b. b ≡ text.now) }
{
    Bytes::from_slice(alloc, text)
}

// `put a 1` in a node.
#[tactic(auto, unfolding(fine_model::specs::RowBytes::body))]
fn put(alloc: Global, number: u32) -> Result<Row, NoMemory>
    requires low { 1 ≤ number }
    requires high { number < 8 }
    ensures { IfOk result (FitsRow mark.Two) }
{
    let key = text(alloc, b"a")?;
    let value = text(alloc, b"1")?;
    Ok(Row {
        node: NodeId { bucket: 97, number },
        version: 1,
        rec: Rec::Put { key, value },
    })
}

// Adds such a row to a log that has none.
fn add_put(log: &mut PrivateLog, alloc: Global, number: u32) -> Result<(), NoMemory>
    requires none { log.old ≡ [] }
    requires low { 1 ≤ number }
    requires high { number < 8 }
    ensures { OnOk result (AllByRecursion (FitsRow mark.Two) log.new) }
{
    let row = put(alloc, number)?;
    log.keep(row)
}

#[tactic(auto, unfolding(epoch_room::specs::Steps::appended))]
fn commit<D: LogDisk>(room: &mut Room<D>, log: &PrivateLog) -> Result<Stamp, Missing>
    requires { AllByRecursion (FitsRow mark.Two) log.now }
    ensures waits { OnOk result (1 ≤ room.new.room.waiting) }
    ensures same { (room.new.room.board ≡ room.old.room.board) × (room.new.room.job ≡ room.old.room.job) × (is_some room.new.room.image ≡ is_some room.old.room.image) }
{
    match room.fit(log.cost()) {
        Fit::Fits => Ok(room.append(log)),
        _ => Err(Missing::Fit),
    }
}

// Adds a row to a log, and an entry of it to a room.
fn commit_by<D: LogDisk>(
    room: &mut Room<D>,
    log: &mut PrivateLog,
    alloc: Global,
    number: u32,
) -> Result<Stamp, Missing>
    requires none { log.old ≡ [] }
    requires low { 1 ≤ number }
    requires high { number < 8 }
    ensures waits { OnOk result (1 ≤ room.new.room.waiting) }
    ensures same { OnOk result ((room.new.room.board ≡ room.old.room.board) × (room.new.room.job ≡ room.old.room.job) × (is_some room.new.room.image ≡ is_some room.old.room.image)) }
{
    add_put(log, alloc, number)?;
    commit(room, log)
}

// An entry more, in a node.
fn commit_one<D: LogDisk>(room: &mut Room<D>, alloc: Global, number: u32) -> Result<Stamp, Missing>
    requires low { 1 ≤ number }
    requires high { number < 8 }
    ensures waits { OnOk result (1 ≤ room.new.room.waiting) }
    ensures same { OnOk result ((room.new.room.board ≡ room.old.room.board) × (room.new.room.job ≡ room.old.room.job) × (is_some room.new.room.image ≡ is_some room.old.room.image)) }
{
    let mut log = PrivateLog::new(alloc);
    commit_by(room, &mut log, alloc, number)
}

// An epoch more of one entry, in a node.
fn seal_one<D: LogDisk>(room: &mut Room<D>, alloc: Global, number: u32) -> Result<Stamp, Missing>
    requires low { 1 ≤ number }
    requires high { number < 8 }
    ensures { OnOk result ((room.new.room.board ≡ room.old.room.board) × (room.new.room.job ≡ room.old.room.job) × (is_some room.new.room.image ≡ is_some room.old.room.image)) }
{
    let stamp = commit_one(room, alloc, number)?;
    match room.seal() {
        Ok(_epoch) => Ok(stamp),
        Err(_fault) => Err(Missing::Seal),
    }
}

// Two epochs more, which take four calls of the disk each.
fn seal_two<D: LogDisk>(room: &mut Room<D>, alloc: Global) -> Result<(), Missing>
    ensures { OnOk result ((room.new.room.board ≡ room.old.room.board) × (room.new.room.job ≡ room.old.room.job) × (is_some room.new.room.image ≡ is_some room.old.room.image)) }
{
    seal_one(room, alloc, 1)?;
    seal_one(room, alloc, 2)?;
    Ok(())
}

// ---- a new room, and its first epoch

// Whether an epoch's entries of these bytes fit into a new room.
fn fit_anew(alloc: Global, cost: u64) -> Result<Fit, Missing> {
    let room = new_room(alloc, 4096, MOST)?;
    Ok(room.fit(cost))
}

#[test]
fn a_new_room_has_its_regions(rt: HostRuntime) -> Result<(), Fail> {
    let larger = Fit::TooLarge {
        need: 4097,
        room: 4096,
    };
    for (cost, fit) in [(4055, Fit::Fits), (4056, larger)] {
        assert_eq!(rt; fit_anew(rt.alloc(), cost)?, fit);
    }
    Ok(())
}

// The disk's bytes at the start of its first region.
fn first_bytes(room: Room<MemDisk>) -> [u8; 79]
    requires board { room.room.board ≡ None ∷ None ∷ None ∷ [] }
    requires job { room.room.job ≡ None }
{
    let mut disk = room.into_disk();
    let mut bytes = [0u8; 79];
    if disk.regions() > 0 && disk.region_len() >= 79 {
        let _read = disk.read(0, 0, &mut bytes);
    }
    bytes
}

// How a new room's first epoch of one entry is sealed: its stamp, and the room in numbers.
fn seal_first(room: &mut Room<MemDisk>, alloc: Global) -> Result<(Stamp, Counts), Missing>
    ensures { OnOk result ((room.new.room.board ≡ room.old.room.board) × (room.new.room.job ≡ room.old.room.job)) }
{
    let stamp = seal_one(room, alloc, 1)?;
    Ok((stamp, room.counts()))
}

// The same, and the disk's bytes.
fn first_epoch(alloc: Global) -> Result<((Stamp, Counts), [u8; 79]), Missing> {
    let mut room = new_room(alloc, 4_194_304, MOST)?;
    match seal_first(&mut room, alloc) {
        Ok(sealed) => Ok((sealed, first_bytes(room))),
        Err(missing) => Err(missing),
    }
}

#[test]
fn an_epoch_is_a_partition(rt: HostRuntime) -> Result<(), Fail> {
    let vector: [u8; 79] = [
        0xa7, 0x46, 0x4c, 0x50, 0x32, 0, 0, 0, 0, 0, 0x40, 0, 0, 0, 0, 0, 0, 0, 0, 0, 1, 0, 0, 0,
        0, 0, 0, 0, 1, 0, 0, 0, 1, 0, 0, 0, 1, 0, 0, 0, 0x18, 4, 0, 0x61, 0, 0, 0, 1, 0, 0, 0, 0,
        0, 0, 0, 1, 0, 0, 0, 5, 1, 0x61, 0, 1, 0x31, 0, 0x61, 0, 0, 0, 1, 0, 0, 0, 0, 0, 0, 0, 1,
    ];
    let counts = Counts {
        free: 3,
        live: 1,
        retired: 0,
        sealed: 1,
        place: 1,
        waiting: 0,
    };
    let (sealed, bytes) = first_epoch(rt.alloc())?;
    assert_eq!(rt; sealed, (Stamp { place: 1, epoch: 1 }, counts));
    assert_eq!(rt; bytes, vector);
    Ok(())
}

type Twice = (Result<u64, RoomFault>, Result<u64, RoomFault>, Fit);

// Seals, and where that fails, again: what that answers, and whether a row would fit then.
fn seal_twice(room: &mut Room<MemDisk>) -> Twice
    requires { 1 ≤ room.old.room.waiting }
{
    let first = room.seal();
    match first {
        Ok(_epoch) => (first, first, room.fit(0)),
        Err(_fault) => {
            let second = room.seal();
            (first, second, room.fit(0))
        }
    }
}

// Seals an epoch of one entry twice.
fn seal_one_twice(room: &mut Room<MemDisk>, alloc: Global) -> Result<Twice, Missing> {
    commit_one(room, alloc, 1)?;
    Ok(seal_twice(room))
}

// The same in a new room, on a disk whose calls fail from a number on.
fn sealed_twice(alloc: Global, stop: u64) -> Result<Twice, Missing> {
    let mut room = new_room(alloc, 4096, stop)?;
    seal_one_twice(&mut room, alloc)
}

#[test]
fn each_call_that_fails_shuts_the_room(rt: HostRuntime) -> Result<(), Fail> {
    let failed = (
        Err(RoomFault::Disk),
        Err(RoomFault::Shut { epoch: 0 }),
        Fit::Shut { epoch: 0 },
    );
    for stop in 1..5 {
        assert_eq!(rt; sealed_twice(rt.alloc(), stop)?, failed);
    }
    assert_eq!(rt; sealed_twice(rt.alloc(), 5)?, (Ok(1), Ok(1), Fit::Fits));
    Ok(())
}

// ---- the steps of a merge

fn measure(area: u32, ordered: bool) -> Measure
    requires { 1 ≤ area }
    ensures counted { IsCounted result }
    ensures len { result.area + 14 * result.nodes ≡ area + 14 }
{
    Measure {
        rows: 1,
        nodes: 1,
        area,
        ordered,
    }
}

// Whether a job takes its regions, how many are free then, and how many once it is given up.
type Taken = (bool, u32, u32);

fn take_and_drop<D: LogDisk>(room: &mut Room<D>, measure: Measure) -> Result<Taken, Missing>
    requires counted { IsCounted measure }
    requires job { room.old.room.job ≡ None }
{
    let Some(mut job) = room.merge_pick(1) else {
        return Err(Missing::Neighbours);
    };
    let taken = room.merge_take(&mut job, measure);
    let free = room.counts().free;
    room.merge_drop(job);
    Ok((taken, free, room.counts().free))
}

// The same behind two epochs.
fn take_of_two<D: LogDisk>(
    room: &mut Room<D>,
    alloc: Global,
    measure: Measure,
) -> Result<Taken, Missing>
    requires counted { IsCounted measure }
    requires job { room.old.room.job ≡ None }
{
    seal_two(room, alloc)?;
    take_and_drop(room, measure)
}

// The same in a new room.
fn taken_and_dropped(alloc: Global, area: u32, ordered: bool) -> Result<Taken, Missing> {
    if area == 0 {
        return Err(Missing::Rows);
    }
    let mut room = new_room(alloc, 4096, MOST)?;
    take_of_two(&mut room, alloc, measure(area, ordered))
}

#[test]
fn a_job_takes_regions_and_gives_them_back(rt: HostRuntime) -> Result<(), Fail> {
    for (area, ordered, taken, free) in [
        (4041, true, true, 1),
        (4042, true, true, 0),
        (8107, true, true, 0),
        (8108, true, false, 2),
        (24, false, false, 2),
    ] {
        assert_eq!(rt;
            taken_and_dropped(rt.alloc(), area, ordered)?,
            (taken, free, 2)
        );
    }
    Ok(())
}

// A job that has taken its regions, for the body of a part of one row.
fn taken_job<D: LogDisk>(room: &mut Room<D>) -> Result<Job, Missing>
    requires job { room.old.room.job ≡ None }
    ensures out { IfOk result (λ job. room.new.room.job ≡ Some job) }
    ensures taken { IfOk result (λ job. IsSome job.header) }
    ensures len { IfOk result (λ job. IfSome job.header (λ header. job.written + 38 ≡ body_len header)) }
    ensures same { (room.new.room.board ≡ room.old.room.board) × (is_some room.new.room.image ≡ is_some room.old.room.image) }
{
    let Some(mut job) = room.merge_pick(1) else {
        return Err(Missing::Neighbours);
    };
    if !room.merge_take(&mut job, measure(24, true)) {
        return Err(Missing::Regions);
    }
    Ok(job)
}

// Writes four bytes for a job.
fn write_four<D: LogDisk>(room: &mut Room<D>, job: &mut Job) -> Result<(), RoomFault>
    requires out { room.old.room.job ≡ Some job.old }
    requires taken { IsSome job.old.header }
    requires len { IfSome job.old.header (λ header. job.old.written + 4 ≤ body_len header) }
    ensures out { room.new.room.job ≡ Some job.new }
    ensures taken { IsSome job.new.header }
    ensures len { IfSome job.old.header (λ header. job.old.written + 8 ≤ body_len header) → IfSome job.new.header (λ header. job.new.written + 4 ≤ body_len header) }
{
    let _whole = room.counts();
    room.merge_write(job, b"abcd")
}

type Written = (Result<(), RoomFault>, Result<(), RoomFault>, u32, u32);

// Writes four bytes for a job, twice: what the calls answer, how many bytes the job counts, and how many regions are free once it is
// given up.
fn write_twice<D: LogDisk>(room: &mut Room<D>) -> Result<Written, Missing>
    requires job { room.old.room.job ≡ None }
{
    let mut job = taken_job(room)?;
    let first = write_four(room, &mut job);
    let second = write_four(room, &mut job);
    let written = job.written;
    room.merge_drop(job);
    Ok((first, second, written, room.counts().free))
}

// The same behind two epochs.
fn write_of_two<D: LogDisk>(room: &mut Room<D>, alloc: Global) -> Result<Written, Missing>
    requires { room.old.room.job ≡ None }
{
    seal_two(room, alloc)?;
    write_twice(room)
}

// The same in a new room, each of whose calls fails from a number on.
fn written_twice(alloc: Global, stop: u64) -> Result<Written, Missing> {
    let mut room = new_room(alloc, 4096, stop)?;
    write_of_two(&mut room, alloc)
}

#[test]
fn a_job_counts_what_was_written(rt: HostRuntime) -> Result<(), Fail> {
    let (failed, shut) = (Err(RoomFault::Disk), Err(RoomFault::Shut { epoch: 2 }));
    for (stop, first, second, written, free) in [
        (9, failed, shut, 0, 1),
        (10, Ok(()), failed, 4, 1),
        (MOST, Ok(()), Ok(()), 8, 2),
    ] {
        assert_eq!(rt;
            written_twice(rt.alloc(), stop)?,
            (first, second, written, free)
        );
    }
    Ok(())
}

// ---- a view across a merge, on a file, which tells no bytes: so the merged part may have other rows than the two, and shows who reads it

// The path of a file of this run, which is not there yet.
fn fresh_path(rt: &HostRuntime) -> Result<String, Fail> {
    let temp = std::env::temp_dir(rt)?;
    let process = std::process::id(rt.process());
    let path = format!(in rt.alloc(); "{}/epoch_room_{process}", temp.as_str())?;
    Ok(path)
}

// A room on a new file of five regions.
fn file_room(rt: &HostRuntime, path: &str) -> Result<Room<FileDisk<HostRuntime>>, Missing>
    ensures { IfOk result (λ room. (room.room.board ≡ None ∷ None ∷ None ∷ []) × (room.room.job ≡ None) × (is_some room.room.image ≡ false)) }
{
    let alloc = rt.alloc();
    let Ok(disk) = FileDisk::make(rt, alloc, path, 5, 4096) else {
        return Err(Missing::File);
    };
    match Room::make(alloc, disk, Items::new(alloc), Items::new(alloc)) {
        Ok(room) => Ok(room),
        Err(_refused) => Err(Missing::Memory),
    }
}

// The body of a part of one row, `put a 9` in node 1.
fn nine() -> [u8; 38] {
    [
        4, 0, 0x61, 0, 0, 0, 1, 0, 0, 0, 0, 0, 0, 0, 1, 0, 0, 0, 5, 1, 0x61, 0, 1, 0x39, 0, 0x61,
        0, 0, 0, 1, 0, 0, 0, 0, 0, 0, 0, 1,
    ]
}

// A job whose part is written to its end.
fn written_job<D: LogDisk>(room: &mut Room<D>) -> Result<Job, Missing>
    requires job { room.old.room.job ≡ None }
    ensures out { IfOk result (λ job. room.new.room.job ≡ Some job) }
    ensures taken { IfOk result (λ job. IsSome job.header) }
    ensures total { IfOk result (λ job. IfSome job.header (λ header. job.written ≡ body_len header)) }
    ensures same { OnOk result ((room.new.room.board ≡ room.old.room.board) × (is_some room.new.room.image ≡ is_some room.old.room.image)) }
{
    let mut job = taken_job(room)?;
    let _whole = room.counts();
    match room.merge_write(&mut job, &nine()) {
        Ok(()) => Ok(job),
        Err(_fault) => Err(Missing::Write),
    }
}

// Seals the part of a job.
fn finish<D: LogDisk>(room: &mut Room<D>, job: Job) -> Result<(), Missing>
    requires out { room.old.room.job ≡ Some job }
    requires taken { IsSome job.header }
    requires total { IfSome job.header (λ header. job.written ≡ body_len header) }
    requires untold { is_some room.old.room.image ≡ false }
    ensures { OnOk result (room.new.room.board ≡ room.old.room.board) }
{
    match room.merge_seal(job) {
        Ok(()) => Ok(()),
        Err(_refused) => Err(Missing::Merge),
    }
}

// A view for the first seat, which has no other.
fn view_one<D: LogDisk>(room: &mut Room<D>) -> Result<View<D::Eye>, Missing>
    requires { room.old.room.board ≡ None ∷ None ∷ None ∷ [] }
    ensures board { IfOk result (λ view. (view.seat ≡ 1) × (view.buffer ≡ 0) × (room.new.room.board ≡ Some (opened view.eye) ∷ None ∷ None ∷ [])) }
    ensures same { (room.new.room.job ≡ room.old.room.job) × (is_some room.new.room.image ≡ is_some room.old.room.image) }
{
    match room.view_for(1) {
        Ok(view) => Ok(view),
        Err(_fault) => Err(Missing::View),
    }
}

// Merges two parts; two epochs are sealed while the merge is out.
fn merge_under<D: LogDisk>(room: &mut Room<D>, alloc: Global) -> Result<(), Missing>
    requires job { room.old.room.job ≡ None }
    requires untold { is_some room.old.room.image ≡ false }
    ensures { OnOk result (room.new.room.board ≡ room.old.room.board) }
{
    let job = written_job(room)?;
    seal_one(room, alloc, 3)?;
    seal_one(room, alloc, 4)?;
    finish(room, job)
}

// The value of the key `a`, where pairs are this one with a value of one byte.
fn value_in(pairs: &Pairs) -> Option<u8> {
    if pairs.len() != 1 {
        return None;
    }
    let (key, value) = pairs.at(0);
    if key.as_slice() == b"a".as_slice() && value.len() == 1 {
        Some(value.as_slice()[0])
    } else {
        None
    }
}

// The same of a node, where it is a leaf.
fn value_of(node: Node) -> Option<u8> {
    match node {
        Node::Leaf { pairs } => value_in(&pairs),
        _ => None,
    }
}

// What a view reads of node 1, where it is a leaf of one pair.
fn read_one<E: LogEye>(view: &mut View<E>) -> Option<u8>
    ensures { SameView view.old view.new }
{
    let node = NodeId {
        bucket: 97,
        number: 1,
    };
    match view.fetch(node) {
        Ok((found, _version)) => value_of(found),
        Err(_fault) => None,
    }
}

type Erased = Option<Result<(), EraseFault>>;

// Erases the first retired part, if there is one.
fn erase_first<D: LogDisk>(room: &mut Room<D>) -> Erased
    ensures { room.new.room.board ≡ room.old.room.board }
{
    let lead = room.retired(0)?;
    Some(room.erase(lead))
}

// What a view reads, and whether the first retired part is erased while it is out, and once it came back.
fn held_until_back<D: LogDisk>(
    room: &mut Room<D>,
    mut view: View<D::Eye>,
) -> (Option<u8>, Erased, Erased)
    requires place { (view.seat ≡ 1) × (view.buffer ≡ 0) }
    requires board { room.old.room.board ≡ Some (opened view.eye) ∷ None ∷ None ∷ [] }
    ensures { room.new.room.board ≡ None ∷ None ∷ None ∷ [] }
{
    let held = erase_first(room);
    let read = read_one(&mut view);
    room.take_back(view);
    (read, held, erase_first(room))
}

// What a new view reads.
fn read_anew<D: LogDisk>(room: &mut Room<D>) -> Result<Option<u8>, Missing>
    requires { room.old.room.board ≡ None ∷ None ∷ None ∷ [] }
{
    let mut view = view_one(room)?;
    Ok(read_one(&mut view))
}

type Shown = ((Option<u8>, Erased, Erased), Counts, Option<u8>);

// The same of a view that is out while its parts are merged, then the room in numbers, and what a new view reads.
fn across_a_merge<D: LogDisk>(room: &mut Room<D>, alloc: Global) -> Result<Shown, Missing>
    requires board { room.old.room.board ≡ None ∷ None ∷ None ∷ [] }
    requires job { room.old.room.job ≡ None }
    requires untold { is_some room.old.room.image ≡ false }
{
    seal_two(room, alloc)?;
    let view = view_one(room)?;
    merge_under(room, alloc)?;
    let old = held_until_back(room, view);
    Ok((old, room.counts(), read_anew(room)?))
}

// The same in a room on a new file.
fn shown_on_file(rt: &HostRuntime, path: &str) -> Result<Shown, Missing> {
    let mut room = file_room(rt, path)?;
    across_a_merge(&mut room, rt.alloc())
}

// The same, and the file is gone then.
fn shown_at(rt: &HostRuntime, path: &str) -> Result<Shown, Fail> {
    let shown = shown_on_file(rt, path)?;
    fs::remove_file(rt, path)?;
    Ok(shown)
}

fn shown(rt: &HostRuntime) -> Result<Shown, Fail> {
    let path = fresh_path(rt)?;
    shown_at(rt, path.as_str())
}

// The older view reads the older value and holds its parts, and the newer one reads the merged part.
#[test]
fn a_view_from_before_a_merge_reads_and_holds_its_parts(rt: HostRuntime) -> Result<(), Fail> {
    let counts = Counts {
        free: 1,
        live: 3,
        retired: 1,
        sealed: 4,
        place: 4,
        waiting: 0,
    };
    let held = Err(EraseFault::Held { seat: 1, buffer: 0 });
    let old = (Some(b'1'), Some(held), Some(Ok(())));
    assert_eq!(rt; shown(&rt)?, (old, counts, Some(b'9')));
    Ok(())
}

// ---- a board of several seats

// A view for the first of two seats, whose buffers are all empty.
fn view_first<D: LogDisk>(room: &mut Room<D>) -> Result<View<D::Eye>, Missing>
    requires { room.old.room.board ≡ None ∷ None ∷ None ∷ None ∷ None ∷ None ∷ [] }
    ensures { IfOk result (λ view. (view.seat ≡ 1) × (view.buffer ≡ 0) × (room.new.room.board ≡ Some (opened view.eye) ∷ None ∷ None ∷ None ∷ None ∷ None ∷ [])) }
{
    match room.view_for(1) {
        Ok(view) => Ok(view),
        Err(_fault) => Err(Missing::View),
    }
}

// A view for the second of two seats, while the first one has one.
fn view_second<D: LogDisk>(
    room: &mut Room<D>,
    first: &View<D::Eye>,
) -> Result<View<D::Eye>, Missing>
    requires { room.old.room.board ≡ Some (opened first.now.eye) ∷ None ∷ None ∷ None ∷ None ∷ None ∷ [] }
    ensures { IfOk result (λ view. (view.seat ≡ 2) × (view.buffer ≡ 0) × (room.new.room.board ≡ Some (opened first.now.eye) ∷ None ∷ None ∷ Some (opened view.eye) ∷ None ∷ None ∷ [])) }
{
    match room.view_for(2) {
        Ok(view) => Ok(view),
        Err(_fault) => Err(Missing::View),
    }
}

// Takes both views back, the second one first.
fn take_both_back<D: LogDisk>(room: &mut Room<D>, first: View<D::Eye>, second: View<D::Eye>)
    requires first { (first.seat ≡ 1) × (first.buffer ≡ 0) }
    requires second { (second.seat ≡ 2) × (second.buffer ≡ 0) }
    requires board { room.old.room.board ≡ Some (opened first.eye) ∷ None ∷ None ∷ Some (opened second.eye) ∷ None ∷ None ∷ [] }
    ensures { room.new.room.board ≡ None ∷ None ∷ None ∷ None ∷ None ∷ None ∷ [] }
{
    room.take_back(second);
    room.take_back(first);
}

// The seats and buffers of a view for each of two seats; once both came back, the board is that of a third seat too.
fn two_seats<D: LogDisk>(room: &mut Room<D>) -> Result<[(u32, u8); 2], Missing>
    requires { room.old.room.board ≡ None ∷ None ∷ None ∷ [] }
{
    room.set_seats(2)?;
    let first = view_first(room)?;
    let second = view_second(room, &first)?;
    let places = [
        (first.seat(), first.buffer()),
        (second.seat(), second.buffer()),
    ];
    take_both_back(room, first, second);
    room.set_seats(3)?;
    Ok(places)
}

// The same in a new room of two epochs.
fn seat_of_two<D: LogDisk>(room: &mut Room<D>, alloc: Global) -> Result<[(u32, u8); 2], Missing>
    requires { room.old.room.board ≡ None ∷ None ∷ None ∷ [] }
{
    seal_two(room, alloc)?;
    two_seats(room)
}

fn two_seats_of_two(alloc: Global) -> Result<[(u32, u8); 2], Missing> {
    let mut room = new_room(alloc, 4096, MOST)?;
    seat_of_two(&mut room, alloc)
}

#[test]
fn each_seat_has_buffers_of_its_own(rt: HostRuntime) -> Result<(), Fail> {
    assert_eq!(rt; two_seats_of_two(rt.alloc())?, [(1, 0), (2, 0)]);
    Ok(())
}

// A view for the second of two seats, in its buffer 0.
fn view_of_second<D: LogDisk>(room: &mut Room<D>) -> Result<View<D::Eye>, Missing>
    requires { room.old.room.board ≡ None ∷ None ∷ None ∷ None ∷ None ∷ None ∷ [] }
    ensures board { IfOk result (λ view. (view.seat ≡ 2) × (view.buffer ≡ 0) × (room.new.room.board ≡ None ∷ None ∷ None ∷ Some (opened view.eye) ∷ None ∷ None ∷ [])) }
    ensures same { (room.new.room.job ≡ room.old.room.job) × (is_some room.new.room.image ≡ is_some room.old.room.image) }
{
    match room.view_for(2) {
        Ok(view) => Ok(view),
        Err(_fault) => Err(Missing::View),
    }
}

// Another one, in its buffer 1.
fn view_beside<D: LogDisk>(
    room: &mut Room<D>,
    before: &View<D::Eye>,
) -> Result<View<D::Eye>, Missing>
    requires { room.old.room.board ≡ None ∷ None ∷ None ∷ Some (opened before.now.eye) ∷ None ∷ None ∷ [] }
    ensures board { IfOk result (λ view. room.new.room.board ≡ None ∷ None ∷ None ∷ Some (opened before.now.eye) ∷ Some (opened view.eye) ∷ None ∷ []) }
    ensures same { (room.new.room.job ≡ room.old.room.job) × (is_some room.new.room.image ≡ is_some room.old.room.image) }
{
    match room.view_for(2) {
        Ok(view) => Ok(view),
        Err(_fault) => Err(Missing::View),
    }
}

// A view in the buffer 1 of the second seat: the one in its buffer 0 came back.
fn view_in_buffer_one<D: LogDisk>(room: &mut Room<D>) -> Result<View<D::Eye>, Missing>
    requires { room.old.room.board ≡ None ∷ None ∷ None ∷ None ∷ None ∷ None ∷ [] }
    ensures { OnOk result ((room.new.room.job ≡ room.old.room.job) × (is_some room.new.room.image ≡ is_some room.old.room.image)) }
{
    let before = view_of_second(room)?;
    let view = view_beside(room, &before)?;
    room.take_back(before);
    Ok(view)
}

// Erases the first retired part while this view of two merged parts is out.
fn erase_beside_it<D: LogDisk>(room: &mut Room<D>, alloc: Global) -> Result<Erased, Missing>
    requires board { room.old.room.board ≡ None ∷ None ∷ None ∷ [] }
    requires job { room.old.room.job ≡ None }
    requires untold { is_some room.old.room.image ≡ false }
{
    seal_two(room, alloc)?;
    room.set_seats(2)?;
    let view = view_in_buffer_one(room)?;
    merge_under(room, alloc)?;
    let erased = erase_first(room);
    drop(view);
    Ok(erased)
}

// The same in a room on a new file, which is gone then.
fn erased_on_file(rt: &HostRuntime) -> Result<Erased, Fail> {
    let path = fresh_path(rt)?;
    let mut room = file_room(rt, path.as_str())?;
    let erased = erase_beside_it(&mut room, rt.alloc())?;
    fs::remove_file(rt, path.as_str())?;
    Ok(erased)
}

#[test]
fn a_held_part_names_the_seat_and_the_buffer(rt: HostRuntime) -> Result<(), Fail> {
    let held = Some(Err(EraseFault::Held { seat: 2, buffer: 1 }));
    assert_eq!(rt; erased_on_file(&rt)?, held);
    Ok(())
}
