//! What no clause says: the calls of a disk in memory as they run, and each list of a plan.

ghost use Rattle.std.specs.Prelude.{◌≡◌, ◌+◌, ◌<◌, ◌≤◌, [], Contains, IfOk};

use log_disk::{DiskRefusal, FaultPlan, LogDisk, LogEye, MemDisk, MemEye, NoMemory};
use std::alloc::Global;
use std::test::Fail;

// A write of one byte to a region at an offset, or a sync.
type Step = Option<(u32, u64, u8)>;

// A disk of four regions of two bytes, with no eye open.
fn small(alloc: Global, plan: FaultPlan) -> Result<MemDisk, NoMemory>
    ensures { IfOk result (λ made. (made.disk.regions ≡ 4) × (made.disk.region_len ≡ 2) × (made.disk.eyes ≡ [])) }
{
    MemDisk::new(alloc, 4, 2, plan)
}

// Makes a step, and says whether it failed.
fn step(disk: &mut MemDisk, step: Step) -> bool
    requires { (disk.old.disk.regions ≡ 4) × (disk.old.disk.region_len ≡ 2) × (disk.old.disk.eyes ≡ []) }
    ensures { (disk.new.disk.regions ≡ 4) × (disk.new.disk.region_len ≡ 2) × (disk.new.disk.eyes ≡ []) }
{
    match step {
        Some((region, at, byte)) if region < 4 && at < 2 => {
            disk.write(region, at, &[byte]).is_err()
        }
        _ => disk.sync().is_err(),
    }
}

// Makes steps one after the other.
fn steps(disk: &mut MemDisk, calls: &[Step])
    requires { (disk.old.disk.regions ≡ 4) × (disk.old.disk.region_len ≡ 2) × (disk.old.disk.eyes ≡ []) }
    ensures { (disk.new.disk.regions ≡ 4) × (disk.new.disk.region_len ≡ 2) × (disk.new.disk.eyes ≡ []) }
{
    for call in calls {
        let _ = step(disk, *call);
    }
}

// Reads a byte of a region, or answers None.
fn byte(disk: &mut MemDisk, region: u32, at: u64) -> Option<u8>
    requires { (disk.old.disk.regions ≡ 4) × (disk.old.disk.region_len ≡ 2) × (disk.old.disk.eyes ≡ []) }
    ensures { (disk.new.disk.regions ≡ 4) × (disk.new.disk.region_len ≡ 2) × (disk.new.disk.eyes ≡ []) }
{
    let mut byte = [0u8; 1];
    if region < 4 && at < 2 && disk.read(region, at, &mut byte).is_ok() {
        return Some(byte[0]);
    }
    None
}

// All bytes, in order of region and offset.
fn bytes(disk: &mut MemDisk) -> [Option<u8>; 8]
    requires { (disk.old.disk.regions ≡ 4) × (disk.old.disk.region_len ≡ 2) × (disk.old.disk.eyes ≡ []) }
{
    let mut bytes = [None; 8];
    for k in 0..8u32 {
        bytes[k as usize] = byte(disk, k / 2, u64::from(k % 2));
    }
    bytes
}

// The bytes after some steps and a crash, in order of region and offset.
fn left(
    alloc: Global,
    plan: FaultPlan,
    calls: &[Step],
    picks: &[u8],
) -> Result<[Option<u8>; 8], NoMemory> {
    let mut disk = small(alloc, plan)?;
    steps(&mut disk, calls);
    let mut disk = disk.crashed(picks)?;
    Ok(bytes(&mut disk))
}

// Two writes, a sync, and by the plan of the test a write and a sync that fail.
const TWO_THAT_FAIL: [Step; 5] = [
    Some((0, 1, 1)),
    Some((1, 0, 1)),
    None,
    Some((2, 1, 1)),
    None,
];

// The bits of a number at those places where another has 1.
fn bits_at(alloc: Global, number: u32, places: u32) -> Result<Vec<u8>, NoMemory> {
    let mut bits = Vec::new(alloc);
    for at in 0..8u32 {
        if places >> at & 1 == 1 {
            bits.push((number >> at & 1) as u8)?;
        }
    }
    Ok(bits)
}

// The bytes after so many of them and a crash that picks the bits of a number where bytes are unsynced.
fn image(
    alloc: Global,
    count: usize,
    wanted: u32,
    unsynced: u32,
) -> Result<[Option<u8>; 8], NoMemory>
    requires { count ≤ 5 }
{
    let picks = bits_at(alloc, wanted, unsynced)?;
    let mut plan = FaultPlan::none(alloc);
    plan.writes.push(3)?;
    plan.syncs.push(2)?;
    left(alloc, plan, &TWO_THAT_FAIL[..count], &picks)
}

// The eight lowest bits of a number as bytes.
fn bits_of(number: u32) -> [Option<u8>; 8] {
    let mut bits = [None; 8];
    for at in 0..8u32 {
        bits[at as usize] = Some((number >> at & 1) as u8);
    }
    bits
}

#[test]
fn images_are_those_of_a_list(rt: HostRuntime) -> Result<(), Fail> {
    // After so many of them: what the last sync left, and what is unsynced, one bit for each byte.
    let table: [(u32, u32); 6] = [
        (0, 0),
        (0, 0b10),
        (0, 0b110),
        (0b110, 0),
        (0b110, 0b10_0000),
        (0b110, 0b10_0000),
    ];
    for (count, (synced, unsynced)) in table.iter().enumerate() {
        for wanted in 0..256u32 {
            let bytes = image(rt.alloc(), count, wanted, *unsynced)?;
            assert_eq!(rt; bytes, bits_of(wanted & *unsynced | *synced & !*unsynced));
        }
    }
    Ok(())
}

// Once 1 is synced at each end, the later region is written first, and one byte twice.
const LATER_FIRST: [Step; 8] = [
    Some((0, 1, 1)),
    Some((3, 0, 1)),
    Some((3, 1, 1)),
    None,
    Some((3, 1, 2)),
    Some((3, 0, 2)),
    Some((0, 1, 3)),
    Some((0, 1, 4)),
];

// So many picks, and the three bytes that were written.
const PICKED: [(usize, [Option<u8>; 3]); 4] = [
    (0, [Some(1), Some(1), Some(1)]),
    (1, [Some(7), Some(1), Some(1)]),
    (2, [Some(7), Some(8), Some(1)]),
    (4, [Some(7), Some(8), Some(9)]),
];

#[test]
fn picks_go_by_region_and_offset(rt: HostRuntime) -> Result<(), Fail> {
    let alloc = rt.alloc();
    let picks: [u8; 4] = [7, 8, 9, 10];
    for (count, wanted) in &PICKED {
        let picks = picks.get(..*count).unwrap_or(&[]);
        let bytes = left(alloc, FaultPlan::none(alloc), &LATER_FIRST, picks)?;
        assert_eq!(rt; [bytes[1], bytes[6], bytes[7]], *wanted);
    }
    Ok(())
}

// Opens an eye on a region, reads by it twice and closes it. Says which of the three failed.
fn look(disk: &mut MemDisk, region: u32) -> [bool; 3]
    requires there { region < disk.old.disk.regions }
    requires long { 1 ≤ disk.old.disk.region_len }
    requires synced { disk.old.disk.unsynced ≡ [] }
{
    let mut byte = [0u8; 1];
    match disk.eye(&[region]) {
        Ok(mut eye) => {
            let first = eye.read(region, 0, &mut byte).is_err();
            let second = eye.read(region, 0, &mut byte).is_err();
            disk.close(eye);
            [false, first, second]
        }
        Err(_) => [true, false, false],
    }
}

// Reads, writes, syncs and looks, and has a bit for each that failed, in this order from the lowest.
fn all_calls(disk: &mut MemDisk) -> u32
    requires { (disk.old.disk.regions ≡ 4) × (disk.old.disk.region_len ≡ 2) × (disk.old.disk.eyes ≡ []) }
{
    let read = byte(disk, 0, 0).is_none();
    let again = byte(disk, 0, 0).is_none();
    let write = step(disk, Some((0, 0, 5)));
    let rewrite = step(disk, Some((0, 0, 6)));
    let before = bits([read, again, write, rewrite]);
    if disk.sync().is_err() {
        return before | 16;
    }
    let [eye, first, second] = look(disk, 1);
    before | bits([false, eye, first, second]) << 4
}

fn bits(flags: [bool; 4]) -> u32
    ensures { result < 16 }
{
    let [a, b, c, d] = flags;
    u32::from(a) | u32::from(b) << 1 | u32::from(c) << 2 | u32::from(d) << 3
}

// Adds a failure to a list of a plan, and says whether there was memory for it.
fn plan_one(plan: &mut FaultPlan, list: u8, number: u64) -> bool {
    match list {
        0 => plan.reads.push(number).is_ok(),
        1 => plan.writes.push(number).is_ok(),
        2 => plan.syncs.push(number).is_ok(),
        3 => plan.eyes.push(number).is_ok(),
        4 => plan.eye_reads.push((1, number)).is_ok(),
        _ => {
            plan.stop = number;
            true
        }
    }
}

// The calls that fail where one failure is planned.
fn failures(alloc: Global, list: u8, number: u64) -> Result<u32, NoMemory> {
    let mut plan = FaultPlan::none(alloc);
    if !plan_one(&mut plan, list, number) {
        return Err(NoMemory);
    }
    let mut disk = small(alloc, plan)?;
    Ok(all_calls(&mut disk))
}

#[test]
fn each_list_of_a_plan_fails_its_calls(rt: HostRuntime) -> Result<(), Fail> {
    // Each row plans one failure, by its list and number, and has a bit for each call that fails.
    let table: [(u8, u64, u32); 16] = [
        (0, 1, 0b1),
        (0, 2, 0b10),
        (1, 1, 0b100),
        (1, 2, 0b1000),
        (2, 1, 0b1_0000),
        (2, 2, 0),
        (3, 1, 0b10_0000),
        (3, 2, 0),
        (4, 1, 0b100_0000),
        (4, 2, 0b1000_0000),
        (5, 1, 0b1_1111),
        (5, 3, 0b1_1100),
        (5, 4, 0b1_1000),
        (5, 5, 0b1_0000),
        (5, 6, 0b10_0000),
        (5, 7, 0),
    ];
    for (list, number, wanted) in table {
        let failed = failures(rt.alloc(), list, number)?;
        assert_eq!(rt; failed, wanted, "list {list}, number {number}");
    }
    Ok(())
}

// Opens two eyes on regions that overlap, and reads one byte of region 1 by each.
fn seen_by_two(disk: &mut MemDisk) -> Result<[Option<u8>; 2], DiskRefusal>
    requires { (disk.old.disk.regions ≡ 4) × (disk.old.disk.region_len ≡ 2) × (disk.old.disk.unsynced ≡ []) }
{
    let mut first = disk.eye(&[0, 1])?;
    let mut second = disk.eye(&[1, 2])?;
    Ok([seen(&mut first, 0), seen(&mut second, 1)])
}

// The byte of region 1 that an eye reads.
fn seen(eye: &mut MemEye, at: u64) -> Option<u8>
    requires named { Contains eye.old.eye.regions 1 }
    requires within { at + 1 ≤ eye.old.eye.region_len }
{
    let mut byte = [0u8; 1];
    match eye.read(1, at, &mut byte) {
        Ok(()) => Some(byte[0]),
        Err(_) => None,
    }
}

// Writes a byte, and sees it by two eyes once it is synced.
fn written_and_seen(disk: &mut MemDisk) -> Result<[Option<u8>; 2], DiskRefusal>
    requires { (disk.old.disk.regions ≡ 4) × (disk.old.disk.region_len ≡ 2) × (disk.old.disk.eyes ≡ []) }
{
    disk.write(1, 1, &[9])?;
    disk.sync()?;
    seen_by_two(disk)
}

#[test]
fn two_eyes_share_a_region(rt: HostRuntime) -> Result<(), Fail> {
    let mut disk = small(rt.alloc(), FaultPlan::none(rt.alloc()))?;
    let seen = written_and_seen(&mut disk);
    assert_eq!(rt; seen, Ok([Some(0), Some(9)]));
    Ok(())
}
