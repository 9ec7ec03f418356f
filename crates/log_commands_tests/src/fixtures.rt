//! Logs of crafted parts on a disk in memory, and what a command printed of them.

ghost use Rattle.std.specs.Prelude.{◌≡◌, ◌<◌, [], IfOk, OnOk};
ghost use Rattle.epoch_room.specs.Whole.{HasGeometry, IsIdle};

use log_commands::{Finish, merge_and_print, print_ranges};
use log_disk::{FaultPlan, LogDisk, MemDisk};
use script_text::MemSink;
use std::alloc::Global;
use std::test::Fail;

/// More than each text here has.
const ROOM: usize = 4096;

/// A partition of epoch 1 with the first put of `1` at the key `a`, from the gate on, in regions of 16,384 bytes.
const PUT: [u8; 79] =
    *b"\xa7FLP2\x00\x00\x00\x00\x00\x00\x40\x00\x00\x00\x00\x00\x00\x00\x00\x01\x00\x00\x00\x00\x00\x00\x00\x01\x00\x00\x00\x01\x00\x00\x00\x01\x00\x00\x00\x18\x04\x00\x61\x00\x00\x00\x01\x00\x00\x00\x00\x00\x00\x00\x01\x00\x00\x00\x05\x01a\x00\x011\x00\x61\x00\x00\x00\x01\x00\x00\x00\x00\x00\x00\x00\x01";

/// What stands in a region.
#[derive(Clone, Copy)]
pub enum Shown {
    Free,
    /// The part of an epoch, with the put of this version.
    Epoch(u8),
    /// The same, with the version 0 in its row.
    BadRow(u8),
    /// The same, with a header that counts two rows: it is not in the grammar, and no read of a node finds that.
    Miscounted(u8),
}

use Shown::{BadRow, Epoch, Free, Miscounted};

fn bytes_of(shown: Shown) -> [u8; 79] {
    let (epoch, version, rows) = match shown {
        Free => return [0; 79],
        Epoch(epoch) => (epoch, epoch, 1),
        BadRow(epoch) => (epoch, 0, 1),
        Miscounted(epoch) => (epoch, epoch, 2),
    };
    let mut bytes = PUT;
    bytes[20] = epoch;
    bytes[28] = epoch;
    bytes[32] = rows;
    bytes[55] = version;
    bytes
}

fn write(disk: &mut MemDisk, region: u32, shown: Shown) -> Result<(), Fail>
    requires region { region < 8 }
    requires disk { (disk.old.disk.regions ≡ 8) × (disk.old.disk.region_len ≡ 16384) × (disk.old.disk.eyes ≡ []) }
    ensures { (disk.new.disk.regions ≡ 8) × (disk.new.disk.region_len ≡ 16384) × (disk.new.disk.eyes ≡ []) }
{
    disk.write(region, 0, &bytes_of(shown)).ok().ok_or("write")?;
    Ok(())
}

fn fill(disk: &mut MemDisk, parts: &[Shown; 5]) -> Result<(), Fail>
    requires { (disk.old.disk.regions ≡ 8) × (disk.old.disk.region_len ≡ 16384) × (disk.old.disk.eyes ≡ []) }
    ensures { OnOk result (IsIdle disk.new.disk) }
{
    write(disk, 0, parts[0])?;
    write(disk, 1, parts[1])?;
    write(disk, 2, parts[2])?;
    write(disk, 3, parts[3])?;
    write(disk, 4, parts[4])?;
    disk.sync().ok().ok_or("sync")?;
    Ok(())
}

/// A disk of eight regions with these in the first five, whose calls fail by a plan. Filling it takes five writes and a sync.
pub fn disk_of(alloc: Global, parts: &[Shown; 5], plan: FaultPlan) -> Result<MemDisk, Fail>
    ensures { IfOk result (λ idle. IsIdle idle.disk) }
{
    let mut disk = MemDisk::new(alloc, 8, 16384, plan)?;
    fill(&mut disk, parts)?;
    Ok(disk)
}

/// A plan by which each call of the disk fails from a number on.
pub fn stop_at(alloc: Global, stop: u64) -> FaultPlan {
    let mut plan = FaultPlan::none(alloc);
    plan.stop = stop;
    plan
}

/// Which command is run.
#[derive(Clone, Copy)]
pub enum Command {
    Ranges,
    Merge,
}

/// Runs a command on a disk.
fn finish(alloc: Global, command: Command, sink: &mut MemSink, disk: MemDisk) -> Finish<MemDisk>
    requires { IsIdle disk.disk }
    ensures { (result.disk.disk.regions ≡ disk.disk.regions) × (result.disk.disk.region_len ≡ disk.disk.region_len) × (result.disk.disk.eyes ≡ []) }
{
    match command {
        Command::Ranges => print_ranges(alloc, sink, disk),
        Command::Merge => merge_and_print(alloc, sink, disk),
    }
}

/// The text that a sink holds, with `|` for each line's end.
fn text_of(alloc: Global, sink: &MemSink) -> Result<Vec<u8>, Fail> {
    let mut text = Vec::new(alloc);
    for byte in sink.bytes() {
        text.push(if *byte == b'\n' { b'|' } else { *byte })?;
    }
    Ok(text)
}

/// What a command printed, its status, and the disk.
#[derive(Drop)]
pub struct Printed {
    pub text: Vec<u8>,
    pub status: u8,
    pub disk: MemDisk,
}

/// Runs a command on a disk, with an output whose calls of these numbers fail.
pub fn print(
    alloc: Global,
    command: Command,
    fails: Vec<u64>,
    disk: MemDisk,
) -> Result<Printed, Fail>
    requires { IsIdle disk.disk }
    ensures { IfOk result (λ printed. (printed.disk.disk.regions ≡ disk.disk.regions) × (printed.disk.disk.region_len ≡ disk.disk.region_len) × (printed.disk.disk.eyes ≡ [])) }
{
    let mut sink = MemSink::new(alloc, ROOM, fails)?;
    let finish = finish(alloc, command, &mut sink, disk);
    Ok(Printed {
        text: text_of(alloc, &sink)?,
        status: finish.status,
        disk: finish.disk,
    })
}

/// The disk as a crash leaves it, where what was not synced has these bytes, or what the last sync left.
pub fn crash(printed: Printed, picks: &[u8]) -> Result<MemDisk, Fail>
    requires geometry { HasGeometry printed.disk.disk }
    requires no_eyes { printed.disk.disk.eyes ≡ [] }
    ensures { IfOk result (λ idle. IsIdle idle.disk) }
{
    Ok(printed.disk.crashed(picks)?)
}
