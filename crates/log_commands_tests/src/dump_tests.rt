//! What no clause says of `dump`: the text of a worked log, each call with ample memory, and calls that fail.

ghost use Rattle.std.specs.Prelude.{◌≡◌, true, IfOk, OnOk};
ghost use Rattle.std.specs.List.{list_all};
ghost use Rattle.epoch_room.specs.Whole.{IsIdle};
ghost use Rattle.fine_model.specs.Boards.{is_empty};

use crate::dump_fixtures::Change::{Byte, Nothing};
use crate::dump_fixtures::{Change, disk_of};
use epoch_room::Room;
use fine_model::{NoMemory, Pairs, RunFault};
use log_commands::{dump_and_print, read_map};
use log_disk::{DiskRefusal, FaultPlan, MemDisk};
use reopen::open_log;
use script_text::MemSink;
use std::alloc::{AllocError, Global};
use std::test::Fail;

/// More than each text here has.
const ROOM: usize = 4096;

/// Which call fails.
#[derive(Clone, Copy)]
enum Failing {
    None,
    Header,
    Eye,
    Load(u64),
    Output,
}

use Failing::{Eye, Header, Load, Output};

fn plan_of(alloc: Global, failing: Failing) -> Result<FaultPlan, AllocError> {
    let mut plan = FaultPlan::none(alloc);
    match failing {
        Header => plan.reads.push(1)?,
        Eye => plan.eyes.push(1)?,
        Load(read) => plan.eye_reads.push((1, read))?,
        _ => {}
    }
    Ok(plan)
}

fn sink_of(alloc: Global, failing: Failing) -> Result<MemSink, NoMemory> {
    let mut fails = Vec::new(alloc);
    if let Output = failing {
        fails.push(1)?;
    }
    MemSink::new(alloc, ROOM, fails)
}

/// Whether bytes are a text that has `|` for each line's end.
fn is_text(bytes: &[u8], text: &str) -> bool {
    let text = text.as_bytes();
    let mut same = bytes.len() == text.len();
    for (byte, wanted) in bytes.iter().zip(text) {
        let byte = if *byte == b'\n' { b'|' } else { *byte };
        same = same && byte == *wanted;
    }
    same
}

/// Prints the log, and answers the status.
fn print(
    alloc: Global,
    sink: &mut MemSink,
    change: Change,
    failing: Failing,
) -> Result<u8, DiskRefusal> {
    let plan = plan_of(alloc, failing)?;
    let disk = disk_of(alloc, change, plan)?;
    let (status, _disk) = dump_and_print(alloc, sink, disk);
    Ok(status.number())
}

/// The status, and whether what is printed of the log to a sink that has nothing is a text.
fn prints_to(
    alloc: Global,
    sink: &mut MemSink,
    change: Change,
    failing: Failing,
    text: &str,
) -> Result<(u8, bool), DiskRefusal> {
    let status = print(alloc, sink, change, failing)?;
    Ok((status, is_text(sink.bytes(), text)))
}

fn prints(
    alloc: Global,
    change: Change,
    failing: Failing,
    text: &str,
) -> Result<(u8, bool), DiskRefusal> {
    let Ok(mut sink) = sink_of(alloc, failing) else {
        return Err(DiskRefusal::NoMemory);
    };
    prints_to(alloc, &mut sink, change, failing, text)
}

fn byte(region: u32, at: usize, byte: u8) -> Change {
    Byte { region, at, byte }
}

#[test]
fn a_log_is_dumped(rt: HostRuntime) -> Result<(), Fail> {
    let alloc = rt.alloc();
    let all = "pair Bc = x|pair a = 1|pair b = 3|pair c = 4|pair cd = y|pair dE = z|pairs 6|";
    let table: [(Change, Failing, u8, &str); 11] = [
        (Nothing, Failing::None, 0, all),
        // the gate of epoch 2 is closed
        (
            byte(0, 0, 0),
            Failing::None,
            0,
            "pair a = 1|pair b = 2|pairs 2|",
        ),
        // that of epoch 1 is
        (byte(1, 0, 0), Failing::None, 7, "damaged region 0 after 0|"),
        // the kind of the first put of `b`
        (byte(1, 65, 0), Failing::None, 7, "damaged region 1 at 65|"),
        // the inner node has the key `ce`, above which `cd` does not lie
        (byte(0, 162, b'e'), Failing::None, 7, "damaged node 97 2|"),
        // the head has the depth 1, or 3
        (byte(0, 68, 1), Failing::None, 7, "damaged node 97 3|"),
        (byte(0, 68, 3), Failing::None, 7, "damaged node 97 1|"),
        (Nothing, Header, 6, "disk|"),
        (Nothing, Eye, 6, "disk|"),
        (Nothing, Load(1), 6, "disk|"),
        (Nothing, Output, 5, ""),
    ];
    for (change, failing, status, text) in &table {
        let found = prints(alloc, *change, *failing, text)?;
        assert_eq!(rt; found, (*status, true), "{text}");
    }
    Ok(())
}

/// Whether the keys of pairs, one behind the other, are a text.
fn have_keys(pairs: &Pairs, text: &[u8]) -> bool {
    let mut rest = text;
    for pair in pairs.as_slice() {
        match rest.strip_prefix(pair.0.as_slice()) {
            Some(behind) => rest = behind,
            None => return false,
        }
    }
    rest.is_empty()
}

/// Whether the keys that are read are a text.
fn reads(alloc: Global, room: &mut Room<MemDisk>, text: &[u8]) -> Result<bool, RunFault>
    requires { list_all is_empty room.old.room.board ≡ true }
    ensures { OnOk result (list_all is_empty room.new.room.board ≡ true) }
{
    let pairs = read_map(alloc, room)?;
    Ok(have_keys(&pairs, text))
}

/// The same in one room, twice.
fn reads_twice(alloc: Global, room: &mut Room<MemDisk>, text: &[u8]) -> Result<[bool; 2], RunFault>
    requires { list_all is_empty room.old.room.board ≡ true }
{
    let first = reads(alloc, room, text)?;
    Ok([first, reads(alloc, room, text)?])
}

/// A room of the log.
fn room_of(alloc: Global, disk: MemDisk) -> Result<Room<MemDisk>, RunFault>
    requires { IsIdle disk.disk }
    ensures { IfOk result (λ room. list_all is_empty room.room.board ≡ true) }
{
    match open_log(alloc, disk) {
        Ok(room) => Ok(room),
        Err(_fault) => Err(RunFault::Disk),
    }
}

/// Whether the keys that are read twice in a room of the log are a text.
fn log_reads_twice(alloc: Global, text: &[u8]) -> Result<[bool; 2], RunFault> {
    let Ok(disk) = disk_of(alloc, Nothing, FaultPlan::none(alloc)) else {
        return Err(RunFault::Disk);
    };
    let mut room = room_of(alloc, disk)?;
    reads_twice(alloc, &mut room, text)
}

#[test]
fn a_room_is_read_twice(rt: HostRuntime) -> Result<(), Fail> {
    assert_eq!(rt; log_reads_twice(rt.alloc(), b"BcabccddE")?, [true; 2]);
    Ok(())
}
