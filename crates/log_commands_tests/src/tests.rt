//! What no clause says: the printed text of worked logs, and calls that fail.

ghost use Rattle.std.specs.Prelude.{IfOk};
ghost use Rattle.epoch_room.specs.Whole.{IsIdle};

use crate::fixtures::Command::{Merge, Ranges};
use crate::fixtures::Shown::{BadRow, Epoch, Free, Miscounted};
use crate::fixtures::{Command, Shown, crash, disk_of, print, stop_at};
use log_disk::{FaultPlan, MemDisk};
use std::alloc::Global;
use std::test::Fail;

const FIVE: [Shown; 5] = [Epoch(1), Epoch(2), Epoch(3), Epoch(4), Epoch(5)];

/// What a command prints of these parts, and its status.
fn printed(
    alloc: Global,
    command: Command,
    parts: &[Shown; 5],
    plan: FaultPlan,
    fails: Vec<u64>,
) -> Result<(u8, Vec<u8>), Fail> {
    let disk = disk_of(alloc, parts, plan)?;
    let printed = print(alloc, command, fails, disk)?;
    Ok((printed.status, printed.text))
}

#[test]
fn logs_are_listed(rt: HostRuntime) -> Result<(), Fail> {
    let alloc = rt.alloc();
    let gap = (7, "damaged region 1 after 1|");
    // What stands in the first regions, and the status and the text of a listing and of a merge.
    let table: [([Shown; 5], (u8, &str), (u8, &str)); 6] = [
        ([Free; 5], (0, "end 0|"), (0, "end 0|")),
        // two by two, each time over the lowest region that is free: 5, 0, 1 and 0
        (
            FIVE,
            (
                0,
                "range 1 1 region 0 rows 1|range 2 2 region 1 rows 1|range 3 3 region 2 rows 1|range 4 4 region 3 rows 1|range 5 5 region 4 rows 1|end 5|",
            ),
            (0, "range 1 5 region 0 rows 1|end 5|"),
        ),
        ([Epoch(1), Epoch(3), Free, Free, Free], gap, gap),
        // headers alone are read to list a chain
        (
            [Epoch(2), BadRow(1), Free, Free, Free],
            (
                0,
                "range 1 1 region 1 rows 1|range 2 2 region 0 rows 1|end 2|",
            ),
            (7, "damaged region 1 at 41|"),
        ),
        // what is made of a part that is not in the grammar is read again, and is good
        (
            [Miscounted(1), Epoch(2), Epoch(3), Free, Free],
            (
                0,
                "range 1 1 region 0 rows 2|range 2 2 region 1 rows 1|range 3 3 region 2 rows 1|end 3|",
            ),
            (0, "range 1 3 region 0 rows 1|end 3|"),
        ),
        // behind such a merge a place of a part at entry is named
        (
            [Miscounted(1), Epoch(2), BadRow(3), Free, Free],
            (
                0,
                "range 1 1 region 0 rows 2|range 2 2 region 1 rows 1|range 3 3 region 2 rows 1|end 3|",
            ),
            (7, "damaged region 2 at 41|"),
        ),
    ];
    for (parts, listed, merged) in &table {
        for (command, expected) in [(Ranges, listed), (Merge, merged)] {
            let (status, text) = printed(
                alloc,
                command,
                parts,
                FaultPlan::none(alloc),
                Vec::new(alloc),
            )?;
            assert_eq!(rt; status, expected.0);
            assert_eq!(rt; text.as_slice(), expected.1.as_bytes());
        }
    }
    Ok(())
}

#[test]
fn each_call_that_fails_has_its_status(rt: HostRuntime) -> Result<(), Fail> {
    let alloc = rt.alloc();
    let two = [Epoch(1), Epoch(2), Free, Free, Free];
    let merged = "range 1 2 region 2 rows 1|end 2|";
    let listed = "range 1 1 region 0 rows 1|range 2 2 region 1 rows 1|end 2|";
    // The disk stops at a call of a number, of which the first six fill it; or a call of the output fails.
    let table: [(Command, u64, u64, u8, &str); 8] = [
        // the headers of eight regions
        (Ranges, 7, 0, 6, "disk|"),
        (Ranges, 14, 0, 6, "disk|"),
        (Ranges, 15, 0, 0, listed),
        (Ranges, 15, 1, 5, ""),
        (Merge, 14, 0, 6, "disk|"),
        (Merge, 15, 0, 6, "disk|"),
        (Merge, u64::MAX, 0, 0, merged),
        (Merge, u64::MAX, 1, 5, ""),
    ];
    for (command, stop, put, status, text) in &table {
        let mut fails = Vec::new(alloc);
        fails.push(*put)?;
        let found = printed(alloc, *command, &two, stop_at(alloc, *stop), fails)?;
        assert_eq!(rt; found.0, *status);
        assert_eq!(rt; found.1.as_slice(), text.as_bytes());
    }
    Ok(())
}

/// What a merge of five parts leaves on a disk that stops at a call, behind a crash; and whether it was done.
fn stopped(alloc: Global, stop: u64, picks: &[u8]) -> Result<(bool, MemDisk), Fail>
    ensures { IfOk result (λ left. IsIdle left.1.disk) }
{
    let disk = disk_of(alloc, &FIVE, stop_at(alloc, stop))?;
    let printed = print(alloc, Merge, Vec::new(alloc), disk)?;
    let done = printed.status == 0;
    Ok((done, crash(printed, picks)?))
}

/// What is listed then, and what merging prints behind it.
fn listed(alloc: Global, stop: u64, picks: &[u8]) -> Result<(bool, Vec<u8>, Vec<u8>), Fail> {
    let (done, disk) = stopped(alloc, stop, picks)?;
    let listed = print(alloc, Ranges, Vec::new(alloc), disk)?;
    let text = listed.text.clone()?;
    let merged = print(alloc, Merge, Vec::new(alloc), crash(listed, &[])?)?;
    Ok((done, text, merged.text))
}

#[test]
fn a_merge_that_is_stopped_loses_no_epoch(rt: HostRuntime) -> Result<(), Fail> {
    let alloc = rt.alloc();
    let picks: [&[u8]; 2] = [&[], &[0xa7; 200]];
    // six calls fill the disk, and eight read the headers; then come those of the first merge
    for stop in 15..24 {
        for pick in &picks {
            let (done, listed, merged) = listed(alloc, stop, pick)?;
            assert!(rt; !done);
            assert!(rt; listed.as_slice().ends_with(b"|end 5|"));
            assert!(rt; merged.as_slice().starts_with(b"range 1 5 region "));
            assert!(rt; merged.as_slice().ends_with(b" rows 1|end 5|"));
        }
    }
    let (done, listed, merged) = listed(alloc, u64::MAX, &[])?;
    assert!(rt; done);
    assert_eq!(rt;
        listed.as_slice(),
        b"range 1 5 region 0 rows 1|end 5|".as_slice()
    );
    assert_eq!(rt; merged.as_slice(), listed.as_slice());
    Ok(())
}
