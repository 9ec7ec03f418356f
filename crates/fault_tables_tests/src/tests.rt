//! A table for each kind of call: whichever of them fails, the status tells it, and the log shows a prefix of the run.

ghost use Rattle.std.specs.Prelude.{IfOk};
ghost use Rattle.program_runs.specs.Disks.{IsLeft};

use crate::runs::{Case, GROUPS_OF_ONE, LENGTH, number_behind, obey};
use log_disk::{FaultPlan, MemDisk};
use program_runs::{Printed, crash, new_disk, run};
use std::alloc::Global;
use std::process::Abort;
use std::sync::Wait;
use std::test::Fail;
use std::thread::Threads;

/// Which calls of a disk fail.
#[derive(Clone, Copy, Debug, PartialEq, Eq)]
enum Failing {
    AllFrom,
    Read,
    Write,
    Sync,
    Eye,
}

use Failing::{AllFrom, Eye, Read, Sync as SyncOnce, Write};

/// A plan by which the call of a number fails, among those of its kind, or every call from it on.
fn plan_of(alloc: Global, failing: Failing, number: u64) -> Result<FaultPlan, Fail> {
    let mut plan = FaultPlan::none(alloc);
    match failing {
        AllFrom => plan.stop = number,
        Read => plan.reads.push(number)?,
        Write => plan.writes.push(number)?,
        SyncOnce => plan.syncs.push(number)?,
        Eye => plan.eyes.push(number)?,
    }
    Ok(plan)
}

/// The last epoch that a log shows after a crash. Its pairs are those of that epoch.
fn end_after<R: Threads + Wait + Sync>(
    rt: &R,
    alloc: Global,
    case: Case,
    disk: MemDisk,
    picks: &[u8],
) -> Result<u8, Fail>
    requires { IsLeft disk.disk }
{
    let (ranges, disk) = obey(rt, alloc, "ranges", crash(disk, picks)?)?;
    let end = number_behind(ranges.as_slice(), b"end ").ok_or("no end")?;
    let (pairs, _disk) = obey(rt, alloc, "dump", disk)?;
    if pairs.as_slice() != case.pairs_at(end).as_bytes() {
        return Err("other pairs")?;
    }
    Ok(end)
}

/// Runs a case where this call of the disk fails, and says whether it was met. Whatever a crash then leaves of it, the log shows a prefix of the run, and at
/// least what was printed as durable.
fn is_met<R: Threads + Wait + Sync>(
    rt: &R,
    alloc: Global,
    case: Case,
    failing: Failing,
    number: u64,
) -> Result<bool, Fail> {
    let mut met = false;
    for picks in [&[][..], &[0xa7; 64]] {
        let plan = plan_of(alloc, failing, number)?;
        let disk = new_disk(alloc, case.regions(), LENGTH, plan)?;
        let given = (GROUPS_OF_ONE, case.script(), (0, 0));
        let printed = run(rt, alloc, given, disk)?;
        let text = printed.text.as_slice();
        met = printed.finish.status != 0;
        let as_wanted = if met {
            printed.finish.status == 6 && text.ends_with(b"disk|")
        } else {
            text == case.whole().as_bytes()
        };
        let durable = number_behind(text, b"durable ").unwrap_or(0);
        let end = end_after(rt, alloc, case, printed.finish.disk, picks)?;
        if !as_wanted || end < durable || case.last() < end {
            return Err("another text, or another end")?;
        }
    }
    Ok(met)
}

/// Checks of each kind of call that a run meets all up to the last one, and none behind it.
fn meets<R: Threads + Wait + Sync + Abort>(
    rt: &R,
    alloc: Global,
    case: Case,
    lasts: [u64; 5],
) -> Result<(), Fail> {
    let kinds = [AllFrom, Read, Write, SyncOnce, Eye];
    for (failing, last) in kinds.iter().zip(lasts) {
        for number in 1..last.saturating_add(2) {
            let met = is_met(rt, alloc, case, *failing, number)?;
            assert_eq!(rt; met, number <= last);
        }
    }
    Ok(())
}

#[test]
fn a_call_of_the_disk_that_fails_is_told(rt: HostRuntime) -> Result<(), Fail> {
    meets(&rt, rt.alloc(), Case::Accounts, [22, 8, 6, 6, 2])
}

#[test]
fn a_call_of_a_merge_that_fails_is_told(rt: HostRuntime) -> Result<(), Fail> {
    meets(&rt, rt.alloc(), Case::Merges, [65, 4, 32, 24, 5])
}

/// What the run over two accounts prints, where these calls of the source and the sink fail.
fn accounts<R: Threads + Wait + Sync>(
    rt: &R,
    alloc: Global,
    fails: (u64, u64),
) -> Result<Printed, Fail>
    ensures { IfOk result (λ printed. IsLeft printed.finish.disk.disk) }
{
    let disk = new_disk(alloc, 8, LENGTH, FaultPlan::none(alloc))?;
    let given = (GROUPS_OF_ONE, Case::Accounts.script(), fails);
    run(rt, alloc, given, disk)
}

#[test]
fn a_source_that_fails_leaves_the_log(rt: HostRuntime) -> Result<(), Fail> {
    let alloc = rt.alloc();
    for number in 1..4u64 {
        let printed = accounts(&rt, alloc, (number, 0))?;
        if number < 3 {
            assert_eq!(rt; printed.finish.status, 4);
            assert_eq!(rt; printed.text.as_slice(), b"source|".as_slice());
            assert_eq!(rt;
                end_after(&rt, alloc, Case::Accounts, printed.finish.disk, &[0xa7; 64])?,
                0
            );
        } else {
            assert_eq!(rt; printed.text.as_slice(), Case::Accounts.whole().as_bytes());
        }
    }
    Ok(())
}

#[test]
fn a_sink_that_fails_has_a_first_part(rt: HostRuntime) -> Result<(), Fail> {
    let alloc = rt.alloc();
    for number in 1..4u64 {
        let printed = accounts(&rt, alloc, (0, number))?;
        assert!(rt;
            Case::Accounts
                .whole()
                .as_bytes()
                .starts_with(printed.text.as_slice())
        );
        if printed.finish.status != 0 {
            assert_eq!(rt; printed.finish.status, 5);
        } else {
            assert_eq!(rt; printed.text.as_slice(), Case::Accounts.whole().as_bytes());
        }
    }
    Ok(())
}
