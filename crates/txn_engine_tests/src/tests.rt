//! Tables of steps on halls on disks in memory.

use epoch_room::{Counts, RoomFault};
use hall_accounts::Act::{Merge, One, TryAlone, TryRoom, Two};
use hall_accounts::Step::{
    Abort, AbortKeeping, Begin, Commit, CommitKeeping, Get, GetIn, Post, Put, PutIn, Scan, Settle,
    Show, TellCommit, TryCommit,
};
use hall_accounts::Told::{
    Aborted, Balance, Begun, Committed, Entry, Merged, NoPlace, NotSettled, NotShown, Refused,
    Room, Settled, Shown, Stored, Sum,
};
use hall_accounts::{Line, Outcome, two_threads, walked};
use log_disk::FaultPlan;
use std::alloc::Global;
use std::process;
use std::sync::Wait;
use std::test::Fail;
use std::thread::Threads;
use txn_engine::{CommitFault, Space, TxnFault};

/// The balances 10 and 5, stored by one transaction.
const BEGUN: [Line; 3] = [
    Line(One(Put(1, 10)), Stored),
    Line(One(Put(2, 5)), Stored),
    Line(One(Commit), Committed(1, 1)),
];

// A balance of the account 1, stored by the transaction of a number in an epoch of its own, which is sealed.
fn sealed(number: u64, balance: u8) -> [Line; 3] {
    [
        Line(One(Put(1, balance)), Stored),
        Line(One(Commit), Committed(number, number)),
        Line(One(Show), Shown(number)),
    ]
}

// Where nothing is retired: how many regions are free and live, the last epoch sealed, the last place given, and how many entries wait.
fn counts(free: u32, live: u32, sealed: u64, place: u64, waiting: u64) -> Counts {
    Counts {
        free,
        live,
        retired: 0,
        sealed,
        place,
        waiting,
    }
}

// What comes of tables on a new hall, one behind the other.
fn walked_all<W: Wait>(
    rt: &W,
    alloc: Global,
    plan: FaultPlan,
    tables: &[&[Line]],
) -> Result<Outcome, Fail> {
    let mut lines = Vec::new(alloc);
    for table in tables {
        lines.extend_from_slice(table)?;
    }
    Ok(walked(rt, alloc, plan, &lines))
}

// Walks tables on a new hall whose disk does not fail: each line answers as it is to, and the room ends with these counts.
fn ends_with<W: Wait + process::Abort>(
    rt: &W,
    alloc: Global,
    tables: &[&[Line]],
    counts: Counts,
) -> Result<(), Fail> {
    let outcome = walked_all(rt, alloc, FaultPlan::none(alloc), tables)?;
    assert!(rt; outcome == Outcome::Room(counts));
    Ok(())
}

// Whether each line of a table answered as it is to.
fn is_room(outcome: Outcome) -> bool {
    match outcome {
        Outcome::Room(_counts) => true,
        _ => false,
    }
}

// The second transaction finds the bucket of the account 1 held, and goes through once the first has committed.
#[test]
fn a_conflict_is_tried_again(rt: HostRuntime) -> Result<(), Fail> {
    let alloc = rt.alloc();
    let table = [
        Line(One(Get(1)), Balance(10)),
        Line(
            Two(Get(1)),
            Refused(TxnFault::Conflict {
                bucket: 1,
                owner: 1,
            }),
        ),
        Line(Two(Abort), Aborted),
        Line(One(Put(1, 9)), Stored),
        Line(One(Get(2)), Balance(5)),
        Line(One(Put(2, 6)), Stored),
        Line(One(Commit), Committed(2, 1)),
        Line(Two(Get(1)), Balance(9)),
        Line(Two(Put(1, 8)), Stored),
        Line(Two(Get(2)), Balance(6)),
        Line(Two(Put(2, 7)), Stored),
        Line(Two(Commit), Committed(3, 1)),
        Line(One(Put(1, 99)), Stored),
        Line(One(Abort), Aborted),
        Line(Two(Scan), Sum(15)),
    ];
    ends_with(&rt, alloc, &[&BEGUN, &table], counts(7, 0, 0, 3, 3))
}

// What is sealed is evicted as the next transaction ends, and read through the front by the one behind it.
#[test]
fn what_was_evicted_is_read_again(rt: HostRuntime) -> Result<(), Fail> {
    let alloc = rt.alloc();
    let table = [
        Line(Two(Show), Shown(1)),
        Line(One(Get(1)), Balance(10)),
        Line(One(Get(2)), Balance(5)),
        Line(One(Put(2, 6)), Stored),
        Line(One(Abort), Aborted),
        Line(Two(Get(1)), Balance(10)),
        Line(One(Get(2)), Balance(5)),
        Line(One(Put(2, 15)), Stored),
        Line(Two(Put(1, 0)), Stored),
        Line(Two(Commit), Committed(2, 2)),
        Line(One(Commit), Committed(3, 2)),
        Line(One(Show), Shown(2)),
        Line(Two(Scan), Sum(15)),
    ];
    ends_with(&rt, alloc, &[&BEGUN, &table], counts(6, 2, 2, 3, 0))
}

// The node is cached until the end of the second transaction, though it was published before. So the first read of the seat 1 is the look for the
// bucket's head, which is in no part, and the second get looks for the head and then for the node, whose rows are the fourth read.
#[test]
fn what_is_published_is_evicted_at_the_end(rt: HostRuntime) -> Result<(), Fail> {
    for (end, told) in [(Commit, Committed(2, 2)), (Abort, Aborted)] {
        let mut plan = FaultPlan::none(rt.alloc());
        plan.eye_reads.push((5, 4))?;
        let table = [
            Line(One(Put(1, 10)), Stored),
            Line(One(Commit), Committed(1, 1)),
            Line(Two(Show), Shown(1)),
            Line(One(Get(1)), Balance(10)),
            Line(One(end), told),
            Line(One(Get(1)), Refused(TxnFault::Disk)),
        ];
        let outcome = walked(&rt, rt.alloc(), plan, &table);
        assert!(rt; is_room(outcome));
    }
    Ok(())
}

// Walks a table whose last line alone is of its act, which is a get of the seat 1, once with each of the first 15 reads of the eye 5 failing. The get fails by those up
// to a number, and by no later one, and nothing else fails: so the get makes just so many reads, and the lines before it make none.
fn reads_at_last<W: Wait + process::Abort>(
    rt: &W,
    alloc: Global,
    table: &[Line],
    reads: u64,
) -> Result<(), Fail> {
    let Some(last) = table.last() else {
        return Err("no line")?;
    };
    let fails = Outcome::Otherwise(Line(last.0, Refused(TxnFault::Disk)));
    for failing in 1..16u64 {
        let mut plan = FaultPlan::none(alloc);
        plan.eye_reads.push((5, failing))?;
        let outcome = walked(rt, alloc, plan, table);
        assert!(rt; (outcome == fails) == (failing <= reads));
        assert!(rt; is_room(outcome) == (reads < failing));
    }
    Ok(())
}

// A bucket of one pair has a head, which is in no part, and a leaf, which a get uses last. Both are cached as the second transaction ends, and are published. The head
// takes one read, which is the look for it, and the leaf two: the look, and its rows.
#[test]
fn so_many_nodes_stay_cached(rt: HostRuntime) -> Result<(), Fail> {
    let alloc = rt.alloc();
    for (keep, reads) in [(0, 3), (1, 1), (2, 0)] {
        for (end, told) in [
            (CommitKeeping(keep), Committed(2, 2)),
            (AbortKeeping(keep), Aborted),
        ] {
            let table = [
                Line(One(PutIn(7, 1)), Stored),
                Line(One(CommitKeeping(2)), Committed(1, 1)),
                Line(Two(Show), Shown(1)),
                Line(One(GetIn(7, 2)), Balance(0)),
                Line(One(end), told),
                Line(One(GetIn(7, 1)), Balance(1)),
            ];
            reads_at_last(&rt, alloc, &table, reads)?;
        }
    }
    Ok(())
}

// With 33 pairs a bucket has a head, an inner node and two leaves. All four are cached as the second transaction ends, and are published. It gets a pair of the left
// leaf and then one of the right leaf, so they go in this order: the left leaf, the head, the inner node, the right leaf. The third transaction gets a pair of one of
// the leaves, and reads what went on its way: for the left leaf four times, for the head five times, and for the inner node and the right leaf three times each.
#[test]
fn the_least_recently_used_goes_first(rt: HostRuntime) -> Result<(), Fail> {
    let alloc = rt.alloc();
    let mut begun = Vec::new(alloc);
    for number in 1..34u8 {
        begun.push(Line(One(PutIn(7, number)), Stored))?;
    }
    for (keep, number, reads) in [
        (4, 1, 0),
        (3, 33, 0),
        (3, 1, 4),
        (2, 33, 5),
        (1, 33, 8),
        (0, 33, 11),
    ] {
        for (end, told) in [
            (CommitKeeping(keep), Committed(2, 2)),
            (AbortKeeping(keep), Aborted),
        ] {
            let table = [
                Line(One(CommitKeeping(4)), Committed(1, 1)),
                Line(Two(Show), Shown(1)),
                Line(One(GetIn(7, 2)), Balance(2)),
                Line(One(GetIn(7, 32)), Balance(32)),
                Line(One(end), told),
                Line(One(GetIn(7, number)), Balance(number)),
            ];
            let mut lines = Vec::new(alloc);
            lines.extend_from_slice(&begun)?;
            lines.extend_from_slice(&table)?;
            reads_at_last(&rt, alloc, &lines, reads)?;
        }
    }
    Ok(())
}

// The eyes 1 to 4 are those of the first views; 5 is that which is posted to the seat 1.
#[test]
fn a_failing_read_is_of_its_pass_alone(rt: HostRuntime) -> Result<(), Fail> {
    let alloc = rt.alloc();
    let mut plan = FaultPlan::none(alloc);
    plan.eye_reads.push((5, 1))?;
    let table = [
        Line(Two(Show), Shown(1)),
        Line(One(Get(1)), Refused(TxnFault::Disk)),
        Line(Two(Get(2)), Balance(5)),
        Line(Two(Put(2, 6)), Stored),
        Line(One(Abort), Aborted),
        Line(Two(Get(1)), Balance(10)),
        Line(Two(Put(1, 9)), Stored),
        Line(Two(Commit), Committed(2, 2)),
        Line(One(Get(1)), Balance(9)),
        Line(One(Scan), Sum(15)),
    ];
    let outcome = walked_all(&rt, alloc, plan, &[&BEGUN, &table])?;
    assert!(rt; outcome == Outcome::Room(counts(6, 1, 1, 2, 1)));
    Ok(())
}

// Four parts become one, two at a time, while a transaction is open. The first two are merged by a call that does no more, and erased once each seat took a new
// view, and the one that it had before was taken back as views were posted again. The others are merged as room is made.
#[test]
fn room_is_made_of_four_parts(rt: HostRuntime) -> Result<(), Fail> {
    let alloc = rt.alloc();
    let first = sealed(1, 10);
    let second = [
        Line(Two(Put(2, 5)), Stored),
        Line(Two(Commit), Committed(2, 2)),
        Line(Two(Show), Shown(2)),
    ];
    let third = sealed(3, 9);
    let fourth = sealed(4, 8);
    let table = [
        Line(Two(Get(2)), Balance(5)),
        Line(One(Get(1)), Balance(8)),
        Line(Merge, Merged(true)),
        Line(Two(Settle), Settled(0)),
        Line(One(Show), Shown(4)),
        Line(One(Get(1)), Balance(8)),
        Line(Two(Get(3)), Balance(0)),
        Line(Two(Settle), Settled(0)),
        Line(One(Show), Shown(4)),
        Line(Two(Settle), Settled(2)),
        Line(One(Settle), Settled(0)),
        Line(TryRoom, Room(Space::Made)),
        Line(TryRoom, Room(Space::Made)),
        Line(Merge, Merged(false)),
        Line(TryRoom, Room(Space::Enough)),
        Line(Two(Put(2, 7)), Stored),
        Line(Two(Commit), Committed(5, 5)),
        Line(One(Scan), Sum(15)),
    ];
    ends_with(
        &rt,
        alloc,
        &[&first, &second, &third, &fourth, &table],
        counts(6, 1, 4, 5, 1),
    )
}

// The disk fails at a write or a sync of this number, where it is not 0, and at the second read of the eye 5, which is the first one that is posted to the seat 1.
fn failing_at(alloc: Global, write: u64, sync: u64) -> Result<FaultPlan, Fail> {
    let mut plan = FaultPlan::none(alloc);
    plan.writes.push(write)?;
    plan.syncs.push(sync)?;
    plan.eye_reads.push((5, 2))?;
    Ok(plan)
}

// Each write and each sync of the second seal in turn fails and shuts the room. Calls, aborts and the end of the hall go on. What the seat 1 has cached is answered
// without a read: the next one of its eye fails, as the call behind it shows.
#[test]
fn a_failing_disk_shuts_the_room(rt: HostRuntime) -> Result<(), Fail> {
    let alloc = rt.alloc();
    let shut = RoomFault::Shut { epoch: 1 };
    let table = [
        Line(Two(Put(2, 5)), Stored),
        Line(Two(Commit), Committed(2, 2)),
        Line(One(Put(1, 9)), Stored),
        Line(Two(Show), NotShown(RoomFault::Disk)),
        Line(One(TryCommit), NoPlace(CommitFault::Shut { epoch: 1 })),
        Line(Two(Show), NotShown(shut)),
        Line(One(Post), NotShown(shut)),
        Line(Two(Settle), NotSettled(shut)),
        Line(One(Get(1)), Balance(9)),
        Line(One(Get(3)), Refused(TxnFault::Disk)),
        Line(
            Two(Get(1)),
            Refused(TxnFault::Conflict {
                bucket: 1,
                owner: 1,
            }),
        ),
        Line(One(Abort), Aborted),
        Line(Two(Put(1, 8)), Stored),
        Line(Two(TryCommit), NoPlace(CommitFault::Shut { epoch: 1 })),
        Line(Two(Abort), Aborted),
        Line(One(Get(1)), Balance(10)),
        Line(One(Scan), Sum(15)),
    ];
    for (write, sync) in [(3, 0), (0, 3), (4, 0), (0, 4)] {
        let plan = failing_at(alloc, write, sync)?;
        let outcome = walked_all(&rt, alloc, plan, &[&sealed(1, 10), &table])?;
        assert!(rt; outcome == Outcome::Room(counts(6, 1, 1, 2, 1)));
    }
    Ok(())
}

// Each commit tells how many entries wait behind it, and the number with which its transaction began. Room is made where none waits, and else not, and views are
// posted meanwhile, which changes nothing of what waits.
#[test]
fn what_waits_is_told(rt: HostRuntime) -> Result<(), Fail> {
    let alloc = rt.alloc();
    let table = [
        Line(One(Begin(7)), Begun),
        Line(Two(Begin(8)), Begun),
        Line(TryRoom, Room(Space::Enough)),
        Line(One(Put(1, 10)), Stored),
        Line(TryRoom, Room(Space::Enough)),
        Line(One(TellCommit), Entry(1, 1, 1, 7)),
        Line(TryRoom, Room(Space::Waits)),
        Line(TryAlone, Room(Space::Waits)),
        Line(One(Post), Shown(0)),
        Line(Two(Put(2, 5)), Stored),
        Line(Two(TellCommit), Entry(2, 1, 2, 8)),
        Line(Two(Post), Shown(0)),
        Line(One(Put(1, 9)), Stored),
        Line(One(TellCommit), Entry(3, 1, 3, 7)),
        Line(TryRoom, Room(Space::Waits)),
        Line(Two(Show), Shown(1)),
        Line(Two(Post), Shown(1)),
        Line(TryRoom, Room(Space::Enough)),
        Line(One(Put(1, 8)), Stored),
        Line(One(Begin(9)), Begun),
        Line(One(Get(1)), Balance(9)),
        Line(One(Put(1, 10)), Stored),
        Line(One(TellCommit), Entry(4, 2, 1, 9)),
        Line(TryRoom, Room(Space::Waits)),
        Line(Two(Scan), Sum(15)),
        Line(Two(TellCommit), Entry(5, 2, 2, 8)),
        Line(One(Scan), Sum(15)),
    ];
    ends_with(&rt, alloc, &[&table], counts(6, 1, 1, 5, 2))
}

// Of four parts two are merged and retired. The view of the seat 2 is of the time when the first of them was the only part: without its pass this one is held, until
// the pass took a new view, and views were posted again. Then the next two are merged, and both are held by the view that it took.
#[test]
fn what_a_view_names_is_held(rt: HostRuntime) -> Result<(), Fail> {
    let alloc = rt.alloc();
    let second = [
        Line(Two(Put(2, 5)), Stored),
        Line(Two(Commit), Committed(2, 2)),
        Line(Two(Show), Shown(2)),
    ];
    let table = [
        Line(Merge, Merged(true)),
        Line(Two(Settle), Settled(0)),
        Line(TryAlone, Room(Space::Held)),
        Line(Two(Settle), Settled(0)),
        Line(Two(Get(2)), Balance(5)),
        Line(Two(Settle), Settled(0)),
        Line(One(Post), Shown(4)),
        Line(Two(Settle), Settled(1)),
        Line(TryAlone, Room(Space::Held)),
        Line(Two(Settle), Settled(0)),
        Line(TryRoom, Room(Space::Made)),
        Line(Two(Settle), Settled(0)),
        Line(One(Put(1, 10)), Stored),
        Line(One(TellCommit), Entry(5, 5, 1, 1)),
        Line(Two(Scan), Sum(15)),
    ];
    ends_with(
        &rt,
        alloc,
        &[
            &sealed(1, 10),
            &second,
            &sealed(3, 9),
            &sealed(4, 8),
            &table,
        ],
        counts(6, 1, 4, 5, 1),
    )
}

// Seven sealed epochs leave one free region, which is kept for merging: a commit is refused, room is made while both transactions are open, and both commit.
#[test]
fn a_commit_without_space_is_tried_again(rt: HostRuntime) -> Result<(), Fail> {
    let alloc = rt.alloc();
    let mut full = Vec::new(alloc);
    for balance in 1..8u8 {
        full.extend_from_slice(&sealed(u64::from(balance), balance))?;
    }
    let table = [
        Line(One(Put(1, 10)), Stored),
        Line(Two(Put(2, 5)), Stored),
        Line(
            One(TryCommit),
            NoPlace(CommitFault::Full {
                free: 1,
                live: 7,
                retired: 0,
            }),
        ),
        Line(Merge, Merged(true)),
        Line(
            One(TryCommit),
            NoPlace(CommitFault::Full {
                free: 0,
                live: 6,
                retired: 2,
            }),
        ),
        Line(TryRoom, Room(Space::Made)),
        Line(One(TryCommit), Committed(8, 8)),
        Line(Two(TryCommit), Committed(9, 8)),
        Line(Two(Scan), Sum(15)),
    ];
    ends_with(&rt, alloc, &[&full, &table], counts(2, 5, 7, 9, 2))
}

// What two threads leave: how much each committed, the sum of all accounts, the last place, and how many tries of each a failing read ended. None where there is no memory.
fn moved<R: Threads + Wait + Sync>(
    rt: &R,
    alloc: Global,
    plan: FaultPlan,
) -> Option<((usize, usize), u64, u64, (u64, u64))> {
    let made = two_threads(rt, alloc, plan, 25)?;
    let committed = (made.first.len(), made.second.len());
    Some((committed, made.sum, made.room.counts().place, made.met))
}

#[test]
fn two_threads_move_money(rt: HostRuntime) -> Result<(), Fail> {
    let alloc = rt.alloc();
    let moved = moved(&rt, alloc, FaultPlan::none(alloc));
    assert!(rt; moved == Some(((104, 100), 400, 204, (0, 0))));
    Ok(())
}

// The eyes 6 and 8 are those which the two seals of the run post to the seat 2. Behind the second thread's own seal its front is one of them, and the first read of
// each fails; it reads at each transaction, which looks for the head of a bucket. The seat 1 has other eyes.
#[test]
fn a_read_fails_in_one_of_two_threads(rt: HostRuntime) -> Result<(), Fail> {
    let alloc = rt.alloc();
    let mut plan = FaultPlan::none(alloc);
    plan.eye_reads.push((6, 1))?;
    plan.eye_reads.push((8, 1))?;
    let Some((committed, sum, place, met)) = moved(&rt, alloc, plan) else {
        return Err("memory")?;
    };
    assert!(rt; (committed, sum, place) == ((104, 100), 400, 204));
    assert!(rt; met == (0, 1) || met == (0, 2));
    Ok(())
}
