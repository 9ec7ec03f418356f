//! What no clause says: the printed text of worked scripts, the bytes of the log, and calls that fail.

ghost use Rattle.std.specs.Prelude.{IfOk};
ghost use Rattle.program_runs.specs.Disks.{IsLeft, IsReady};

use fine_model::{Gate, NoMemory, Point};
use fine_top::geometry_of;
use log_disk::{FaultPlan, LogDisk, MemDisk};
use program_runs::{
    Given, Printed, crash, has_piece, new_disk, run, run_gated, set_piece, words_of,
};
use std::alloc::Global;
use std::process::Abort;
use std::sync::Wait;
use std::sync::atomic::{AtomicU64, Ordering};
use std::test::Fail;
use std::thread::Threads;

const LENGTH: u64 = 16_384;

const RUN: &[&str] = &["run"];

const LONG_KEY: &str = "kkkkkkkkkkkkkkkkkkkkkkkkkkkkkkkkkkkkkkkkkkkkkkkkkkkkkkkkkkkkkkkk";

const LONG_VALUE: &str =
    "vvvvvvvvvvvvvvvvvvvvvvvvvvvvvvvvvvvvvvvvvvvvvvvvvvvvvvvvvvvvvvvvvvvvvvvvvvvvvvvvvvvvvvvvvvvvvvvvvvvvvvvvvvvvvvvvvvvvvvvvvvvvvvvvvvvvvvvvvvvvvvvvvvvvvvvvvvvvvvvvvvvvvvvvvvvvvvvvvvvvvvvvvvvvvvvvvvvvvvvvvvvvvvvvvvvvvvvvvvvvvvvvvvvvvvvvvvvvvvvvvvvvvvvvvvvvvvvv";

const WORDS: &str =
    "words: run [--group N] [--tries N] [--keep N] \u{7c} dump \u{7c} ranges \u{7c} merge \u{7c} gen START COUNT LANES|";

const THREE: &str = "txn 1|put a 1|commit|txn 1|put b 2|commit|txn 1|put c 3|get a|commit|";

/// Reads what these put.
const READ_THREE: &str = "txn 1|get a|get b|get c|commit|";

const NONE_OF_THREE: &str = "txn 1 commit 1 epoch 1|get a none|get b none|get c none|durable 1|";

const ALL_OF_THREE: &str = "txn 1 commit 1 epoch 2|get a = 1|get b = 2|get c = 3|durable 2|";

// A new disk of four regions.
fn small(alloc: Global, plan: FaultPlan) -> Result<MemDisk, Fail>
    ensures { IfOk result (λ disk. IsReady disk.disk) }
{
    new_disk(alloc, 4, LENGTH, plan)
}

// A plan by which these writes of the disk fail, and each of its calls from a number on.
fn failing(alloc: Global, writes: Vec<u64>, stop: u64) -> FaultPlan {
    FaultPlan {
        reads: Vec::new(alloc),
        writes,
        syncs: Vec::new(alloc),
        eyes: Vec::new(alloc),
        eye_reads: Vec::new(alloc),
        stop,
    }
}

// A plan by which each call of the disk fails from a number on.
fn stop_at(alloc: Global, stop: u64) -> FaultPlan {
    failing(alloc, Vec::new(alloc), stop)
}

// Texts one behind the other.
fn joined(alloc: Global, texts: &[&str]) -> Result<String, NoMemory> {
    let mut whole = String::new(alloc);
    for text in texts {
        whole.push_str(text)?;
    }
    Ok(whole)
}

// Runs a script, which has to end with this status and to print this text, and gives the disk.
fn expect<R: Threads + Wait + Sync + Abort>(
    rt: &R,
    alloc: Global,
    given: Given,
    disk: MemDisk,
    told: (u8, &str),
) -> Result<MemDisk, Fail>
    requires { IsReady disk.disk }
    ensures { IfOk result (λ disk. IsLeft disk.disk) }
{
    let printed = run(rt, alloc, given, disk)?;
    assert_eq!(rt; printed.finish.status, told.0);
    assert_eq!(rt; printed.text.as_slice(), told.1.as_bytes());
    Ok(printed.finish.disk)
}

// Runs a script on a disk with no call that fails.
fn run_well<R: Threads + Wait + Sync>(
    rt: &R,
    alloc: Global,
    script: &str,
    disk: MemDisk,
) -> Result<Printed, Fail>
    requires { IsReady disk.disk }
    ensures { IfOk result (λ printed. IsLeft printed.finish.disk.disk) }
{
    run(rt, alloc, (RUN, script, (0, 0)), disk)
}

#[test]
fn scripts_print_their_reports(rt: HostRuntime) -> Result<(), Fail> {
    let alloc = rt.alloc();
    let table: [(&str, &str); 5] = [
        (
            "txn 1|put a 1|put a 2|get a|commit|txn 1|put a 3|commit|txn 1|get a|commit|",
            "txn 1 commit 1 epoch 1|put a|put a|get a = 2|txn 2 commit 2 epoch 1|put a|txn 3 commit 3 epoch 1|get a = 3|durable 1|",
        ),
        ("txn 2|commit|", "txn 1 commit 1 epoch 1|durable 1|"),
        ("txn 1|abort|", "txn 1 abort|durable 0|"),
        (
            "txn 1|del a|add a 1|scan a b 1|commit|",
            "txn 1 commit 1 epoch 1|del a none|add a = 1|scan a b 1|pair a = 1|durable 1|",
        ),
        (
            "txn 1|put a 1|commit|txn 2|put a 2|add c 5|abort|txn 16|get a|del a|scan a z 9|commit|",
            "txn 1 commit 1 epoch 1|put a|txn 2 abort|txn 3 commit 2 epoch 1|get a = 1|del a|scan a z 0|durable 1|",
        ),
    ];
    for (script, text) in &table {
        let disk = small(alloc, FaultPlan::none(alloc))?;
        let given = (RUN, *script, (0, 0));
        expect(&rt, alloc, given, disk, (0, *text))?;
    }
    Ok(())
}

#[test]
fn a_script_that_is_refused_names_its_line(rt: HostRuntime) -> Result<(), Fail> {
    let alloc = rt.alloc();
    let table: [(&str, &str); 3] = [
        ("txn 17|", "script line 1|"),
        ("txn 1|put a 1|", "script line 3|"),
        ("txn 1|put a 1", "script line 3|"),
    ];
    for (script, text) in &table {
        let disk = small(alloc, FaultPlan::none(alloc))?;
        expect(&rt, alloc, (RUN, *script, (0, 0)), disk, (3, *text))?;
    }
    Ok(())
}

#[test]
fn keys_and_values_have_a_length(rt: HostRuntime) -> Result<(), Fail> {
    let alloc = rt.alloc();
    for (more_key, more_value) in &[("k", ""), ("", "v")] {
        let script = joined(
            alloc,
            &[
                "txn 1|put ",
                LONG_KEY,
                more_key,
                " ",
                LONG_VALUE,
                more_value,
                "|commit|",
            ],
        )?;
        let disk = small(alloc, FaultPlan::none(alloc))?;
        let given = (RUN, script.as_str(), (0, 0));
        expect(&rt, alloc, given, disk, (3, "script line 2|"))?;
    }
    Ok(())
}

#[test]
fn the_first_epoch_is_a_partition(rt: HostRuntime) -> Result<(), Fail> {
    let alloc = rt.alloc();
    let vector: [u8; 79] = [
        0xa7, 0x46, 0x4c, 0x50, 0x32, 0, 0, 0, 0, 0, 0x40, 0, 0, 0, 0, 0, 0, 0, 0, 0, 1, 0, 0, 0,
        0, 0, 0, 0, 1, 0, 0, 0, 1, 0, 0, 0, 1, 0, 0, 0, 0x18, 4, 0, 0x61, 0, 0, 0, 1, 0, 0, 0, 0,
        0, 0, 0, 1, 0, 0, 0, 5, 1, 0x61, 0, 1, 0x31, 0, 0x61, 0, 0, 0, 1, 0, 0, 0, 0, 0, 0, 0, 1,
    ];
    let words = words_of(alloc, &["-", "4x4096"])?;
    assert_eq!(rt; geometry_of(&words), Some((4, 4_194_304)));
    let disk = new_disk(alloc, 4, 4_194_304, FaultPlan::none(alloc))?;
    let mut disk = run_well(&rt, alloc, "txn 1|put a 1|get a|commit|", disk)?
        .finish
        .disk;
    assert_eq!(rt; disk.regions(), 4);
    assert_eq!(rt; disk.region_len(), 4_194_304);
    let holds = has_piece(alloc, &mut disk, &(0, 0, &vector))?;
    assert!(rt; holds);
    Ok(())
}

// What a region of a crafted log begins with: a partition with no rows, or with the mark 0 a region that is free.
type Crafted = (u8, u64, u64);

const FREE: Crafted = (0, 0, 0);

// The first bytes of a region.
fn crafted(alloc: Global, part: Crafted) -> Result<Vec<u8>, NoMemory> {
    let (mark, first, last) = part;
    let gate = if mark == 0 { 0 } else { 0xa7 };
    let mut bytes = Vec::from_slice(alloc, &[gate, 0x46, 0x4c, 0x50, mark])?;
    for number in [LENGTH, first, last] {
        bytes.extend_from_slice(&number.to_be_bytes())?;
    }
    Ok(bytes)
}

// Writes a partition with no rows, or leaves the region free.
fn craft(alloc: Global, disk: &mut MemDisk, region: u32, part: Crafted) -> Result<(), Fail>
    requires { IsLeft disk.old.disk }
    ensures { IsLeft disk.new.disk }
{
    let bytes = crafted(alloc, part)?;
    set_piece(disk, &(region, 0, &bytes))
}

#[test]
fn a_log_reopens_to_its_chain(rt: HostRuntime) -> Result<(), Fail> {
    let alloc = rt.alloc();
    let two = b'2';
    let greatest = 4_611_686_018_427_387_904;
    let table: [([Crafted; 3], &str, u8, &str); 6] = [
        ([(two, 1, 2), (two, 1, 3), (two, 1, 6)], "", 0, "durable 6|"),
        ([(two, 4, 5), FREE, (two, 1, 3)], "", 0, "durable 5|"),
        (
            [(two, 1, 3), (two, 2, 5), FREE],
            "",
            7,
            "damaged region 1 over 0|",
        ),
        (
            [(two, 1, 3), (two, 5, 5), FREE],
            "",
            7,
            "damaged region 1 after 3|",
        ),
        ([(b'X', 1, 1), FREE, FREE], "", 7, "damaged region 0 at 1|"),
        (
            [(two, 1, greatest), FREE, FREE],
            "txn 1|get x|commit|",
            8,
            "txn 1 refused number|durable 4611686018427387904|",
        ),
    ];
    for (parts, script, status, text) in &table {
        let mut disk = small(alloc, FaultPlan::none(alloc))?;
        craft(alloc, &mut disk, 0, parts[0])?;
        craft(alloc, &mut disk, 1, parts[1])?;
        craft(alloc, &mut disk, 2, parts[2])?;
        let disk = crash(disk, &[])?;
        let given = (RUN, *script, (0, 0));
        expect(&rt, alloc, given, disk, (*status, *text))?;
    }
    Ok(())
}

// Does a command that prints this, with status 0, and gives the disk after a crash.
fn obey<R: Threads + Wait + Sync + Abort>(
    rt: &R,
    alloc: Global,
    texts: &[&str],
    script: &str,
    text: &str,
    disk: MemDisk,
) -> Result<MemDisk, Fail>
    requires { IsReady disk.disk }
    ensures { IfOk result (λ disk. IsReady disk.disk) }
{
    let disk = expect(rt, alloc, (texts, script, (0, 0)), disk, (0, text))?;
    crash(disk, &[])
}

#[test]
fn a_run_goes_on_where_the_last_one_ended(rt: HostRuntime) -> Result<(), Fail> {
    let alloc = rt.alloc();
    let disk = small(alloc, FaultPlan::none(alloc))?;
    let first = "txn 1 commit 1 epoch 1|put a|durable 1|";
    let disk = obey(&rt, alloc, RUN, "txn 1|put a 1|commit|", first, disk)?;
    let second = "txn 1 commit 1 epoch 2|put a|durable 2|";
    let disk = obey(&rt, alloc, RUN, "txn 1|put a 2|commit|", second, disk)?;
    let third = "txn 1 commit 1 epoch 3|get a = 2|durable 3|";
    let disk = obey(&rt, alloc, RUN, "txn 1|get a|commit|", third, disk)?;
    let disk = obey(&rt, alloc, RUN, "", "durable 3|", disk)?;
    // Three of the four regions are sealed: two of them are merged.
    let fourth = "txn 1 commit 1 epoch 4|put b|durable 4|";
    let disk = obey(&rt, alloc, RUN, "txn 1|put b 1|commit|", fourth, disk)?;
    let last = "txn 1 commit 1 epoch 5|get a = 2|get b = 1|durable 5|";
    let _disk = obey(&rt, alloc, RUN, "txn 1|get a|get b|commit|", last, disk)?;
    Ok(())
}

#[test]
fn each_call_that_fails_has_its_status(rt: HostRuntime) -> Result<(), Fail> {
    let alloc = rt.alloc();
    let script = "txn 1|put a 1|get a|commit|";
    let done = "txn 1 commit 1 epoch 1|put a|get a = 1|durable 1|";
    let none = "txn 1 none|durable 0|disk|";
    let lost = "txn 1 commit 1 epoch 1|put a|get a = 1|durable 0|disk|";
    // The number of the call that fails, of the source, of the sink and of the disk.
    let table: [(u64, u64, u64, u8, &str); 14] = [
        (1, 0, u64::MAX, 4, "source|"),
        (2, 0, u64::MAX, 4, "source|"),
        (3, 0, u64::MAX, 0, done),
        (0, 1, u64::MAX, 5, ""),
        (0, 2, u64::MAX, 0, done),
        (0, 0, 1, 6, "disk|"),
        (0, 0, 4, 6, "disk|"),
        // the eye of the view, and then the two writes and syncs of a seal
        (0, 0, 5, 6, none),
        (0, 0, 6, 6, lost),
        (0, 0, 7, 6, lost),
        (0, 0, 8, 6, lost),
        (0, 0, 9, 6, lost),
        (0, 0, 10, 0, done),
        (0, 1, 6, 5, ""),
    ];
    for (take, put, stop, status, text) in &table {
        let disk = small(alloc, stop_at(alloc, *stop))?;
        let given = (RUN, script, (*take, *put));
        expect(&rt, alloc, given, disk, (*status, *text))?;
    }
    // The gate's write alone fails: a crash may leave it, or not.
    for (pick, text) in [(0xa7, "durable 1|"), (0, "durable 0|")] {
        let writes = Vec::from_slice(alloc, &[2])?;
        let disk = small(alloc, failing(alloc, writes, u64::MAX))?;
        let disk = expect(&rt, alloc, (RUN, script, (0, 0)), disk, (6, lost))?;
        let disk = crash(disk, &[pick])?;
        expect(&rt, alloc, (RUN, "", (0, 0)), disk, (0, text))?;
    }
    Ok(())
}

#[test]
fn a_crash_at_any_call_leaves_a_prefix(rt: HostRuntime) -> Result<(), Fail> {
    let alloc = rt.alloc();
    let picks: [&[u8]; 5] = [
        &[],
        &[0xa7],
        &[0xa7; 200],
        &[0x37, 0xa7, 0x11],
        &[0, 1, 2, 3, 4, 5, 6, 7, 8, 9],
    ];
    for stop in 0..12 {
        for pick in &picks {
            let disk = small(alloc, stop_at(alloc, stop))?;
            let first = run_well(&rt, alloc, THREE, disk)?;
            let done = first.finish.status == 0;
            assert_eq!(rt; done, stop > 9);
            let opened = run_well(&rt, alloc, "", crash(first.finish.disk, pick)?)?;
            let sealed = opened.text.as_slice() == b"durable 1|".as_slice();
            assert!(rt; sealed || (!done && opened.text.as_slice() == b"durable 0|".as_slice()));
            let again = run_well(&rt, alloc, "", crash(opened.finish.disk, pick)?)?;
            assert_eq!(rt; again.text.as_slice(), opened.text.as_slice());
            let read = run_well(&rt, alloc, READ_THREE, crash(again.finish.disk, pick)?)?;
            let text = if sealed { ALL_OF_THREE } else { NONE_OF_THREE };
            assert_eq!(rt; read.text.as_slice(), text.as_bytes());
        }
    }
    Ok(())
}

#[test]
fn commands_go_on_from_one_another(rt: HostRuntime) -> Result<(), Fail> {
    let alloc = rt.alloc();
    let table: [(&[&str], &str, &str); 7] = [
        (
            &["run", "--group", "1"],
            "txn 1|put a 1|commit|txn 1|put b 2|commit|",
            "txn 1 commit 1 epoch 1|put a|txn 2 commit 2 epoch 2|put b|durable 2|",
        ),
        (
            &["ranges"],
            "",
            "range 1 1 region 0 rows 1|range 2 2 region 1 rows 1|end 2|",
        ),
        (&["dump"], "", "pair a = 1|pair b = 2|pairs 2|"),
        (&["merge"], "", "range 1 2 region 2 rows 2|end 2|"),
        (&["ranges"], "", "range 1 2 region 2 rows 2|end 2|"),
        (&["dump"], "", "pair a = 1|pair b = 2|pairs 2|"),
        (
            &["gen", "7", "1", "1"],
            "",
            "gen 7 1 1|commits 1|aborts 0|refused 0|none 0|keys 3|sum 2|durable all|",
        ),
    ];
    let mut disk = small(alloc, FaultPlan::none(alloc))?;
    for (texts, script, text) in &table {
        disk = obey(&rt, alloc, texts, script, text, disk)?;
    }
    Ok(())
}

#[test]
fn words_and_failing_calls_have_their_status(rt: HostRuntime) -> Result<(), Fail> {
    let alloc = rt.alloc();
    // The words, the numbers of the calls of the sink and of the disk that fail, the status and the text.
    let table: [(&[&str], u64, u64, u8, &str); 17] = [
        (&[], 0, u64::MAX, 2, WORDS),
        (&["fly"], 0, u64::MAX, 2, WORDS),
        (&["Run"], 0, u64::MAX, 2, WORDS),
        (&["run", "run"], 0, u64::MAX, 2, WORDS),
        (&["gen", "7", "5", "17"], 0, u64::MAX, 2, WORDS),
        (&["run", "--group", "0"], 0, u64::MAX, 2, WORDS),
        (&["dump", "a"], 0, u64::MAX, 2, WORDS),
        (&["fly"], 1, u64::MAX, 5, ""),
        (&["run", "--group=1", "--"], 0, u64::MAX, 0, "durable 0|"),
        (&["dump"], 0, u64::MAX, 0, "pairs 0|"),
        (&["ranges"], 0, u64::MAX, 0, "end 0|"),
        (&["merge"], 0, u64::MAX, 0, "end 0|"),
        (
            &["gen", "7", "0", "1"],
            0,
            u64::MAX,
            0,
            "gen 7 0 1|commits 0|aborts 0|refused 0|none 0|keys 0|sum 0|durable all|",
        ),
        (&["dump"], 0, 1, 6, "disk|"),
        (&["ranges"], 1, u64::MAX, 5, ""),
        (&["merge"], 0, 4, 6, "disk|"),
        (&["gen", "7", "1", "1"], 0, 1, 6, "disk|"),
    ];
    for (texts, put, stop, status, text) in &table {
        let disk = small(alloc, stop_at(alloc, *stop))?;
        let given = (*texts, "", (0, *put));
        expect(&rt, alloc, given, disk, (*status, *text))?;
    }
    Ok(())
}

// ---- the gate

// How many points there were at most of which the numbers are kept, in their order: the seat is their thousands, and the kind their hundreds.
const POINTS: usize = 8;

#[derive(Drop)]
struct Points {
    count: AtomicU64,
    numbers: [AtomicU64; POINTS],
}

// The number of a point at a seat, where its transaction or epoch is below a hundred.
fn number_of(who: u32, point: Point) -> u64 {
    let (kind, what) = match point {
        Point::TxnStart { turn } => (100, u64::from(turn)),
        Point::TxnEnd { turn } => (200, u64::from(turn)),
        Point::Sealed { epoch } => (300, epoch),
        _ => (900, 0),
    };
    1000 * u64::from(who) + kind + what % 100
}

impl Gate for Points {
    fn at(&self, who: u32, point: Point) {
        let place = self.count.fetch_add(1, Ordering::SeqCst);
        if let Some(number) = self.numbers.get(place as usize) {
            number.store(number_of(who, point), Ordering::SeqCst);
        }
    }
}

// No point yet.
fn no_points() -> Points {
    Points {
        count: AtomicU64::new(0),
        numbers: [
            AtomicU64::new(0),
            AtomicU64::new(0),
            AtomicU64::new(0),
            AtomicU64::new(0),
            AtomicU64::new(0),
            AtomicU64::new(0),
            AtomicU64::new(0),
            AtomicU64::new(0),
        ],
    }
}

// Whether these were the points, and no others.
fn were(points: &Points, wanted: &[u64; POINTS]) -> bool {
    for i in 0..POINTS {
        if points.numbers[i].load(Ordering::SeqCst) != wanted[i] {
            return false;
        }
    }
    points.count.load(Ordering::SeqCst) == POINTS as u64
}

// Two lanes in groups of two: the lower one has the seat 2, the other one 3, and what seals behind both 4.
#[test]
fn the_gate_is_told_of_each_seat(rt: HostRuntime) -> Result<(), Fail> {
    let alloc = rt.alloc();
    let points = no_points();
    let words: &[&str] = &["run", "--group", "2"];
    let script = "txn 3|put a 1|commit|txn 1|put b 2|commit|txn 1|put c 3|commit|";
    let disk = small(alloc, FaultPlan::none(alloc))?;
    let printed = run_gated(&rt, alloc, (words, script, (0, 0)), disk, &points)?;
    assert_eq!(rt; printed.finish.status, 0);
    assert!(rt; were(&points, &[3101, 3201, 2102, 2301, 2202, 2103, 2203, 4302]));
    Ok(())
}
