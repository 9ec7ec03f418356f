//! Worked rows: commands that follow on one log, what each prints, and bytes that it leaves.

ghost use Rattle.std.specs.Prelude.{◌≡◌, [], IfOk};
ghost use Rattle.command_words.specs.Words.{IsGeometry};
ghost use Rattle.program_runs.specs.Disks.{IsLeft, IsReady, KeepsGeometry};

use log_disk::{FaultPlan, MemDisk};
use program_runs::{Given, Piece, crash, has_piece, new_disk, run, set_piece};
use std::alloc::Global;
use std::process::Abort;
use std::sync::Wait;
use std::test::Fail;
use std::thread::Threads;

/// What is written into the log before a command, its words and its script, the status and the text that it prints, and what the log has then.
/// In texts each `|` ends a line, and each `~` is a value of 256 letters.
type Step<'a> = (
    &'a [Piece<'a>],
    &'a [&'a str],
    &'a str,
    u8,
    &'a str,
    &'a [Piece<'a>],
);

const RUN: &[&str] = &["run"];

const EACH: &[&str] = &["run", "--group", "1"];

const RANGES: &[&str] = &["ranges"];

const DUMP: &[&str] = &["dump"];

const MERGE: &[&str] = &["merge"];

const NONE: &[Piece] = &[];

// A command with status 0, before and after which no byte of the log is looked at.
fn tells<'a>(words: &'a [&'a str], script: &'a str, text: &'a str) -> Step<'a> {
    (NONE, words, script, 0, text, NONE)
}

// A text with its values written out.
fn spelled(alloc: Global, text: &str) -> Result<String, Fail> {
    let mut whole = String::new(alloc);
    for letter in text.chars() {
        let times = if letter == '~' { 256 } else { 1 };
        for _ in 0..times {
            whole.push(if letter == '~' { 'v' } else { letter })?;
        }
    }
    Ok(whole)
}

// A text so many times.
fn repeated(alloc: Global, text: &str, times: u32) -> Result<String, Fail> {
    let mut whole = String::new(alloc);
    for _ in 0..times {
        whole.push_str(text)?;
    }
    Ok(whole)
}

// Writes pieces.
fn set_all(disk: &mut MemDisk, pieces: &[Piece]) -> Result<(), Fail>
    requires no_eyes { disk.old.disk.eyes ≡ [] }
    ensures { KeepsGeometry disk.old.disk disk.new.disk }
{
    for piece in pieces {
        set_piece(disk, piece)?;
    }
    Ok(())
}

// Whether the log has all pieces.
fn has_all(alloc: Global, disk: &mut MemDisk, pieces: &[Piece]) -> Result<bool, Fail>
    requires no_eyes { disk.old.disk.eyes ≡ [] }
    ensures { KeepsGeometry disk.old.disk disk.new.disk }
{
    for piece in pieces {
        if !has_piece(alloc, disk, piece)? {
            return Ok(false);
        }
    }
    Ok(true)
}

// Runs a script, which has to end with this status and to print this text, and gives the disk.
fn expect<R: Threads + Wait + Sync + Abort>(
    rt: &R,
    alloc: Global,
    given: Given,
    disk: MemDisk,
    told: (u8, &str),
) -> Result<MemDisk, Fail>
    requires { IsReady disk.disk }
    ensures { IfOk result (λ disk. IsLeft disk.disk) }
{
    let printed = run(rt, alloc, given, disk)?;
    assert_eq!(rt; printed.finish.status, told.0);
    assert_eq!(rt; printed.text.as_slice(), told.1.as_bytes());
    Ok(printed.finish.disk)
}

// Takes a step on a log, which is then as a crash leaves it.
fn take_step<R: Threads + Wait + Sync + Abort>(
    rt: &R,
    alloc: Global,
    mut disk: MemDisk,
    step: &Step,
) -> Result<MemDisk, Fail>
    requires { IsLeft disk.disk }
    ensures { IfOk result (λ disk. IsReady disk.disk) }
{
    let (before, words, script, status, text, behind) = *step;
    set_all(&mut disk, before)?;
    let script = spelled(alloc, script)?;
    let text = spelled(alloc, text)?;
    let disk = crash(disk, &[])?;
    let given = (words, script.as_str(), (0, 0));
    let mut disk = expect(rt, alloc, given, disk, (status, text.as_str()))?;
    let holds = has_all(alloc, &mut disk, behind)?;
    assert!(rt; holds);
    crash(disk, &[])
}

// Takes steps on a log, one after the other.
fn take_steps<R: Threads + Wait + Sync + Abort>(
    rt: &R,
    alloc: Global,
    mut disk: MemDisk,
    steps: &[Step],
) -> Result<MemDisk, Fail>
    requires { IsLeft disk.disk }
    ensures { IfOk result (λ disk. IsLeft disk.disk) }
{
    for step in steps {
        disk = take_step(rt, alloc, disk, step)?;
    }
    Ok(disk)
}

// Takes steps on a new log of so many regions of a length.
fn follow<R: Threads + Wait + Sync + Abort>(
    rt: &R,
    alloc: Global,
    geometry: (u32, u64),
    steps: &[Step],
) -> Result<(), Fail>
    requires { IsGeometry geometry }
{
    let disk = new_disk(alloc, geometry.0, geometry.1, FaultPlan::none(alloc))?;
    take_steps(rt, alloc, disk, steps)?;
    Ok(())
}

// ---- keys, and logs that are not written by a run

// The keys of five pieces, each `Aa` or `BB`, in order.
fn key_of(alloc: Global, number: u32) -> Result<String, Fail> {
    let mut key = String::new(alloc);
    for bit in [16, 8, 4, 2, 1] {
        key.push_str(if number & bit == 0 { "Aa" } else { "BB" })?;
    }
    Ok(key)
}

// A line that puts each of the 32 keys, or tells that it was put, behind a first line.
fn lines_of_32(alloc: Global, first: &str, value: &str) -> Result<String, Fail> {
    let mut text = String::from_str(alloc, first)?;
    for number in 0..32 {
        let key = key_of(alloc, number)?;
        let line = format!(in alloc; "put {}{value}|", key.as_str())?;
        text.push_str(line.as_str())?;
    }
    Ok(text)
}

// The pairs of the leaf of all 32 keys, or of the 16 that begin with `BB`.
fn pairs_from(alloc: Global, first: u32) -> Result<Vec<u8>, Fail> {
    let mut bytes = Vec::new(alloc);
    for number in first..32 {
        let key = key_of(alloc, number)?;
        bytes.push(10)?;
        bytes.extend_from_slice(key.as_str().as_bytes())?;
        bytes.extend_from_slice(&[0, 1, 0x31])?;
    }
    Ok(bytes)
}

// A region of 16 KiB with the head of bucket 64, whose next number is the greatest, and a full leaf.
fn full_leaf(alloc: Global) -> Result<Vec<u8>, Fail> {
    let mut bytes = Vec::from_slice(
        alloc,
        &[
            0xa7, 0x46, 0x4c, 0x50, 0x32, 0, 0, 0, 0, 0, 0, 0x40, 0, 0, 0, 0, 0, 0, 0, 0, 1, 0, 0,
            0, 0, 0, 0, 0, 1, 0, 0, 0, 2, 0, 0, 0, 2, 0, 0, 1, 0xf0, 1, 0, 64, 0, 0, 0, 0, 0, 0, 0,
            0, 0, 0, 0, 1, 0, 0, 0, 9, 0, 0, 0, 1, 0, 0x10, 0, 0, 1, 2, 0, 64, 0, 0, 0, 1, 0, 0, 0,
            0, 0, 0, 0, 1, 0, 0, 1, 0xc1, 32,
        ],
    )?;
    bytes.extend_from_slice(&pairs_from(alloc, 0)?)?;
    bytes.extend_from_slice(&[
        0, 64, 0, 0, 0, 0, 0, 0, 0, 0, 0, 0, 0, 1, 0, 64, 0, 0, 0, 1, 0, 0, 0, 28, 0, 0, 0, 1,
    ])?;
    Ok(bytes)
}

/// A region of 16 KiB with the head of bucket 97, whose root is at depth 2 and is nowhere.
const LOST_ROOT: &[u8] = &[
    0xa7, 0x46, 0x4c, 0x50, 0x32, 0, 0, 0, 0, 0, 0, 0x40, 0, 0, 0, 0, 0, 0, 0, 0, 1, 0, 0, 0, 0, 0,
    0, 0, 1, 0, 0, 0, 1, 0, 0, 0, 1, 0, 0, 0, 28, 1, 0, 97, 0, 0, 0, 0, 0, 0, 0, 0, 0, 0, 0, 1, 0,
    0, 0, 9, 0, 0, 0, 1, 0, 0, 0, 2, 2, 0, 97, 0, 0, 0, 0, 0, 0, 0, 0, 0, 0, 0, 1,
];

#[test]
fn crafted_logs_are_refused(rt: HostRuntime) -> Result<(), Fail> {
    let alloc = rt.alloc();
    let full = full_leaf(alloc)?;
    let table: [(&[u8], &str, u8, &str); 2] = [
        (
            &full,
            "txn 1|put AaAaAaAaC# 1|commit|",
            8,
            "txn 1 refused bucket|durable 1|",
        ),
        (
            LOST_ROOT,
            "txn 1|get a|commit|",
            7,
            "txn 1 none|durable 1|damaged node 97 1|",
        ),
    ];
    for (bytes, script, status, text) in &table {
        let step: Step = (&[(0, 0, *bytes)], RUN, *script, *status, *text, NONE);
        follow(&rt, alloc, (4, 16_384), &[step])?;
    }
    Ok(())
}

#[test]
fn replaced_bytes_are_named(rt: HostRuntime) -> Result<(), Fail> {
    let alloc = rt.alloc();
    let table: [(Piece, &str); 9] = [
        ((0, 1, b"FLPX"), "damaged region 0 at 1|"),
        (
            (0, 5, &[0, 0, 0, 0, 0, 0, 0x10, 0]),
            "damaged region 0 at 5|",
        ),
        ((0, 13, &[0; 8]), "damaged region 0 at 13|"),
        ((0, 29, &[0; 4]), "damaged region 0 at 33|"),
        ((0, 37, &[0; 4]), "damaged region 0 at 37|"),
        (
            (0, 41, &[0; 38]),
            "txn 1 none|durable 1|damaged region 0 at 65|",
        ),
        (
            (0, 55, &[0]),
            "txn 1 none|durable 1|damaged region 0 at 41|",
        ),
        (
            (0, 74, &[0x18]),
            "txn 1 none|durable 1|damaged region 0 at 65|",
        ),
        ((0, 61, b"b"), "txn 1 none|durable 1|damaged node 97 1|"),
    ];
    for (piece, text) in &table {
        let put: Step = tells(
            RUN,
            "txn 1|put a 1|get a|commit|",
            "txn 1 commit 1 epoch 1|put a|get a = 1|durable 1|",
        );
        let get: Step = (&[*piece], RUN, "txn 1|get a|commit|", 7, *text, NONE);
        follow(&rt, alloc, (4, 16_384), &[put, get])?;
    }
    Ok(())
}

/// The parts of a log in whose second epoch a leaf of 32 pairs is split.
const SPLIT: &str =
    "range 1 1 region 0 rows 32|range 2 2 region 1 rows 5|range 3 3 region 2 rows 0|end 3|";

#[test]
fn a_full_leaf_is_split(rt: HostRuntime) -> Result<(), Fail> {
    let alloc = rt.alloc();
    let mut script = lines_of_32(alloc, "txn 1|", " 1")?;
    script.push_str(
        "commit|txn 1|put AaAaAaAaC# 1|commit|txn 1|scan AaBBBBBBBB BBAaAaAaBB 9|commit|",
    )?;
    let mut text = lines_of_32(alloc, "txn 1 commit 1 epoch 1|", "")?;
    text.push_str(
        "txn 2 commit 2 epoch 2|put AaAaAaAaC#|txn 3 commit 3 epoch 3|scan AaBBBBBBBB BBAaAaAaBB 2|pair AaBBBBBBBB = 1|pair BBAaAaAaAa = 1|durable 3|",
    )?;
    let head: &[u8] = &[
        1, 0, 0x40, 0, 0, 0, 0, 0, 0, 0, 0, 0, 0, 0, 1, 0, 0, 0, 9, 0, 0, 0, 3, 0, 0, 0, 4, 2,
    ];
    let cut: &[u8] = &[
        6, 0, 0x40, 0, 0, 0, 1, 0, 0, 0, 0, 0, 0, 0, 0x21, 0, 0, 0, 0xb, 0xa, 0x42, 0x42, 0x41,
        0x61, 0x41, 0x61, 0x41, 0x61, 0x41, 0x61,
    ];
    let put: &[u8] = &[
        4, 0, 0x40, 0, 0, 0, 1, 0, 0, 0, 0, 0, 0, 0, 0x22, 0, 0, 0, 0xe, 0xa, 0x41, 0x61, 0x41,
        0x61, 0x41, 0x61, 0x41, 0x61, 0x43, 0x23, 0, 1, 0x31,
    ];
    let image: &[u8] = &[
        2, 0, 0x40, 0, 0, 0, 2, 0, 0, 0, 0, 0, 0, 0, 1, 0, 0, 0, 0xe1, 0x10,
    ];
    let inner: &[u8] = &[
        3, 0, 0x40, 0, 0, 0, 3, 0, 0, 0, 0, 0, 0, 0, 1, 0, 0, 0, 0x14, 1, 0, 0, 0, 1, 0, 0, 0, 2,
        0xa, 0x42, 0x42, 0x41, 0x61, 0x41, 0x61, 0x41, 0x61, 0x41, 0x61,
    ];
    let pairs = pairs_from(alloc, 16)?;
    let steps: [Step; 2] = [
        (
            NONE,
            EACH,
            script.as_str(),
            0,
            text.as_str(),
            &[
                (1, 41, head),
                (1, 69, cut),
                (1, 99, put),
                (1, 132, image),
                (1, 152, &pairs),
                (1, 376, inner),
            ],
        ),
        tells(RANGES, "", SPLIT),
    ];
    follow(&rt, alloc, (8, 16_384), &steps)
}

#[test]
fn merged_rows_are_an_image(rt: HostRuntime) -> Result<(), Fail> {
    let alloc = rt.alloc();
    let puts: [Step; 2] = [
        tells(
            RUN,
            "txn 1|put a 1|commit|",
            "txn 1 commit 1 epoch 1|put a|durable 1|",
        ),
        tells(
            RUN,
            "txn 1|put a 2|commit|",
            "txn 1 commit 1 epoch 2|put a|durable 2|",
        ),
    ];
    let merged: [Step; 4] = [
        (
            NONE,
            MERGE,
            "",
            0,
            "range 1 2 region 2 rows 1|end 2|",
            &[
                (0, 0, &[0]),
                (1, 0, &[0]),
                (
                    2,
                    41,
                    &[
                        2, 0, 0x61, 0, 0, 0, 1, 0, 0, 0, 0, 0, 0, 0, 2, 0, 0, 0, 6, 1, 1, 0x61, 0,
                        1, 0x32,
                    ],
                ),
            ],
        ),
        tells(
            RUN,
            "txn 1|put b 3|commit|",
            "txn 1 commit 1 epoch 3|put b|durable 3|",
        ),
        tells(
            RANGES,
            "",
            "range 1 2 region 2 rows 1|range 3 3 region 0 rows 1|end 3|",
        ),
        tells(DUMP, "", "pair a = 2|pair b = 3|pairs 2|"),
    ];
    let closed: [Step; 2] = [
        (
            &[(1, 0, &[0x37])],
            RANGES,
            "",
            0,
            "range 1 1 region 0 rows 1|end 1|",
            NONE,
        ),
        tells(
            RUN,
            "txn 1|get a|commit|",
            "txn 1 commit 1 epoch 2|get a = 1|durable 2|",
        ),
    ];
    for more in [&merged[..], &closed[..]] {
        let disk = new_disk(alloc, 6, 16_384, FaultPlan::none(alloc))?;
        let disk = take_steps(&rt, alloc, disk, &puts)?;
        take_steps(&rt, alloc, disk, more)?;
    }
    Ok(())
}

#[test]
fn a_log_of_the_first_mark_goes_on_with_the_second(rt: HostRuntime) -> Result<(), Fail> {
    let alloc = rt.alloc();
    let put: Step = tells(
        RUN,
        "txn 1|put c 5|commit|",
        "txn 1 commit 1 epoch 1|put c|durable 1|",
    );
    let add: Step = (
        &[(0, 4, b"1")],
        RUN,
        "txn 1|add c 2|commit|",
        0,
        "txn 1 commit 1 epoch 2|add c = 7|durable 2|",
        &[(
            1,
            41,
            &[
                9, 0, 0x63, 0, 0, 0, 1, 0, 0, 0, 0, 0, 0, 0, 2, 0, 0, 0, 0xa, 1, 0x63, 0, 0, 0, 0,
                0, 0, 0, 2,
            ],
        )],
    );
    let merge: Step = (
        NONE,
        MERGE,
        "",
        0,
        "range 1 2 region 2 rows 1|end 2|",
        &[
            (2, 1, b"FLP2"),
            (
                2,
                41,
                &[
                    2, 0, 0x63, 0, 0, 0, 1, 0, 0, 0, 0, 0, 0, 0, 2, 0, 0, 0, 6, 1, 1, 0x63, 0, 1,
                    0x37,
                ],
            ),
        ],
    );
    let bad: Step = (
        &[(1, 4, b"1")],
        RUN,
        "txn 1|get c|commit|",
        7,
        "txn 1 none|durable 2|damaged region 1 at 41|",
        NONE,
    );
    for last in [merge, bad] {
        follow(&rt, alloc, (6, 16_384), &[put, add, last])?;
    }
    Ok(())
}

// ---- a log that is short of regions

/// Three transactions of eight long values, in an epoch each.
const FILL: &str =
    "txn 1|put a ~|put b ~|put c ~|put d ~|put e ~|put f ~|put g ~|put h ~|commit|txn 1|put i ~|put j ~|put k ~|put l ~|put m ~|put n ~|put o ~|put p ~|commit|txn 1|put q ~|put r ~|put s ~|put t ~|put u ~|put v ~|put w ~|put x ~|commit|";

const FILLED: &str =
    "txn 1 commit 1 epoch 1|put a|put b|put c|put d|put e|put f|put g|put h|txn 2 commit 2 epoch 2|put i|put j|put k|put l|put m|put n|put o|put p|txn 3 commit 3 epoch 3|put q|put r|put s|put t|put u|put v|put w|put x|";

const DUMPED: &str =
    "pair a = ~|pair b = ~|pair c = ~|pair d = ~|pair e = ~|pair f = ~|pair g = ~|pair h = ~|pair i = ~|pair j = ~|pair k = ~|pair l = ~|pair m = ~|pair n = ~|pair o = ~|pair p = ~|pair q = ~|pair r = ~|pair s = ~|pair t = ~|pair u = ~|pair v = ~|pair w = ~|pair x = ~|pairs 24|";

#[test]
fn a_full_log_refuses_and_a_merge_spans_regions(rt: HostRuntime) -> Result<(), Fail> {
    let alloc = rt.alloc();
    let mut script = spelled(alloc, FILL)?;
    let mut text = spelled(alloc, FILLED)?;
    text.push_str("durable 3|")?;
    let merged: [Step; 4] = [
        tells(EACH, script.as_str(), text.as_str()),
        (
            NONE,
            MERGE,
            "",
            0,
            "range 1 3 region 0 rows 24|end 3|",
            &[(1, 0, &[0])],
        ),
        tells(DUMP, "", DUMPED),
        (
            &[(0, 42, &[0; 4])],
            RUN,
            "",
            7,
            "damaged region 0 at 42|",
            NONE,
        ),
    ];
    follow(&rt, alloc, (8, 4096), &merged)?;
    script.push_str("txn 1|del a|commit|")?;
    let mut text = spelled(alloc, FILLED)?;
    text.push_str("txn 4 refused full|durable 3|")?;
    let full: Step = (NONE, EACH, script.as_str(), 8, text.as_str(), NONE);
    follow(&rt, alloc, (4, 4096), &[full])?;
    let large: Step = (
        NONE,
        RUN,
        "txn 1|put a ~|put b ~|put c ~|put d ~|put e ~|put f ~|put g ~|put h ~|put i ~|put j ~|put k ~|put l ~|put m ~|put n ~|put o ~|put p ~|commit|",
        8,
        "txn 1 refused large|durable 0|",
        NONE,
    );
    follow(&rt, alloc, (4, 4096), &[large])
}

// ---- long scripts

// What so many transactions of one addition to a counter print, by turns on two lanes.
fn counted(alloc: Global, count: u32) -> Result<String, Fail> {
    let mut text = String::new(alloc);
    for i in 0..count {
        let place = u64::from(i) + 1;
        let epoch = u64::from(i) / 64 + 1;
        let lines = format!(in alloc; "txn {place} commit {place} epoch {epoch}|add c = {place}|")?;
        text.push_str(lines.as_str())?;
    }
    text.push_str("durable 2|")?;
    Ok(text)
}

#[test]
fn two_lanes_count_in_their_order(rt: HostRuntime) -> Result<(), Fail> {
    let alloc = rt.alloc();
    let script = repeated(alloc, "txn 1|add c 1|commit|txn 2|add c 1|commit|", 50)?;
    let text = counted(alloc, 100)?;
    let steps: [Step; 2] = [
        tells(RUN, script.as_str(), text.as_str()),
        tells(
            RUN,
            "txn 1|get c|commit|",
            "txn 1 commit 1 epoch 3|get c = 100|durable 3|",
        ),
    ];
    follow(&rt, alloc, (8, 16_384), &steps)
}

#[test]
fn a_script_has_its_bounds(rt: HostRuntime) -> Result<(), Fail> {
    let alloc = rt.alloc();
    // A text, how often it stands behind a first letter, a last letter, the status and what is printed.
    let table: [(&str, &str, u32, u8, &str); 4] = [
        ("", "|", 1_000_000, 0, "durable 0|"),
        ("", "|", 1_000_001, 3, "script line 1000001|"),
        ("#", " ", 512, 3, "script line 1|"),
        ("#", " ", 511, 0, "durable 0|"),
    ];
    for (first, more, times, status, text) in &table {
        let mut script = String::new(alloc);
        script.push_str(first)?;
        script.push_str(repeated(alloc, more, *times)?.as_str())?;
        script.push_str(if *times < 1000 { "|" } else { "" })?;
        let step: Step = (NONE, RUN, script.as_str(), *status, *text, NONE);
        follow(&rt, alloc, (4, 16_384), &[step])?;
    }
    Ok(())
}

#[test]
fn generated_transactions_are_counted(rt: HostRuntime) -> Result<(), Fail> {
    let alloc = rt.alloc();
    let text =
        "gen 7 5000 4|commits 4688|aborts 312|refused 0|none 0|keys 14064|sum 18748|durable all|";
    let step: Step = tells(&["gen", "7", "5000", "4"], "", text);
    follow(&rt, alloc, (24, 1_048_576), &[step])
}
