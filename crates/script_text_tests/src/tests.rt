//! Scripts and reports against their texts.

use fine_model::{
    Bytes, Call, Damage, Ending, Entry, Items, NoMemory, NodeId, Outcome, Ran, Reason, Reply,
    RunFault, Script, ScriptTxn, Why,
};
use script_text::{
    Failed, MemSink, MemSource, ScriptFault, Sink, Source, StdSink, StdSource, read_script,
    write_reason, write_report,
};
use std::alloc::Global;

fn bytes(alloc: Global, text: &str) -> Result<Bytes, NoMemory> {
    Bytes::from_slice(alloc, text.as_bytes())
}

/// What is read of a text, by the word of the answer and its line.
fn read<S: Source>(alloc: Global, source: &mut S) -> (&'static str, u32) {
    match read_script(alloc, source) {
        Ok(_) => ("ok", 0),
        Err(ScriptFault::Many { line }) => ("many", line),
        Err(ScriptFault::TooLong { line }) => ("long", line),
        Err(ScriptFault::Bad { line }) => ("bad", line),
        Err(ScriptFault::Read) => ("read", 0),
        Err(ScriptFault::NoMemory) => ("memory", 0),
    }
}

/// A source of a text.
fn source_of(alloc: Global, text: &str) -> Result<MemSource, NoMemory> {
    let text = Vec::from_slice(alloc, text.as_bytes())?;
    Ok(MemSource::new(text, Vec::new(alloc)))
}

/// A source of a text with a piece of it repeated, and a call that fails.
fn source(alloc: Global, text: (&str, &str, u32, &str), fails: u64) -> Result<MemSource, NoMemory> {
    let mut bytes = Vec::from_slice(alloc, text.0.as_bytes())?;
    for _ in 0..text.2 {
        bytes.extend_from_slice(text.1.as_bytes())?;
    }
    bytes.extend_from_slice(text.3.as_bytes())?;
    Ok(MemSource::new(bytes, Vec::from_slice(alloc, &[fails])?))
}

#[test]
fn reads_what_the_grammar_takes(rt: HostRuntime) -> Result<(), NoMemory> {
    let alloc = rt.alloc();
    for text in [
        "",
        "txn 1\nput a 1\nget a\ncommit\n",
        "txn 1\nput a 1\nget a\ncommit",
        "txn 1\r\nput a 1\r\nget a\r\ncommit\r\n",
        "  txn   1  \n\n # é\ncommit\n",
    ] {
        let mut source = source_of(alloc, text)?;
        assert_eq!(rt; read(alloc, &mut source), ("ok", 0));
    }
    Ok(())
}

#[test]
fn names_the_first_line_that_is_bad(rt: HostRuntime) -> Result<(), NoMemory> {
    let alloc = rt.alloc();
    let table = [
        ("txn 1\ncommit é\n", 2),
        ("txn 17\n", 1),
        ("txn 01\n", 1),
        ("txn 1\ntxn 1\n", 2),
        ("commit\n", 1),
        ("txn 1\nput a 1\n", 3),
        ("txn 1\nput a 1", 3),
    ];
    for (text, line) in table {
        let mut source = source_of(alloc, text)?;
        assert_eq!(rt; read(alloc, &mut source), ("bad", line));
    }
    Ok(())
}

/// The lane of the last transaction that is read, and the number of its calls; or 0 and the line that is bad.
fn last_read<S: Source>(alloc: Global, source: &mut S) -> (u32, usize) {
    match read_script(alloc, source) {
        Ok(script) => match script.as_slice().last() {
            Some(txn) => (u32::from(txn.lane), txn.calls.len()),
            None => (0, 0),
        },
        Err(ScriptFault::Bad { line }) => (0, line as usize),
        Err(_) => (0, 0),
    }
}

#[test]
fn reads_every_lane_and_call(rt: HostRuntime) -> Result<(), NoMemory> {
    let alloc = rt.alloc();
    let table = [
        ("txn 1\ncommit\ntxn 16\nabort\n", (16, 0)),
        ("txn 2\ndel a\nadd a -1\nscan a b 1\ncommit", (2, 3)),
        ("txn 2\ncommit\ntxn 17\n", (0, 3)),
        ("txn 1\nadd a 01\n", (0, 2)),
        ("txn 1\nabort\ntxn 1\n", (0, 4)),
    ];
    for (text, last) in table {
        let mut source = source_of(alloc, text)?;
        assert_eq!(rt; last_read(alloc, &mut source), last);
    }
    Ok(())
}

#[test]
fn reads_up_to_its_limits(rt: HostRuntime) -> Result<(), NoMemory> {
    let alloc = rt.alloc();
    let table = [
        ("txn 1\nput ", "k", 64, " v\ncommit\n", ("bad", 2)),
        ("txn 1\nput k ", "v", 256, "\ncommit\n", ("bad", 2)),
        ("#", "x", 511, "\n", ("long", 1)),
        ("#", "x", 511, "", ("long", 1)),
        ("", "\n", 1_000_000, "", ("many", 1_000_001)),
        ("", "txn 1\ncommit\n", 100_000, "", ("bad", 200_001)),
        ("txn 1\n", "get a\n", 10_000, "commit\n", ("bad", 10_002)),
    ];
    for (front, piece, most, end, refused) in table {
        let mut full = source(alloc, (front, piece, most, end), 0)?;
        assert_eq!(rt; read(alloc, &mut full), ("ok", 0));
        let mut over = source(alloc, (front, piece, most.saturating_add(1), end), 0)?;
        assert_eq!(rt; read(alloc, &mut over), refused);
    }
    Ok(())
}

#[test]
fn reads_the_calls_of_a_script(rt: HostRuntime) -> Result<(), NoMemory> {
    let alloc = rt.alloc();
    let mut calls = Items::new(alloc);
    calls.push(Call::Put {
        key: bytes(alloc, "a")?,
        value: bytes(alloc, "1")?,
    })?;
    calls.push(Call::Get {
        key: bytes(alloc, "a")?,
    })?;
    let mut want: Script = Items::new(alloc);
    want.push(ScriptTxn {
        lane: 1,
        calls,
        ending: Ending::Commit,
    })?;
    let mut source = source_of(alloc, "txn 1\nput a 1\nget a\ncommit\n")?;
    match read_script(alloc, &mut source) {
        Ok(script) => assert!(rt; script == want),
        Err(_) => panic!(rt; "not read"),
    }
    Ok(())
}

#[test]
fn a_failed_source_is_told(rt: HostRuntime) -> Result<(), NoMemory> {
    let alloc = rt.alloc();
    for (fails, word) in [(1, "read"), (2, "read"), (3, "read"), (4, "ok")] {
        let mut source = source(alloc, ("", "# a line of a script\n", 250, ""), fails)?;
        assert_eq!(rt; read(alloc, &mut source).0, word);
    }
    Ok(())
}

/// A script of transactions with no calls.
fn script(alloc: Global, count: u32) -> Result<Script, NoMemory> {
    let mut script = Items::new(alloc);
    for _ in 0..count {
        let calls = Items::new(alloc);
        script.push(ScriptTxn {
            lane: 1,
            calls,
            ending: Ending::Commit,
        })?;
    }
    Ok(script)
}

fn add(entry: &mut Entry, call: Call, reply: Reply) -> Result<(), NoMemory> {
    entry.calls.push(call)?;
    entry.replies.push(reply)?;
    Ok(())
}

/// Adds a call of a key by its word, and its reply.
fn call(
    entry: &mut Entry,
    alloc: Global,
    word: &str,
    key: &str,
    reply: Reply,
) -> Result<(), NoMemory> {
    let key = bytes(alloc, key)?;
    let call = match word {
        "get" => Call::Get { key },
        "put" => Call::Put {
            key,
            value: Bytes::new(alloc),
        },
        "del" => Call::Del { key },
        _ => Call::Add { key, by: 1 },
    };
    add(entry, call, reply)
}

/// Adds a scan and the two pairs that it found.
fn scan(entry: &mut Entry, alloc: Global) -> Result<(), NoMemory> {
    let mut pairs = Items::new(alloc);
    for (key, value) in [("a", "1"), ("b", "2")] {
        pairs.push((bytes(alloc, key)?, bytes(alloc, value)?))?;
    }
    let low = bytes(alloc, "a")?;
    let high = bytes(alloc, "c")?;
    add(
        entry,
        Call::Scan {
            low,
            high,
            limit: 9,
        },
        Reply::Found { pairs },
    )
}

/// Adds a call with each form of reply.
fn calls(entry: &mut Entry, alloc: Global, value: Bytes) -> Result<(), NoMemory> {
    call(entry, alloc, "get", "a", Reply::Value { value })?;
    call(entry, alloc, "get", "b", Reply::Absent)?;
    call(entry, alloc, "put", "c", Reply::Stored)?;
    call(entry, alloc, "del", "d", Reply::Removed)?;
    call(entry, alloc, "del", "e", Reply::Absent)?;
    call(entry, alloc, "add", "f", Reply::Sum { sum: -7 })?;
    call(entry, alloc, "add", "g", Reply::NotNumber)?;
    call(entry, alloc, "add", "h", Reply::OutOfRange)?;
    scan(entry, alloc)
}

/// An entry with each form of reply, the first one with a value of this length.
fn entry(alloc: Global, length: u32) -> Result<Entry, NoMemory> {
    let value = Bytes::from_vec(vec![in alloc; b'v'; length as usize]?);
    let mut entry = Entry {
        lane: 1,
        turn: 1,
        calls: Items::new(alloc),
        replies: Items::new(alloc),
        writes: Items::new(alloc),
        rows: Items::new(alloc),
    };
    calls(&mut entry, alloc, value)?;
    Ok(entry)
}

/// A run with each form of outcome.
fn ran(alloc: Global, length: u32) -> Result<Ran, NoMemory> {
    let entry = entry(alloc, length)?;
    let mut outcomes = Items::new(alloc);
    outcomes.push(Outcome::Committed {
        place: 3,
        epoch: 12,
        entry,
    })?;
    outcomes.push(Outcome::Aborted)?;
    for why in [Why::Large, Why::Bucket, Why::Full, Why::Number] {
        outcomes.push(Outcome::Refused { why })?;
    }
    outcomes.push(Outcome::NotRun)?;
    let fault = Some(RunFault::Disk);
    Ok(Ran {
        outcomes,
        durable: 18_446_744_073_709_551_615,
        fault,
        unsealed: false,
    })
}

#[test]
fn a_report_is_its_text(rt: HostRuntime) -> Result<(), NoMemory> {
    let alloc = rt.alloc();
    let text: &[u8] =
        b"txn 1 commit 3 epoch 12\nget a = vv\nget b none\nput c\ndel d\ndel e none\nadd f = -7\nadd g text\nadd h range\nscan a c 2\npair a = 1\npair b = 2\ntxn 2 abort\ntxn 3 refused large\ntxn 4 refused bucket\ntxn 5 refused full\ntxn 6 refused number\ntxn 7 none\ntxn 8 none\ntxn 9 none\ndurable 18446744073709551615\ndisk\n";
    let script = script(alloc, 9)?;
    let ran = ran(alloc, 2)?;
    let mut sink = MemSink::new(alloc, 4096, Vec::new(alloc))?;
    assert_eq!(rt; write_report(&mut sink, &script, &ran), Ok(()));
    assert!(rt; sink.bytes() == text);
    let mut short = MemSink::new(alloc, 100, Vec::new(alloc))?;
    assert_eq!(rt; write_report(&mut short, &script, &ran), Err(Failed));
    assert!(rt; short.bytes() == &text[..100]);
    Ok(())
}

#[test]
fn a_failed_sink_has_a_first_part(rt: HostRuntime) -> Result<(), NoMemory> {
    let alloc = rt.alloc();
    let script = script(alloc, 9)?;
    let ran = ran(alloc, 1500)?;
    let mut whole = MemSink::new(alloc, 4096, Vec::new(alloc))?;
    assert_eq!(rt; write_report(&mut whole, &script, &ran), Ok(()));
    for fails in 1..4u64 {
        let mut sink = MemSink::new(alloc, 4096, Vec::from_slice(alloc, &[fails])?)?;
        assert_eq!(rt; write_report(&mut sink, &script, &ran), Err(Failed));
        assert!(rt; whole.bytes().starts_with(sink.bytes()));
        assert_eq!(rt; sink.bytes().is_empty(), fails == 1);
    }
    Ok(())
}

/// The reason of a run that a fault ended early.
fn ended_by(fault: RunFault) -> Reason {
    Reason::Fault { fault }
}

/// The same, where the log is damaged.
fn damaged(what: Damage) -> Reason {
    ended_by(RunFault::Damaged { what })
}

#[test]
fn each_reason_has_its_line(rt: HostRuntime) -> Result<(), NoMemory> {
    let alloc = rt.alloc();
    let gap = Damage::Gap {
        after: 3,
        region: 1,
    };
    let overlap = Damage::Overlap {
        region: 1,
        other: 0,
    };
    let node = NodeId {
        bucket: 97,
        number: 1,
    };
    let table = [
        (
            Reason::Words,
            "words: run [--group N] [--tries N] [--keep N] | dump | ranges | merge | gen START COUNT LANES\n",
        ),
        (Reason::Script { line: 34 }, "script line 34\n"),
        (Reason::Source, "source\n"),
        (ended_by(RunFault::Memory), "memory\n"),
        (ended_by(RunFault::Disk), "disk\n"),
        (
            damaged(Damage::Region { region: 0, at: 41 }),
            "damaged region 0 at 41\n",
        ),
        (damaged(gap), "damaged region 1 after 3\n"),
        (damaged(overlap), "damaged region 1 over 0\n"),
        (damaged(Damage::Node { node }), "damaged node 97 1\n"),
    ];
    for (reason, text) in table {
        let mut sink = MemSink::new(alloc, 200, Vec::new(alloc))?;
        assert_eq!(rt; write_reason(&mut sink, reason), Ok(()));
        assert!(rt; sink.bytes() == text.as_bytes());
    }
    Ok(())
}

fn put_twice<K: Sink>(sink: &mut K) -> Result<(), Failed> {
    sink.put(b"one\n")?;
    sink.put(b"two\n")
}

#[test]
fn the_process_has_a_source_and_a_sink(rt: HostRuntime) {
    assert_eq!(rt; put_twice(&mut StdSink::new(&rt)), Ok(()));
    assert_eq!(rt; read(rt.alloc(), &mut StdSource::new(&rt)), ("ok", 0));
}
