//! What the commands beside `run` print, and generated scripts.

use fine_model::{
    Bytes, Call, Ending, Header, Items, Mark, NoMemory, Outcome, Pairs, Part, Range, RunFault,
    Script, Why,
};
use script_text::{
    Failed, GeneratedRun, MemSink, generate, write_dump, write_ranges, write_summary,
};
use std::alloc::Global;

fn bytes(alloc: Global, text: &str) -> Result<Bytes, NoMemory> {
    Bytes::from_slice(alloc, text.as_bytes())
}

fn sink(alloc: Global, room: usize) -> Result<MemSink, NoMemory> {
    MemSink::new(alloc, room, Vec::new(alloc))
}

/// Two counters, one of which is no number, and a key that the generator puts.
fn pairs(alloc: Global) -> Result<Pairs, NoMemory> {
    let mut pairs = Items::new(alloc);
    for (key, value) in [("c0", "5"), ("c1", "x"), ("k1a", "v")] {
        pairs.push((bytes(alloc, key)?, bytes(alloc, value)?))?;
    }
    Ok(pairs)
}

#[test]
fn a_dump_is_its_text(rt: HostRuntime) -> Result<(), NoMemory> {
    let alloc = rt.alloc();
    let pairs = pairs(alloc)?;
    let text: &[u8] = b"pair c0 = 5\npair c1 = x\npair k1a = v\npairs 3\n";
    let mut out = sink(alloc, 100)?;
    assert_eq!(rt; write_dump(&mut out, pairs.as_slice()), Ok(()));
    assert!(rt; out.bytes() == text);
    let mut short = sink(alloc, 20)?;
    assert_eq!(rt; write_dump(&mut short, pairs.as_slice()), Err(Failed));
    assert!(rt; short.bytes() == &text[..20]);
    Ok(())
}

fn part(region: u32, first: u64, last: u64, rows: u32) -> Part {
    Part {
        region,
        header: Header {
            mark: Mark::Two,
            range: Range { first, last },
            rows,
            nodes: 1,
            area: 10,
            regions: 1,
            more: [0; 7],
        },
    }
}

#[test]
fn ranges_are_their_text(rt: HostRuntime) -> Result<(), NoMemory> {
    let chain = [part(3, 1, 4, 7), part(0, 5, 5, 1)];
    let mut out = sink(rt.alloc(), 100)?;
    assert_eq!(rt; write_ranges(&mut out, &chain), Ok(()));
    assert!(rt;
        out.bytes() == b"range 1 4 region 3 rows 7\nrange 5 5 region 0 rows 1\nend 5\n".as_slice()
    );
    let mut empty = sink(rt.alloc(), 100)?;
    assert_eq!(rt; write_ranges(&mut empty, &[]), Ok(()));
    assert!(rt; empty.bytes() == b"end 0\n".as_slice());
    Ok(())
}

/// Three of four transactions have an outcome.
fn outcomes(alloc: Global) -> Result<Items<Outcome>, NoMemory> {
    let mut outcomes = Items::new(alloc);
    outcomes.push(Outcome::Aborted)?;
    outcomes.push(Outcome::Refused { why: Why::Full })?;
    outcomes.push(Outcome::Aborted)?;
    Ok(outcomes)
}

/// Whether the summary of a run of four transactions is this text. It is all durable where no fault ended it.
fn has_summary(
    alloc: Global,
    map: Option<&[(Bytes, Bytes)]>,
    fault: Option<RunFault>,
    text: &[u8],
) -> Result<bool, NoMemory> {
    let script = generate(alloc, 7, 4, 2)?;
    let outcomes = outcomes(alloc)?;
    let mut out = sink(alloc, 100)?;
    let run = GeneratedRun {
        start: 7,
        lanes: 2,
        script: &script,
        outcomes: outcomes.as_slice(),
        map,
        all_durable: fault.is_none(),
        fault,
    };
    Ok(write_summary(&mut out, &run).is_ok() && out.bytes() == text)
}

#[test]
fn a_summary_is_its_text(rt: HostRuntime) -> Result<(), NoMemory> {
    let alloc = rt.alloc();
    let pairs = pairs(alloc)?;
    assert!(rt;
        has_summary(
            alloc,
            Some(pairs.as_slice()),
            None,
            b"gen 7 4 2\ncommits 0\naborts 2\nrefused 1\nnone 1\nkeys 1\nsum 5\ndurable all\n"
        )?
    );
    assert!(rt;
        has_summary(
            alloc,
            None,
            Some(RunFault::Disk),
            b"gen 7 4 2\ncommits 0\naborts 2\nrefused 1\nnone 1\ndurable part\ndisk\n"
        )?
    );
    Ok(())
}

/// Whether a call is a put of so many letters.
fn is_put(call: &Call, wanted: &[u8], letters: usize) -> bool {
    match call {
        Call::Put { key, value } => key.as_slice() == wanted && value.len() == letters,
        _ => false,
    }
}

/// Whether a call adds to a counter.
fn is_add(call: &Call, wanted: &[u8], number: i64) -> bool {
    match call {
        Call::Add { key, by } => key.as_slice() == wanted && *by == number,
        _ => false,
    }
}

/// Whether the first transaction is the one that is worked out by hand for the start 7.
fn begins_with_seven(script: &Script) -> bool {
    match script.as_slice() {
        [first, ..] => match first.calls.as_slice() {
            [add, a, b, c, _] => {
                is_add(add, b"c30", 2)
                    && is_put(a, b"k1a", 58)
                    && is_put(b, b"k1b", 58)
                    && is_put(c, b"k1c", 58)
            }
            _ => false,
        },
        [] => false,
    }
}

#[test]
fn a_generated_script_is_worked_out_by_hand(rt: HostRuntime) -> Result<(), NoMemory> {
    let script = generate(rt.alloc(), 7, 33, 4)?;
    assert!(rt; begins_with_seven(&script));
    assert_eq!(rt; script.len(), 33);
    for (i, txn) in script.as_slice().iter().enumerate() {
        assert_eq!(rt; usize::from(txn.lane), i % 4 + 1);
        assert_eq!(rt; txn.ending == Ending::Abort, (i + 1) % 16 == 0);
    }
    Ok(())
}
