//! The whole program beside the plain one, on scripts that are made of numbers.

ghost use Rattle.std.specs.Prelude.{◌<◌, ◌≤◌};

use fine_model::NoGate;
use fine_top::fineline;
use log_disk::{FaultPlan, MemDisk};
use plain_model::run_plain;
use script_text::{MemSink, MemSource};
use std::alloc::Global;
use std::process::Abort;
use std::sync::Wait;
use std::test::Fail;
use std::thread::Threads;

/// The greatest length of what is printed.
const ROOM: usize = 65_536;

/// Eight regions of the least length, so that parts are merged while a script runs.
const REGIONS: u32 = 8;

const LENGTH: u64 = 16_384;

/// How many transactions a script has.
const TXNS: u32 = 80;

/// What the calls of a script are made of: keys of few buckets and of many, and values that are numbers and that are none.
const KEYS: [&str; 8] = ["a", "b", "aa", "acct:1", "acct:2", "k", "kk", "z"];

const VALUES: [&str; 5] = ["1", "-7", "none", "x", "9223372036854775807"];

/// The next of a row of numbers below a bound, by a linear congruence with the factor and the summand of Numerical Recipes.
fn next(state: &mut u32, bound: u32) -> u32
    requires { 1 ≤ bound }
    ensures { result < bound }
{
    *state = state.wrapping_mul(1_664_525).wrapping_add(1_013_904_223);
    (*state >> 8) % bound
}

fn key(state: &mut u32) -> &'static str {
    KEYS[next(state, 8) as usize]
}

fn value(state: &mut u32) -> &'static str {
    VALUES[next(state, 5) as usize]
}

/// A line with one call of any kind.
fn call(state: &mut u32) -> [&'static str; 5] {
    let first = key(state);
    match next(state, 6) {
        0 => ["get ", first, "", "", "\n"],
        1 => ["del ", first, "", "", "\n"],
        2 => ["add ", first, " ", "5", "\n"],
        3 => ["scan ", first, " ", "l", " 3\n"],
        _ => ["put ", first, " ", value(state), "\n"],
    }
}

/// A script of one lane with calls and endings of all kinds.
fn script(alloc: Global, seed: u32) -> Result<String, Fail> {
    let mut state = seed;
    let mut script = String::new(alloc);
    for _ in 0..TXNS {
        script.push_str("txn 1\n")?;
        for _ in 0..next(&mut state, 6) {
            for piece in call(&mut state) {
                script.push_str(piece)?;
            }
        }
        script.push_str(if next(&mut state, 5) == 0 {
            "abort\n"
        } else {
            "commit\n"
        })?;
    }
    Ok(script)
}

/// What the program prints of a script on a new log.
fn printed<R: Threads + Wait + Sync>(
    rt: &R,
    alloc: Global,
    texts: &[&str],
    script: &str,
) -> Result<Vec<u8>, Fail> {
    let mut words = Vec::new(alloc);
    for text in texts {
        words.push(String::from_str(alloc, text)?)?;
    }
    let disk = MemDisk::new(alloc, REGIONS, LENGTH, FaultPlan::none(alloc))?;
    let bytes = Vec::from_slice(alloc, script.as_bytes())?;
    let mut source = MemSource::new(bytes, Vec::new(alloc));
    let mut sink = MemSink::new(alloc, ROOM, Vec::new(alloc))?;
    let _finish = fineline(rt, alloc, &words, &mut source, &mut sink, disk, &NoGate);
    Ok(Vec::from_slice(alloc, sink.bytes())?)
}

/// A text without the epochs, in which the plain program and a run of several epochs differ: each line up to " epoch ", and none of "durable ".
fn without_epochs(alloc: Global, text: &[u8]) -> Result<Vec<u8>, Fail> {
    let mut kept = Vec::new(alloc);
    for line in text.split(|byte| *byte == b'\n') {
        if line.starts_with(b"durable ") {
            continue;
        }
        let told = if line.starts_with(b"txn ") {
            line.split(|byte| *byte == b'e').next().unwrap_or(line)
        } else {
            line
        };
        kept.extend_from_slice(told)?;
        kept.push(b'\n')?;
    }
    Ok(kept)
}

/// A script of a seed, and what the plain program prints of it.
fn seeded(alloc: Global, seed: u32) -> Result<(String, Vec<u8>), Fail> {
    let script = script(alloc, seed)?;
    let plain = run_plain(alloc, script.as_bytes())?;
    Ok((script, plain))
}

#[test]
fn one_epoch_is_printed_as_the_plain_program_prints_it(rt: HostRuntime) -> Result<(), Fail> {
    let alloc = rt.alloc();
    for seed in 0..12u32 {
        let (script, plain) = seeded(alloc, seed)?;
        let told = printed(&rt, alloc, &["run", "--group", "100000"], script.as_str())?;
        assert_eq!(rt; told.as_slice(), plain.as_slice(), "{seed}");
    }
    Ok(())
}

#[test]
fn replies_do_not_depend_on_epochs(rt: HostRuntime) -> Result<(), Fail> {
    let alloc = rt.alloc();
    for seed in 12..15u32 {
        let (script, plain) = seeded(alloc, seed)?;
        let plain = without_epochs(alloc, plain.as_slice())?;
        for group in ["1", "9"] {
            let told = printed(
                &rt,
                alloc,
                &["run", "--group", group, "--keep", "1"],
                script.as_str(),
            )?;
            let told = without_epochs(alloc, told.as_slice())?;
            assert_eq!(rt; told.as_slice(), plain.as_slice(), "{seed} {group}");
        }
    }
    Ok(())
}
