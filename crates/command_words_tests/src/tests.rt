//! Words and what they spell: each option, each limit, what is doubled, unknown or left out, and where a `--` may stand.

use command_words::{Command, command_of, geometry_of};
use fine_model::{NoMemory, Options};
use std::alloc::Global;

/// The words of a text, with one space between them. An empty text has none.
fn words(alloc: Global, text: &str) -> Result<Vec<String>, NoMemory> {
    let mut words = Vec::new(alloc);
    if text.is_empty() {
        return Ok(words);
    }
    for word in text.split(' ') {
        words.push(String::from_str(alloc, word)?)?;
    }
    Ok(words)
}

/// The command that a text spells.
fn read(alloc: Global, text: &str) -> Result<Option<Command>, NoMemory> {
    let words = words(alloc, text)?;
    command_of(alloc, &words)
}

/// The command `run` with these options.
fn run(group: u32, tries: u32, keep: u32) -> Option<Command> {
    Some(Command::Run {
        options: Options { group, tries, keep },
    })
}

/// The command `gen` with these numbers.
fn generate(start: u64, count: u32, lanes: u8) -> Option<Command> {
    Some(Command::Gen {
        start,
        count,
        lanes,
    })
}

#[test]
fn each_command_takes_its_words(rt: HostRuntime) -> Result<(), NoMemory> {
    let alloc = rt.alloc();
    let table = [
        // each option once, and in any order
        ("run", run(64, 100, 64)),
        ("run --group 1", run(1, 100, 64)),
        ("run --group=1", run(1, 100, 64)),
        ("run --tries 1", run(64, 1, 64)),
        ("run --tries=7", run(64, 7, 64)),
        ("run --keep 1", run(64, 100, 1)),
        ("run --keep=9", run(64, 100, 9)),
        ("run --group 2 --tries 3 --keep 4", run(2, 3, 4)),
        ("run --keep=4 --group 2 --tries=3", run(2, 3, 4)),
        ("run --group 100000", run(100_000, 100, 64)),
        ("run --tries 1000000", run(64, 1_000_000, 64)),
        ("run --keep 256", run(64, 100, 256)),
        ("run --", run(64, 100, 64)),
        ("run --group=5 --", run(5, 100, 64)),
        ("dump", Some(Command::Dump)),
        ("dump --", Some(Command::Dump)),
        ("ranges", Some(Command::Ranges)),
        ("ranges --", Some(Command::Ranges)),
        ("merge", Some(Command::Merge)),
        ("merge --", Some(Command::Merge)),
        ("gen 7 40 4", generate(7, 40, 4)),
        ("gen 0 0 1", generate(0, 0, 1)),
        (
            "gen 18446744073709551615 100000 16",
            generate(u64::MAX, 100_000, 16),
        ),
        ("gen -- 7 40 4", generate(7, 40, 4)),
        ("gen 7 -- 40 4", generate(7, 40, 4)),
        ("gen 7 40 -- 4", generate(7, 40, 4)),
        ("gen 7 40 4 --", generate(7, 40, 4)),
    ];
    for (text, command) in table {
        assert_eq!(rt; read(alloc, text)?, command);
    }
    Ok(())
}

#[test]
fn other_words_are_no_command(rt: HostRuntime) -> Result<(), NoMemory> {
    for text in [
        "",
        "fly",
        "Run",
        "ru",
        "--",
        "-- run",
        "help",
        "--help",
        "--version",
        "run --help",
        "run -h",
        "run help",
        "run 1",
        "run --group",
        "run --group=",
        "run --group 0",
        "run --group 100001",
        "run --tries 0",
        "run --tries 1000001",
        "run --keep 0",
        "run --keep 257",
        "run --group 01",
        "run --group +1",
        "run --group -1",
        "run --group=-1",
        "run --group 1x",
        "run --group 1 --group 2",
        "run --group=1 --keep 1 --group=1",
        "run --gro 1",
        "run -group 1",
        "run --Group 1",
        "run --group --tries 1",
        "run --group --",
        "run --group -- 1",
        "run -- --group 1",
        "run -- --",
        "run --lanes 1",
        "dump 1",
        "dump --group 1",
        "dump -- --",
        "ranges ranges",
        "merge -x",
        "gen",
        "gen 7 40",
        "gen 7 40 4 1",
        "gen 7 5 17",
        "gen 7 5 0",
        "gen 7 100001 4",
        "gen 18446744073709551616 5 4",
        "gen -7 5 4",
        "gen -- -7 5 4",
        "gen 07 5 4",
        "gen 7 -- 5 -- 4",
        "gen --group 1 7 5 4",
        // an empty word among them, which is no number
        "run --group ",
        "gen  5 4",
        "dump ",
        " run",
    ] {
        assert_eq!(rt; read(rt.alloc(), text)?, None);
    }
    Ok(())
}

#[test]
fn the_second_word_is_a_geometry(rt: HostRuntime) -> Result<(), NoMemory> {
    let alloc = rt.alloc();
    let table = [
        ("log default", Some((24, 4_194_304))),
        ("log 4x4 run", Some((4, 4096))),
        ("log 64x65536", Some((64, 67_108_864))),
        ("log", None),
        ("", None),
        ("log 3x4", None),
        ("log 65x4", None),
        ("log 4x3", None),
        ("log 4x65537", None),
        ("log 4x04", None),
        ("log 4", None),
        ("log 4x4x4", None),
        ("log x4", None),
        ("log Default", None),
    ];
    for (text, geometry) in table {
        let words = words(alloc, text)?;
        assert_eq!(rt; geometry_of(&words), geometry);
    }
    Ok(())
}
