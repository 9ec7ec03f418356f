//! The program: `fineline LOG GEOMETRY COMMAND`, over a log file and the standard streams.
#![tactic(auto)]

use fine_model::NoGate;
use fine_top::{fineline, geometry_of};
use log_disk::{FileDisk, MakeFault};
use script_text::{StdSink, StdSource};
use std::fs::{File, Files};
use std::process::ExitCode;
use std::{env, fs, io};

/// The status where memory ran out, where the words are refused, where the output failed, and where the disk failed.
const NO_MEMORY: u8 = 1;

const REFUSED: u8 = 2;

const NO_OUTPUT: u8 = 5;

const DISK_FAILED: u8 = 6;

/// A file in which nothing is.
const NOTHING: &str = "/dev/null";

/// Prints the one line of a call that ends before the log is opened. The status is that of the output where it fails.
fn ended(printed: io::Result<()>, status: u8) -> ExitCode {
    match printed {
        Ok(()) => ExitCode::from(status),
        Err(_) => ExitCode::from(NO_OUTPUT),
    }
}

/// Three files that are held open, so that a closed standard stream has a number which no log file can take: what is printed
/// would else be written into the log. They are open for reading, so output to a closed stream fails.
#[derive(Drop)]
struct HeldStreams {
    _files: [File; 3],
}

fn hold_streams(rt: &impl Files<File = File>) -> io::Result<HeldStreams> {
    let first = fs::open(rt, NOTHING)?;
    let second = fs::open(rt, NOTHING)?;
    let third = fs::open(rt, NOTHING)?;
    Ok(HeldStreams {
        _files: [first, second, third],
    })
}

fn main(rt: HostRuntime) -> ExitCode {
    let Ok(_held) = hold_streams(&rt) else {
        return ended(println!(rt; "disk"), DISK_FAILED);
    };
    let Ok(args) = env::args(&rt) else {
        return ExitCode::from(NO_MEMORY);
    };
    let Ok(words) = args.skip(1).collect::<Vec<String>>(rt.alloc()) else {
        return ExitCode::from(NO_MEMORY);
    };
    let Some((regions, region_len)) = geometry_of(&words) else {
        return ended(println!(rt; "words: LOG default|NxK COMMAND"), REFUSED);
    };
    match FileDisk::make(&rt, rt.alloc(), words[0].as_str(), regions, region_len) {
        Ok(disk) => {
            let mut source = StdSource::new(&rt);
            let mut sink = StdSink::new(&rt);
            let finish = fineline(
                &rt,
                rt.alloc(),
                &words[2..],
                &mut source,
                &mut sink,
                disk,
                &NoGate,
            );
            ExitCode::from(finish.status)
        }
        Err(MakeFault::WrongLength { found, .. }) => ended(println!(rt; "length {found}"), REFUSED),
        Err(MakeFault::Failed { .. }) => ended(println!(rt; "disk"), DISK_FAILED),
        Err(MakeFault::NoMemory) => ExitCode::from(NO_MEMORY),
    }
}
