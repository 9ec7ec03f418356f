//! Runs of commands, and what they print.

ghost use Rattle.std.specs.Prelude.{IfOk};
ghost use Rattle.program_runs.specs.Disks.{IsLeft, IsReady};

use fine_model::{Gate, NoGate, NoMemory};
use fine_top::{Finish, fineline};
use log_disk::MemDisk;
use script_text::{MemSink, MemSource};
use std::alloc::Global;
use std::sync::Wait;
use std::test::Fail;
use std::thread::Threads;

/// The greatest length of what is printed.
const ROOM: usize = 8192;

/// What a run is given: its words, its script, whose lines end at each `|`, and the numbers of the call of the source that fails and of that of the
/// sink, where 0 is none.
pub type Given<'a> = (&'a [&'a str], &'a str, (u64, u64));

/// What a run of a script on a disk printed, with a `|` at the end of each line, and how it ended.
#[derive(Drop)]
pub struct Printed {
    pub text: Vec<u8>,
    pub finish: Finish<MemDisk>,
}

/// The bytes of a text, with another one in place of one of them.
fn replaced(alloc: Global, text: &[u8], old: u8, new: u8) -> Result<Vec<u8>, NoMemory> {
    let mut bytes = Vec::new(alloc);
    for byte in text {
        bytes.push(if *byte == old { new } else { *byte })?;
    }
    Ok(bytes)
}

/// A source of a script whose lines end at each `|`, of which the call of this number fails; 0 is none.
fn source_of(alloc: Global, script: &str, fail: u64) -> Result<MemSource, NoMemory> {
    let bytes = replaced(alloc, script.as_bytes(), b'|', b'\n')?;
    Ok(MemSource::new(bytes, Vec::from_slice(alloc, &[fail])?))
}

/// The words of a command.
pub fn words_of(alloc: Global, texts: &[&str]) -> Result<Vec<String>, NoMemory> {
    let mut words = Vec::new(alloc);
    for text in texts {
        words.push(String::from_str(alloc, text)?)?;
    }
    Ok(words)
}

/// Does what is given on a disk.
pub fn run<R: Threads + Wait + Sync>(
    rt: &R,
    alloc: Global,
    given: Given,
    disk: MemDisk,
) -> Result<Printed, Fail>
    requires { IsReady disk.disk }
    ensures { IfOk result (λ printed. IsLeft printed.finish.disk.disk) }
{
    run_gated(rt, alloc, given, disk, &NoGate)
}

/// The same with a gate, which is called at the points of the run.
pub fn run_gated<R: Threads + Wait + Sync, G: Gate>(
    rt: &R,
    alloc: Global,
    given: Given,
    disk: MemDisk,
    gate: &G,
) -> Result<Printed, Fail>
    requires { IsReady disk.disk }
    ensures { IfOk result (λ printed. IsLeft printed.finish.disk.disk) }
{
    let (texts, script, fails) = given;
    let words = words_of(alloc, texts)?;
    let mut source = source_of(alloc, script, fails.0)?;
    let mut sink = MemSink::new(alloc, ROOM, Vec::from_slice(alloc, &[fails.1])?)?;
    let finish = fineline(rt, alloc, &words, &mut source, &mut sink, disk, gate);
    let text = replaced(alloc, sink.bytes(), b'\n', b'|')?;
    Ok(Printed { text, finish })
}
