//! The command `gen`: a generated script is run, and counted.

ghost use Rattle.std.specs.Prelude.{◌≡◌, ℕ, IfErr, IfOk, List, Option, Err, None, Some, length, true};
ghost use Rattle.std.specs.List.{list_all};
ghost use Rattle.command_words.specs.declared.command.Command.TheVariants as command;
ghost use Rattle.fine_model.specs.Boards.{is_empty};
ghost use Rattle.fine_model.specs.Words.{gen};
ghost use Rattle.log_commands.specs.Found.{FindsChain};
ghost use Rattle.log_disk.specs.Disk.{HasRisen};
ghost use Rattle.fine_top.specs.Commands.{Does, seen};
ghost use Rattle.fine_top.specs.Generating.{CountsRun, EndsGenerated, OpensGen, PrintsCounted, ReadsEnd, default_options, numbers};
ghost use Rattle.fine_top.specs.Starting.{IsReadyToRun, MayBegin};

use crate::opening::Opened;
use crate::printing::{print_no_memory, print_reason, print_run};
use crate::running::run_chain;
use epoch_room::{Fit, Room};
use fine_model::{Gate, Options, Outcome, Pairs, Ran, Reason, RunFault, Script};
use log_commands::{Finish, Status, find_chain, read_map};
use log_disk::LogDisk;
use script_text::{GeneratedRun, Sink, generate};
use std::alloc::Global;

/// The options of a run where none is given.
fn default_options() -> Options
    ensures { result ≡ default_options }
{
    Options {
        group: 64,
        tries: 100,
        keep: 64,
    }
}

/// Generates the script and reads the headers of the log, in this order.
fn open_generated<D: LogDisk>(
    alloc: Global,
    start: u64,
    count: u32,
    lanes: u8,
    disk: &mut D,
) -> Result<Opened, RunFault>
    requires begins { MayBegin (command.Gen start count lanes) (D.state disk.old) }
    ensures ok { IfOk result (λ opened. OpensGen (numbers start count lanes) (D.state disk.old) opened × (D.state disk.new ≡ D.state disk.old)) }
    ensures err { IfErr result (λ fault. FindsChain (D.state disk.old) (D.state disk.new) (Err fault)) }
{
    match generate(alloc, start, count, lanes) {
        Ok(script) => match find_chain(alloc, disk) {
            Ok(chain) => Ok(Opened { script, chain }),
            Err(fault) => Err(fault),
        },
        Err(_) => Err(RunFault::Memory),
    }
}

/// Whether a room was shut by a failed call.
#[tactic(auto, unfolding(epoch_room::specs::Fitting::fit_of))]
fn is_shut<D: LogDisk>(room: &Room<D>) -> bool
    ensures { result ≡ room.now.room.is_shut }
{
    match room.fit(0) {
        Fit::Shut { .. } => true,
        _ => false,
    }
}

/// Reads the map of a room that is open.
fn read_room<D: LogDisk>(alloc: Global, room: &mut Room<D>) -> Result<Pairs, RunFault>
    requires board { list_all is_empty room.old.room.board ≡ true }
    ensures { ReadsEnd None room.old room.new result }
{
    if is_shut(room) {
        return Err(RunFault::Disk);
    }
    read_map(alloc, room)
}

/// Reads the map at the end of a run, unless a fault ended it.
fn read_end<D: LogDisk>(
    alloc: Global,
    fault: Option<RunFault>,
    room: &mut Room<D>,
) -> Result<Pairs, RunFault>
    requires board { list_all is_empty room.old.room.board ≡ true }
    ensures { ReadsEnd fault room.old room.new result }
{
    match fault {
        None => read_room(alloc, room),
        Some(fault) => Err(fault),
    }
}

/// Prints the summary of a run with what was read at its end, and tells the status.
fn print_counted<'x, K: Sink>(
    out: &mut K,
    start: u64,
    lanes: u8,
    script: &'x Script,
    outcomes: &'x [Outcome],
    all_durable: bool,
    found: &'x Result<Pairs, RunFault>,
) -> Status
    ensures prints { PrintsCounted (numbers start (length script.now) lanes) script.now outcomes.now all_durable found.now result (K.written out.old) (K.written out.new) }
    ensures failed { result ≡ 5 → HasRisen (K.faults out.old) (K.faults out.new) }
{
    match found {
        Ok(pairs) => {
            let run = GeneratedRun {
                start,
                lanes,
                script,
                outcomes,
                map: Some(pairs.as_slice()),
                all_durable,
                fault: None,
            };
            print_run(out, &run)
        }
        Err(fault) => {
            let run = GeneratedRun {
                start,
                lanes,
                script,
                outcomes,
                map: None,
                all_durable,
                fault: Some(*fault),
            };
            print_run(out, &run)
        }
    }
}

/// Reads the map at the end of a run, prints the summary, and gives the disk back.
fn count_run<K: Sink, D: LogDisk>(
    alloc: Global,
    start: u64,
    lanes: u8,
    script: &Script,
    ran: Ran,
    room: Room<D>,
    out: &mut K,
) -> Finish<D>
    requires board { list_all is_empty room.room.board ≡ true }
    requires no_job { room.room.job ≡ None }
    ensures counts { CountsRun (numbers start (length script.now) lanes) script.now ran room (D.state result.disk) result.status (K.written out.old) (K.written out.new) }
    ensures failed { result.status ≡ 5 → HasRisen (K.faults out.old) (K.faults out.new) }
{
    let mut room = room;
    let all_durable = room.counts().waiting == 0;
    let found = read_end(alloc, ran.fault, &mut room);
    let _left = room.counts();
    let status = print_counted(
        out,
        start,
        lanes,
        script,
        ran.outcomes.as_slice(),
        all_durable,
        &found,
    );
    Finish {
        status: status.number(),
        disk: room.into_disk(),
    }
}

/// Runs a generated script on a log that was opened, and prints the summary.
fn run_generated<K: Sink, D: LogDisk, G: Gate>(
    alloc: Global,
    opened: Opened,
    start: u64,
    lanes: u8,
    out: &mut K,
    disk: D,
    gate: &G,
) -> Finish<D>
    requires ready { IsReadyToRun opened.script (D.state disk) opened.chain }
    ensures counts { EndsGenerated (numbers start (length opened.script) lanes) opened (D.state disk) (D.state result.disk) result.status (K.written out.old) (K.written out.new) }
    ensures failed { result.status ≡ 5 → HasRisen (K.faults out.old) (K.faults out.new) }
{
    let script = opened.script;
    match run_chain(alloc, opened.chain, &script, &default_options(), disk, gate) {
        Ok((ran, room, cached)) => {
            drop(cached);
            count_run(alloc, start, lanes, &script, ran, room, out)
        }
        Err(disk) => Finish {
            status: print_no_memory(out).number(),
            disk,
        },
    }
}

/// Runs the script that is generated from a number, of up to 100,000 transactions on 1 to 16 lanes, in groups of 64, reads the map at its end, and prints a summary: how many transactions have
/// each outcome, how many keys begin with `k`, the sum of the 64 counters, and whether all that was committed is durable.
///
/// The status is 0 where the run was done, and 8 where it was done and some transaction was refused; 6 where the disk failed; 7 where the log is damaged; 1 where memory ran out. With 1, 6 and 7 the
/// summary without what is read of the map is printed, with the fault's line behind it, or this line alone where nothing was run. Behind the chain, which place or node that line names no clause
/// says. Where the text cannot be written whole, the status is 5.
pub(crate) fn generate_and_print<K: Sink, D: LogDisk, G: Gate>(
    alloc: Global,
    start: u64,
    count: u32,
    lanes: u8,
    out: &mut K,
    disk: D,
    gate: &G,
) -> Finish<D>
    requires begins { MayBegin (command.Gen start count lanes) (D.state disk) }
    ensures { (left : Option (List ℕ)) (source : ℕ × ℕ) → Does (Some (gen start count lanes)) (seen left source (K.faults out.old, K.faults out.new) (D.state disk) (D.state result.disk) result.status (K.written out.old) (K.written out.new)) }
{
    let mut disk = disk;
    // A disk that tells its geometry is a sound one.
    let _regions = disk.regions();
    match open_generated(alloc, start, count, lanes, &mut disk) {
        Ok(opened) => run_generated(alloc, opened, start, lanes, out, disk, gate),
        Err(fault) => Finish {
            status: print_reason(out, Reason::Fault { fault }).number(),
            disk,
        },
    }
}
