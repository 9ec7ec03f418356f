//! The command `run`: the script, the opening, the run and the printing.

ghost use Rattle.std.specs.Prelude.{◌≡◌, ◌≤◌, IfErr, IfOk, Some};
ghost use Rattle.command_words.specs.declared.command.Command.TheVariants as command;
ghost use Rattle.log_disk.specs.Disk.{HasRisen};
ghost use Rattle.fine_model.specs.Words.{run};
ghost use Rattle.fine_top.specs.Commands.{Does, seen};
ghost use Rattle.fine_top.specs.Running.{EndsRunOf, RunsFrom};
ghost use Rattle.fine_top.specs.Starting.{IsReadyToRun, MayBegin};

use crate::opening::{Opened, open_run};
use crate::printing::{print_no_memory, print_reason, print_report};
use epoch_room::Room;
use fine_model::{Gate, Options, Ran, Script};
use log_commands::Finish;
use log_disk::LogDisk;
use reopen::Chain;
use script_text::{Sink, Source};
use std::alloc::Global;
use std::mem;
use txn_runner::{Buckets, run_cached};

/// Makes the room of a chain, and runs a script on it, which hands out what it cached as well; or there was no memory for the room, and the disk is as it was.
pub(crate) fn run_chain<D: LogDisk, G: Gate>(
    alloc: Global,
    chain: Chain,
    script: &Script,
    options: &Options,
    disk: D,
    gate: &G,
) -> Result<(Ran, Room<D>, Option<Buckets>), D>
    requires ready { IsReadyToRun script.now (D.state disk) chain }
    requires group { 1 ≤ options.now.group }
    ensures ok { IfOk result (λ ran. RunsFrom options.now script.now (D.state disk) chain ran.0 ran.1) }
    ensures err { IfErr result (λ back. D.state back ≡ D.state disk) }
{
    match Room::make(alloc, disk, chain.parts, chain.retired) {
        Ok(room) => {
            let _made = room.counts();
            let (ran, room, cached) = run_cached(alloc, room, script, gate, options);
            let _left = room.counts();
            Ok((ran, room, cached))
        }
        Err((_, disk)) => Err(disk),
    }
}

/// Runs a script on a log that was opened, and prints the report.
fn run_opened<K: Sink, D: LogDisk, G: Gate>(
    alloc: Global,
    opened: Opened,
    options: &Options,
    out: &mut K,
    disk: D,
    gate: &G,
) -> Finish<D>
    requires ready { IsReadyToRun opened.script (D.state disk) opened.chain }
    requires group { 1 ≤ options.now.group }
    ensures ends { EndsRunOf options.now opened.script (D.state disk) (D.state result.disk) result.status (K.written out.old) (K.written out.new) }
    ensures failed { result.status ≡ 5 → HasRisen (K.faults out.old) (K.faults out.new) }
{
    let script = opened.script;
    match run_chain(alloc, opened.chain, &script, options, disk, gate) {
        Ok((ran, room, cached)) => {
            let status = print_report(out, &script, &ran).number();
            // The program ends behind this: to give back block by block what each transaction has in memory takes a tenth of a long run, and the trees a twentieth.
            mem::forget(script);
            mem::forget(ran);
            mem::forget(cached);
            Finish {
                status,
                disk: room.into_disk(),
            }
        }
        Err(disk) => Finish {
            status: print_no_memory(out).number(),
            disk,
        },
    }
}

/// Reads a script, opens the log, runs the script on it and prints the report.
///
/// The script is any that the grammar takes. Its transactions are run on one thread, in the order of the script, and the gate is called as each of them begins and ends, and behind each
/// seal. Opening the log reads its headers alone, and each node is rebuilt from its own records when it is first needed.
///
/// The status is 0 where the run was done, and 8 where it was done and some transaction was refused; 3 for a script with a refused line; 4 where the source failed; 6 where the disk failed;
/// 7 where the log is damaged; 1 where memory ran out. With 0 and 8 the report is printed; with 1, 6 and 7 the report as far as the run came, with the reason's line behind it, or this line
/// alone where nothing was run; else the reason's line alone. Behind the chain, which place or node the line of a damaged log names no clause says. Where the text cannot be written whole, the
/// status is 5.
pub(crate) fn run_and_print<S: Source, K: Sink, D: LogDisk, G: Gate>(
    alloc: Global,
    options: &Options,
    script: &mut S,
    out: &mut K,
    disk: D,
    gate: &G,
) -> Finish<D>
    requires begins { MayBegin (command.Run options.now) (D.state disk) }
    ensures { Does (Some (run options.now)) (seen (S.left script.old) (S.faults script.old, S.faults script.new) (K.faults out.old, K.faults out.new) (D.state disk) (D.state result.disk) result.status (K.written out.old) (K.written out.new)) }
{
    let mut disk = disk;
    // A disk that tells its geometry is a sound one.
    let _regions = disk.regions();
    match open_run(alloc, script, &mut disk) {
        Ok(opened) => run_opened(alloc, opened, options, out, disk, gate),
        Err(reason) => Finish {
            status: print_reason(out, reason).number(),
            disk,
        },
    }
}
