//! The top call.

ghost use Rattle.std.specs.Prelude.{◌≡◌, ◌<◌, ◌≤◌, [], ◌∷◌, ℕ, Some, None};
ghost use Rattle.command_words.specs.Words.{IsGeometry, command_in, meant};
ghost use Rattle.epoch_room.specs.Whole.{IsIdle};
ghost use Rattle.fine_model.specs.declared.Options.{Options};
ghost use Rattle.fine_model.specs.Headline.{OneOf};
ghost use Rattle.fine_model.specs.Words.{Command as ModelCommand, run, dump, ranges, merge, gen};
ghost use Rattle.log_commands.specs.Ends.{Ends as EndsListing, MergesAnyWell, MergesWell, RangesWell};
ghost use Rattle.log_commands.specs.Found.{FindsChain};
ghost use Rattle.log_commands.specs.Merged.{MergesLog};
ghost use Rattle.log_disk.specs.Disk.{HasRisen};
ghost use Rattle.log_disk.specs.Moments.{ContinuesOn};
ghost use Rattle.log_commands.specs.Dumps.{DumpsAny, DumpsWell, Ends as EndsDump};
ghost use Rattle.fine_top.specs.Commands.{Does, HasScript, IsReading, NoneRose, RefusesWords, TellsSound, seen, statuses_of};
ghost use Rattle.fine_top.specs.Generating.{Ends as EndsGen, GensAny, GensWell, numbers};
ghost use Rattle.fine_top.specs.Opened.{IsOpenedLog, IsUnsoundLog};
ghost use Rattle.fine_top.specs.Running.{Ends, IsRefused, LeavesBeside, OfTold, RunsAny, RunsWell};
ghost use Rattle.fine_top.specs.Starting.{MayBegin};

use crate::generating::generate_and_print;
use crate::printing::{print_no_memory, print_reason};
use crate::running::run_and_print;
use command_words::{Command, command_of};
use fine_model::{Gate, Reason};
use log_commands::{Finish, dump_and_print, merge_and_print, print_ranges};
use log_disk::LogDisk;
use script_text::{Sink, Source};
use std::alloc::Global;
use std::sync::Wait;
use std::thread::Threads;

/// Does a command on an idle disk.
fn do_command<S: Source, K: Sink, D: LogDisk, G: Gate>(
    alloc: Global,
    command: Command,
    script: &mut S,
    out: &mut K,
    disk: D,
    gate: &G,
) -> Finish<D>
    requires begins { MayBegin command (D.state disk) }
    ensures { Does (Some (meant command)) (seen (S.left script.old) (S.faults script.old, S.faults script.new) (K.faults out.old, K.faults out.new) (D.state disk) (D.state result.disk) result.status (K.written out.old) (K.written out.new)) }
{
    match command {
        Command::Run { options } => run_and_print(alloc, &options, script, out, disk, gate),
        Command::Dump => {
            let (status, disk) = dump_and_print(alloc, out, disk);
            Finish {
                status: status.number(),
                disk,
            }
        }
        Command::Ranges => print_ranges(alloc, out, disk),
        Command::Merge => merge_and_print(alloc, out, disk),
        Command::Gen {
            start,
            count,
            lanes,
        } => generate_and_print(alloc, start, count, lanes, out, disk, gate),
    }
}

/// Reads the words and does the command that they spell; all that `fineline` says of it, in one clause.
fn obey<S: Source, K: Sink, D: LogDisk, G: Gate>(
    alloc: Global,
    words: &[String],
    script: &mut S,
    out: &mut K,
    disk: D,
    gate: &G,
) -> Finish<D>
    requires idle { IsIdle (D.state disk) }
    ensures { Does (command_in words.now) (seen (S.left script.old) (S.faults script.old, S.faults script.new) (K.faults out.old, K.faults out.new) (D.state disk) (D.state result.disk) result.status (K.written out.old) (K.written out.new)) }
{
    // A disk that tells its geometry is a sound one.
    let _regions = disk.regions();
    match command_of(alloc, words) {
        Ok(command) => match command {
            Some(command) => do_command(alloc, command, script, out, disk, gate),
            None => Finish {
                status: print_reason(out, Reason::Words).number(),
                disk,
            },
        },
        Err(_) => Finish {
            status: print_no_memory(out).number(),
            disk,
        },
    }
}

/// Does a command of the program, on a log that a disk holds: the words, the script, the opening, the command and the printing, in this order.
///
/// - `run` reads a script, runs it and prints the report; `--group`, `--tries` and `--keep` are its options.
/// - `dump` prints all pairs in the byte order of their keys.
/// - `ranges` prints the live chain.
/// - `merge` merges neighbours of the chain until no two fit what is free, and prints the chain then.
/// - `gen START COUNT LANES` runs the script that is generated from a number, and prints a summary.
///
/// `run` alone reads the script. It and `gen` run transactions on one thread, in the order of the script, and the gate is called as each of them begins and ends, and behind each seal; the
/// runtime is not used yet. The disk has 4 to 64 regions of 4 KiB to 64 MiB, in whole KiB, with nothing unsynced and no eye open.
///
/// The status is 0 where the command was done; 8 where it was done and some transaction was refused; 1 where memory ran out; 2 for words that spell no command; 3 for a script with a refused
/// line; 4 where the source failed; 5 where the output failed; 6 where the disk failed; 7 where the log is damaged. With 0 and 8 the command's whole text is printed. With 1, 6 and 7 it is
/// the line of the fault, behind what a run of `run` or `gen` came to; with 2, 3 and 4 the line of the reason alone; with 5 a first part of one of these. A damaged chain is named by its first
/// damage, and `dump` and `merge` name what is there; which place or node a run names, no clause says. The disk comes back with every status, and with 2, 3 and 4 as it was; `dump` and `ranges`
/// write nothing to it.
///
/// The memory of the script of `run`, of its outcomes and of the nodes that it cached is not given back, as the program ends behind this call.
pub fn fineline<R: Threads + Wait + Sync, S: Source, K: Sink, D: LogDisk, G: Gate>(
    rt: &R,
    alloc: Global,
    words: &[String],
    script: &mut S,
    out: &mut K,
    disk: D,
    gate: &G,
) -> Finish<D>
    requires geometry { IsGeometry ((D.state disk).regions, (D.state disk).region_len) }
    requires synced { (D.state disk).unsynced ≡ [] }
    requires no_eyes { (D.state disk).eyes ≡ [] }

    // The statuses of each command. Status 2 comes for words alone that spell none, and 3 and 4 for `run` alone.
    ensures statuses { OneOf (statuses_of (command_in words.now)) result.status }

    // Words that spell no command: their line is printed, and the disk is as it was.
    ensures words { command_in words.now ≡ None → RefusesWords (K.faults out.old, K.faults out.new) (D.state disk) (D.state result.disk) result.status (K.written out.old) (K.written out.new) }

    // `run`: what is printed, and why. On a sound log that is told, the printed places order the committed transactions into one history of a sequential store, and every image that a crash could
    // have left reopens to a prefix of it. Each refusal that is printed has its cause: of one lane after the commits before it, of several lanes after some commits.
    // That no number is left, and that the log is full, is told of the log on return. Status 6 tells a failed disk.
    // A run names damage only of a log that is not sound; which place or node it names, no clause says.
    ensures run_ends { (options : Options) → command_in words.now ≡ Some (run options) → Ends options (HasRisen (S.faults script.old) (S.faults script.new)) (S.left script.old) (D.state disk) (D.state result.disk) result.status (K.written out.old) (K.written out.new) }
    ensures run { (options : Options) → command_in words.now ≡ Some (run options) → RunsWell options (S.left script.old) (S.faults script.old, S.faults script.new) (K.faults out.old, K.faults out.new) (D.state disk) (D.state result.disk) result.status (K.written out.old) (K.written out.new) }
    ensures run_any { (options : Options) → command_in words.now ≡ Some (run options) → RunsAny (S.left script.old) (S.faults script.old, S.faults script.new) (K.faults out.old, K.faults out.new) (D.state disk) (D.state result.disk) result.status (K.written out.old) (K.written out.new) }

    // Status 3 comes exactly for a script that the grammar refuses, unless 1, 4 or 5 comes.
    ensures script { result.status ≡ 3 → OfTold (S.left script.old) IsRefused }
    ensures refused { (options : Options) → command_in words.now ≡ Some (run options) → OfTold (S.left script.old) (λ bytes. IsRefused bytes → OneOf (1 ∷ 3 ∷ 4 ∷ 5 ∷ []) result.status) }

    // `dump`: what is printed, and why. On a sound log it is the map's pairs; on every log that the disk tells, those that are found by its bytes, or damage that is there.
    ensures dump_ends { command_in words.now ≡ Some dump → EndsDump (D.state disk) (D.state result.disk) result.status (K.written out.old) (K.written out.new) }
    ensures dump { command_in words.now ≡ Some dump → DumpsWell (K.faults out.old, K.faults out.new) (D.state disk) (D.state result.disk) result.status (K.written out.old) (K.written out.new) }
    ensures dump_any { command_in words.now ≡ Some dump → DumpsAny (K.faults out.old, K.faults out.new) (D.state disk) (D.state result.disk) result.status (K.written out.old) (K.written out.new) }

    // `ranges`: what is printed, and why. On every log that the disk tells it is the chain of its bytes, or its damage.
    ensures ranges_ends { command_in words.now ≡ Some ranges → EndsListing (FindsChain (D.state disk) (D.state result.disk)) result.status (K.written out.old) (K.written out.new) }
    ensures ranges { command_in words.now ≡ Some ranges → RangesWell (K.faults out.old, K.faults out.new) (D.state disk) (D.state result.disk) result.status (K.written out.old) (K.written out.new) }

    // `merge`: what is printed, and why. Every image shows the log at entry, and the chain on return is printed, of which no two neighbours fit.
    ensures merge_ends { command_in words.now ≡ Some merge → EndsListing (MergesLog (D.state disk) (D.state result.disk)) result.status (K.written out.old) (K.written out.new) }
    ensures merge { command_in words.now ≡ Some merge → MergesWell (K.faults out.old, K.faults out.new) (D.state disk) (D.state result.disk) result.status (K.written out.old) (K.written out.new) }
    ensures merge_any { command_in words.now ≡ Some merge → MergesAnyWell (K.faults out.old, K.faults out.new) (D.state disk) (D.state result.disk) result.status (K.written out.old) (K.written out.new) }

    // `gen`: what is printed, and why. It does as `run` on the generated script, and counts the outcomes, and what the map at the end has. Damage that it names is as that of `run`.
    ensures gen_ends { (start count lanes : ℕ) → command_in words.now ≡ Some (gen start count lanes) → EndsGen (numbers start count lanes) (D.state disk) (D.state result.disk) result.status (K.written out.old) (K.written out.new) }
    ensures generates { (start count lanes : ℕ) → command_in words.now ≡ Some (gen start count lanes) → GensWell (numbers start count lanes) (K.faults out.old, K.faults out.new) (D.state disk) (D.state result.disk) result.status (K.written out.old) (K.written out.new) }
    ensures generates_any { (start count lanes : ℕ) → command_in words.now ≡ Some (gen start count lanes) → GensAny (numbers start count lanes) (K.faults out.old, K.faults out.new) (D.state disk) (D.state result.disk) result.status (K.written out.old) (K.written out.new) }

    // Where the disk tells its bytes, status 7 comes for a log alone that is not sound, and with 0 and 8 the chain was found.
    ensures damaged { result.status ≡ 7 → IsUnsoundLog (D.state disk) }
    ensures opened { OneOf (0 ∷ 8 ∷ []) result.status → IsOpenedLog (D.state disk) }

    // Where the words and the script are good, the log is sound, and no count rose, the command was done, or memory ran out.
    ensures complete { HasScript (command_in words.now) (S.left script.old) → TellsSound (D.state disk) → NoneRose (S.faults script.old, S.faults script.new) (K.faults out.old, K.faults out.new) (D.state disk) (D.state result.disk) → OneOf (0 ∷ 1 ∷ 8 ∷ []) result.status }

    // The counts of faults that the other statuses need.
    ensures source_failed { result.status ≡ 4 → HasRisen (S.faults script.old) (S.faults script.new) }
    ensures output_failed { result.status ≡ 5 → HasRisen (K.faults out.old) (K.faults out.new) }
    ensures disk_failed { result.status ≡ 6 → HasRisen (D.state disk).faults (D.state result.disk).faults }
    ensures disk_told { (D.state disk).faults < (D.state result.disk).faults → OneOf (1 ∷ 5 ∷ 6 ∷ []) result.status }

    // What stands on the disk.
    ensures untouched { OneOf (2 ∷ 3 ∷ 4 ∷ []) result.status → D.state result.disk ≡ D.state disk }
    ensures still_told { (command : ModelCommand) → command_in words.now ≡ Some command → IsReading command → (D.state result.disk).told ≡ (D.state disk).told }
    ensures beside { LeavesBeside (D.state disk) (D.state result.disk) }

    // A disk that tells its bytes at entry tells them on return, and its moments go on from those at entry.
    ensures told { ContinuesOn (D.state disk) (D.state result.disk) }
{
    let _ = rt;
    obey(alloc, words, script, out, disk, gate)
}
