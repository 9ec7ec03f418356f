//! The reader of scripts.

ghost use Rattle.std.specs.Prelude.{◌≡◌, ℕ, true, ◌+◌, ◌≤◌, List, [], Some, None, Ok, Err, IfOk, IfErr, OnOk, MatchResult, IsErrOf};
ghost use Rattle.fine_model.specs.Faults.{CountsFault};
ghost use Rattle.fine_model.specs.Script.{meaning, script_from, script_of, bad_line};
ghost use Rattle.script_text.specs.declared.read.ScriptFault.TheVariants as script_fault;
ghost use Rattle.script_text.specs.Streams.{before};
ghost use Rattle.script_text.specs.Reading.{reading_of, Adds};
ghost use Rattle.script_text.specs.Reads.{IsRefused, HasLine};
ghost use Rattle.script_text.specs.Turns.{Goes, Refuses};
ghost use Rattle.script_text.specs.Fits.{FitsReading};
ghost use Rattle.fine_model.specs.Bounds.{FitsScript};

use super::grammar::parse_line;
use super::lines::{Chunk, LineBytes, LineEnd, next_line};
use super::reading::Progress;
use super::{Failed, Source};
use fine_model::{NoMemory, Script};
use std::alloc::Global;
use thiserror::Error;

const MOST_LINES: u32 = 1_000_000;

/// Why a script was not read. A line is named by its number, from 1; the end of the input counts as one line more.
#[derive(Debug, Drop, Error)]
pub enum ScriptFault {
    #[error("the script has more than 1000000 lines")]
    Many { line: u32 },
    #[error("a line of the script has more than 512 bytes")]
    TooLong { line: u32 },
    #[error("a line of the script is bad")]
    Bad { line: u32 },
    #[error("the script could not be read")]
    Read,
    #[error("memory ran out")]
    NoMemory,
}

impl From<NoMemory> for ScriptFault {
    ghost from_gives = { λ _ fault. fault ≡ script_fault.NoMemory };

    fn from(_refused: NoMemory) -> ScriptFault {
        ScriptFault::NoMemory
    }
}

impl From<Failed> for ScriptFault {
    ghost from_gives = { λ _ fault. fault ≡ script_fault.Read };

    fn from(_refused: Failed) -> ScriptFault {
        ScriptFault::Read
    }
}

/// Adds a line, if it may stand where it does.
#[tactic(auto, unfolding(fine_model::specs::Script::line_added))]
fn step(alloc: Global, progress: &mut Progress, line: &[u8]) -> Result<bool, NoMemory>
    requires fits { FitsReading (reading_of progress.old) }
    ensures adds { IfOk result (λ added. Adds added (meaning line.now) (reading_of progress.old) (reading_of progress.new)) }
    ensures fits { OnOk result (FitsReading (reading_of progress.new)) }
{
    let said = parse_line(alloc, line)?;
    progress.add(alloc, said)
}

/// The script that was read, where the input ends at a line.
#[tactic(auto, unfolding(fine_model::specs::Script::script_from))]
fn finish(progress: Progress, line: u32) -> Result<Script, ScriptFault>
    requires fits { FitsReading (reading_of progress) }
    ensures fits { IfOk result FitsScript }
    ensures ok { IfOk result (λ script. script_from line (reading_of progress) [] ≡ Ok script) }
    ensures err { IfErr result (λ fault. (fault ≡ ScriptFault.Bad line) × (script_from line (reading_of progress) [] ≡ Err (bad_line line))) }
{
    match progress.open_txn {
        None => Ok(progress.done),
        Some(_) => Err(ScriptFault::Bad { line }),
    }
}

/// Whether there are more lines, or at which line the input ended.
#[derive(Clone, Copy)]
enum Turn {
    More,
    Ended { line: u32 },
}

/// Reads a line of the input by its number.
fn read_line<S: Source>(
    alloc: Global,
    chunk: &mut Chunk,
    source: &mut S,
    progress: &mut Progress,
    line: &mut LineBytes,
    number: u32,
) -> Result<Turn, ScriptFault>
    requires first { 1 ≤ number }
    requires last { number ≤ 1000000 }
    requires fits { FitsReading (reading_of progress.old) }
    ensures fits { OnOk result (FitsReading (reading_of progress.new)) }
    ensures ok { IfOk result (λ turn. Goes turn number (before chunk.old (S.left source.old)) (before chunk.new (S.left source.new)) (reading_of progress.old) (reading_of progress.new)) }
    ensures err { IfErr result (λ fault. Refuses fault number (before chunk.old (S.left source.old)) (reading_of progress.old)) }
    ensures line { IfErr result HasLine }
    ensures counts { CountsFault (IsErrOf result ScriptFault.Read) (S.faults source.old) (S.faults source.new) }
{
    match next_line(chunk, source, line)? {
        LineEnd::TooLong => Err(ScriptFault::TooLong { line: number }),
        LineEnd::Feed => {
            if !step(alloc, progress, line.as_slice())? {
                return Err(ScriptFault::Bad { line: number });
            }
            Ok(Turn::More)
        }
        LineEnd::Input => {
            if line.as_slice().is_empty() {
                return Ok(Turn::Ended { line: number });
            }
            if !step(alloc, progress, line.as_slice())? {
                return Err(ScriptFault::Bad { line: number });
            }
            Ok(Turn::Ended { line: number + 1 })
        }
    }
}

/// Reads a script to the end of a source, which may have up to 1,000,000 lines of 512 bytes. A source that has more is read up to line
/// 1,000,001, and one with a longer line up to this line's 513th byte. A refusal names the first line that is not of the grammar, too
/// long or one too many. Of a source that was refused, what is left is not told.
#[tactic(auto, unfolding(fine_model::specs::Script::script_of))]
pub fn read_script<S: Source>(alloc: Global, source: &mut S) -> Result<Script, ScriptFault>
    ensures script { IfOk result (λ script. (bytes : List ℕ) → S.left source.old ≡ Some bytes → script_of bytes ≡ Ok script) }
    ensures end { OnOk result ((bytes : List ℕ) → S.left source.old ≡ Some bytes → S.left source.new ≡ Some []) }
    ensures refused { IfErr result (λ fault. (bytes : List ℕ) → S.left source.old ≡ Some bytes → IsRefused fault bytes) }
    ensures line { IfErr result HasLine }
    ensures fits { IfOk result FitsScript }
    ensures counts { CountsFault (IsErrOf result ScriptFault.Read) (S.faults source.old) (S.faults source.new) }
{
    let mut chunk = Chunk::new();
    let mut line = LineBytes::new();
    let mut progress = Progress::new(alloc);
    for number in 1..=MOST_LINES {
        let turn = read_line(alloc, &mut chunk, source, &mut progress, &mut line, number)?;
        if let Turn::Ended { line } = turn {
            return finish(progress, line);
        }
    }
    match chunk.next(source)? {
        None => finish(progress, MOST_LINES + 1),
        Some(_) => Err(ScriptFault::Many {
            line: MOST_LINES + 1,
        }),
    }
}
