//! The words of a command.

ghost use Rattle.std.specs.Prelude.{◌≡◌, None, option_map, IfOk, IfSome};
ghost use Rattle.clap.specs.Values.{kind_of};
ghost use Rattle.command_words.specs.Words.{meant, command_in, IsWithin};

use super::found::command_found;
use super::program::program;
use clap::Error;
use clap::error::ErrorKind;
use fine_model::{NoMemory, Options};
use std::alloc::Global;

/// A command of the program.
#[derive(Clone, Copy, Debug, PartialEq, Eq)]
pub enum Command {
    /// Reads a script and runs it.
    Run { options: Options },
    /// Prints the pairs of the log.
    Dump,
    /// Prints the live partitions.
    Ranges,
    /// Merges as far as neighbours fit, and prints the live partitions.
    Merge,
    /// Runs the script that is generated from a number, of so many transactions on so many lanes, and prints a summary.
    Gen { start: u64, count: u32, lanes: u8 },
}

/// What is answered where words were refused: no command, or that memory ran out.
fn refused(error: &Error) -> Result<Option<Command>, NoMemory>
    ensures { IfOk result (λ command. (command ≡ None) × (kind_of error.now ≡ ErrorKind.OutOfMemory → ⊥)) }
{
    match error.kind() {
        ErrorKind::OutOfMemory => Err(NoMemory),
        _ => Ok(None),
    }
}

/// The command that words spell, the first one its name:
///
/// - `run`, with the options `--group N` (1 to 100,000), `--tries N` (1 to 1,000,000) and `--keep N` (1 to 256), each at most once, as two words or
///   as one with `=`, in any order; those that are not given are 64, 100 and 64;
/// - `dump`, `ranges` and `merge`, with nothing more;
/// - `gen START COUNT LANES`, with a number of 64 bits, 0 to 100,000 transactions and 1 to 16 lanes.
///
/// One `--` may stand among the words behind the command; what stands behind it is no option. A number is written in digits without a leading zero.
/// The answer is None exactly where the words spell no command. `NoMemory` may come at any time.
pub fn command_of(alloc: Global, words: &[String]) -> Result<Option<Command>, NoMemory>
    ensures is { IfOk result (λ command. option_map meant command ≡ command_in words.now) }
    ensures limits { IfOk result (λ command. IfSome command IsWithin) }
{
    match program(alloc)?.try_get_matches_from(words) {
        Ok(matches) => Ok(command_found(&matches)),
        Err(error) => refused(&error),
    }
}
