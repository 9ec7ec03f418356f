//! The command of what `clap` found in the words.

ghost use Rattle.std.specs.Prelude.{◌≡◌, ◌≤◌, ◌∷◌, [], codes, option_map, IfSome};
ghost use Rattle.clap.specs.Walk.{first_of, rows_of};
ghost use Rattle.clap.specs.Matches.{found_of};
ghost use Rattle.clap.specs.Simple.{subcommand_rows_of};
ghost use Rattle.fine_model.specs.Words.{gen_of, run, with_defaults};
ghost use Rattle.command_words.specs.Words.{meant, IsWithin};
ghost use Rattle.command_words.specs.Program.{command_found, command_named, generated_of, given_in_rows, option_of};

use super::command::Command;
use clap::ArgMatches;
use fine_model::{Options, natural_of, natural_of_64};

const MOST_GROUP: u32 = 100_000;

const MOST_TRIES: u32 = 1_000_000;

const MOST_KEEP: u32 = 256;

const MOST_COUNT: u32 = 100_000;

const MOST_LANES: u32 = 16;

/// The first text that was found of a name.
fn text_of<'a>(found: &ArgMatches<'a>, name: &str) -> Option<&'a str>
    ensures { option_map (λ s. s.now) result ≡ first_of name.now (rows_of (found_of found.now)) }
{
    found.get_str(name)
}

/// The number of an option, or nothing where it was not given. None where it is no number from 1 on, or too great.
fn option_in(found: &ArgMatches, name: &str, most: u32) -> Option<Option<u32>>
    ensures is { result ≡ option_of most (first_of name.now (rows_of (found_of found.now))) }
    ensures within { IfSome result (λ given. IfSome given (λ n. (1 ≤ n) × (n ≤ most))) }
{
    let Some(text) = text_of(found, name) else {
        return Some(None);
    };
    let number = natural_of(text.as_bytes(), 1, most)?;
    Some(Some(number))
}

/// The command `run` with the options that were found. Those that were not given are 64, 100 and 64.
fn run(found: &ArgMatches) -> Option<Command>
    ensures is { option_map meant result ≡ option_map (λ g. run (with_defaults g)) (given_in_rows (rows_of (found_of found.now))) }
    ensures within { IfSome result IsWithin }
{
    let group = option_in(found, "group", MOST_GROUP)?;
    let tries = option_in(found, "tries", MOST_TRIES)?;
    let keep = option_in(found, "keep", MOST_KEEP)?;
    let options = Options {
        group: group.unwrap_or(64),
        tries: tries.unwrap_or(100),
        keep: keep.unwrap_or(64),
    };
    Some(Command::Run { options })
}

/// The command `gen` with three numbers.
fn generated(start: &str, count: &str, lanes: &str) -> Option<Command>
    ensures is { option_map meant result ≡ gen_of (start.now ∷ count.now ∷ lanes.now ∷ []) }
    ensures within { IfSome result IsWithin }
{
    let start = natural_of_64(start.as_bytes(), 0, u64::MAX)?;
    let count = natural_of(count.as_bytes(), 0, MOST_COUNT)?;
    let lanes = natural_of(lanes.as_bytes(), 1, MOST_LANES)?;
    Some(Command::Gen {
        start,
        count,
        lanes: lanes as u8,
    })
}

/// The command `gen` with the numbers that were found.
fn generate(found: &ArgMatches) -> Option<Command>
    ensures is { option_map meant result ≡ generated_of (first_of (codes "start") (rows_of (found_of found.now))) (first_of (codes "count") (rows_of (found_of found.now))) (first_of (codes "lanes") (rows_of (found_of found.now))) }
    ensures within { IfSome result IsWithin }
{
    let start = text_of(found, "start")?;
    let count = text_of(found, "count")?;
    let lanes = text_of(found, "lanes")?;
    generated(start, count, lanes)
}

/// The command of a name, with what was found behind it.
fn command_named(name: &str, found: &ArgMatches) -> Option<Command>
    ensures is { option_map meant result ≡ command_named name.now (rows_of (found_of found.now)) }
    ensures within { IfSome result IsWithin }
{
    match name {
        "run" => run(found),
        "dump" => Some(Command::Dump),
        "ranges" => Some(Command::Ranges),
        "merge" => Some(Command::Merge),
        "gen" => generate(found),
        _ => None,
    }
}

/// The command that was found.
pub(crate) fn command_found(matches: &ArgMatches) -> Option<Command>
    ensures is { option_map meant result ≡ command_found (subcommand_rows_of matches.now) }
    ensures within { IfSome result IsWithin }
{
    let (name, found) = matches.subcommand()?;
    command_named(name, found)
}
