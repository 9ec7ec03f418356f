//! The words of the program as `clap` is told of them.

ghost use Rattle.std.specs.Prelude.{◌≡◌, [], false, IfOk};
ghost use Rattle.clap.specs.Simple.{app_of};
ghost use Rattle.clap.specs.Walk.{rule_of};
ghost use Rattle.clap.specs.declared.builder.command.Command.TheViews.{out-Command as fields_of};
ghost use Rattle.command_words.specs.Program.{number_named, option_named, program, shape_of_three, top_shape};

use clap::{Arg, Command};
use std::alloc::{AllocError, Global};

/// An option that has a value.
fn option_named<'a>(alloc: Global, name: &'a str) -> Arg<'a>
    ensures rule { rule_of result ≡ option_named name.now }
    ensures local { result.global ≡ false }
{
    Arg::new(alloc, name).long(name)
}

/// A value that has to stand among the words.
fn number_named<'a>(alloc: Global, name: &'a str) -> Arg<'a>
    ensures rule { rule_of result ≡ number_named name.now }
    ensures local { result.global ≡ false }
{
    Arg::new(alloc, name).required(true)
}

/// A command of three words, none of which holds for other commands too.
fn command_of<'a>(
    alloc: Global,
    name: &'a str,
    first: Arg<'a>,
    second: Arg<'a>,
    third: Arg<'a>,
) -> Result<Command<'a>, AllocError>
    requires { (first.global ≡ false) × (second.global ≡ false) × (third.global ≡ false) }
    ensures app { IfOk result (λ c. app_of c ≡ record { top = shape_of_three name.now (rule_of first.entry) (rule_of second.entry) (rule_of third.entry); subs = [] }) }
    ensures local { IfOk result (λ c. (fields_of c).has_globals ≡ false) }
{
    Command::new(alloc, name)
        .arg(first)?
        .arg(second)?
        .arg(third)
}

/// The program without its commands. Words for help are switched off, and without a version there are none for it.
fn top<'a>(alloc: Global) -> Command<'a>
    ensures { app_of result ≡ record { top = top_shape; subs = [] } }
{
    Command::new(alloc, "fineline")
        .no_binary_name(true)
        .disable_help_flag(true)
        .disable_help_subcommand(true)
        .subcommand_required(true)
}

/// The program with its commands.
pub(crate) fn program<'a>(alloc: Global) -> Result<Command<'a>, AllocError>
    ensures { IfOk result (λ c. app_of c ≡ program) }
{
    let run = command_of(
        alloc,
        "run",
        option_named(alloc, "group"),
        option_named(alloc, "tries"),
        option_named(alloc, "keep"),
    )?;
    let generate = command_of(
        alloc,
        "gen",
        number_named(alloc, "start"),
        number_named(alloc, "count"),
        number_named(alloc, "lanes"),
    )?;
    top(alloc)
        .subcommand(run)?
        .subcommand(Command::new(alloc, "dump"))?
        .subcommand(Command::new(alloc, "ranges"))?
        .subcommand(Command::new(alloc, "merge"))?
        .subcommand(generate)
}
