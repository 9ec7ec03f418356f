//! A plain, slow program beside the definitions: it runs a script on a map in memory, and prints what the definitions say.
//! It writes no log and has one epoch.
#![tactic(auto)]

ghost use Rattle.std.specs.Prelude.{◌≡◌, IfOk};
ghost use Rattle.fine_model.specs.declared.Reason.TheVariants as reason;
ghost use Rattle.fine_model.specs.Bounds.{FitsScript};
ghost use Rattle.fine_model.specs.Report.{report, reason_bytes};
ghost use Rattle.plain_model.specs.Plain.{plain_run, plain_output};

mod calls;
mod run;
mod store;
mod text;

use crate::run::run_script;
use crate::text::{Rest, Text};
pub use calls::{Replied, answer_call, answer_calls};
use fine_model::{NoMemory, Reason, Script};
use script_text::{ScriptFault, read_script, write_reason, write_report};
use std::alloc::Global;
pub use store::{pairs_between, put_pair, remove_pair, value_of};

/// What is printed of a script's run.
fn print_run(alloc: Global, script: &Script) -> Result<Vec<u8>, NoMemory>
    requires { FitsScript script.now }
    ensures { IfOk result (λ text. text.items ≡ report script.now (plain_run script.now)) }
{
    let ran = run_script(alloc, script)?;
    let mut text = Text::new(alloc);
    if write_report(&mut text, script, &ran).is_err() {
        return Err(NoMemory);
    }
    Ok(text.bytes)
}

/// What is printed of a script that is refused at a line.
fn print_refusal(alloc: Global, line: u32) -> Result<Vec<u8>, NoMemory>
    ensures { IfOk result (λ text. text.items ≡ reason_bytes (reason.Script line)) }
{
    let mut text = Text::new(alloc);
    if write_reason(&mut text, Reason::Script { line }).is_err() {
        return Err(NoMemory);
    }
    Ok(text.bytes)
}

/// Runs a script on an empty store, one transaction after another in the order of the script, and gives the text that is
/// printed: of each transaction its outcome and the replies to its calls, and the last epoch. All that is committed is in
/// epoch 1, at places from 1 on. A script that the grammar refuses gives the line that names its bad line.
#[tactic(auto, unfolding(crate::specs::Plain::plain_output))]
pub fn run_plain(alloc: Global, script: &[u8]) -> Result<Vec<u8>, NoMemory>
    ensures { IfOk result (λ text. text.items ≡ plain_output script.now) }
{
    let mut source = Rest { bytes: script };
    match read_script(alloc, &mut source) {
        Ok(script) => print_run(alloc, &script),
        Err(ScriptFault::Many { line }) => print_refusal(alloc, line),
        Err(ScriptFault::TooLong { line }) => print_refusal(alloc, line),
        Err(ScriptFault::Bad { line }) => print_refusal(alloc, line),
        Err(ScriptFault::NoMemory) => Err(NoMemory),
        Err(ScriptFault::Read) => unreachable!(),
    }
}
