//! Transactions one after another.

ghost use Rattle.std.specs.Prelude.{◌≡◌, ◌≤◌, ◌+◌, [], length, IfOk, OnOk};
ghost use Rattle.std.specs.List.{list_any};
ghost use Rattle.fine_model.specs.Bounds.{FitsScript};
ghost use Rattle.fine_model.specs.Script.{is_commit};
ghost use Rattle.plain_model.specs.Place.{Ascends};
ghost use Rattle.plain_model.specs.Plain.{entry_on, outcome_at, map_behind, place_behind, outcomes_on, last_epoch, plain_run};

use crate::calls::{Replied, answer_calls};
use fine_model::{
    Copied, Ending, Entry, Items, NoMemory, Outcome, Outcomes, Pairs, Ran, Script, ScriptTxn,
};
use std::alloc::Global;

/// The epoch of all that is committed.
const EPOCH: u64 = 1;

/// Runs a transaction at its turn on a map. What is aborted is not run, so it changes nothing and takes no place.
fn run_txn(
    alloc: Global,
    pairs: &mut Pairs,
    turn: u32,
    place: &mut u64,
    txn: &ScriptTxn,
) -> Result<Outcome, NoMemory>
    requires order { Ascends pairs.old }
    requires place { place.old ≤ turn }
    ensures order { Ascends pairs.new }
    ensures outcome { IfOk result (λ outcome. outcome ≡ outcome_at txn.now.ending place.old (entry_on pairs.old turn txn.now)) }
    ensures map { OnOk result (pairs.new ≡ map_behind txn.now.ending pairs.old txn.now) }
    ensures place { OnOk result (place.new ≡ place_behind txn.now.ending place.old) }
{
    match txn.ending {
        Ending::Abort => Ok(Outcome::Aborted),
        Ending::Commit => {
            let Replied { replies, writes } = answer_calls(alloc, pairs, &txn.calls)?;
            let entry = Entry {
                lane: txn.lane,
                turn,
                calls: txn.calls.copy()?,
                replies,
                writes,
                rows: Items::new(alloc),
            };
            let committed = Outcome::Committed {
                place: *place,
                epoch: EPOCH,
                entry,
            };
            *place += 1;
            Ok(committed)
        }
    }
}

/// The outcomes of a script's transactions on an empty store.
fn outcomes_of(alloc: Global, script: &Script) -> Result<Outcomes, NoMemory>
    requires { length script.now ≤ 100000 }
    ensures { IfOk result (λ outcomes. outcomes ≡ outcomes_on [] 1 1 script.now) }
{
    let mut pairs: Pairs = Items::new(alloc);
    let mut place = 1;
    let mut outcomes = Items::new(alloc);
    for i in 0..script.len() {
        let outcome = run_txn(alloc, &mut pairs, i as u32 + 1, &mut place, script.at(i))?;
        outcomes.push(outcome)?;
    }
    Ok(outcomes)
}

fn commits(txn: &ScriptTxn) -> bool
    ensures { result ≡ is_commit txn.now.ending }
{
    matches!(txn.ending, Ending::Commit)
}

fn some_commit(txns: &[ScriptTxn]) -> bool
    ensures { result ≡ list_any (λ txn. is_commit txn.ending) txns.now }
{
    txns.iter().any(|txn| commits(txn))
}

/// The last epoch of a script's run.
fn last_epoch(script: &Script) -> u64
    ensures { result ≡ last_epoch script.now }
{
    if some_commit(script.as_slice()) {
        EPOCH
    } else {
        0
    }
}

/// Runs a script on an empty store.
pub(crate) fn run_script(alloc: Global, script: &Script) -> Result<Ran, NoMemory>
    requires { FitsScript script.now }
    ensures { IfOk result (λ ran. ran ≡ plain_run script.now) }
{
    Ok(Ran {
        outcomes: outcomes_of(alloc, script)?,
        durable: last_epoch(script),
        fault: None,
        unsealed: false,
    })
}
