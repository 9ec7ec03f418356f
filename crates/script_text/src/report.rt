//! What the program prints.

ghost use Rattle.std.specs.Prelude.{◌≡◌, ◌+◌, ◌-◌, [], ◌∷◌, codes, decimal, flat_map, replicate, zip, IsErr};
ghost use Rattle.fine_model.specs.declared.Outcome.TheVariants as outcome;
ghost use Rattle.fine_model.specs.Faults.{CountsFault};
ghost use Rattle.fine_model.specs.Report.{line, pair_line, reply_lines, txn_lines, why_word, damage_line, fault_line, report, reason_bytes};
ghost use Rattle.script_text.specs.Pages.{desk, Sends};
ghost use Rattle.script_text.specs.Streams.{Puts};
ghost use Rattle.script_text.specs.Reports.{txns_from};

use super::line::Word::{Number, Signed, Text};
use super::line::say_line;
use super::page::Page;
use super::{Failed, Sink};
use fine_model::{Bytes, Call, Damage, Entry, Outcome, Ran, Reason, Reply, RunFault, Script, Why};

const WORDS_LINE: &[u8] =
    b"words: run [--group N] [--tries N] [--keep N] | dump | ranges | merge | gen START COUNT LANES\n";

/// Says the line of a key and its value, behind a word.
fn say_value<'x, K: Sink>(
    page: &mut Page,
    sink: &mut K,
    word: &'x [u8],
    key: &'x [u8],
    value: &'x [u8],
)
    ensures { Sends (line (word.now ∷ key.now ∷ codes "=" ∷ value.now ∷ [])) (desk (K.written sink.old) (K.faults sink.old) page.old) (desk (K.written sink.new) (K.faults sink.new) page.new) }
{
    say_line(
        page,
        sink,
        &[Text(word), Text(key), Text(b"="), Text(value)],
    );
}

/// Says the line of a pair.
fn say_pair<K: Sink>(page: &mut Page, sink: &mut K, pair: &(Bytes, Bytes))
    ensures { Sends (pair_line pair.now) (desk (K.written sink.old) (K.faults sink.old) page.old) (desk (K.written sink.new) (K.faults sink.new) page.new) }
{
    let (key, value) = pair;
    say_value(page, sink, b"pair", key.as_slice(), value.as_slice());
}

/// Says the lines of pairs.
pub(crate) fn say_pairs<K: Sink>(page: &mut Page, sink: &mut K, pairs: &[(Bytes, Bytes)])
    ensures { Sends (flat_map pair_line pairs.now) (desk (K.written sink.old) (K.faults sink.old) page.old) (desk (K.written sink.new) (K.faults sink.new) page.new) }
{
    for pair in pairs {
        say_pair(page, sink, pair);
    }
}

/// Says the lines of a call and its reply.
#[tactic(auto, using(crate::proofs::Paging::sends_then, crate::proofs::Paging::sends_none), unfolding(fine_model::specs::Report::reply_lines))]
fn say_reply<'x, K: Sink>(page: &mut Page, sink: &mut K, call: &'x Call, reply: &'x Reply)
    ensures { Sends (reply_lines call.now reply.now) (desk (K.written sink.old) (K.faults sink.old) page.old) (desk (K.written sink.new) (K.faults sink.new) page.new) }
{
    match (call, reply) {
        (Call::Get { key }, Reply::Value { value }) => {
            say_value(page, sink, b"get", key.as_slice(), value.as_slice());
        }
        (Call::Get { key }, Reply::Absent) => {
            say_line(
                page,
                sink,
                &[Text(b"get"), Text(key.as_slice()), Text(b"none")],
            );
        }
        (Call::Put { key, .. }, Reply::Stored) => {
            say_line(page, sink, &[Text(b"put"), Text(key.as_slice())]);
        }
        (Call::Del { key }, Reply::Removed) => {
            say_line(page, sink, &[Text(b"del"), Text(key.as_slice())]);
        }
        (Call::Del { key }, Reply::Absent) => {
            say_line(
                page,
                sink,
                &[Text(b"del"), Text(key.as_slice()), Text(b"none")],
            );
        }
        (Call::Add { key, .. }, Reply::Sum { sum }) => {
            say_line(
                page,
                sink,
                &[Text(b"add"), Text(key.as_slice()), Text(b"="), Signed(*sum)],
            );
        }
        (Call::Add { key, .. }, Reply::NotNumber) => {
            say_line(
                page,
                sink,
                &[Text(b"add"), Text(key.as_slice()), Text(b"text")],
            );
        }
        (Call::Add { key, .. }, Reply::OutOfRange) => {
            say_line(
                page,
                sink,
                &[Text(b"add"), Text(key.as_slice()), Text(b"range")],
            );
        }
        (Call::Scan { low, high, .. }, Reply::Found { pairs }) => {
            say_line(
                page,
                sink,
                &[
                    Text(b"scan"),
                    Text(low.as_slice()),
                    Text(high.as_slice()),
                    Number(pairs.len() as u64),
                ],
            );
            say_pairs(page, sink, pairs.as_slice());
        }
        _ => {}
    }
}

/// Says the lines of an entry's calls and replies.
fn say_replies<K: Sink>(page: &mut Page, sink: &mut K, entry: &Entry)
    ensures { Sends (flat_map (λ p. reply_lines p.0 p.1) (zip entry.now.calls entry.now.replies)) (desk (K.written sink.old) (K.faults sink.old) page.old) (desk (K.written sink.new) (K.faults sink.new) page.new) }
{
    for (call, reply) in entry.calls.as_slice().iter().zip(entry.replies.as_slice()) {
        say_reply(page, sink, call, reply);
    }
}

/// The word of a refusal.
fn word_of(why: Why) -> &'static [u8]
    ensures { result.now ≡ why_word why }
{
    match why {
        Why::Large => b"large",
        Why::Bucket => b"bucket",
        Why::Full => b"full",
        Why::Number => b"number",
    }
}

/// Says the lines of a transaction by its number.
#[tactic(auto, using(crate::proofs::Paging::sends_then), unfolding(fine_model::specs::Report::txn_lines))]
fn say_txn<K: Sink>(page: &mut Page, sink: &mut K, turn: u64, outcome: &Outcome)
    ensures { Sends (txn_lines turn outcome.now) (desk (K.written sink.old) (K.faults sink.old) page.old) (desk (K.written sink.new) (K.faults sink.new) page.new) }
{
    match outcome {
        Outcome::Committed {
            place,
            epoch,
            entry,
        } => {
            say_line(
                page,
                sink,
                &[
                    Text(b"txn"),
                    Number(turn),
                    Text(b"commit"),
                    Number(*place),
                    Text(b"epoch"),
                    Number(*epoch),
                ],
            );
            say_replies(page, sink, entry);
        }
        Outcome::Aborted => say_line(page, sink, &[Text(b"txn"), Number(turn), Text(b"abort")]),
        Outcome::Refused { why } => {
            say_line(
                page,
                sink,
                &[
                    Text(b"txn"),
                    Number(turn),
                    Text(b"refused"),
                    Text(word_of(*why)),
                ],
            );
        }
        Outcome::NotRun => say_line(page, sink, &[Text(b"txn"), Number(turn), Text(b"none")]),
    }
}

/// Says the lines of the transactions that have outcomes.
fn say_outcomes<K: Sink>(page: &mut Page, sink: &mut K, outcomes: &[Outcome])
    ensures { Sends (txns_from 1 outcomes.now) (desk (K.written sink.old) (K.faults sink.old) page.old) (desk (K.written sink.new) (K.faults sink.new) page.new) }
{
    for (i, outcome) in outcomes.iter().enumerate() {
        say_txn(page, sink, i as u64 + 1, outcome);
    }
}

/// Says the lines of the transactions behind the first `done` of `all`, which were not run.
fn say_not_run<K: Sink>(page: &mut Page, sink: &mut K, done: usize, all: usize)
    ensures { Sends (txns_from (done + 1) (replicate (all - done) outcome.NotRun)) (desk (K.written sink.old) (K.faults sink.old) page.old) (desk (K.written sink.new) (K.faults sink.new) page.new) }
{
    for i in done..all {
        say_txn(page, sink, i as u64 + 1, &Outcome::NotRun);
    }
}

/// Says the line of a region that is damaged, with what more is known of it.
fn say_region<K: Sink>(page: &mut Page, sink: &mut K, region: u32, what: &[u8], number: u64)
    ensures { Sends (line (codes "damaged" ∷ codes "region" ∷ decimal region ∷ what.now ∷ decimal number ∷ [])) (desk (K.written sink.old) (K.faults sink.old) page.old) (desk (K.written sink.new) (K.faults sink.new) page.new) }
{
    say_line(
        page,
        sink,
        &[
            Text(b"damaged"),
            Text(b"region"),
            Number(u64::from(region)),
            Text(what),
            Number(number),
        ],
    );
}

/// Says the line of what is damaged.
fn say_damage<K: Sink>(page: &mut Page, sink: &mut K, what: &Damage)
    ensures { Sends (damage_line what.now) (desk (K.written sink.old) (K.faults sink.old) page.old) (desk (K.written sink.new) (K.faults sink.new) page.new) }
{
    match *what {
        Damage::Region { region, at } => say_region(page, sink, region, b"at", u64::from(at)),
        Damage::Gap { after, region } => say_region(page, sink, region, b"after", after),
        Damage::Overlap { region, other } => {
            say_region(page, sink, region, b"over", u64::from(other));
        }
        Damage::Node { node } => {
            say_line(
                page,
                sink,
                &[
                    Text(b"damaged"),
                    Text(b"node"),
                    Number(u64::from(node.bucket)),
                    Number(u64::from(node.number)),
                ],
            );
        }
    }
}

/// Says the line of a fault.
pub(crate) fn say_fault<K: Sink>(page: &mut Page, sink: &mut K, fault: &RunFault)
    ensures { Sends (fault_line fault.now) (desk (K.written sink.old) (K.faults sink.old) page.old) (desk (K.written sink.new) (K.faults sink.new) page.new) }
{
    match fault {
        RunFault::Memory => say_line(page, sink, &[Text(b"memory")]),
        RunFault::Disk => say_line(page, sink, &[Text(b"disk")]),
        RunFault::Damaged { what } => say_damage(page, sink, what),
    }
}

/// Says the report of a run.
fn say_report<K: Sink>(page: &mut Page, sink: &mut K, script: &Script, ran: &Ran)
    ensures { Sends (report script.now ran.now) (desk (K.written sink.old) (K.faults sink.old) page.old) (desk (K.written sink.new) (K.faults sink.new) page.new) }
{
    say_outcomes(page, sink, ran.outcomes.as_slice());
    say_not_run(page, sink, ran.outcomes.len(), script.len());
    say_line(page, sink, &[Text(b"durable"), Number(ran.durable)]);
    if let Some(fault) = &ran.fault {
        say_fault(page, sink, fault);
    }
}

/// Writes the report of a run: the lines of each transaction, in script order (one without an outcome was not run), the
/// last durable epoch, and the fault that ended it early, if one did. Where the sink failed, a first part was written. It
/// takes no memory.
pub fn write_report<K: Sink>(sink: &mut K, script: &Script, ran: &Ran) -> Result<(), Failed>
    ensures puts { Puts (report script.now ran.now) (IsErr result) (K.written sink.old) (K.written sink.new) }
    ensures counts { CountsFault (IsErr result) (K.faults sink.old) (K.faults sink.new) }
{
    let mut page = Page::new();
    say_report(&mut page, sink, script, ran);
    page.finish(sink)
}

/// Says the line of a reason.
#[tactic(auto, unfolding(fine_model::specs::Report::reason_bytes))]
fn say_reason<K: Sink>(page: &mut Page, sink: &mut K, reason: Reason)
    ensures { Sends (reason_bytes reason) (desk (K.written sink.old) (K.faults sink.old) page.old) (desk (K.written sink.new) (K.faults sink.new) page.new) }
{
    match reason {
        Reason::Words => page.say(sink, WORDS_LINE),
        Reason::Script { line } => say_line(
            page,
            sink,
            &[Text(b"script"), Text(b"line"), Number(u64::from(line))],
        ),
        Reason::Source => say_line(page, sink, &[Text(b"source")]),
        Reason::Fault { fault } => say_fault(page, sink, &fault),
    }
}

/// Writes the line of a reason for which a call of the program ended before anything was run. Where the sink failed, a
/// first part was written. It takes no memory.
pub fn write_reason<K: Sink>(sink: &mut K, reason: Reason) -> Result<(), Failed>
    ensures puts { Puts (reason_bytes reason) (IsErr result) (K.written sink.old) (K.written sink.new) }
    ensures counts { CountsFault (IsErr result) (K.faults sink.old) (K.faults sink.new) }
{
    let mut page = Page::new();
    say_reason(&mut page, sink, reason);
    page.finish(sink)
}
