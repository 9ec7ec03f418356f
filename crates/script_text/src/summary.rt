//! The summary of a generated run.

ghost use Rattle.std.specs.Prelude.{◌≡◌, ◌≤◌, ◌==◌, ◌++◌, bytes_eq, codes, count_by, decimal, length, slice_index, sum_by, IsErr, Some, option_map};
ghost use Rattle.fine_model.specs.Commands.{counters_summed, keys_counted, map_lines, small_number};
ghost use Rattle.fine_model.specs.Faults.{CountsFault};
ghost use Rattle.fine_model.specs.Map.{get};
ghost use Rattle.fine_model.specs.Outcomes.{is_aborted, is_committed, is_refused};
ghost use Rattle.fine_model.specs.Report.{fault_lines};
ghost use Rattle.script_text.specs.Pages.{desk, Sends};
ghost use Rattle.script_text.specs.Streams.{Puts};
ghost use Rattle.script_text.specs.Summaries.{counted_lines, durable_line, gen_line, summary_of};

use super::line::Word::{Number, Text};
use super::line::say_line;
use super::page::Page;
use super::report::say_fault;
use super::{Failed, Sink};
use fine_model::{Bytes, Outcome, RunFault, Script, number_of};
use itoa::Buffer;

/// How many counters a generated script adds to.
const COUNTERS: u64 = 64;

/// The largest value of a counter that is added.
const MOST_COUNTED: i64 = 4_294_967_295;

fn is_committed(outcome: &Outcome) -> bool
    ensures { result ≡ is_committed outcome.now }
{
    matches!(outcome, Outcome::Committed { .. })
}

fn is_aborted(outcome: &Outcome) -> bool
    ensures { result ≡ is_aborted outcome.now }
{
    matches!(outcome, Outcome::Aborted)
}

fn is_refused(outcome: &Outcome) -> bool
    ensures { result ≡ is_refused outcome.now }
{
    matches!(outcome, Outcome::Refused { .. })
}

/// How many transactions commit, abort and are refused.
fn counts(outcomes: &[Outcome]) -> (usize, usize, usize)
    ensures commits { result.0 ≡ count_by is_committed outcomes.now }
    ensures aborts { result.1 ≡ count_by is_aborted outcomes.now }
    ensures refusals { result.2 ≡ count_by is_refused outcomes.now }
{
    let mut commits: usize = 0;
    let mut aborts: usize = 0;
    let mut refusals: usize = 0;
    for outcome in outcomes {
        commits += usize::from(is_committed(outcome));
        aborts += usize::from(is_aborted(outcome));
        refusals += usize::from(is_refused(outcome));
    }
    (commits, aborts, refusals)
}

/// Whether the generator puts a key.
fn is_put(pair: &(Bytes, Bytes)) -> bool
    ensures { result ≡ (slice_index pair.now.0 0 == 107) }
{
    matches!(pair.0.as_slice(), [b'k', ..])
}

fn keys_counted(pairs: &[(Bytes, Bytes)]) -> usize
    ensures { result ≡ keys_counted pairs.now }
{
    pairs.iter().filter(|pair| is_put(*pair)).count()
}

/// Whether a key is that of a counter, by the text of its number.
fn is_counter(key: &[u8], number: &[u8]) -> bool
    ensures { result ≡ bytes_eq key.now (codes "c" ++ number.now) }
{
    match key.split_first() {
        Some((first, rest)) => *first == b'c' && rest == number,
        None => false,
    }
}

/// What a text counts: a number up to 32 bits, or else nothing.
fn small_number(text: &[u8]) -> u64
    ensures is { result ≡ small_number (Some text.now) }
    ensures small { result ≤ 4294967295 }
{
    match number_of(text) {
        Some(number) => {
            if 0 <= number && number <= MOST_COUNTED {
                number as u64
            } else {
                0
            }
        }
        None => 0,
    }
}

/// The value of the counter of a number.
#[tactic(auto, unfolding(fine_model::specs::Map::get))]
fn value_of<'m>(pairs: &'m [(Bytes, Bytes)], number: &[u8]) -> Option<&'m [u8]>
    ensures { option_map (λ value. value.now) result ≡ get pairs.now (codes "c" ++ number.now) }
{
    let pair = pairs
        .iter()
        .find(|pair| is_counter(pair.0.as_slice(), number))?;
    Some(pair.1.as_slice())
}

/// What the counter of a number counts.
fn counted(pairs: &[(Bytes, Bytes)], number: &[u8]) -> u64
    ensures is { result ≡ small_number (get pairs.now (codes "c" ++ number.now)) }
    ensures small { result ≤ 4294967295 }
{
    match value_of(pairs, number) {
        Some(value) => small_number(value),
        None => 0,
    }
}

/// The sum of all counters.
fn counters_summed(pairs: &[(Bytes, Bytes)]) -> u64
    ensures { result ≡ counters_summed pairs.now }
{
    let mut sum: u64 = 0;
    for i in 0..COUNTERS {
        let mut buffer = Buffer::new();
        sum += counted(pairs, buffer.format(i).as_bytes());
    }
    sum
}

/// Says the line of what was generated.
fn say_gen<K: Sink>(page: &mut Page, sink: &mut K, start: u64, count: usize, lanes: u8)
    ensures { Sends (gen_line start count lanes) (desk (K.written sink.old) (K.faults sink.old) page.old) (desk (K.written sink.new) (K.faults sink.new) page.new) }
{
    say_line(
        page,
        sink,
        &[
            Text(b"gen"),
            Number(start),
            Number(count as u64),
            Number(u64::from(lanes)),
        ],
    );
}

/// Says how many transactions have each outcome, of so many.
#[tactic(auto, using(crate::proofs::Paging::sends_then))]
fn say_counted<K: Sink>(page: &mut Page, sink: &mut K, outcomes: &[Outcome], all: usize)
    ensures { Sends (counted_lines outcomes.now all) (desk (K.written sink.old) (K.faults sink.old) page.old) (desk (K.written sink.new) (K.faults sink.new) page.new) }
{
    let (commits, aborts, refusals) = counts(outcomes);
    let none = all
        .saturating_sub(commits)
        .saturating_sub(aborts)
        .saturating_sub(refusals);
    say_line(page, sink, &[Text(b"commits"), Number(commits as u64)]);
    say_line(page, sink, &[Text(b"aborts"), Number(aborts as u64)]);
    say_line(page, sink, &[Text(b"refused"), Number(refusals as u64)]);
    say_line(page, sink, &[Text(b"none"), Number(none as u64)]);
}

/// Says what is counted in a map.
#[tactic(auto, using(crate::proofs::Paging::sends_then))]
fn say_map<K: Sink>(page: &mut Page, sink: &mut K, pairs: &[(Bytes, Bytes)])
    ensures { Sends (map_lines (Some pairs.now)) (desk (K.written sink.old) (K.faults sink.old) page.old) (desk (K.written sink.new) (K.faults sink.new) page.new) }
{
    say_line(
        page,
        sink,
        &[Text(b"keys"), Number(keys_counted(pairs) as u64)],
    );
    say_line(page, sink, &[Text(b"sum"), Number(counters_summed(pairs))]);
}

/// Says whether all is durable.
fn say_durable<K: Sink>(page: &mut Page, sink: &mut K, all_durable: bool)
    ensures { Sends (durable_line all_durable) (desk (K.written sink.old) (K.faults sink.old) page.old) (desk (K.written sink.new) (K.faults sink.new) page.new) }
{
    if all_durable {
        say_line(page, sink, &[Text(b"durable"), Text(b"all")]);
    } else {
        say_line(page, sink, &[Text(b"durable"), Text(b"part")]);
    }
}

/// Says what is counted in a map, where there is one.
fn say_found<K: Sink>(page: &mut Page, sink: &mut K, map: Option<&[(Bytes, Bytes)]>)
    ensures { Sends (map_lines (option_map (λ pairs. pairs.now) map.entry)) (desk (K.written sink.old) (K.faults sink.old) page.old) (desk (K.written sink.new) (K.faults sink.new) page.new) }
{
    match map {
        Some(pairs) => say_map(page, sink, pairs),
        None => {}
    }
}

/// Says the line of a fault, where there is one.
fn say_end<K: Sink>(page: &mut Page, sink: &mut K, fault: &Option<RunFault>)
    ensures { Sends (fault_lines fault.now) (desk (K.written sink.old) (K.faults sink.old) page.old) (desk (K.written sink.new) (K.faults sink.new) page.new) }
{
    match fault {
        Some(fault) => say_fault(page, sink, fault),
        None => {}
    }
}

/// A run of a generated script.
#[derive(Drop)]
pub struct GeneratedRun<'a> {
    /// The number that chose the script, and its lanes.
    pub start: u64,
    pub lanes: u8,
    pub script: &'a Script,
    /// Transactions without an outcome were not run.
    pub outcomes: &'a [Outcome],
    /// The pairs at the end, where they were read.
    pub map: Option<&'a [(Bytes, Bytes)]>,
    pub all_durable: bool,
    pub fault: Option<RunFault>,
}

/// Says the summary, and the fault that ended the run, if one did.
fn say_summary<K: Sink>(page: &mut Page, sink: &mut K, run: &GeneratedRun)
    ensures { Sends (summary_of run.now) (desk (K.written sink.old) (K.faults sink.old) page.old) (desk (K.written sink.new) (K.faults sink.new) page.new) }
{
    say_gen(page, sink, run.start, run.script.len(), run.lanes);
    say_counted(
        page,
        sink,
        run.outcomes,
        run.script.len().max(run.outcomes.len()),
    );
    say_found(page, sink, run.map);
    say_durable(page, sink, run.all_durable);
    say_end(page, sink, &run.fault);
}

/// Writes the summary of a run of a generated script: what was generated, how many transactions have each outcome, what is counted in the map at its end, where
/// that was read, whether all is durable, and the fault that ended the run early, if one did. Counted are the keys that begin with `k`, and the sum of the 64 counters.
/// Where the sink failed, a first part was written. It takes no memory.
pub fn write_summary<K: Sink>(sink: &mut K, run: &GeneratedRun) -> Result<(), Failed>
    ensures puts { Puts (summary_of run.now) (IsErr result) (K.written sink.old) (K.written sink.new) }
    ensures counts { CountsFault (IsErr result) (K.faults sink.old) (K.faults sink.new) }
{
    let mut page = Page::new();
    say_summary(&mut page, sink, run);
    page.finish(sink)
}
