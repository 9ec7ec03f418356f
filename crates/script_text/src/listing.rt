//! The listings of a log: its pairs, and the parts of its chain.

ghost use Rattle.std.specs.Prelude.{◌≡◌, flat_map, IsErr};
ghost use Rattle.fine_model.specs.Chain.{chain_end};
ghost use Rattle.fine_model.specs.Faults.{CountsFault};
ghost use Rattle.fine_model.specs.Report.{dump, part_line, ranges};
ghost use Rattle.script_text.specs.Pages.{desk, Sends};
ghost use Rattle.script_text.specs.Streams.{Puts};

use super::line::Word::{Number, Text};
use super::line::say_line;
use super::page::Page;
use super::report::say_pairs;
use super::{Failed, Sink};
use fine_model::{Bytes, Part};

/// Says the line of a part.
fn say_part<K: Sink>(page: &mut Page, sink: &mut K, part: &Part)
    ensures { Sends (part_line part.now) (desk (K.written sink.old) (K.faults sink.old) page.old) (desk (K.written sink.new) (K.faults sink.new) page.new) }
{
    say_line(
        page,
        sink,
        &[
            Text(b"range"),
            Number(part.header.range.first),
            Number(part.header.range.last),
            Text(b"region"),
            Number(u64::from(part.region)),
            Text(b"rows"),
            Number(u64::from(part.header.rows)),
        ],
    );
}

/// Says the lines of parts.
fn say_parts<K: Sink>(page: &mut Page, sink: &mut K, parts: &[Part])
    ensures { Sends (flat_map part_line parts.now) (desk (K.written sink.old) (K.faults sink.old) page.old) (desk (K.written sink.new) (K.faults sink.new) page.new) }
{
    for part in parts {
        say_part(page, sink, part);
    }
}

/// The last epoch of a chain, or 0.
fn end_of(chain: &[Part]) -> u64
    ensures { result ≡ chain_end chain.now }
{
    chain.iter().fold(0, |_end, part| part.header.range.last)
}

/// Says the pairs of a map, and how many there are.
#[tactic(auto, using(crate::proofs::Paging::sends_then), unfolding(fine_model::specs::Report::dump))]
fn say_dump<K: Sink>(page: &mut Page, sink: &mut K, pairs: &[(Bytes, Bytes)])
    ensures { Sends (dump pairs.now) (desk (K.written sink.old) (K.faults sink.old) page.old) (desk (K.written sink.new) (K.faults sink.new) page.new) }
{
    say_pairs(page, sink, pairs);
    say_line(page, sink, &[Text(b"pairs"), Number(pairs.len() as u64)]);
}

/// Says the parts of a chain, and the last epoch.
#[tactic(auto, using(crate::proofs::Paging::sends_then), unfolding(fine_model::specs::Report::ranges))]
fn say_ranges<K: Sink>(page: &mut Page, sink: &mut K, chain: &[Part])
    ensures { Sends (ranges chain.now) (desk (K.written sink.old) (K.faults sink.old) page.old) (desk (K.written sink.new) (K.faults sink.new) page.new) }
{
    say_parts(page, sink, chain);
    say_line(page, sink, &[Text(b"end"), Number(end_of(chain))]);
}

/// Writes the pairs of a map in their order, a line each, and how many there are. Where the sink failed, a first part was written. It takes no memory.
pub fn write_dump<K: Sink>(sink: &mut K, pairs: &[(Bytes, Bytes)]) -> Result<(), Failed>
    ensures puts { Puts (dump pairs.now) (IsErr result) (K.written sink.old) (K.written sink.new) }
    ensures counts { CountsFault (IsErr result) (K.faults sink.old) (K.faults sink.new) }
{
    let mut page = Page::new();
    say_dump(&mut page, sink, pairs);
    page.finish(sink)
}

/// Writes the parts of a chain in its order, a line each with the epochs, the first region and the rows of the part, and the chain's last epoch. Where the sink
/// failed, a first part was written. It takes no memory.
pub fn write_ranges<K: Sink>(sink: &mut K, chain: &[Part]) -> Result<(), Failed>
    ensures puts { Puts (ranges chain.now) (IsErr result) (K.written sink.old) (K.written sink.new) }
    ensures counts { CountsFault (IsErr result) (K.faults sink.old) (K.faults sink.new) }
{
    let mut page = Page::new();
    say_ranges(&mut page, sink, chain);
    page.finish(sink)
}
