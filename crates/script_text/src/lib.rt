//! Scripts as bytes, and what the program prints: where bytes come from and go to, the reader of scripts, the writer of reports.
#![tactic(auto)]

ghost use Rattle.std.specs.Prelude.{◌≡◌, ℕ, List, Option, IfOk, OnErr, IsErr};
ghost use Rattle.fine_model.specs.Faults.{CountsFault};
ghost use Rattle.script_text.specs.Streams.{Takes, Puts};

mod array;
mod console;
mod generating;
mod grammar;
mod line;
mod lines;
mod listing;
mod memory;
mod page;
mod read;
mod reading;
mod report;
mod report_law;
mod search;
mod summary;

pub use console::{StdSink, StdSource};
pub use generating::generate;
pub use listing::{write_dump, write_ranges};
pub use memory::{MemSink, MemSource};
pub use read::{ScriptFault, read_script};
pub use report::{write_reason, write_report};
pub use report_law::text_law;
pub use summary::{GeneratedRun, write_summary};

/// A call of a source or of a sink failed.
#[derive(Clone, Copy, Debug, PartialEq, Eq)]
pub struct Failed;

/// Where bytes come from.
pub trait Source {
    /// The bytes that are left, where the source tells them.
    ghost left: { Self → Option (List ℕ) };

    /// How often a call has failed.
    ghost faults: { Self → ℕ };

    /// Fills a first part of `out` and answers its length. It is 0 for a slice that is not empty only at the end. A call that
    /// fails takes no bytes.
    fn take(&mut self, out: &mut [u8]) -> Result<usize, Failed>
        ensures ok { IfOk result (λ n. Takes out.new n (left self.old) (left self.new)) }
        ensures err { OnErr result (left self.new ≡ left self.old) }
        ensures counts { CountsFault (IsErr result) (faults self.old) (faults self.new) };
}

/// Where bytes go to.
pub trait Sink {
    /// The bytes that were written, where the sink tells them.
    ghost written: { Self → Option (List ℕ) };

    /// How often a call has failed.
    ghost faults: { Self → ℕ };

    /// Writes the bytes behind those that were written. A call that fails has written some first bytes of them.
    fn put(&mut self, bytes: &[u8]) -> Result<(), Failed>
        ensures puts { Puts bytes.now (IsErr result) (written self.old) (written self.new) }
        ensures counts { CountsFault (IsErr result) (faults self.old) (faults self.new) };
}
