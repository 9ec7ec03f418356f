//! Bytes in memory, to read from and to write to.

ghost use Rattle.std.specs.Prelude.{◌≡◌, ℕ, [], Some};

use script_text::{Failed, Sink, Source};
use std::alloc::Global;

/// What is left of some bytes. It never fails.
#[derive(Clone, Copy)]
pub(crate) struct Rest<'a> {
    pub(crate) bytes: &'a [u8],
}

impl<'a> Source for Rest<'a> {
    ghost left = { λ s. Some s.bytes.now };

    ghost faults = { λ s. 0 };

    fn take(&mut self, out: &mut [u8]) -> Result<usize, Failed> {
        let n = self.bytes.len().min(out.len());
        let (first, rest) = self.bytes.split_at(n);
        out[..n].copy_from_slice(first);
        self.bytes = rest;
        Ok(n)
    }
}

/// A text that grows as it is written. A call fails only for want of memory.
#[derive(Drop)]
pub(crate) struct Text {
    pub(crate) bytes: Vec<u8>,
    faults: u64,
}

impl Text {
    pub(crate) fn new(alloc: Global) -> Text
        ensures { result.bytes.items ≡ [] }
    {
        Text {
            bytes: Vec::new(alloc),
            faults: 0,
        }
    }
}

impl Sink for Text {
    ghost written = { λ t. Some t.bytes.items };

    ghost faults = { λ t. t.faults };

    fn put(&mut self, bytes: &[u8]) -> Result<(), Failed> {
        if self.bytes.extend_from_slice(bytes).is_err() {
            self.faults = self.faults.saturating_add(1);
            return Err(Failed);
        }
        Ok(())
    }
}
