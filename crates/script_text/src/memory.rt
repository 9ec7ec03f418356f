//! A source and a sink in memory, whose calls fail where they are told to.

ghost use Rattle.std.specs.Prelude.{◌≡◌, ◌+◌, ◌<◌, [], Some, length, IfOk, IsErr, OnErr};
ghost use Rattle.fine_model.specs.Faults.{CountsFault};
ghost use Rattle.script_text.specs.Console.{one_call_more};
ghost use Rattle.script_text.specs.Memory.{IsToFail};
ghost use Rattle.script_text.specs.Streams.{Takes, Puts};

use super::{Failed, Sink, Source};
use fine_model::NoMemory;
use std::alloc::Global;
use std::marker::Model;

/// A source of bytes in memory. It tells them.
#[derive(Drop)]
pub struct MemSource {
    bytes: Vec<u8>,
    at: usize,
    calls: u64,
    fails: Vec<u64>,
    faults: u64,
}

impl Model for MemSource {
    ghost use Rattle.std.specs.Prelude.{◌≤◌, drop, vec_len};
    ghost use Rattle.script_text.specs.Memory.{Holding};

    ghost Value = { Holding };

    ghost view = { λ s. record { bytes = drop s.at s.bytes.items; fails = s.fails.items; calls = s.calls; faults = s.faults } };

    ghost invariant = { λ s. s.at ≤ vec_len s.bytes };
}

impl MemSource {
    /// The source of these bytes. `fails` has the numbers, from 1, of the calls that fail.
    pub fn new(bytes: Vec<u8>, fails: Vec<u64>) -> MemSource
        ensures { result ≡ record { bytes = bytes.items; fails = fails.items; calls = 0; faults = 0 } }
    {
        MemSource {
            bytes,
            at: 0,
            calls: 0,
            fails,
            faults: 0,
        }
    }
}

impl Source for MemSource {
    ghost left = { λ s. Some s.bytes };

    ghost faults = { λ s. s.faults };

    /// It fails exactly where the call is one that is to fail.
    fn take(&mut self, out: &mut [u8]) -> Result<usize, Failed>
        ensures ok { IfOk result (λ n. Takes out.new n (Some self.old.bytes) (Some self.new.bytes)) }
        ensures err { OnErr result (Some self.new.bytes ≡ Some self.old.bytes) }
        ensures counts { CountsFault (IsErr result) self.old.faults self.new.faults }
        ensures calls { self.new.calls ≡ one_call_more self.old.calls }
        ensures fails { self.new.fails ≡ self.old.fails }
        ensures failed { IsToFail self.old.fails self.old.calls → IsErr result }
        ensures only { OnErr result (IsToFail self.old.fails self.old.calls) }
    {
        self.calls = self.calls.saturating_add(1);
        if self.fails.contains(&self.calls) {
            self.faults = self.faults.saturating_add(1);
            return Err(Failed);
        }
        let left = self.bytes.len() - self.at;
        let n = left.min(out.len());
        let end = self.at + n;
        out[..n].copy_from_slice(&self.bytes[self.at..end]);
        self.at = end;
        Ok(n)
    }
}

/// A sink in memory, with room for a number of bytes. It tells what was written.
#[derive(Drop)]
pub struct MemSink {
    bytes: Vec<u8>,
    room: usize,
    calls: u64,
    fails: Vec<u64>,
    faults: u64,
}

impl Model for MemSink {
    ghost use Rattle.std.specs.Prelude.{◌≤◌, vec_len};
    ghost use Rattle.script_text.specs.Memory.{Filling};

    ghost Value = { Filling };

    ghost view = { λ s. record { bytes = s.bytes.items; room = s.room; fails = s.fails.items; calls = s.calls; faults = s.faults } };

    ghost invariant = { λ s. vec_len s.bytes ≤ s.room };
}

impl MemSink {
    /// An empty sink that has `room` bytes reserved: a `put` that would pass them writes what fits and fails. `fails` has the
    /// numbers, from 1, of the other calls that fail.
    pub fn new(alloc: Global, room: usize, fails: Vec<u64>) -> Result<MemSink, NoMemory>
        ensures { IfOk result (λ sink. sink ≡ record { bytes = []; room = room; fails = fails.items; calls = 0; faults = 0 }) }
    {
        Ok(MemSink {
            bytes: Vec::with_capacity(alloc, room)?,
            room,
            calls: 0,
            fails,
            faults: 0,
        })
    }

    /// What was written.
    pub fn bytes(&self) -> &[u8]
        ensures { result.now ≡ self.now.bytes }
    {
        self.bytes.as_slice()
    }
}

impl Sink for MemSink {
    ghost written = { λ s. Some s.bytes };

    ghost faults = { λ s. s.faults };

    /// It fails where the call is one that is to fail, and then writes nothing, and where the bytes have no room. Where memory ends it
    /// may fail too.
    fn put(&mut self, bytes: &[u8]) -> Result<(), Failed>
        ensures puts { Puts bytes.now (IsErr result) (Some self.old.bytes) (Some self.new.bytes) }
        ensures counts { CountsFault (IsErr result) self.old.faults self.new.faults }
        ensures calls { self.new.calls ≡ one_call_more self.old.calls }
        ensures fails { self.new.fails ≡ self.old.fails }
        ensures room { self.new.room ≡ self.old.room }
        ensures failed { IsToFail self.old.fails self.old.calls → (IsErr result) × (self.new.bytes ≡ self.old.bytes) }
        ensures full { self.old.room < length self.old.bytes + length bytes.now → IsErr result }
    {
        self.calls = self.calls.saturating_add(1);
        let fails = self.fails.contains(&self.calls);
        let room = if fails {
            0
        } else {
            self.room - self.bytes.len()
        };
        let n = room.min(bytes.len());
        let kept = self.bytes.extend_from_slice(&bytes[..n]);
        if fails || n < bytes.len() || kept.is_err() {
            self.faults = self.faults.saturating_add(1);
            return Err(Failed);
        }
        Ok(())
    }
}
