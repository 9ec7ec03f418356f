//! The standard input as a source and the standard output as a sink.
//!
//! What the system gives and takes no contract can say. So both are generic over a reader and a writer: contracts say what a
//! call does with the bytes of one that tells them, and which one call of the library it makes on any.

ghost use Rattle.std.specs.Prelude.{◌≡◌, ◌≤◌, ⊤, None, length, option_map, IfOk, OnOk, OnErr, IsErr};
ghost use Rattle.std.specs.Result.{result_ok};
ghost use Rattle.std.specs.Io.KnownBytes.{ReadConsumes, Appends};
ghost use Rattle.fine_model.specs.Faults.{CountsFault};
ghost use Rattle.script_text.specs.Streams.{tells_nothing, Takes, Puts};
ghost use Rattle.script_text.specs.Console.{one_call_more};

use super::{Failed, Sink, Source};
use std::io::{self, Printer, Read, Write};
use std::marker::Model;
use std::snapshot::Snapshot;

/// The standard input, by its reader. As a source it tells no bytes.
#[derive(Drop)]
pub struct StdSource<I: Read> {
    input: Counted<I>,
}

impl<I: Read> Model for StdSource<I> {
    ghost use Rattle.script_text.specs.Console.{StreamState};

    ghost Value = { StreamState };

    ghost view = { λ s. record { faults = s.input.faults; calls = s.input.calls; asked = s.input.asked.value; done = s.input.done.value; told = I.remaining s.input.stream } };
}

impl<I: Read> StdSource<I> {
    /// The standard input, from where it stands.
    pub fn new<R: Input<Reader = I>>(rt: &R) -> StdSource<I>
        ensures faults { result.faults ≡ 0 }
        ensures calls { result.calls ≡ 0 }
    {
        StdSource {
            input: Counted::new(rt.reader()),
        }
    }
}

impl<I: Read> Source for StdSource<I> {
    ghost left = { λ _. tells_nothing };

    ghost faults = { λ input. input.faults };

    /// It reads once, for as many bytes as `out` has, and answers what that read answered, or `Failed` where it failed. Of a
    /// reader that tells its bytes `out` begins with the next ones; behind them `out` is as the reader left it.
    fn take(&mut self, out: &mut [u8]) -> Result<usize, Failed>
        ensures ok { IfOk result (λ n. Takes out.new n tells_nothing tells_nothing) }
        ensures err { OnErr result (tells_nothing ≡ tells_nothing) }
        ensures counts { CountsFault (IsErr result) self.old.faults self.new.faults }
        ensures once { self.new.calls ≡ one_call_more self.old.calls }
        ensures asked { self.new.asked ≡ length out.new }
        ensures done { self.new.done ≡ result_ok result }
        ensures bytes { ReadConsumes self.old.told self.new.told result out.new }
    {
        self.input.read(out)
    }
}

/// The standard output, by a writer that prints to it. As a sink it tells no bytes.
#[derive(Drop)]
pub struct StdSink<W: Write> {
    output: Counted<W>,
}

impl<W: Write> Model for StdSink<W> {
    ghost use Rattle.script_text.specs.Console.{StreamState};

    ghost Value = { StreamState };

    ghost view = { λ s. record { faults = s.output.faults; calls = s.output.calls; asked = s.output.asked.value; done = s.output.done.value; told = W.contents s.output.stream } };
}

impl<'r, R: Print> StdSink<Printer<'r, R>> {
    /// The standard output, behind what was printed.
    pub fn new(rt: &'r R) -> StdSink<Printer<'r, R>>
        ensures { result ≡ record { faults = 0; calls = 0; asked = 0; done = None; told = None } }
    {
        StdSink {
            output: Counted::new(io::writer(rt)),
        }
    }
}

impl<W: Write> Sink for StdSink<W> {
    ghost written = { λ _. tells_nothing };

    ghost faults = { λ output. output.faults };

    /// It writes once, all of the bytes, and `Failed` says that this failed. A writer that tells its bytes has just these more.
    fn put(&mut self, bytes: &[u8]) -> Result<(), Failed>
        ensures puts { Puts bytes.now (IsErr result) tells_nothing tells_nothing }
        ensures counts { CountsFault (IsErr result) self.old.faults self.new.faults }
        ensures once { self.new.calls ≡ one_call_more self.old.calls }
        ensures asked { self.new.asked ≡ length bytes.now }
        ensures done { self.new.done ≡ option_map (λ _. length bytes.now) (result_ok result) }
        ensures bytes { OnOk result (Appends self.old.told self.new.told bytes.now) }
    {
        self.output.write(bytes)
    }
}

// A reader or a writer. It counts the calls on it and those that failed, and keeps for contracts what the last one was for and what it answered, which
// takes no memory.
#[derive(Drop)]
struct Counted<S> {
    stream: S,
    faults: u64,
    calls: u64,
    asked: Snapshot<usize>,
    done: Snapshot<Option<usize>>,
}

impl<S> Counted<S> {
    fn new(stream: S) -> Counted<S>
        ensures stream { result.stream ≡ stream }
        ensures faults { result.faults ≡ 0 }
        ensures calls { result.calls ≡ 0 }
        ensures asked { result.asked.value ≡ 0 }
        ensures done { result.done.value ≡ None }
    {
        Counted {
            stream,
            faults: 0,
            calls: 0,
            asked: Snapshot::of(&0),
            done: Snapshot::of(&None),
        }
    }
}

impl<I: Read> Counted<I> {
    fn read(&mut self, out: &mut [u8]) -> Result<usize, Failed>
        ensures len { IfOk result (λ n. n ≤ length out.new) }
        ensures counts { CountsFault (IsErr result) self.old.faults self.new.faults }
        ensures once { self.new.calls ≡ one_call_more self.old.calls }
        ensures asked { self.new.asked.value ≡ length out.new }
        ensures done { self.new.done.value ≡ result_ok result }
        ensures bytes { ReadConsumes (I.remaining self.old.stream) (I.remaining self.new.stream) result out.new }
    {
        self.calls = self.calls.saturating_add(1);
        self.asked = Snapshot::of(&out.len());
        let taken = self.stream.read(out);
        self.done = Snapshot::of(&taken.as_ref().ok().copied());
        match taken {
            Ok(taken) => Ok(taken),
            Err(_) => Err(failed(&mut self.faults)),
        }
    }
}

impl<W: Write> Counted<W> {
    fn write(&mut self, bytes: &[u8]) -> Result<(), Failed>
        ensures counts { CountsFault (IsErr result) self.old.faults self.new.faults }
        ensures once { self.new.calls ≡ one_call_more self.old.calls }
        ensures asked { self.new.asked.value ≡ length bytes.now }
        ensures done { self.new.done.value ≡ option_map (λ _. length bytes.now) (result_ok result) }
        ensures bytes { OnOk result (Appends (W.contents self.old.stream) (W.contents self.new.stream) bytes.now) }
    {
        self.calls = self.calls.saturating_add(1);
        self.asked = Snapshot::of(&bytes.len());
        let written = self.stream.write_all(bytes);
        self.done = Snapshot::of(&written.is_ok().then_some(bytes.len()));
        match written {
            Ok(()) => Ok(()),
            Err(_) => Err(failed(&mut self.faults)),
        }
    }
}

// What a call answers that failed, which it counts.
fn failed(faults: &mut u64) -> Failed
    ensures { CountsFault ⊤ faults.old faults.new }
{
    *faults = faults.saturating_add(1);
    Failed
}
