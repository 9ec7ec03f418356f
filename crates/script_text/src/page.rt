//! A page gathers small pieces before they go to a sink.

ghost use Rattle.std.specs.Prelude.{◌≡◌, [], ◌∷◌, ◌++◌, false, if◌then◌else◌, IsErr};
ghost use Rattle.script_text.specs.Pages.{Gathered, desk, Sends, Finishes};

use super::array::ByteArray;
use super::{Failed, Sink};
use std::marker::Model;

const PAGE: usize = 1024;

/// The bytes that were said and not yet put. Once the sink has failed nothing more is put.
#[derive(Drop)]
pub(crate) struct Page {
    bytes: ByteArray<PAGE>,
    failed: bool,
}

impl Model for Page {
    ghost Value = { Gathered };

    ghost view = { λ p. record { bytes = p.bytes; failed = p.failed } };
}

impl Page {
    pub(crate) fn new() -> Page
        ensures { result ≡ record { bytes = []; failed = false } }
    {
        Page {
            bytes: ByteArray::new(),
            failed: false,
        }
    }

    /// Gathers the bytes, if there is room for them.
    fn gather(&mut self, bytes: &[u8]) -> bool
        ensures bytes { self.new.bytes ≡ (if result then self.old.bytes ++ bytes.now else self.old.bytes) }
        ensures failed { self.new.failed ≡ self.old.failed }
    {
        if self.bytes.room() < bytes.len() {
            return false;
        }
        self.bytes.extend(bytes);
        true
    }

    /// Gathers a byte, if there is room for it.
    fn gather_byte(&mut self, byte: u8) -> bool
        ensures bytes { self.new.bytes ≡ (if result then self.old.bytes ++ byte ∷ [] else self.old.bytes) }
        ensures failed { self.new.failed ≡ self.old.failed }
    {
        if self.bytes.room() == 0 {
            return false;
        }
        self.bytes.push(byte);
        true
    }

    /// Puts what was gathered.
    fn flush<K: Sink>(&mut self, sink: &mut K)
        ensures sends { Sends [] (desk (K.written sink.old) (K.faults sink.old) self.old) (desk (K.written sink.new) (K.faults sink.new) self.new) }
        ensures empty { self.new.bytes ≡ [] }
    {
        if !self.failed {
            self.failed = sink.put(self.bytes.as_slice()).is_err();
        }
        self.bytes.clear();
    }

    /// Puts bytes past the empty page.
    fn pass<K: Sink>(&mut self, sink: &mut K, bytes: &[u8])
        requires { self.old.bytes ≡ [] }
        ensures { Sends bytes.now (desk (K.written sink.old) (K.faults sink.old) self.old) (desk (K.written sink.new) (K.faults sink.new) self.new) }
    {
        if self.failed {
            return;
        }
        self.failed = sink.put(bytes).is_err();
    }

    /// Puts what was gathered, and gathers bytes for which there was no room, or puts them too.
    #[cold]
    fn put_before<K: Sink>(&mut self, sink: &mut K, bytes: &[u8])
        ensures { Sends bytes.now (desk (K.written sink.old) (K.faults sink.old) self.old) (desk (K.written sink.new) (K.faults sink.new) self.new) }
    {
        self.flush(sink);
        if self.gather(bytes) {
            return;
        }
        self.pass(sink, bytes);
    }

    /// Says the bytes: they are gathered, or put now.
    pub(crate) fn say<K: Sink>(&mut self, sink: &mut K, bytes: &[u8])
        ensures { Sends bytes.now (desk (K.written sink.old) (K.faults sink.old) self.old) (desk (K.written sink.new) (K.faults sink.new) self.new) }
    {
        if self.gather(bytes) {
            return;
        }
        self.put_before(sink, bytes);
    }

    /// Says a byte.
    pub(crate) fn say_byte<K: Sink>(&mut self, sink: &mut K, byte: u8)
        ensures { Sends (byte ∷ []) (desk (K.written sink.old) (K.faults sink.old) self.old) (desk (K.written sink.new) (K.faults sink.new) self.new) }
    {
        if self.gather_byte(byte) {
            return;
        }
        self.put_before(sink, &[byte]);
    }

    /// Puts what is left, and answers whether all was put.
    pub(crate) fn finish<K: Sink>(mut self, sink: &mut K) -> Result<(), Failed>
        ensures { Finishes (desk (K.written sink.old) (K.faults sink.old) self) (IsErr result) (K.written sink.new) (K.faults sink.new) }
    {
        self.flush(sink);
        if self.failed { Err(Failed) } else { Ok(()) }
    }
}
