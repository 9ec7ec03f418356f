//! Windows on the body of a part, through which it is read in blocks.

ghost use Rattle.std.specs.Prelude.{◌≡◌, ℕ, ◌+◌, ◌-◌, ◌*◌, ◌<◌, ◌≤◌, false, true, IfErr, IfOk, IsErrOf, OnErr, OnOk, Option, drop, length, max, take};
ghost use Rattle.partition_merge.specs.Cited.{CountsFaults, Image, IsRangeAt, IsSeen, NoDamage, Part, SameEye, body_len};
ghost use Rattle.fine_model.specs.declared.FetchFault.TheVariants as fetch_fault;
ghost use Rattle.partition_merge.specs.Windows.{HoldsWindow, no_window, window_end};

use crate::buffer::Buffer;
use fine_model::{FetchFault, NoMemory, Part};
use log_disk::LogEye;
use std::alloc::Global;
use std::marker::Model;

/// What a read of a part answers.
pub(crate) type Fetched<T> = Result<T, FetchFault>;

/// What was read ahead of a part that is not read through windows: nothing. It takes no bytes, and stands where contracts of such a part
/// and of one that is have the same form.
#[derive(Clone, Copy)]
pub(crate) struct Unread;

impl Model for Unread {
    ghost use Rattle.partition_merge.specs.Windows.{AheadValue, nothing_ahead};

    ghost Value = { AheadValue };

    ghost view = { λ _. nothing_ahead };

    ghost inverse = { λ _. record {} };
}

/// A window on the body of a part: bytes of it from an offset on.
#[derive(Drop)]
pub(crate) struct Window {
    from: u32,
    block: u32,
    bytes: Buffer,
}

impl Model for Window {
    ghost use Rattle.partition_merge.specs.Windows.{WindowValue};

    ghost Value = { WindowValue };

    ghost view = { λ w. record { from = w.from; bytes = w.bytes } };
}

impl Window {
    /// A window with no bytes, through which `len` bytes are read in blocks. It has room for a block, or for all of them.
    pub(crate) fn new(alloc: Global, len: u32, block: u32) -> Result<Window, NoMemory>
        ensures { IfOk result (λ window. window ≡ no_window) }
    {
        Ok(Window {
            from: 0,
            block,
            bytes: Buffer::with_room(alloc, len.min(block) as usize)?,
        })
    }

    // Whether the bytes of a range stand in the window.
    #[inline(always)]
    fn has(&self, at: u32, len: u32) -> bool
        requires small { window_end self.now < 4294967296 }
        requires within { at + len < 4294967296 }
        ensures has { result ≡ true → (self.now.from ≤ at) × (at + len ≤ window_end self.now) }
        ensures lacks { result ≡ false → self.now.from ≤ at → window_end self.now < at + len }
    {
        self.from <= at && at + len <= self.from + self.bytes.len() as u32
    }

    // Leaves out the bytes before an offset, if those behind it have room in their place, or all of them, if the offset is not within.
    #[cold]
    fn leave(&mut self, at: u32)
        requires small { window_end self.old < 4294967296 }
        ensures from { self.new.from ≤ at }
        ensures reaches { at ≤ window_end self.new }
        ensures behind { self.old.from ≤ at → window_end self.new ≡ max (window_end self.old) at }
        ensures before { at < self.old.from → window_end self.new ≡ at }
        ensures range { (known : Option Image) (part : Part) → IsRangeAt known part self.old.from self.old.bytes → IsRangeAt known part self.new.from self.new.bytes }
    {
        let end = self.from + self.bytes.len() as u32;
        if at < self.from || end < at {
            self.bytes.clear();
            self.from = at;
            return;
        }
        let passed = (at - self.from) as usize;
        let kept = self.bytes.len() - passed;
        if passed < kept {
            return;
        }
        self.bytes.drop_front(passed);
        self.from = at;
    }

    // Reads on behind the window, until it has so many bytes. After a fault it has those that it had.
    #[cold]
    fn extend<E: LogEye>(
        &mut self,
        eye: &mut E,
        part: &Part,
        region_len: u64,
        len: u32,
    ) -> Fetched<()>
        requires seen { IsSeen (E.LogEye.state eye.old) part.now }
        requires region_len { region_len ≡ (E.LogEye.state eye.old).region_len }
        requires longer { length self.old.bytes ≤ len }
        requires within { self.old.from + len ≤ body_len part.now.header }
        ensures same { SameEye (E.LogEye.state eye.old) (E.LogEye.state eye.new) }
        ensures counts { CountsFaults (IsErrOf result fetch_fault.Failed) (E.LogEye.state eye.old) (E.LogEye.state eye.new) }
        ensures fault { IfErr result NoDamage }
        ensures from { self.new.from ≡ self.old.from }
        ensures long { OnOk result (length self.new.bytes ≡ len) }
        ensures few { length self.new.bytes ≤ len }
        ensures kept { OnErr result (self.new ≡ self.old) }
        ensures range { IsRangeAt (E.LogEye.state eye.old).told part.now self.old.from self.old.bytes → IsRangeAt (E.LogEye.state eye.old).told part.now self.new.from self.new.bytes }
        ensures taken { (E.LogEye.state eye.new).taken ≤ (E.LogEye.state eye.old).taken + (len - length self.old.bytes) }
    {
        let kept = self.bytes.len();
        let at = self.from + kept as u32;
        self.bytes
            .read_on(eye, part, region_len, at, len as usize - kept)
    }

    /// Sees that a range of the body stands in the window. Where it does not, more is read behind what is still asked for: a block, but
    /// nothing behind `end`.
    ///
    /// Ranges that ascend have each byte read once. `Failed` comes only where the eye's count of faults rose in this call; `NoMemory` only
    /// where the range is longer than half a block.
    #[inline(always)]
    pub(crate) fn reach<E: LogEye>(
        &mut self,
        eye: &mut E,
        part: &Part,
        region_len: u64,
        at: u32,
        len: u32,
        end: u32,
    ) -> Fetched<()>
        requires seen { IsSeen (E.LogEye.state eye.old) part.now }
        requires region_len { region_len ≡ (E.LogEye.state eye.old).region_len }
        requires within { at + len ≤ end }
        requires end { end ≤ body_len part.now.header }
        requires holds { HoldsWindow (E.LogEye.state eye.old).told part.now end self.old }
        ensures same { SameEye (E.LogEye.state eye.old) (E.LogEye.state eye.new) }
        ensures counts { CountsFaults (IsErrOf result fetch_fault.Failed) (E.LogEye.state eye.old) (E.LogEye.state eye.new) }
        ensures fault { IfErr result NoDamage }
        ensures holds { HoldsWindow (E.LogEye.state eye.old).told part.now end self.new }
        ensures reached { OnOk result ((self.new.from ≤ at) × (at + len ≤ window_end self.new)) }
        ensures ahead { self.old.from ≤ at → OnOk result ((E.LogEye.state eye.new).taken + max (window_end self.old) at ≤ (E.LogEye.state eye.old).taken + window_end self.new) }
        ensures taken { self.old.from ≤ at → (E.LogEye.state eye.new).taken ≤ (E.LogEye.state eye.old).taken + (end - max (window_end self.old) at) }
    {
        if self.has(at, len) {
            return Ok(());
        }
        self.leave(at);
        let need = (at - self.from) + len;
        let most = need.max(self.block).min(end - self.from);
        self.extend(eye, part, region_len, most)
    }

    /// The bytes of a range that stands in the window.
    #[inline(always)]
    pub(crate) fn range(&self, at: u32, len: u32) -> &[u8]
        requires reached { (self.now.from ≤ at) × (at + len ≤ window_end self.now) }
        ensures long { length result.now ≡ len }
        ensures bytes { result.now ≡ take len (drop (at - self.now.from) self.now.bytes) }
        ensures range { (known : Option Image) (part : Part) → IsRangeAt known part self.now.from self.now.bytes → IsRangeAt known part at result.now }
    {
        let from = (at - self.from) as usize;
        &self.bytes.as_slice()[from..from + len as usize]
    }
}
