//! Bytes at the front of a buffer that stays as long as it is, so that it is not filled before each read.

ghost use Rattle.std.specs.Prelude.{◌≡◌, ℕ, ◌+◌, ◌-◌, ◌<◌, ◌≤◌, IfErr, IfOk, IsErr, IsErrOf, OnErr, OnOk, [], drop, length, take, vec_len};
ghost use Rattle.fine_model.specs.declared.FetchFault.TheVariants as fetch_fault;
ghost use Rattle.fine_model.specs.Regions.{body_len};
ghost use Rattle.partition_index.specs.Parts.{CountsFaults, IsSeen, LooksAt, SameEye};
ghost use Rattle.partition_index.specs.Search.{IsRangeAt};
ghost use Rattle.node_fetch.specs.Fetched.{NoDamage};

use fine_model::{FetchFault, NoMemory, Part};
use log_disk::{Failed, LogEye};
use partition_index::read_body;
use std::alloc::Global;
use std::marker::Model;

// Moves bytes behind the first ones to the front, where they have room.
fn move_front(bytes: &mut [u8], passed: usize, kept: usize)
    requires within { passed + kept ≤ length bytes.old }
    requires room { kept ≤ passed }
    ensures front { take kept bytes.new ≡ take kept (drop passed bytes.old) }
    ensures len { length bytes.new ≡ length bytes.old }
{
    let (front, back) = bytes.split_at_mut(passed);
    front[..kept].copy_from_slice(&back[..kept]);
}

// Sees that there are so many bytes, of which those that are there stay.
fn lengthen(bytes: &mut Vec<u8>, len: usize) -> Result<(), NoMemory>
    ensures long { OnOk result (len ≤ vec_len bytes.new) }
    ensures kept { (n : ℕ) → n ≤ vec_len bytes.old → take n bytes.new.items ≡ take n bytes.old.items }
    ensures longer { vec_len bytes.old ≤ vec_len bytes.new }
{
    if len <= bytes.len() {
        return Ok(());
    }
    bytes.resize(len, 0)?;
    Ok(())
}

// Reads into a slice behind its first bytes, up to an end.
fn read_behind<E: LogEye>(
    eye: &mut E,
    part: &Part,
    region_len: u64,
    at: u32,
    bytes: &mut [u8],
    kept: usize,
    end: usize,
) -> Result<(), Failed>
    requires seen { IsSeen (E.LogEye.state eye.old) part.now }
    requires region_len { region_len ≡ (E.LogEye.state eye.old).region_len }
    requires kept { kept ≤ end }
    requires room { end ≤ length bytes.old }
    requires within { at + (end - kept) ≤ body_len part.now.header }
    ensures front { take kept bytes.new ≡ take kept bytes.old }
    ensures len { length bytes.new ≡ length bytes.old }
    ensures looks { LooksAt part.now at (take (end - kept) (drop kept bytes.new)) (IsErr result) (E.LogEye.state eye.old) (E.LogEye.state eye.new) }
{
    let (_, behind) = bytes.split_at_mut(kept);
    let (room, _) = behind.split_at_mut(end - kept);
    read_body(eye, part, region_len, at, room)
}

/// Bytes, and room behind them. What stands in the room is of no interest: it was set once, and is written over by a read.
#[derive(Drop)]
pub(crate) struct Buffer {
    bytes: Vec<u8>,
    len: usize,
}

impl Model for Buffer {
    ghost use Rattle.std.specs.Prelude.{ℕ, ◌≤◌, List, take, vec_len};

    ghost Value = { List ℕ };

    ghost view = { λ b. take b.len b.bytes.items };

    ghost invariant = { λ b. b.len ≤ vec_len b.bytes };
}

impl Buffer {
    /// No bytes, and room for so many.
    pub(crate) fn with_room(alloc: Global, room: usize) -> Result<Buffer, NoMemory>
        ensures { IfOk result (λ buffer. buffer ≡ []) }
    {
        Ok(Buffer {
            bytes: vec![in alloc; 0; room]?,
            len: 0,
        })
    }

    /// How many bytes there are.
    #[inline(always)]
    pub(crate) fn len(&self) -> usize
        ensures { result ≡ length self.now }
    {
        self.len
    }

    /// The bytes.
    #[inline(always)]
    pub(crate) fn as_slice(&self) -> &[u8]
        ensures { result.now ≡ self.now }
    {
        &self.bytes[..self.len]
    }

    /// Drops all bytes.
    pub(crate) fn clear(&mut self)
        ensures { self.new ≡ [] }
    {
        self.len = 0;
    }

    /// Drops the first bytes. Those behind them have room in their place.
    pub(crate) fn drop_front(&mut self, passed: usize)
        requires within { passed ≤ length self.old }
        requires room { length self.old ≤ passed + passed }
        ensures { self.new ≡ drop passed self.old }
    {
        let kept = self.len - passed;
        move_front(&mut self.bytes, passed, kept);
        self.len = kept;
    }

    /// Reads so many bytes of the body of a part behind those that are there. After a fault there are those that were there.
    ///
    /// `Failed` comes only where the eye's count of faults rose in this call; `NoMemory` only where there is no room for the bytes.
    pub(crate) fn read_on<E: LogEye>(
        &mut self,
        eye: &mut E,
        part: &Part,
        region_len: u64,
        at: u32,
        more: usize,
    ) -> Result<(), FetchFault>
        requires small { length self.old + more < 4294967296 }
        requires within { at + more ≤ body_len part.now.header }
        requires seen { IsSeen (E.LogEye.state eye.old) part.now }
        requires region_len { region_len ≡ (E.LogEye.state eye.old).region_len }
        ensures same { SameEye (E.LogEye.state eye.old) (E.LogEye.state eye.new) }
        ensures counts { CountsFaults (IsErrOf result fetch_fault.Failed) (E.LogEye.state eye.old) (E.LogEye.state eye.new) }
        ensures fault { IfErr result NoDamage }
        ensures taken { (E.LogEye.state eye.new).taken ≤ (E.LogEye.state eye.old).taken + more }
        ensures kept { OnErr result (self.new ≡ self.old) }
        ensures front { OnOk result (take (length self.old) self.new ≡ self.old) }
        ensures long { OnOk result (length self.new ≡ length self.old + more) }
        ensures read { OnOk result (IsRangeAt (E.LogEye.state eye.old).told part.now at (drop (length self.old) self.new)) }
    {
        let end = self.len + more;
        if lengthen(&mut self.bytes, end).is_err() {
            return Err(FetchFault::NoMemory);
        }
        if read_behind(eye, part, region_len, at, &mut self.bytes, self.len, end).is_err() {
            return Err(FetchFault::Failed);
        }
        self.len = end;
        Ok(())
    }
}
