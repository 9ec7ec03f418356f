//! The draft of an entry.

ghost use Rattle.std.specs.Prelude.{◌≡◌, true, false, [], ◌∷◌, ◌++◌, OnOk};

use fine_model::{Call, Copied, Entry, Items, NoMemory, Reply, Write};
use private_log::PrivateLog;
use std::alloc::Global;
use std::marker::Model;
use std::mem;

/// Whether a call may write, and then pushes a row at least.
fn may_write(call: &Call) -> bool {
    match call {
        Call::Put { .. } | Call::Del { .. } | Call::Add { .. } => true,
        Call::Get { .. } | Call::Scan { .. } => false,
    }
}

/// An open transaction: the calls that were answered, their replies, what they write, and the rows that they pushed. Contracts see what its
/// entry is to have. It holds no bucket.
#[derive(Drop)]
pub struct Draft {
    pub(crate) lane: u8,
    pub(crate) turn: u32,
    pub(crate) calls: Vec<Call>,
    pub(crate) replies: Vec<Reply>,
    pub(crate) writes: Vec<Write>,
    pub(crate) log: PrivateLog,
    pub(crate) failed: bool,
}

impl Model for Draft {
    ghost use Rattle.txn_draft.specs.Drafts.{DraftValue};

    ghost Value = { DraftValue };

    ghost view = { λ d. record { lane = d.lane; turn = d.turn; calls = d.calls.items; replies = d.replies.items; writes = d.writes.items; rows = d.log; failed = d.failed } };
}

impl Draft {
    ghost use Rattle.txn_draft.specs.Cited.{cost, option_to_list};
    ghost use Rattle.txn_draft.specs.Drafts.{blank, entry_of, noted};

    /// A transaction of a lane, with its number in the script. It takes no memory.
    pub fn new(alloc: Global, lane: u8, turn: u32) -> Draft
        ensures { result ≡ blank lane turn }
    {
        Draft {
            lane,
            turn,
            calls: Vec::new(alloc),
            replies: Vec::new(alloc),
            writes: Vec::new(alloc),
            log: PrivateLog::new(alloc),
            failed: false,
        }
    }

    /// The same for a transaction of which all calls are known: it takes memory for what they leave, where it is to be had, and no more than that. An entry then
    /// has no list that is longer than it needs to be, however many of them are kept.
    pub fn for_calls(alloc: Global, lane: u8, turn: u32, calls: &[Call]) -> Draft
        ensures { result ≡ blank lane turn }
    {
        let writing = calls.iter().filter(|call| may_write(call)).count();
        let mut draft = Draft::new(alloc, lane, turn);
        let _ = draft.calls.reserve_exact(calls.len());
        let _ = draft.replies.reserve_exact(calls.len());
        let _ = draft.writes.reserve_exact(writing);
        draft.log = PrivateLog::with_capacity(alloc, writing);
        draft
    }

    /// Whether a call answered want of memory. The buckets are then to be undone, and the draft cleared.
    pub fn failed(&self) -> bool
        ensures { result ≡ self.now.failed }
    {
        self.failed
    }

    /// Gives the draft up as after a call that answered want of memory, as one does whose buckets could not be read for that. It takes no memory.
    pub fn fail(&mut self)
        ensures { self.new ≡ record self.old { failed = true } }
    {
        self.failed = true;
    }

    /// The replies to the calls that were answered, in their order. Of a draft that failed they say nothing.
    pub fn replies(&self) -> &[Reply]
        ensures { result.now ≡ self.now.replies }
    {
        &self.replies
    }

    /// The rows so far, with their bytes.
    pub fn log(&self) -> &PrivateLog
        ensures { result.now ≡ self.now.rows }
    {
        &self.log
    }

    /// What the rows so far take in a partition beside its header, in bytes.
    pub fn cost(&self) -> u64
        ensures { result ≡ cost self.now.rows }
    {
        self.log.cost()
    }

    /// Moves the entry out, with its rows; nothing is left. It takes no memory.
    pub fn take_entry(&mut self) -> Entry
        requires { self.old.failed ≡ false }
        ensures entry { result ≡ entry_of self.old }
        ensures left { self.new ≡ blank self.old.lane self.old.turn }
    {
        let alloc = *self.calls.allocator();
        Entry {
            lane: self.lane,
            turn: self.turn,
            calls: Items::from_vec(mem::replace(&mut self.calls, Vec::new(alloc))),
            replies: Items::from_vec(mem::replace(&mut self.replies, Vec::new(alloc))),
            writes: Items::from_vec(mem::replace(&mut self.writes, Vec::new(alloc))),
            rows: self.log.take_rows(),
        }
    }

    /// Forgets all that was answered, want of memory too. It takes no memory.
    pub fn clear(&mut self)
        ensures { self.new ≡ blank self.old.lane self.old.turn }
    {
        self.calls.clear();
        self.replies.clear();
        self.writes.clear();
        self.log.clear();
        self.failed = false;
    }

    /// Puts a call, its reply and what it writes behind the others. The reply is moved.
    pub(crate) fn note(
        &mut self,
        call: &Call,
        reply: Reply,
        write: Option<Write>,
    ) -> Result<(), NoMemory>
        ensures place { (self.new.lane ≡ self.old.lane) × (self.new.turn ≡ self.old.turn) }
        ensures ok { OnOk result (self.new ≡ noted self.old call.now reply (option_to_list write)) }
    {
        self.calls.push(call.copy()?)?;
        self.replies.push(reply)?;
        if let Some(write) = write {
            self.writes.push(write)?;
        }
        Ok(())
    }
}
