//! The open epoch.

ghost use Rattle.std.specs.Prelude.{◌≡◌, ◌+◌, ◌++◌, ◌<◌, ◌≤◌, length, vec_len, vec_capacity, IfOk};
ghost use Rattle.std.specs.List.{AllByRecursion};
ghost use Rattle.fine_model.specs.Merge.{cost};
ghost use Rattle.fine_model.specs.RowBytes.{FitsRow, greatest, rows_bytes, rows_len};
ghost use Rattle.node_record.specs.Keys.{AreKeysOf};
ghost use Rattle.fine_model.specs.declared.Mark.TheVariants as mark;
ghost use Rattle.epoch_room.specs.Epoch.{empty, with_entry};

use fine_model::NoMemory;
use fine_model::format::GREATEST;
use node_record::{RowAt, keys_of};
use private_log::PrivateLog;
use std::alloc::Global;
use std::marker::Model;
use std::snapshot::Snapshot;

/// Appends bytes for which there is room.
fn fill(out: &mut Vec<u8>, bytes: &[u8])
    requires { vec_len out.old + length bytes.now ≤ vec_capacity out.old }
    ensures items { out.new.items ≡ out.old.items ++ bytes.now }
    ensures capacity { vec_capacity out.old ≤ vec_capacity out.new }
{
    let _room = out.extend_from_slice(bytes);
}

/// The rows that were appended since the last epoch was sealed, as bytes. Of the rows themselves it keeps what contracts see of
/// them, which takes no bytes.
#[derive(Drop)]
pub struct OpenEpoch {
    bytes: Vec<u8>,
    logs: Vec<Snapshot<PrivateLog>>,
    waiting: u64,
    used: u64,
    most: u64,
}

impl Model for OpenEpoch {
    ghost use Rattle.epoch_room.specs.Epoch.{Open};
    ghost use Rattle.epoch_room.specs.Gathered.{open_of, IsGathered};

    ghost Value = { Open };

    ghost view = { open_of };

    ghost invariant = { IsGathered };
}

impl OpenEpoch {
    /// An epoch with no entry, and with room for so many bytes.
    pub fn new(alloc: Global, most: u64) -> Result<OpenEpoch, NoMemory>
        ensures { IfOk result (λ epoch. epoch ≡ empty most) }
    {
        Ok(OpenEpoch {
            bytes: Vec::with_capacity(alloc, most as usize)?,
            logs: Vec::with_capacity(alloc, GREATEST as usize)?,
            waiting: 0,
            used: 0,
            most,
        })
    }

    /// The number of entries.
    pub fn waiting(&self) -> u64
        ensures { result ≡ self.now.waiting }
    {
        self.waiting
    }

    /// The sum of what the entries' rows cost.
    pub fn used(&self) -> u64
        ensures { result ≡ self.now.used }
    {
        self.used
    }

    /// Puts the rows of an entry behind those that are there; an epoch has at most 2^62. It takes no memory.
    pub fn add(&mut self, log: &PrivateLog)
        requires rows { AllByRecursion (FitsRow mark.Two) log.now }
        requires within { self.old.used + cost log.now ≤ self.old.most }
        requires entries { self.old.waiting < greatest }
        ensures { self.new ≡ with_entry self.old log.now }
    {
        fill(&mut self.bytes, log.bytes());
        self.logs.push_reserved(Snapshot::of(log));
        self.waiting += 1;
        self.used += log.cost();
    }

    /// Takes all entries off. It takes no memory.
    pub fn clear(&mut self)
        ensures { self.new ≡ empty self.old.most }
    {
        self.bytes.clear();
        self.logs.clear();
        self.waiting = 0;
        self.used = 0;
    }

    /// The bytes of the rows, in the order in which they were appended.
    pub fn bytes(&self) -> &[u8]
        ensures { result.now ≡ rows_bytes self.now.rows }
    {
        self.bytes.as_slice()
    }

    /// The keys of the rows, which say where in these bytes they lie.
    pub fn keys(&self, alloc: Global) -> Result<Vec<RowAt>, NoMemory>
        requires { rows_len self.now.rows < 4294967296 }
        ensures { IfOk result (λ keys. AreKeysOf (rows_bytes self.now.rows) self.now.rows keys.items) }
    {
        // an entry has a row at least, mostly; more room is taken where there are more
        Ok(keys_of(alloc, self.bytes.as_slice(), self.logs.len())?)
    }
}
