//! An open transaction on a hall.

ghost use Rattle.std.specs.Prelude.{◌≡◌, IfOk};
ghost use Rattle.fine_model.specs.Merge.{cost};
ghost use Rattle.txn_draft.specs.Drafts.{blank};
ghost use Rattle.txn_engine.specs.Txns.{HoldsNone, IsBlankTxn};

use epoch_room::Stamp;
use fine_model::{Entry, NoMemory, NodeId, Reply};
use hall_rooms::HeldBucket;
use key_locks::LockSet;
use std::alloc::Global;
use std::snapshot::Snapshot;
use txn_draft::Draft;

/// What a transaction answered so far, and the buckets that it took, which are those of its calls. It goes with one pass.
#[derive(Drop)]
pub struct Txn {
    pub(crate) alloc: Global,
    pub(crate) draft: Draft,
    pub(crate) locks: LockSet<HeldBucket>,
    /// The buckets as they were given back at the last commit or abort, for contracts alone. It takes no bytes.
    pub(crate) given_back: Snapshot<LockSet<HeldBucket>>,
}

/// What became of a commit: its place and its epoch, the entry, with the replies to all calls, and how many entries wait in the open epoch behind
/// it, this one included.
#[derive(Drop)]
pub struct Committed {
    pub stamp: Stamp,
    pub entry: Entry,
    pub waiting: u64,
}

/// Why a call was refused.
#[derive(Clone, Copy, Debug, PartialEq, Eq)]
pub enum TxnFault {
    /// Another seat holds a bucket of the call.
    Conflict { bucket: u16, owner: u32 },
    /// A read through the pass's front failed.
    Disk,
    /// A row was read that is not in the grammar, at this place of a region.
    BadRow { region: u32, at: u32 },
    /// An entry of an index was read that is not in the grammar, at this place of a region.
    BadIndex { region: u32, at: u32 },
    /// The first node on the call's way that breaks the rules of a tree.
    Unfit { node: NodeId },
    /// The bucket's numbers, or its depth, would pass their limits. The numbers are those of its head.
    BucketFull { next: u32, depth: u8 },
    /// A version of this node would pass its limit.
    Number { node: NodeId },
    /// Memory ran out, in this call or in one before it. The transaction can only be aborted.
    NoMemory,
}

/// Why a commit was refused: the first reason of these that holds, by the numbers of the room.
#[derive(Clone, Copy, Debug, PartialEq, Eq)]
pub enum CommitFault {
    /// An earlier call failed on the device. `epoch` is the last sealed one.
    Shut { epoch: u64 },
    /// The number of the open epoch, or of places, is at its limit. `place` is the last place given, or 0.
    Number { epoch: u64, place: u64 },
    /// The rows alone need more bytes than a region has.
    TooLarge { need: u64, room: u64 },
    /// A new epoch would leave no free region. The numbers are of regions, continuations included.
    Full { free: u32, live: u32, retired: u32 },
    /// The open epoch would need more bytes than a region has. Once it is sealed the rows may fit.
    EpochFull { need: u64, room: u64 },
}

impl Txn {
    /// A transaction of a lane, with its number in the script, which holds nothing. It takes all memory that its ends need.
    pub fn new(alloc: Global, lane: u8, turn: u32) -> Result<Txn, NoMemory>
        ensures draft { IfOk result (λ txn. txn.draft ≡ blank lane turn) }
        ensures locks { IfOk result (λ txn. HoldsNone txn.locks) }
    {
        let locks = LockSet::new(alloc)?;
        let given_back = Snapshot::of(&locks);
        Ok(Txn {
            alloc,
            draft: Draft::new(alloc, lane, turn),
            locks,
            given_back,
        })
    }

    /// Begins anew, as a transaction of a lane, with its number in the script. It was not used yet, or was committed or aborted since, and no call was answered
    /// behind that.
    ///
    /// It takes no memory: the places of the buckets stay, and what was given back last is told still. The lists of its answers are new and empty.
    pub fn begin(&mut self, lane: u8, turn: u32)
        requires { IsBlankTxn self.old }
        ensures { self.new ≡ record self.old { draft = blank lane turn } }
    {
        self.draft = Draft::new(self.alloc, lane, turn);
    }

    /// Whether a call since the beginning, or since the last commit or abort, answered `NoMemory`. The transaction can then only be aborted.
    pub fn failed(&self) -> bool
        ensures { result ≡ self.now.draft.failed }
    {
        self.draft.failed()
    }

    /// What the rows of the calls that were answered take in a partition beside its header, in bytes.
    pub fn cost(&self) -> u64
        ensures { result ≡ cost self.now.draft.rows }
    {
        self.draft.cost()
    }

    /// The replies to the calls that were answered since the beginning, or since the last commit or abort, in their order. Where the transaction is not
    /// failed they are the store's, on all that its pass saw (`replies_law`); after want of memory they say nothing.
    pub fn replies(&self) -> &[Reply]
        ensures { result.now ≡ self.now.draft.replies }
    {
        self.draft.replies()
    }
}
