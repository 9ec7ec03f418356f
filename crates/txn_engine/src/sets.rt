//! What becomes of the contents of a set at the end of a transaction.

ghost use Rattle.std.specs.Prelude.{◌≡◌};
ghost use Rattle.node_cache.specs.Cache.{after, before, evicted, settled, undone};
ghost use Rattle.txn_draft.specs.Standing.{IsLeft};
ghost use Rattle.txn_engine.specs.Steps.{EachBecomes};

use hall_rooms::HeldBucket;
use key_locks::LockSet;
use txn_draft::{settle, undo};

/// Settles one content, and evicts from it.
fn settle_one(content: &mut HeldBucket, epoch: u64, published: u64, keep: usize)
    ensures { (content.new ≡ evicted published keep (settled epoch content.old)) × IsLeft published (after content.old epoch) content.old content.new }
{
    settle(content.bucket(), epoch, published, keep);
}

/// Undoes one content, and evicts from it.
fn undo_one(content: &mut HeldBucket, published: u64, keep: usize)
    ensures { (content.new ≡ evicted published keep (undone content.old)) × IsLeft published (before content.old) content.old content.new }
{
    undo(content.bucket(), published, keep);
}

/// Keeps what was done to each content of the set, under the epoch of the commit, and evicts from each what is published, but for `keep` nodes. It
/// goes over the buckets that are held alone, and takes no memory.
pub fn settle_all(locks: &mut LockSet<HeldBucket>, epoch: u64, published: u64, keep: usize)
    ensures { EachBecomes (λ b. evicted published keep (settled epoch b)) (λ b new. IsLeft published (after b epoch) b new) locks.old locks.new }
{
    locks.each(|content| settle_one(content, epoch, published, keep));
}

/// Takes back what was done to each content of the set, and evicts as `settle_all` does. It goes over the buckets that are held alone, and takes no
/// memory.
pub fn undo_all(locks: &mut LockSet<HeldBucket>, published: u64, keep: usize)
    ensures { EachBecomes (λ b. evicted published keep (undone b)) (λ b new. IsLeft published (before b) b new) locks.old locks.new }
{
    locks.each(|content| undo_one(content, published, keep));
}
