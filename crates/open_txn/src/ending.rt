//! What becomes of the buckets at the end of a transaction.

ghost use Rattle.std.specs.Prelude.{◌≡◌, length};
ghost use Rattle.node_cache.specs.Cache.{after, before, settled, undone, evicted};
ghost use Rattle.txn_draft.specs.Standing.{IsLeft};
ghost use Rattle.open_txn.specs.Buckets.{none_touched};
ghost use Rattle.open_txn.specs.Endings.{EndEach};

use crate::touched::Touched;
use node_cache::Bucket;
use txn_draft::{settle, undo};

/// Settles each bucket that is touched, and looks at no other, which no clause says. None is touched then. It takes no memory.
pub(crate) fn settle_touched(
    buckets: &mut [Bucket],
    touched: &mut Touched,
    epoch: u64,
    published: u64,
    keep: usize,
)
    requires { length touched.old ≡ length buckets.old }
    ensures ends { EndEach (λ b. evicted published keep (settled epoch b)) (λ b new. IsLeft published (after b epoch) b new) touched.old buckets.old buckets.new }
    ensures untouched { touched.new ≡ none_touched }
{
    while let Some(at) = touched.take() {
        settle(&mut buckets[at], epoch, published, keep);
    }
}

/// Undoes each bucket that is touched, as `settle_touched` settles it.
pub(crate) fn undo_touched(
    buckets: &mut [Bucket],
    touched: &mut Touched,
    published: u64,
    keep: usize,
)
    requires { length touched.old ≡ length buckets.old }
    ensures ends { EndEach (λ b. evicted published keep (undone b)) (λ b new. IsLeft published (before b) b new) touched.old buckets.old buckets.new }
    ensures untouched { touched.new ≡ none_touched }
{
    while let Some(at) = touched.take() {
        undo(&mut buckets[at], published, keep);
    }
}
