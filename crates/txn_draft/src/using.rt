//! What becomes of a bucket at the end of a transaction.

ghost use Rattle.std.specs.Prelude.{◌≡◌, ◌<◌, ◌++◌, ℕ, [], List, IfSome, Some};
ghost use Rattle.fine_model.specs.declared.Row.{Row as ModelRow};
ghost use Rattle.node_cache.specs.Cache.{cached, before, after, undone, settled, evicted, IsResting};
ghost use Rattle.btree_nodes.specs.Trees.{Holds, Restores};

use node_cache::Bucket;

/// Keeps what was done to a bucket, under the epoch of the commit, and evicts what is published, but for `keep` nodes. It takes no memory.
pub fn settle(bucket: &mut Bucket, epoch: u64, published: u64, keep: usize)
    ensures bucket { bucket.new ≡ evicted published keep (settled epoch bucket.old) }
    ensures number { bucket.new.bucket ≡ bucket.old.bucket }
    ensures resting { IsResting bucket.new }
    ensures same { (n : ℕ) → IfSome (cached bucket.new n) (λ kept. after bucket.old epoch n ≡ Some kept) }
    ensures kept { (n : ℕ) → IfSome (after bucket.old epoch n) (λ kept. published < kept.epoch → cached bucket.new n ≡ Some kept) }
    ensures holds { (rows log : List ModelRow) → Holds bucket.old rows log → Holds bucket.new (rows ++ log) [] }
{
    bucket.settle(epoch);
    bucket.evict(published, keep);
}

/// Takes back what was done to a bucket: each node is as it was, or is not cached. It evicts as `settle` does, and takes no memory.
pub fn undo(bucket: &mut Bucket, published: u64, keep: usize)
    ensures bucket { bucket.new ≡ evicted published keep (undone bucket.old) }
    ensures number { bucket.new.bucket ≡ bucket.old.bucket }
    ensures resting { IsResting bucket.new }
    ensures same { (n : ℕ) → IfSome (cached bucket.new n) (λ kept. before bucket.old n ≡ Some kept) }
    ensures kept { (n : ℕ) → IfSome (before bucket.old n) (λ kept. published < kept.epoch → cached bucket.new n ≡ Some kept) }
    ensures holds { (rows : List ModelRow) → Restores bucket.old rows → Holds bucket.new rows [] }
{
    bucket.undo();
    bucket.evict(published, keep);
}
