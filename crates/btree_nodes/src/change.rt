//! Rows that are pushed, and what they do to the nodes of a bucket.

ghost use Rattle.std.specs.Prelude.{◌≡◌, ◌≢◌, ℕ, ◌+◌, ◌<◌, ◌≤◌, [], ◌∷◌, ◌++◌, OnOk, OnErr, IsOk, IfSome, Some, MatchResult};
ghost use Rattle.std.specs.Bool.{OnTrue};
ghost use Rattle.std.specs.List.{AllByRecursion};
ghost use Rattle.fine_model.specs.Nodes.{step};
ghost use Rattle.fine_model.specs.RowBytes.{FitsRec, greatest};
ghost use Rattle.node_cache.specs.Cache.{cached, with_node, IsSaved};
ghost use Rattle.node_cache.specs.Given.{given, IsCached};
ghost use Rattle.node_cache.specs.Marked.{HasOwnKeys};
ghost use Rattle.btree_nodes.specs.Changes.{Saves, Pushes, IsChanged, IsRowOf, IsOwnChange, HoldsPlace, IsReady, AreReady};
ghost use Rattle.btree_nodes.specs.declared.fault.TreeFault.TheVariants as fault_of;

use crate::fault::TreeFault;
use crate::fitness::are_of;
use crate::hash::bucket_number;
use fine_model::format::GREATEST;
use fine_model::{NoMemory, Node, NodeId, Rec, Row, Rows};
use node_cache::{Bucket, Cached};
use node_record::apply;
use private_log::PrivateLog;
use std::alloc::Global;

/// The version that the next row of a cached node has. `Number` comes exactly where it would pass the limit.
#[tactic(auto, unfolding(node_cache::specs::Given::given))]
pub fn next_version(bucket: &Bucket, number: u32) -> Result<u64, TreeFault>
    ensures { MatchResult result (λ version. (version ≡ (given bucket.now number).1 + 1) × (version ≤ greatest)) (λ fault. (fault ≡ fault_of.Number (record { bucket = bucket.now.bucket; number = number })) × (greatest < (given bucket.now number).1 + 1)) }
{
    let version = match bucket.peek(number) {
        Some(kept) => kept.version,
        None => 0,
    };
    if version < GREATEST {
        Ok(version + 1)
    } else {
        Err(TreeFault::Number {
            node: NodeId {
                bucket: bucket.bucket(),
                number,
            },
        })
    }
}

/// Does to a node that was saved what a row says.
fn change(alloc: Global, bucket: &mut Bucket, row: &Row) -> Result<(), NoMemory>
    requires saved { IsSaved bucket.old row.now.node.number }
    requires there { IsCached bucket.old row.now.node.number }
    requires rec { FitsRec row.now.rec }
    requires version { row.now.version ≤ greatest }
    ensures ok { OnOk result (IsChanged bucket.old bucket.new row.now) }
    ensures err { OnErr result (bucket.new ≡ bucket.old) }
{
    let kept = bucket.get_mut(row.node.number)?;
    apply(alloc, &mut kept.node, &mut kept.version, row)
}

/// Saves a cached node as a whole, and does to it what a row says.
fn save_and_change(alloc: Global, bucket: &mut Bucket, row: &Row) -> Result<(), NoMemory>
    requires { IsRowOf bucket.old row.now }
    ensures saves { Saves bucket.old bucket.new }
    ensures pushes { OnOk result (Pushes bucket.old bucket.new (row.now ∷ [])) }
{
    bucket.save(row.node.number)?;
    change(alloc, bucket, row)
}

/// Saves a cached node, and does to it what a row says. Where the row sets or removes one pair of a leaf, that costs the pair alone, and pairs
/// that are cut off are moved.
fn change_cached(alloc: Global, bucket: &mut Bucket, row: &Row) -> Result<(), NoMemory>
    requires { IsRowOf bucket.old row.now }
    ensures saves { Saves bucket.old bucket.new }
    ensures pushes { OnOk result (Pushes bucket.old bucket.new (row.now ∷ [])) }
{
    if bucket.change_pair(row)? {
        Ok(())
    } else {
        save_and_change(alloc, bucket, row)
    }
}

/// Notes again what was known of a leaf's keys.
fn note_again(bucket: &mut Bucket, number: u32, are_own: bool)
    requires { OnTrue are_own (HasOwnKeys bucket.old.bucket (given bucket.old number).0) }
    ensures { bucket.new ≡ bucket.old }
{
    if are_own {
        bucket.note_own_keys(number);
    }
}

/// Pushes a row that changes one pair of a cached leaf: the leaf is saved and changed, and the row moved behind the others. That all its
/// keys are of the bucket stays known. After `NoMemory` some of this is done, and what was saved before still is.
pub fn push_pair(
    alloc: Global,
    bucket: &mut Bucket,
    log: &mut PrivateLog,
    row: Row,
) -> Result<(), NoMemory>
    requires row { IsRowOf bucket.old row }
    requires own { IsOwnChange bucket.old.bucket row.rec }
    ensures saves { Saves bucket.old bucket.new }
    ensures pushes { OnOk result (Pushes bucket.old bucket.new (row ∷ [])) }
    ensures log { OnOk result (log.new ≡ log.old ++ row ∷ []) }
{
    let number = row.node.number;
    let are_own = bucket.has_own_keys(number);
    change_cached(alloc, bucket, &row)?;
    log.keep(row)?;
    note_again(bucket, number, are_own);
    Ok(())
}

/// Caches a node under a number, and notes that all its keys are of the bucket.
fn put_own(bucket: &mut Bucket, number: u32, kept: Cached) -> Result<(), NoMemory>
    requires { HasOwnKeys bucket.old.bucket kept.node }
    ensures nodes { OnOk result (bucket.new ≡ with_node bucket.old number kept) }
    ensures here { OnOk result (cached bucket.new number ≡ Some kept) }
    ensures elsewhere { OnOk result ((n : ℕ) → n ≢ number → cached bucket.new n ≡ cached bucket.old n) }
    ensures err { OnErr result (bucket.new ≡ bucket.old) }
{
    bucket.put(number, kept)?;
    bucket.note_own_keys(number);
    Ok(())
}

/// Caches a broken node, which has no keys, under a number where none is cached, to be replaced by an image.
fn hold_place(bucket: &mut Bucket, number: u32) -> Result<(), NoMemory>
    ensures saves { Saves bucket.old bucket.new }
    ensures held { OnOk result (HoldsPlace bucket.old bucket.new number) }
{
    if bucket.peek(number).is_some() {
        return Ok(());
    }
    bucket.save(number)?;
    let place = Cached {
        node: Node::Broken,
        version: 0,
        epoch: 0,
    };
    put_own(bucket, number, place)
}

/// Whether an image of a leaf, or a change of its pairs, brings no key of another bucket.
fn is_own_change(bucket: u16, change: &Rec) -> bool
    ensures { OnTrue result (IsOwnChange bucket change.now) }
{
    match change {
        Rec::Put { key, .. } => u16::from(bucket_number(key.as_slice())) == bucket,
        Rec::CutLeaf { .. } => true,
        Rec::LeafImage { pairs } => are_of(bucket, false, pairs.as_slice()),
        _ => false,
    }
}

/// Whether it is known that all keys of a row's leaf are of the bucket, and the row brings no other.
fn stays_own(bucket: &Bucket, row: &Row) -> bool
    ensures own { OnTrue result (IfSome (cached bucket.now row.now.node.number) (λ kept. HasOwnKeys bucket.now.bucket kept.node)) }
    ensures change { OnTrue result (IsOwnChange bucket.now.bucket row.now.rec) }
{
    bucket.has_own_keys(row.node.number) && is_own_change(bucket.bucket(), &row.rec)
}

/// Pushes a row of a node that is cached, or of one that the row is the image of, as `push_pair` does. That all keys of a leaf are of the bucket stays
/// known where the row cuts it or sets a pair, and is found out of an image.
pub fn push_any(
    alloc: Global,
    bucket: &mut Bucket,
    log: &mut PrivateLog,
    row: Row,
) -> Result<(), NoMemory>
    requires of_bucket { row.node.bucket ≡ bucket.old.bucket }
    requires ready { IsReady (IsCached bucket.old) row }
    requires rec { FitsRec row.rec }
    requires version { row.version ≤ greatest }
    ensures saves { Saves bucket.old bucket.new }
    ensures pushes { OnOk result (Pushes bucket.old bucket.new (row ∷ [])) }
    ensures there { OnOk result (IsCached bucket.new row.node.number) }
    ensures log { OnOk result (log.new ≡ log.old ++ row ∷ []) }
{
    let number = row.node.number;
    hold_place(bucket, number)?;
    let are_own = stays_own(bucket, &row);
    change_cached(alloc, bucket, &row)?;
    log.keep(row)?;
    note_again(bucket, number, are_own);
    Ok(())
}

/// Pushes rows in their order, and moves each of them behind the log's.
pub fn push_all(
    alloc: Global,
    bucket: &mut Bucket,
    log: &mut PrivateLog,
    rows: Rows,
) -> Result<(), NoMemory>
    requires of_bucket { AllByRecursion (λ row. row.node.bucket ≡ bucket.old.bucket) rows }
    requires ready { AreReady (IsCached bucket.old) rows }
    requires recs { AllByRecursion (λ row. FitsRec row.rec × (row.version ≤ greatest)) rows }
    ensures saves { Saves bucket.old bucket.new }
    ensures pushes { OnOk result (Pushes bucket.old bucket.new rows) }
    ensures log { OnOk result (log.new ≡ log.old ++ rows) }
{
    for row in rows.into_vec() {
        push_any(alloc, bucket, log, row)?;
    }
    Ok(())
}
