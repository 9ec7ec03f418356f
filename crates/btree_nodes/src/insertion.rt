//! Setting a key in a tree.

ghost use Rattle.std.specs.Prelude.{◌≡◌, ℕ, ◌+◌, ◌<◌, ◌≤◌, nat_lt, true, false, [], ◌∷◌, ◌++◌, List, IfOk, IsTrue, is_some};
ghost use Rattle.std.specs.List.{list_any};
ghost use Rattle.fine_model.specs.declared.Call.TheVariants as call;
ghost use Rattle.fine_model.specs.declared.Row.{Row as ModelRow};
ghost use Rattle.fine_model.specs.declared.Rec.TheVariants as rec;
ghost use Rattle.fine_model.specs.Pushed.{with_head, within_limits};
ghost use Rattle.fine_model.specs.RowBytes.{FitsKey, FitsValue, greatest, greatest_depth};
ghost use Rattle.fine_model.specs.Trees.{bucket_of, pairs_of, IsSound};
ghost use Rattle.node_cache.specs.Given.{given};
ghost use Rattle.btree_nodes.specs.Trees.{Serves, Holds, IsPath, first_over};
ghost use Rattle.btree_nodes.specs.Growths.{pushed_of, has_room, Limits};
ghost use Rattle.btree_nodes.specs.Calls.{Outcome, IsChange, OnCleanAnswer, SoundOutcome};

use crate::change::{next_version, push_all, push_pair};
use crate::fault::TreeFault;
use crate::growth::{Growth, grow, has_room, row_of, version_of};
use crate::tree::{Path, find_leaf};
use fine_model::format::{GREATEST, GREATEST_DEPTH, NODE_NUMBERS};
use fine_model::{Bytes, Items, NoMemory, NodeId, Rec, Row, Rows};
use node_cache::{Bucket, NodeSource};
use private_log::PrivateLog;
use std::alloc::Global;

/// Rows to be pushed, and the head's next unused number and depth behind them.
#[derive(Debug, Drop)]
pub struct Push {
    pub rows: Rows,
    pub next: u32,
    pub depth: u8,
}

/// An inner node over two others.
fn root_over(alloc: Global, left: u32, sep: Bytes, right: u32) -> Result<Rec, NoMemory>
    ensures { IfOk result (λ image. image ≡ rec.InnerImage (sep ∷ []) (left ∷ right ∷ [])) }
{
    let mut kids = Items::new(alloc);
    kids.push(left)?;
    kids.push(right)?;
    let mut seps = Items::new(alloc);
    seps.push(sep)?;
    Ok(Rec::InnerImage { seps, kids })
}

/// Where the root was split, a new root is set above both halves; wherever a node was split, the head is written.
#[tactic(auto, unfolding(fine_model::specs::Pushed::with_head))]
fn with_head(
    alloc: Global,
    bucket: u16,
    version: u64,
    path: Path,
    below: Growth,
) -> Result<Push, NoMemory>
    requires version { version ≤ greatest }
    requires next { below.next ≤ 1048600 }
    requires depth { path.depth ≤ greatest_depth }
    ensures { IfOk result (λ push. pushed_of push ≡ with_head bucket version path.root path.next path.depth below.rows below.next below.split) }
{
    let Growth { rows, next, split } = below;
    let mut rows = rows;
    let Some((sep, right)) = split else {
        if next != path.next {
            let head = Rec::HeadImage {
                root: path.root,
                next,
                depth: path.depth,
            };
            rows.push(row_of(bucket, 0, version + 1, head))?;
        }
        return Ok(Push {
            rows,
            next,
            depth: path.depth,
        });
    };
    let root = root_over(alloc, path.root, sep, right)?;
    let head = Rec::HeadImage {
        root: next,
        next: next + 1,
        depth: path.depth + 1,
    };
    rows.push(row_of(bucket, next, 1, root))?;
    rows.push(row_of(bucket, 0, version + 1, head))?;
    Ok(Push {
        rows,
        next: next + 1,
        depth: path.depth + 1,
    })
}

/// The node of the first row whose version passes the limit.
fn first_over(rows: &[Row]) -> Option<NodeId>
    ensures first { result ≡ first_over rows.now }
    ensures none { is_some result ≡ list_any (λ row. nat_lt greatest row.version) rows.now }
{
    match rows {
        [row, rest @ ..] => {
            if row.version > GREATEST {
                Some(row.node)
            } else {
                first_over(rest)
            }
        }
        [] => None,
    }
}

/// Tests the limits of a bucket's numbers and depth, and then those of versions. `BucketFull` says what the head says before.
#[tactic(auto, unfolding(fine_model::specs::Pushed::within_limits))]
fn test_limits(push: &Push, path: Path) -> Result<(), TreeFault>
    ensures { Limits push.now path result }
{
    if push.next > NODE_NUMBERS || push.depth > GREATEST_DEPTH {
        return Err(TreeFault::BucketFull {
            next: path.next,
            depth: path.depth,
        });
    }
    match first_over(push.rows.as_slice()) {
        Some(node) => Err(TreeFault::Number { node }),
        None => Ok(()),
    }
}

/// Sets a key in the leaf in which it belongs: where that has room for it, one row is pushed, and else what has none is split. What grows is worked out only then.
pub fn put_at(
    alloc: Global,
    bucket: &mut Bucket,
    log: &mut PrivateLog,
    key: &[u8],
    value: &[u8],
    path: Path,
) -> Result<(), TreeFault>
    requires key { FitsKey key.now }
    requires value { FitsValue value.now }
    requires path { IsPath bucket.old key.now path }
    ensures outcome { Outcome bucket.old bucket.new log.old log.new (call.Put key.now value.now) (λ _. Unit {0}) (λ _. ⊥) result }
{
    if has_room(bucket, path.leaf, key) {
        let version = next_version(bucket, path.leaf)?;
        let put = Rec::Put {
            key: Bytes::from_slice(alloc, key)?,
            value: Bytes::from_slice(alloc, value)?,
        };
        let row = row_of(bucket.bucket(), path.leaf, version, put);
        push_pair(alloc, bucket, log, row)?;
        return Ok(());
    }
    let below = grow(
        alloc,
        bucket,
        path.next,
        key,
        value,
        path.root,
        path.depth - 1,
    )?;
    let push = with_head(alloc, bucket.bucket(), version_of(bucket, 0), path, below)?;
    test_limits(&push, path)?;
    push_all(alloc, bucket, log, push.rows)?;
    Ok(())
}

/// Sets a key to a value. First nodes on the key's way are loaded, and no others; the way is then what was used last. A leaf of 32 pairs
/// that has not the key is split, and so is each full inner node above it that a split reaches; a split root has a new root above it.
/// The pushed rows fit the format. `Unfit` names the first node on the key's way that breaks the rules of a tree, `BucketFull` comes
/// exactly where the bucket's node numbers or the tree's depth would pass their limits, and has what the head says of both, `Number`
/// exactly where else a version would, with the node of the first such row, and `Source` has what the source answered: with these,
/// nothing is changed but what is loaded. Where no load is told as failed and memory was enough, none failed. `NoMemory` may leave
/// changed nodes and pushed rows. With Ok, each node that a row names was saved before, and no other; with every answer no original is
/// lost.
pub fn insert<S: NodeSource>(
    alloc: Global,
    source: &mut S,
    bucket: &mut Bucket,
    log: &mut PrivateLog,
    key: &[u8],
    value: &[u8],
) -> Result<(), TreeFault>
    requires bucket { bucket.old.bucket ≡ bucket_of key.now }
    requires key { FitsKey key.now }
    requires value { FitsValue value.now }
    ensures later { S.later source.old source.new }
    ensures clean { OnCleanAnswer result (S.clean source.old source.new) }
    ensures change { IsChange (S.tells source.old) (S.finds source.old) (S.upper source.old) bucket.old bucket.new log.old log.new (call.Put key.now value.now) (λ _ _. Unit {0}) (λ failed. S.fails source.old failed source.new) result }
    ensures sound { (rows : List ModelRow) → Serves (S.tells source.old) bucket.old rows → Holds bucket.old rows log.old → IsSound (rows ++ log.old) → SoundOutcome rows log.old log.new bucket.new (call.Put key.now value.now) (λ _. Unit {0}) result }
{
    let path = find_leaf(source, bucket, key)?;
    put_at(alloc, bucket, log, key, value, path)
}
