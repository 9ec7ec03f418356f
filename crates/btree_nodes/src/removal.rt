//! Removing a key from a tree.

ghost use Rattle.std.specs.Prelude.{◌≡◌, ℕ, ◌<◌, ◌≤◌, ◌++◌, [], ◌∷◌, List, IfSome, Some, None, is_some};
ghost use Rattle.fine_model.specs.declared.Call.TheVariants as call;
ghost use Rattle.fine_model.specs.declared.Row.{Row as ModelRow};
ghost use Rattle.fine_model.specs.Map.{has};
ghost use Rattle.fine_model.specs.RowBytes.{FitsKey};
ghost use Rattle.fine_model.specs.Trees.{bucket_of, map_of, IsSound};
ghost use Rattle.node_cache.specs.Given.{given, IsCached};
ghost use Rattle.btree_nodes.specs.Trees.{Serves, Holds, IsPath, pairs_in};
ghost use Rattle.btree_nodes.specs.Calls.{Outcome, IsChange, OnCleanAnswer, SoundOutcome};

use crate::change::{next_version, push_pair};
use crate::fault::TreeFault;
use crate::growth::row_of;
use crate::leaf::value_in;
use crate::tree::{Path, find_leaf};
use fine_model::{Bytes, Rec};
use node_cache::{Bucket, NodeSource};
use private_log::PrivateLog;
use std::alloc::Global;

/// Removes a key from the leaf in which it belongs. Answers whether it was there.
fn remove_at(
    alloc: Global,
    bucket: &mut Bucket,
    log: &mut PrivateLog,
    key: &[u8],
    path: Path,
) -> Result<bool, TreeFault>
    requires key { FitsKey key.now }
    requires path { IsPath bucket.old key.now path }
    ensures outcome { Outcome bucket.old bucket.new log.old log.new (call.Del key.now) (λ there. there ≡ has (pairs_in bucket.old key.now) key.now) (λ _. ⊥) result }
{
    if value_in(bucket, path.leaf, key).is_none() {
        return Ok(false);
    }
    let version = next_version(bucket, path.leaf)?;
    let del = Rec::Del {
        key: Bytes::from_slice(alloc, key)?,
    };
    let row = row_of(bucket.bucket(), path.leaf, version, del);
    push_pair(alloc, bucket, log, row)?;
    Ok(true)
}

/// Removes a key, and answers whether it was there. Where it was, one row is pushed; else nothing is changed. `Unfit` names the first
/// node on the key's way that breaks the rules of a tree, `Number` comes exactly where the leaf's version would pass its limit, and
/// `Source` has what the source answered: with these, nothing is changed but what is loaded. `NoMemory` may leave a changed node and a
/// pushed row. With every answer, each node that was changed was saved before, and no original is lost.
pub fn remove<S: NodeSource>(
    alloc: Global,
    source: &mut S,
    bucket: &mut Bucket,
    log: &mut PrivateLog,
    key: &[u8],
) -> Result<bool, TreeFault>
    requires bucket { bucket.old.bucket ≡ bucket_of key.now }
    requires key { FitsKey key.now }
    ensures later { S.later source.old source.new }
    ensures clean { OnCleanAnswer result (S.clean source.old source.new) }
    ensures change { IsChange (S.tells source.old) (S.finds source.old) (S.upper source.old) bucket.old bucket.new log.old log.new (call.Del key.now) (λ mid there. there ≡ has (pairs_in mid key.now) key.now) (λ failed. S.fails source.old failed source.new) result }
    ensures sound { (rows : List ModelRow) → Serves (S.tells source.old) bucket.old rows → Holds bucket.old rows log.old → IsSound (rows ++ log.old) → SoundOutcome rows log.old log.new bucket.new (call.Del key.now) (λ there. there ≡ has (map_of (rows ++ log.old)) key.now) result }
{
    let path = find_leaf(source, bucket, key)?;
    remove_at(alloc, bucket, log, key, path)
}
