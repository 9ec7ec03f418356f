//! Looking a key up in a tree.

ghost use Rattle.std.specs.Prelude.{◌≡◌, ℕ, ◌<◌, ◌≤◌, ◌++◌, List, Option, Some, None, option_copied, OnOk, IfSome, IfOk};
ghost use Rattle.fine_model.specs.declared.Row.{Row as ModelRow};
ghost use Rattle.fine_model.specs.Map.{get};
ghost use Rattle.fine_model.specs.RowBytes.{FitsKey, buckets};
ghost use Rattle.fine_model.specs.Trees.{bucket_of, pairs_of, map_of, IsSound};
ghost use Rattle.node_record.specs.Bounds.{FitsNode};
ghost use Rattle.node_cache.specs.Given.{given, IsCached, IsLoaded};
ghost use Rattle.btree_nodes.specs.Trees.{Serves, Holds, LoadsOnWay, AreUsed, way_in, HeadIs, IsPath};
ghost use Rattle.btree_nodes.specs.Calls.{IsFound, Answers, OnCleanAnswer, SoundReading};

use crate::descent::{descend, node_in, reach};
use crate::fault::TreeFault;
use crate::leaf::{copy_of, value_in};
use fine_model::{Bytes, Node};
use node_cache::{Bucket, NodeSource};

/// The way to a key: what the head says, and the leaf in which the key belongs.
#[derive(Clone, Copy, Debug)]
pub struct Path {
    pub root: u32,
    pub next: u32,
    pub depth: u8,
    pub leaf: u32,
}

/// What a cached head says: root, next and depth. None where the node is no head, or its root is not below next.
#[tactic(auto, unfolding(node_cache::specs::Given::given))]
pub fn head_of(bucket: &Bucket) -> Option<(u32, u32, u8)>
    ensures { HeadIs (given bucket.now 0).0 result }
{
    match bucket.peek(0)?.node {
        Node::Head { root, next, depth } => (root < next).then_some((root, next, depth)),
        _ => None,
    }
}

/// Goes from the head of a tree down to the leaf in which a key belongs, and notes that all keys of this leaf are of the bucket.
pub fn find_leaf<S: NodeSource>(
    source: &mut S,
    bucket: &mut Bucket,
    key: &[u8],
) -> Result<Path, TreeFault>
    requires { bucket.old.bucket ≡ bucket_of key.now }
    ensures later { S.later source.old source.new }
    ensures clean { OnCleanAnswer result (S.clean source.old source.new) }
    ensures loaded { IsLoaded (S.tells source.old) (S.finds source.old) (S.upper source.old) bucket.old bucket.new }
    ensures on_way { LoadsOnWay bucket.old bucket.new key.now }
    ensures used { OnOk result (AreUsed bucket.old bucket.new (way_in bucket.new key.now)) }
    ensures path { Answers bucket.new key.now (IsPath bucket.new key.now) (λ failed. S.fails source.old failed source.new) result }
{
    reach(source, bucket, 0)?;
    let unfit = node_in(bucket, 0);
    let Some((root, next, depth)) = head_of(bucket) else {
        return Err(TreeFault::Unfit { node: unfit });
    };
    let leaf = descend(source, bucket, next, key, None, None, root, depth - 1)?;
    bucket.note_own_keys(leaf);
    Ok(Path {
        root,
        next,
        depth,
        leaf,
    })
}

/// The value of a key. None exactly where it is absent. It loads nodes on the key's way alone, and changes nothing else but the order of
/// last use: with Ok the way is what was used last, from the head down. `Unfit` names the first node on the key's way that breaks the
/// rules of a tree, and `Source` has what the source answered. Where no load is told as failed and memory was enough, none failed.
pub fn find<S: NodeSource>(
    source: &mut S,
    bucket: &mut Bucket,
    key: &[u8],
) -> Result<Option<Bytes>, TreeFault>
    requires bucket { bucket.old.bucket ≡ bucket_of key.now }
    ensures later { S.later source.old source.new }
    ensures clean { OnCleanAnswer result (S.clean source.old source.new) }
    ensures loaded { IsLoaded (S.tells source.old) (S.finds source.old) (S.upper source.old) bucket.old bucket.new }
    ensures on_way { LoadsOnWay bucket.old bucket.new key.now }
    ensures used { OnOk result (AreUsed bucket.old bucket.new (way_in bucket.new key.now)) }
    ensures answer { Answers bucket.new key.now (IsFound bucket.new key.now) (λ failed. S.fails source.old failed source.new) result }
    ensures sound { (rows log : List ModelRow) → Serves (S.tells source.old) bucket.old rows → Holds bucket.old rows log → IsSound (rows ++ log) → SoundReading rows log bucket.new (λ value. value ≡ get (map_of (rows ++ log)) key.now) result }
{
    let path = find_leaf(source, bucket, key)?;
    Ok(copy_of(value_in(bucket, path.leaf, key))?)
}
