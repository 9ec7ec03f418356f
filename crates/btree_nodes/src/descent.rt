//! The way down a tree. Each node on it is tested before the next one is looked at.

ghost use Rattle.std.specs.Prelude.{◌≡◌, ◌<◌, ◌≤◌, false, IsTrue, [], ◌∷◌, option_copied, OnOk, IfErr, IfSome, MatchOption};
ghost use Rattle.fine_model.specs.Map.{is_ascending};
ghost use Rattle.fine_model.specs.Paths.{is_inner, place_among};
ghost use Rattle.fine_model.specs.Trees.{is_leaf};
ghost use Rattle.fine_model.specs.RowBytes.{buckets, node_numbers};
ghost use Rattle.node_cache.specs.Given.{given, IsCached, IsLoaded};
ghost use Rattle.btree_nodes.specs.Faults.{OnFault};
ghost use Rattle.btree_nodes.specs.Calls.{OnCleanAnswer};
ghost use Rattle.btree_nodes.specs.Trees.{way, LoadsAmong, AreUsed};
ghost use Rattle.btree_nodes.specs.Descends.{Descends};
ghost use Rattle.btree_nodes.specs.Descent.{bound_at, bounds_by, low_of, high_of, IsStep, AreKept};

use crate::fault::TreeFault;
use crate::fitness::{is_fit_inner, is_fit_leaf};
use fine_model::{Bytes, Keys, Node, NodeId};
use node_cache::{Bucket, NodeSource};
use node_record::is_below;

/// The place of a separator in a cached node. It is the bound of a subtree.
#[derive(Clone, Copy, Debug)]
pub struct Sep {
    pub number: u32,
    pub place: usize,
}

/// A child, and what bounds its keys.
#[derive(Clone, Copy, Debug)]
pub struct Step {
    pub number: u32,
    pub low: Option<Sep>,
    pub high: Option<Sep>,
}

/// The node of a number in a bucket.
pub fn node_in(bucket: &Bucket, number: u32) -> NodeId
    ensures { result ≡ record { bucket = bucket.now.bucket; number = number } }
{
    NodeId {
        bucket: bucket.bucket(),
        number,
    }
}

/// The place among separators in whose child a key belongs: a key equal to a separator belongs to the right of it.
pub fn place_among(seps: &Keys, key: &[u8]) -> usize
    requires { IsTrue (is_ascending seps.now) }
    ensures { result ≡ place_among key.now seps.now }
{
    seps.as_slice()
        .partition_point(|sep| !is_below(key, sep.as_slice()))
}

/// The separator at a place. No place is no bound.
#[tactic(auto, unfolding(node_cache::specs::Given::given))]
pub fn bound(bucket: &Bucket, at: Option<Sep>) -> Option<&Bytes>
    ensures { option_copied result ≡ bound_at (given bucket.now) at }
{
    let at = at?;
    match &bucket.peek(at.number)?.node {
        Node::Inner { seps, .. } => seps.as_slice().get(at.place),
        _ => None,
    }
}

/// The low bound of the child at a place.
pub fn low_bound(number: u32, place: usize, low: Option<Sep>) -> Option<Sep>
    ensures { result ≡ low_of number place low }
{
    match place.checked_sub(1) {
        Some(place) => Some(Sep { number, place }),
        None => low,
    }
}

/// The high bound of the child at a place, among so many separators.
pub fn high_bound(number: u32, place: usize, many: usize, high: Option<Sep>) -> Option<Sep>
    ensures { result ≡ high_of number place many high }
{
    if place < many {
        Some(Sep { number, place })
    } else {
        high
    }
}

/// One step down from a node that is cached: the child in which a key belongs. None exactly where the node is not fit.
#[tactic(auto, unfolding(node_cache::specs::Given::given))]
fn step_down(
    bucket: &Bucket,
    next: u32,
    key: &[u8],
    low: Option<Sep>,
    high: Option<Sep>,
    number: u32,
) -> Option<Step>
    requires low { AreKept bucket.now low }
    requires high { AreKept bucket.now high }
    ensures step { MatchOption result (is_inner (bounds_by (given bucket.now) low high) next (given bucket.now number).0 ≡ false) (IsStep (given bucket.now) next key.now (bounds_by (given bucket.now) low high) (given bucket.now number).0) }
    ensures kept { IfSome result (λ step. AreKept bucket.now step.low × AreKept bucket.now step.high) }
{
    let node = &bucket.peek(number)?.node;
    let Node::Inner { seps, kids } = node else {
        return None;
    };
    if !is_fit_inner(next, bound(bucket, low), bound(bucket, high), node) {
        return None;
    }
    let place = place_among(seps, key);
    let child = *kids.at(place);
    Some(Step {
        number: child,
        low: low_bound(number, place, low),
        high: high_bound(number, place, seps.len(), high),
    })
}

/// Caches a node where it is not cached, and makes it the last used where it is. With a fault, nothing is changed.
pub fn reach<S: NodeSource>(
    source: &mut S,
    bucket: &mut Bucket,
    number: u32,
) -> Result<(), TreeFault>
    requires bucket { bucket.old.bucket < buckets }
    requires number { number < node_numbers }
    ensures later { S.later source.old source.new }
    ensures clean { OnCleanAnswer result (S.clean source.old source.new) }
    ensures loaded { IsLoaded (S.tells source.old) (S.finds source.old) (S.upper source.old) bucket.old bucket.new }
    ensures among { LoadsAmong bucket.old bucket.new (number ∷ []) }
    ensures used { OnOk result (AreUsed bucket.old bucket.new (number ∷ [])) }
    ensures there { OnOk result (IsCached bucket.new number) }
    ensures err { IfErr result (λ fault. OnFault fault (λ failed. S.fails source.old failed source.new) (λ _. ⊥) ⊥) }
{
    if bucket.touch(number) {
        return Ok(());
    }
    match source.load(bucket, number) {
        Ok(()) => Ok(()),
        Err(fault) => Err(TreeFault::Source { fault }),
    }
}

/// Whether a cached node is a fit leaf. Where it is known that all its keys are of the bucket, it looks at the first and the last one alone.
#[tactic(auto, unfolding(node_cache::specs::Given::given))]
pub fn is_leaf_within(bucket: &Bucket, low: Option<Sep>, high: Option<Sep>, number: u32) -> bool
    ensures { result ≡ is_leaf bucket.now.bucket (bounds_by (given bucket.now) low high) (given bucket.now number).0 }
{
    match bucket.peek(number) {
        Some(kept) => is_fit_leaf(
            bucket.bucket(),
            bucket.has_own_keys(number),
            bound(bucket, low),
            bound(bucket, high),
            &kept.node,
        ),
        None => false,
    }
}

/// Goes down from a number to the leaf in which a key belongs, within the bounds that separators further up set.
pub fn descend<S: NodeSource>(
    source: &mut S,
    bucket: &mut Bucket,
    next: u32,
    key: &[u8],
    low: Option<Sep>,
    high: Option<Sep>,
    number: u32,
    height: u8,
) -> Result<u32, TreeFault>
    requires bucket { bucket.old.bucket < buckets }
    requires next { next ≤ node_numbers }
    requires number { number < next }
    requires low { AreKept bucket.old low }
    requires high { AreKept bucket.old high }
    ensures later { S.later source.old source.new }
    ensures clean { OnCleanAnswer result (S.clean source.old source.new) }
    ensures loaded { IsLoaded (S.tells source.old) (S.finds source.old) (S.upper source.old) bucket.old bucket.new }
    ensures on_way { LoadsAmong bucket.old bucket.new (way height (given bucket.new) key.now number) }
    ensures used { OnOk result (AreUsed bucket.old bucket.new (way height (given bucket.new) key.now number)) }
    ensures way { Descends bucket.new height next key.now (bounds_by (given bucket.new) low high) number (λ failed. S.fails source.old failed source.new) result }
{
    reach(source, bucket, number)?;
    let unfit = node_in(bucket, number);
    if height == 0 {
        return if is_leaf_within(bucket, low, high, number) {
            Ok(number)
        } else {
            Err(TreeFault::Unfit { node: unfit })
        };
    }
    let Some(step) = step_down(bucket, next, key, low, high, number) else {
        return Err(TreeFault::Unfit { node: unfit });
    };
    descend(
        source,
        bucket,
        next,
        key,
        step.low,
        step.high,
        step.number,
        height - 1,
    )
}
