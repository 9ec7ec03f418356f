//! The pairs of a range of keys in a tree, from left to right.

ghost use Rattle.std.specs.Prelude.{◌≡◌, ◌≢◌, ℕ, ◌+◌, ◌-◌, ◌<◌, ◌≤◌, ◌++◌, List, length, take, None, OnOk, OnErr, IfOk, IfErr, IfSome, MatchOption, option_copied, slice_get, true, not, ◌&&◌};
ghost use Rattle.fine_model.specs.declared.Row.{Row as ModelRow};
ghost use Rattle.fine_model.specs.Map.{is_below, between};
ghost use Rattle.fine_model.specs.Paths.{meets, is_inner, seps_of};
ghost use Rattle.fine_model.specs.Trees.{kids_of, pairs_of, tree_map, IsSound};
ghost use Rattle.fine_model.specs.RowBytes.{buckets, node_numbers, most_in_node};
ghost use Rattle.node_cache.specs.Given.{given, IsCached, IsLoaded};
ghost use Rattle.btree_nodes.specs.Descent.{bounds_by, low_of, high_of, AreKept};
ghost use Rattle.btree_nodes.specs.Scans.{IsLonger, IsTaken, IsChildAt, ScansFrom, ScansKids, visited_of};
ghost use Rattle.btree_nodes.specs.Calls.{Reads, IsFirstUnfitBetween, IsFoundBetween, OnCleanAnswer, SoundReading};
ghost use Rattle.btree_nodes.specs.Faults.{OnFault};
ghost use Rattle.btree_nodes.specs.Trees.{Serves, Holds, AreUsed, LoadsAmong};
ghost use Rattle.btree_nodes.specs.Walks.{visited_from, walk_in, LoadsOnWalk};

use crate::descent::{Step, bound, high_bound, is_leaf_within, low_bound, node_in, reach};
use crate::fault::TreeFault;
use crate::fitness::{is_above, is_fit_inner, is_up_to};
use crate::tree::head_of;
use fine_model::{Bytes, Copied, NoMemory, Node, Pairs};
use node_cache::{Bucket, NodeSource};
use node_record::is_below;

/// Whether a child within these bounds holds keys of a range.
fn meets(low: &[u8], high: &[u8], child_low: Option<&Bytes>, child_high: Option<&Bytes>) -> bool
    ensures { result ≡ meets low.now high.now (record { low = option_copied child_low.entry; high = option_copied child_high.entry }) }
{
    is_up_to(child_high, low) && is_above(child_low, high)
}

/// Whether a key lies in a range.
fn is_between(low: &[u8], high: &[u8], key: &[u8]) -> bool
    ensures { result ≡ (not (is_below key.now low.now) && is_below key.now high.now) }
{
    !is_below(key, low) && is_below(key, high)
}

/// Puts copies of the first pairs of a range behind a list, as many as are wanted. Answers how many are wanted still.
#[tactic(auto, unfolding(fine_model::specs::Map::between))]
fn take_between(
    pairs: &[(Bytes, Bytes)],
    low: &[u8],
    high: &[u8],
    wanted: u32,
    out: &mut Pairs,
) -> Result<u32, NoMemory>
    ensures longer { IsLonger out.old out.new }
    ensures taken { IfOk result (λ left. IsTaken wanted left out.old out.new (between low.now high.now pairs.now)) }
{
    let [pair, rest @ ..] = pairs else {
        return Ok(wanted);
    };
    if wanted == 0 {
        return Ok(0);
    }
    if !is_between(low, high, pair.0.as_slice()) {
        return take_between(rest, low, high, wanted, out);
    }
    out.push(pair.copy()?)?;
    take_between(rest, low, high, wanted - 1, out)
}

/// The same of the pairs of a cached leaf. A node that is no leaf has none.
#[tactic(auto, unfolding(node_cache::specs::Given::given, fine_model::specs::Map::between))]
fn take_from(
    bucket: &Bucket,
    number: u32,
    low: &[u8],
    high: &[u8],
    wanted: u32,
    out: &mut Pairs,
) -> Result<u32, NoMemory>
    ensures longer { IsLonger out.old out.new }
    ensures taken { IfOk result (λ left. IsTaken wanted left out.old out.new (between low.now high.now (pairs_of (given bucket.now number).0))) }
{
    let Some(kept) = bucket.peek(number) else {
        return Ok(wanted);
    };
    match &kept.node {
        Node::Leaf { pairs } => take_between(pairs.as_slice(), low, high, wanted, out),
        _ => Ok(wanted),
    }
}

/// Scans a cached node that is to be a fit leaf, and notes that all its keys are of the bucket. Answers how many pairs are wanted still.
fn scan_leaf(
    bucket: &mut Bucket,
    low: &[u8],
    high: &[u8],
    at: Step,
    wanted: u32,
    out: &mut Pairs,
) -> Result<u32, TreeFault>
    requires there { IsCached bucket.old at.number }
    ensures same { bucket.new ≡ bucket.old }
    ensures longer { IsLonger out.old out.new }
    ensures way { (next : ℕ) → ScansFrom bucket.old 0 next low.now high.now (bounds_by (given bucket.old) at.low at.high) at.number wanted out.old out.new (λ _. ⊥) result }
{
    if !is_leaf_within(bucket, at.low, at.high, at.number) {
        let node = node_in(bucket, at.number);
        return Err(TreeFault::Unfit { node });
    }
    let left = take_from(bucket, at.number, low, high, wanted, out)?;
    bucket.note_own_keys(at.number);
    Ok(left)
}

/// Whether a cached node is a fit inner one.
#[tactic(auto, unfolding(node_cache::specs::Given::given))]
fn is_inner_within(bucket: &Bucket, next: u32, at: Step) -> bool
    ensures { result ≡ is_inner (bounds_by (given bucket.now) at.low at.high) next (given bucket.now at.number).0 }
{
    match bucket.peek(at.number) {
        Some(kept) => is_fit_inner(
            next,
            bound(bucket, at.low),
            bound(bucket, at.high),
            &kept.node,
        ),
        None => false,
    }
}

/// The child at a place of a cached node, with its bounds. None exactly where there is none.
#[tactic(auto, unfolding(node_cache::specs::Given::given))]
fn child_at(bucket: &Bucket, at: Step, place: usize) -> Option<Step>
    requires low { AreKept bucket.now at.low }
    requires high { AreKept bucket.now at.high }
    ensures child { MatchOption result (slice_get (kids_of (given bucket.now at.number).0) place ≡ None) (λ child. IsChildAt (given bucket.now) at place child) }
    ensures kept { IfSome result (λ child. AreKept bucket.now child.low × AreKept bucket.now child.high) }
    ensures place { IfSome result (λ _. place ≤ most_in_node) }
{
    let Node::Inner { seps, kids } = &bucket.peek(at.number)?.node else {
        return None;
    };
    let number = *kids.as_slice().get(place)?;
    Some(Step {
        number,
        low: low_bound(at.number, place, at.low),
        high: high_bound(at.number, place, seps.len(), at.high),
    })
}

/// Whether a child holds keys of a range.
fn child_meets(bucket: &Bucket, low: &[u8], high: &[u8], child: Step) -> bool
    ensures { result ≡ meets low.now high.now (bounds_by (given bucket.now) child.low child.high) }
{
    meets(
        low,
        high,
        bound(bucket, child.low),
        bound(bucket, child.high),
    )
}

/// Scans the subtree of a number, within the bounds that separators further up set. Answers how many pairs are wanted still.
#[cycle(scan)]
fn scan_from<S: NodeSource>(
    source: &mut S,
    bucket: &mut Bucket,
    next: u32,
    low: &[u8],
    high: &[u8],
    at: Step,
    height: u8,
    wanted: u32,
    out: &mut Pairs,
) -> Result<u32, TreeFault>
    requires bucket { bucket.old.bucket < buckets }
    requires next { next ≤ node_numbers }
    requires number { at.number < next }
    requires low { AreKept bucket.old at.low }
    requires high { AreKept bucket.old at.high }
    ensures later { S.later source.old source.new }
    ensures clean { OnCleanAnswer result (S.clean source.old source.new) }
    ensures loaded { IsLoaded (S.tells source.old) (S.finds source.old) (S.upper source.old) bucket.old bucket.new }
    ensures on_walk { LoadsAmong bucket.old bucket.new (visited_from height bucket.new.bucket (given bucket.new) next low.now high.now (bounds_by (given bucket.new) at.low at.high) at.number wanted) }
    ensures used { OnOk result (AreUsed bucket.old bucket.new (visited_from height bucket.new.bucket (given bucket.new) next low.now high.now (bounds_by (given bucket.new) at.low at.high) at.number wanted)) }
    ensures longer { IsLonger out.old out.new }
    ensures way { ScansFrom bucket.new height next low.now high.now (bounds_by (given bucket.new) at.low at.high) at.number wanted out.old out.new (λ failed. S.fails source.old failed source.new) result }
{
    reach(source, bucket, at.number)?;
    if height == 0 {
        return scan_leaf(bucket, low, high, at, wanted, out);
    }
    if !is_inner_within(bucket, next, at) {
        let node = node_in(bucket, at.number);
        return Err(TreeFault::Unfit { node });
    }
    scan_kids(source, bucket, next, low, high, at, height, 0, wanted, out)
}

/// Scans the children of a cached inner node from a place on, and passes over those that hold no keys of the range. Answers how many
/// pairs are wanted still.
#[cycle(scan)]
fn scan_kids<S: NodeSource>(
    source: &mut S,
    bucket: &mut Bucket,
    next: u32,
    low: &[u8],
    high: &[u8],
    at: Step,
    height: u8,
    place: usize,
    wanted: u32,
    out: &mut Pairs,
) -> Result<u32, TreeFault>
    requires bucket { bucket.old.bucket < buckets }
    requires next { next ≤ node_numbers }
    requires height { 0 < height }
    requires place { place ≤ most_in_node + 1 }
    requires there { IsCached bucket.old at.number }
    requires low { AreKept bucket.old at.low }
    requires high { AreKept bucket.old at.high }
    requires inner { is_inner (bounds_by (given bucket.old) at.low at.high) next (given bucket.old at.number).0 ≡ true }
    ensures later { S.later source.old source.new }
    ensures clean { OnCleanAnswer result (S.clean source.old source.new) }
    ensures loaded { IsLoaded (S.tells source.old) (S.finds source.old) (S.upper source.old) bucket.old bucket.new }
    ensures on_walk { LoadsAmong bucket.old bucket.new (visited_of (height - 1) bucket.new.bucket (given bucket.new) next low.now high.now at place wanted) }
    ensures used { OnOk result (AreUsed bucket.old bucket.new (visited_of (height - 1) bucket.new.bucket (given bucket.new) next low.now high.now at place wanted)) }
    ensures longer { IsLonger out.old out.new }
    ensures way { ScansKids bucket.new (height - 1) next low.now high.now at place wanted out.old out.new (λ failed. S.fails source.old failed source.new) result }
{
    if wanted == 0 {
        return Ok(0);
    }
    let Some(child) = child_at(bucket, at, place) else {
        return Ok(wanted);
    };
    if !child_meets(bucket, low, high, child) {
        return scan_kids(
            source,
            bucket,
            next,
            low,
            high,
            at,
            height,
            place + 1,
            wanted,
            out,
        );
    }
    let left = scan_from(
        source,
        bucket,
        next,
        low,
        high,
        child,
        height - 1,
        wanted,
        out,
    )?;
    scan_kids(
        source,
        bucket,
        next,
        low,
        high,
        at,
        height,
        place + 1,
        left,
        out,
    )
}

/// Scans a tree from its head on. With a fault, pairs may stand behind those that were there.
fn scan_from_head<S: NodeSource>(
    source: &mut S,
    bucket: &mut Bucket,
    low: &[u8],
    high: &[u8],
    limit: u32,
    out: &mut Pairs,
) -> Result<(), TreeFault>
    requires bucket { bucket.old.bucket < buckets }
    ensures later { S.later source.old source.new }
    ensures clean { OnCleanAnswer result (S.clean source.old source.new) }
    ensures loaded { IsLoaded (S.tells source.old) (S.finds source.old) (S.upper source.old) bucket.old bucket.new }
    ensures on_walk { LoadsOnWalk bucket.old bucket.new low.now high.now limit }
    ensures used { OnOk result (AreUsed bucket.old bucket.new (walk_in bucket.new low.now high.now limit)) }
    ensures longer { IsLonger out.old out.new }
    ensures ok { OnOk result (IsFoundBetween bucket.new low.now high.now limit out.old out.new) }
    ensures err { IfErr result (λ fault. OnFault fault (λ failed. S.fails source.old failed source.new) (IsFirstUnfitBetween bucket.new low.now high.now limit) (Unit {0})) }
{
    reach(source, bucket, 0)?;
    let unfit = node_in(bucket, 0);
    let Some((root, next, depth)) = head_of(bucket) else {
        return Err(TreeFault::Unfit { node: unfit });
    };
    if limit == 0 || !is_below(low, high) {
        return Ok(());
    }
    let at = Step {
        number: root,
        low: None,
        high: None,
    };
    scan_from(source, bucket, next, low, high, at, depth - 1, limit, out)?;
    Ok(())
}

/// Puts copies of the pairs with `low <= key < high` behind those of `out`, in the byte order of their keys, and of these the first
/// `limit`. It visits the head and then, from the left, the nodes that may hold keys of the range, each before its children, up to the
/// leaf of the last pair that is wanted; where the range is empty or `limit` is 0, the head alone. It caches those that were not, and
/// no others, and with Ok those visited are what was used last, in this order. It changes nothing else in the bucket. `Unfit` names the
/// first node on its way that breaks the rules of a tree; on sound rows it never comes. `Source` has what the source answered. With each
/// fault, `NoMemory` too, `out` is as it was.
pub fn scan<S: NodeSource>(
    source: &mut S,
    bucket: &mut Bucket,
    low: &[u8],
    high: &[u8],
    limit: u32,
    out: &mut Pairs,
) -> Result<(), TreeFault>
    requires bucket { bucket.old.bucket < buckets }
    ensures later { S.later source.old source.new }
    ensures clean { OnCleanAnswer result (S.clean source.old source.new) }
    ensures loaded { IsLoaded (S.tells source.old) (S.finds source.old) (S.upper source.old) bucket.old bucket.new }
    ensures on_walk { LoadsOnWalk bucket.old bucket.new low.now high.now limit }
    ensures used { OnOk result (AreUsed bucket.old bucket.new (walk_in bucket.new low.now high.now limit)) }
    ensures answer { Reads (λ done. IsFoundBetween bucket.new low.now high.now limit out.old out.new) (λ failed. S.fails source.old failed source.new) (IsFirstUnfitBetween bucket.new low.now high.now limit) result }
    ensures same { OnErr result (out.new ≡ out.old) }
    ensures sound { (rows log : List ModelRow) → Serves (S.tells source.old) bucket.old rows → Holds bucket.old rows log → IsSound (rows ++ log) → SoundReading rows log bucket.new (λ done. out.new ≡ out.old ++ take limit (between low.now high.now (tree_map (rows ++ log) bucket.old.bucket))) result }
{
    let before = out.len();
    match scan_from_head(source, bucket, low, high, limit, out) {
        Ok(()) => Ok(()),
        Err(fault) => {
            out.truncate(before);
            Err(fault)
        }
    }
}
