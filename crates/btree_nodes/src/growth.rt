//! What setting a key pushes where it does not fit into a leaf: leaves and inner nodes are split, from the leaf up. Nothing is changed.

ghost use Rattle.std.specs.Prelude.{◌≡◌, ℕ, ◌+◌, ◌<◌, ◌≤◌, ◌||◌, nat_lt, true, false, length, drop, slice_get, unwrap_or, [], ◌∷◌, ◌++◌, List, IfOk, IfSome, OnOk, MatchOption};
ghost use Rattle.fine_model.specs.Map.{has};
ghost use Rattle.fine_model.specs.Pushed.{row_of, key_at, child_for, split_leaf, split_inner, grown_leaf, grown_inner, growth};
ghost use Rattle.fine_model.specs.RowBytes.{greatest, most_in_node};
ghost use Rattle.fine_model.specs.Trees.{pairs_of};
ghost use Rattle.fine_model.specs.declared.Node.TheVariants as node;
ghost use Rattle.fine_model.specs.declared.Rec.TheVariants as rec;
ghost use Rattle.node_record.specs.Bounds.{FitsNode};
ghost use Rattle.node_cache.specs.Given.{given};
ghost use Rattle.btree_nodes.specs.Growths.{grown_of, has_room, split_rows, IsNoInner};

use crate::descent::place_among;
use crate::leaf::value_of;
use fine_model::format::MOST_IN_NODE;
use fine_model::{Bytes, Copied, Items, Keys, Kids, NoMemory, Node, NodeId, Pairs, Rec, Row, Rows};
use node_cache::Bucket;
use node_record::is_below;
use std::alloc::Global;

/// Rows that setting a key pushes below a node, the next unused number behind them, and, where the node was split, the separator and
/// the number of the new node to its right.
#[derive(Debug, Drop)]
pub struct Growth {
    pub rows: Rows,
    pub next: u32,
    pub split: Option<(Bytes, u32)>,
}

/// A node that rows change, and its version before them.
#[derive(Clone, Copy, Debug)]
struct Target {
    bucket: u16,
    number: u32,
    version: u64,
}

/// A row of a node.
pub fn row_of(bucket: u16, number: u32, version: u64, rec: Rec) -> Row
    ensures { result ≡ row_of bucket number version rec }
{
    Row {
        node: NodeId { bucket, number },
        version,
        rec,
    }
}

/// A copy of what stands in a slice.
fn copy_all<T: Copied + Drop>(alloc: Global, items: &[T]) -> Result<Items<T>, NoMemory>
    ensures { IfOk result (λ copy. copy ≡ items.now) }
{
    Ok(Items::from_vec(T::copy_all(alloc, items)?))
}

/// The version of a cached node. 0 where it is not cached.
#[tactic(auto, unfolding(node_cache::specs::Given::given))]
pub fn version_of(bucket: &Bucket, number: u32) -> u64
    ensures is { result ≡ (given bucket.now number).1 }
    ensures small { result ≤ greatest }
{
    match bucket.peek(number) {
        Some(kept) => kept.version,
        None => 0,
    }
}

/// A cached node to be changed.
fn target_of(bucket: &Bucket, number: u32) -> Target
    ensures is { result ≡ record { bucket = bucket.now.bucket; number = number; version = (given bucket.now number).1 } }
    ensures small { result.version ≤ greatest }
{
    Target {
        bucket: bucket.bucket(),
        number,
        version: version_of(bucket, number),
    }
}

/// The pairs of a cached leaf in which a key has no room: it is absent, and there are 32 others.
#[tactic(auto, unfolding(node_cache::specs::Given::given, fine_model::specs::Map::get))]
fn full_leaf<'a>(bucket: &'a Bucket, number: u32, key: &[u8]) -> Option<&'a Pairs>
    ensures full { MatchOption result ((has (pairs_of (given bucket.now number).0) key.now || nat_lt (length (pairs_of (given bucket.now number).0)) most_in_node) ≡ true) (λ pairs. (pairs.now ≡ pairs_of (given bucket.now number).0) × ((has pairs.now key.now || nat_lt (length pairs.now) most_in_node) ≡ false)) }
{
    match &bucket.peek(number)?.node {
        Node::Leaf { pairs } if pairs.len() >= MOST_IN_NODE && value_of(pairs, key).is_none() =>
            Some(pairs),
        _ => None,
    }
}

/// Whether a cached leaf has room for a key: it has the key, or fewer than 32 pairs.
pub fn has_room(bucket: &Bucket, number: u32, key: &[u8]) -> bool
    ensures { result ≡ has_room (pairs_of (given bucket.now number).0) key.now }
{
    match full_leaf(bucket, number, key) {
        Some(_full) => false,
        None => true,
    }
}

/// The separators and children of a cached inner node.
#[tactic(auto, unfolding(node_cache::specs::Given::given))]
fn inner_of(bucket: &Bucket, number: u32) -> Option<(&Keys, &Kids)>
    ensures is { MatchOption result (IsNoInner (given bucket.now number).0) (λ inner. (given bucket.now number).0 ≡ node.Inner inner.0.now inner.1.now) }
    ensures fits { IfSome result (λ inner. FitsNode (node.Inner inner.0.now inner.1.now)) }
{
    match &bucket.peek(number)?.node {
        Node::Inner { seps, kids } => Some((seps, kids)),
        _ => None,
    }
}

/// The key of pair 16.
fn middle_key(pairs: &Pairs) -> &Bytes
    requires { 16 < length pairs.now }
    ensures { result.now ≡ key_at pairs.now 16 }
{
    &pairs.at(16).0
}

/// Separator 16.
fn middle_sep(seps: &Keys) -> &Bytes
    requires { 16 < length seps.now }
    ensures { result.now ≡ unwrap_or (slice_get seps.now 16) [] }
{
    seps.at(16)
}

/// Puts the rows of a split behind others: the new node's image, the cut of the old one, and what is set in one of both.
fn push_split(
    rows: &mut Rows,
    at: Target,
    next: u32,
    image: Rec,
    cut: Rec,
    set: Rec,
    left: bool,
) -> Result<(), NoMemory>
    requires { at.version ≤ greatest }
    ensures { OnOk result (rows.new ≡ rows.old ++ split_rows at.bucket at.number at.version next image cut set left) }
{
    rows.push(row_of(at.bucket, next, 1, image))?;
    rows.push(row_of(at.bucket, at.number, at.version + 1, cut))?;
    rows.push(if left {
        row_of(at.bucket, at.number, at.version + 2, set)
    } else {
        row_of(at.bucket, next, 2, set)
    })?;
    Ok(())
}

/// What a split pushes on top of other rows. The key in the middle goes up, with the number of the new node.
fn split_off(
    rows: Rows,
    at: Target,
    next: u32,
    middle: &Bytes,
    image: Rec,
    cut: Rec,
    set: Rec,
    left: bool,
) -> Result<Growth, NoMemory>
    requires version { at.version ≤ greatest }
    requires next { next ≤ 1048600 }
    ensures grown { IfOk result (λ g. grown_of g ≡ record { rows = rows ++ split_rows at.bucket at.number at.version next image cut set left; next = next + 1; split = Some (middle.now, next) }) }
    ensures next { IfOk result (λ g. g.next ≤ next + 1) }
{
    let mut rows = rows;
    push_split(&mut rows, at, next, image, cut, set, left)?;
    Ok(Growth {
        rows,
        next: next + 1,
        split: Some((middle.copy()?, next)),
    })
}

/// One row on top of others, of a node that is not split.
fn push_one(rows: Rows, at: Target, next: u32, rec: Rec) -> Result<Growth, NoMemory>
    requires { at.version ≤ greatest }
    ensures grown { IfOk result (λ g. grown_of g ≡ record { rows = rows ++ row_of at.bucket at.number (at.version + 1) rec ∷ []; next = next; split = None }) }
    ensures next { IfOk result (λ g. g.next ≤ next) }
{
    let mut rows = rows;
    rows.push(row_of(at.bucket, at.number, at.version + 1, rec))?;
    Ok(Growth {
        rows,
        next,
        split: None,
    })
}

/// One row, of a leaf that is not split.
fn put_whole(
    alloc: Global,
    at: Target,
    next: u32,
    key: &[u8],
    value: &[u8],
) -> Result<Growth, NoMemory>
    requires { at.version ≤ greatest }
    ensures grown { IfOk result (λ g. grown_of g ≡ record { rows = row_of at.bucket at.number (at.version + 1) (rec.Put key.now value.now) ∷ []; next = next; split = None }) }
    ensures next { IfOk result (λ g. g.next ≤ next) }
{
    let put = Rec::Put {
        key: Bytes::from_slice(alloc, key)?,
        value: Bytes::from_slice(alloc, value)?,
    };
    push_one(Items::new(alloc), at, next, put)
}

/// A full leaf is split: pairs 16 and up go to a new leaf, and the new pair into the half where it belongs.
#[tactic(auto, unfolding(fine_model::specs::Pushed::split_leaf))]
fn split_leaf(
    alloc: Global,
    at: Target,
    next: u32,
    key: &[u8],
    value: &[u8],
    pairs: &Pairs,
) -> Result<Growth, NoMemory>
    requires version { at.version ≤ greatest }
    requires next { next ≤ 1048600 }
    requires pairs { 16 < length pairs.now }
    ensures grown { IfOk result (λ g. grown_of g ≡ split_leaf at.bucket at.number at.version next (key.now, value.now) pairs.now (key_at pairs.now 16)) }
    ensures next { IfOk result (λ g. g.next ≤ next + 1) }
{
    let middle = middle_key(pairs);
    let image = Rec::LeafImage {
        pairs: copy_all(alloc, &pairs.as_slice()[16..])?,
    };
    let cut = Rec::CutLeaf {
        key: middle.copy()?,
    };
    let put = Rec::Put {
        key: Bytes::from_slice(alloc, key)?,
        value: Bytes::from_slice(alloc, value)?,
    };
    let left = is_below(key, middle.as_slice());
    split_off(Items::new(alloc), at, next, middle, image, cut, put, left)
}

/// What setting a pair pushes in a leaf.
#[tactic(auto, unfolding(fine_model::specs::Pushed::grown_leaf))]
fn grow_leaf(
    alloc: Global,
    bucket: &Bucket,
    next: u32,
    key: &[u8],
    value: &[u8],
    number: u32,
) -> Result<Growth, NoMemory>
    requires next { next ≤ 1048600 }
    ensures grown { IfOk result (λ g. grown_of g ≡ grown_leaf bucket.now.bucket number (given bucket.now number).1 next (key.now, value.now) (pairs_of (given bucket.now number).0)) }
    ensures next { IfOk result (λ g. g.next ≤ next + 1) }
{
    let at = target_of(bucket, number);
    match full_leaf(bucket, number, key) {
        Some(pairs) => split_leaf(alloc, at, next, key, value, pairs),
        None => put_whole(alloc, at, next, key, value),
    }
}

/// A full inner node is split round separator 16, which moves up, and the new separator goes into the half where it belongs.
#[tactic(auto, unfolding(fine_model::specs::Pushed::split_inner))]
fn split_inner(
    alloc: Global,
    at: Target,
    seps: &Keys,
    kids: &Kids,
    below: Rows,
    next: u32,
    sep: Bytes,
    right: u32,
) -> Result<Growth, NoMemory>
    requires version { at.version ≤ greatest }
    requires next { next ≤ 1048600 }
    requires seps { 17 ≤ length seps.now }
    requires kids { 17 ≤ length kids.now }
    ensures grown { IfOk result (λ g. grown_of g ≡ split_inner at.bucket at.number at.version seps.now kids.now (unwrap_or (slice_get seps.now 16) []) below next sep right) }
    ensures next { IfOk result (λ g. g.next ≤ next + 1) }
{
    let middle = middle_sep(seps);
    let image = Rec::InnerImage {
        seps: copy_all(alloc, &seps.as_slice()[17..])?,
        kids: copy_all(alloc, &kids.as_slice()[17..])?,
    };
    let cut = Rec::CutInner {
        key: middle.copy()?,
    };
    let left = is_below(sep.as_slice(), middle.as_slice());
    let link = Rec::Link {
        key: sep,
        child: right,
    };
    split_off(below, at, next, middle, image, cut, link, left)
}

/// A separator is set in an inner node that has room for it.
fn link_whole(
    at: Target,
    below: Rows,
    next: u32,
    sep: Bytes,
    right: u32,
) -> Result<Growth, NoMemory>
    requires { at.version ≤ greatest }
    ensures grown { IfOk result (λ g. grown_of g ≡ record { rows = below ++ row_of at.bucket at.number (at.version + 1) (rec.Link sep right) ∷ []; next = next; split = None }) }
    ensures next { IfOk result (λ g. g.next ≤ next) }
{
    let link = Rec::Link {
        key: sep,
        child: right,
    };
    push_one(below, at, next, link)
}

/// What is pushed in an inner node on top of what is pushed below it.
#[tactic(auto, unfolding(fine_model::specs::Pushed::grown_inner))]
fn grow_inner(
    alloc: Global,
    bucket: &Bucket,
    number: u32,
    below: Growth,
) -> Result<Growth, NoMemory>
    requires next { below.next ≤ 1048600 }
    ensures grown { IfOk result (λ g. grown_of g ≡ grown_inner bucket.now.bucket number (given bucket.now number).1 (given bucket.now number).0 below.rows below.next below.split) }
    ensures next { IfOk result (λ g. g.next ≤ below.next + 1) }
{
    let Growth { rows, next, split } = below;
    let Some((sep, right)) = split else {
        return Ok(Growth {
            rows,
            next,
            split: None,
        });
    };
    let at = target_of(bucket, number);
    let Some((seps, kids)) = inner_of(bucket, number) else {
        return Ok(Growth {
            rows,
            next,
            split: None,
        });
    };
    if seps.len() < MOST_IN_NODE {
        link_whole(at, rows, next, sep, right)
    } else {
        split_inner(alloc, at, seps, kids, rows, next, sep, right)
    }
}

/// The child of a cached node in which a key belongs. A node that is no inner one has child 0.
fn child_for(bucket: &Bucket, number: u32, key: &[u8]) -> u32
    ensures { result ≡ child_for key.now (given bucket.now number).0 }
{
    match inner_of(bucket, number) {
        Some((seps, kids)) => *kids.at(place_among(seps, key)),
        None => 0,
    }
}

/// What setting a pair pushes from a node down, the rows of its leaf first.
#[tactic(auto, unfolding(fine_model::specs::Pushed::growth))]
pub fn grow(
    alloc: Global,
    bucket: &Bucket,
    next: u32,
    key: &[u8],
    value: &[u8],
    number: u32,
    height: u8,
) -> Result<Growth, NoMemory>
    requires next { next + height ≤ 1048590 }
    ensures grown { IfOk result (λ g. grown_of g ≡ growth height bucket.now.bucket (given bucket.now) next (key.now, value.now) number) }
    ensures next { IfOk result (λ g. g.next ≤ next + height + 1) }
{
    if height == 0 {
        return grow_leaf(alloc, bucket, next, key, value, number);
    }
    let child = child_for(bucket, number, key);
    let below = grow(alloc, bucket, next, key, value, child, height - 1)?;
    grow_inner(alloc, bucket, number, below)
}
