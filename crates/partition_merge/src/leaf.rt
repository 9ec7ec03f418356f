//! The image of a leaf that rows change. The pairs stay where they were read, as they are spelled there, until the image is spelled: no row is decoded.

ghost use Rattle.std.specs.Prelude.{◌≡◌, ℕ, ◌+◌, ◌<◌, ◌≤◌, [], ◌++◌, true, IfOk, IfSome, IsTrue, List, MatchResult, OnOk, drop, flat_map, length, map, min, take};
ghost use Rattle.fine_model.specs.declared.Mark.{Mark};
ghost use Rattle.fine_model.specs.declared.Node.TheVariants as node;
ghost use Rattle.fine_model.specs.declared.Rec.{Rec};
ghost use Rattle.fine_model.specs.declared.Rec.TheVariants as rec;
ghost use Rattle.fine_model.specs.declared.Row.{Row};
ghost use Rattle.fine_model.specs.Map.{Pair, is_ascending, pairs_below, set, unset};
ghost use Rattle.fine_model.specs.Merge.{starts_afresh};
ghost use Rattle.fine_model.specs.Nodes.{Content, replay};
ghost use Rattle.fine_model.specs.RowBytes.{FitsPair, FitsRec, FitsRow, body, key_bytes, kind as kind_of, most_in_node, pair_bytes, row_bytes, rows_len};
ghost use Rattle.node_record.specs.Places.{BelongsAt, StandsAt};
ghost use Rattle.partition_merge.specs.Leaves.{AreRows, IsChanged, IsImageOf, IsLeft, IsRowBefore, LeadsTo, SpellsLeaf, front, key_of};

use crate::piece::PUT;
use fine_model::format::{MOST_IN_NODE, ROW_FRONT};
use fine_model::{Items, NoMemory, NodeId};
use node_record::is_below;
use std::alloc::Global;

/// The image of a node and the number of its bytes. It is spelled only where that is asked for.
#[derive(Drop)]
pub(crate) struct NodeImage {
    pub(crate) bytes: Vec<u8>,
    pub(crate) len: u32,
}

/// The spelled pairs of a leaf and its version, where there is one.
type Leaf<'a> = Option<(Items<&'a [u8]>, u64)>;

/// The kinds of rows that are the image of a leaf, that delete a key of it, and that cut it off from a key on.
const LEAF_IMAGE: u8 = 2;

const DELETE: u8 = 5;

const CUT: u8 = 6;

/// The bytes of a field.
#[inline(always)]
fn part<const N: usize>(bytes: &[u8], at: usize) -> [u8; N]
    requires { at + N ≤ length bytes.now }
    ensures { result ≡ take N (drop at bytes.now) }
{
    let mut part = [0; N];
    part.copy_from_slice(&bytes[at..at + N]);
    part
}

/// The kind, the version and the body of the row with which bytes begin, and the bytes behind it.
#[inline(always)]
fn split_row(bytes: &[u8]) -> Option<(u8, u64, &[u8], &[u8])>
    ensures shorter { IfSome result (λ r. length r.3.now < length bytes.now) }
    ensures read { (mark : Mark) (row : Row) (rest : List ℕ) → FitsRow mark row → bytes.now ≡ row_bytes row ++ rest → IfSome result (λ r. IsRowBefore row rest r.0 r.1 r.2.now r.3.now) }
{
    let (front, rest) = bytes.split_at_checked(ROW_FRONT)?;
    let version = u64::from_be_bytes(part::<8>(front, 7));
    let len = u32::from_be_bytes(part::<4>(front, 15));
    let (body, behind) = rest.split_at_checked(len as usize)?;
    Some((front[0], version, body, behind))
}

/// The spelled pair with which bytes begin, and the bytes behind it.
#[inline(always)]
fn split_pair(bytes: &[u8]) -> Option<(&[u8], &[u8])>
    ensures shorter { IfSome result (λ r. length r.1.now < length bytes.now) }
    ensures read { (pair : Pair) (rest : List ℕ) → FitsPair pair → bytes.now ≡ pair_bytes pair ++ rest → IfSome result (λ r. (r.0.now ≡ pair_bytes pair) × (r.1.now ≡ rest)) }
{
    let key_end = *bytes.first()? as usize + 1;
    let (_, value) = bytes.split_at_checked(key_end)?;
    let len = u16::from_be_bytes(*value.first_chunk::<2>()?) as usize;
    let (pair, behind) = bytes.split_at_checked(key_end + 2 + len)?;
    Some((pair, behind))
}

/// No spelled pairs, with room for those of a leaf.
fn no_pairs<'a>(alloc: Global) -> Result<Items<&'a [u8]>, NoMemory>
    ensures { IfOk result (λ texts. texts ≡ []) }
{
    Ok(Items::from_vec(Vec::with_capacity(alloc, MOST_IN_NODE)?))
}

/// The spelled pairs of the body of a leaf image.
fn split_pairs(alloc: Global, text: &[u8]) -> Result<Option<Items<&[u8]>>, NoMemory>
    ensures { (pairs : List Pair) → FitsRec (rec.LeafImage pairs) → text.now ≡ body (rec.LeafImage pairs) → IfOk result (λ r. IfSome r (λ texts. SpellsLeaf (map (λ t. t.now) texts) pairs)) }
{
    let Some((_, mut left)) = text.split_first() else {
        return Ok(None);
    };
    let mut pairs = no_pairs(alloc)?;
    while !left.is_empty() {
        let Some((pair, behind)) = split_pair(left) else {
            return Ok(None);
        };
        pairs.push(pair)?;
        left = behind;
    }
    Ok(Some(pairs))
}

/// The key of a spelled pair.
#[inline(always)]
fn key_of(pair: &[u8]) -> &[u8]
    ensures { result.now ≡ key_of pair.now }
{
    match pair.split_first() {
        Some((len, rest)) => &rest[..rest.len().min(*len as usize)],
        None => &[],
    }
}

/// The place of the pair with a key among spelled ones, or, where there is none, the place where one belongs.
fn find_pair(pairs: &Items<&[u8]>, key: &[u8]) -> Result<usize, usize>
    ensures within { MatchResult result (λ i. i < length pairs.now) (λ i. i ≤ length pairs.now) }
    ensures place { IsTrue (is_ascending (map (λ t. key_of t.now) pairs.now)) → MatchResult result (λ i. StandsAt (λ t. key_of t.now) key.now pairs.now i) (λ i. BelongsAt (λ t. key_of t.now) key.now pairs.now i) }
{
    let i = pairs
        .as_slice()
        .partition_point(|pair| is_below(key_of(pair), key));
    if i < pairs.len() && !is_below(key, key_of(pairs.at(i))) {
        Ok(i)
    } else {
        Err(i)
    }
}

/// Puts a spelled pair among others in the order of their keys. Answers whether they are still a leaf.
fn put<'a>(pairs: &mut Items<&'a [u8]>, pair: &'a [u8]) -> Result<bool, NoMemory>
    ensures { (old : List Pair) (key value : List ℕ) → SpellsLeaf (map (λ t. t.now) pairs.old) old → FitsPair (key, value) → pair.now ≡ pair_bytes (key, value)
        → IfOk result (λ whole. whole ≡ true → SpellsLeaf (map (λ t. t.now) pairs.new) (set old key value)) }
{
    match find_pair(pairs, key_of(pair)) {
        Ok(i) => {
            let _old = pairs.replace(i, pair);
            Ok(true)
        }
        Err(i) => {
            if pairs.len() >= MOST_IN_NODE {
                return Ok(false);
            }
            pairs.insert(i, pair)?;
            Ok(true)
        }
    }
}

/// Removes the pair with a spelled key from spelled ones, where there is one.
fn remove(pairs: &mut Items<&[u8]>, key: &[u8])
    ensures { (old : List Pair) (name : List ℕ) → SpellsLeaf (map (λ t. t.now) pairs.old) old → key.now ≡ key_bytes name → SpellsLeaf (map (λ t. t.now) pairs.new) (unset old name) }
{
    match find_pair(pairs, key_of(key)) {
        Ok(i) => {
            let _old = pairs.remove(i);
        }
        Err(_) => {}
    }
}

/// Keeps of spelled pairs those with keys below a spelled one.
fn cut(pairs: &mut Items<&[u8]>, key: &[u8])
    ensures { (old : List Pair) (name : List ℕ) → SpellsLeaf (map (λ t. t.now) pairs.old) old → key.now ≡ key_bytes name → SpellsLeaf (map (λ t. t.now) pairs.new) (pairs_below name old) }
{
    match find_pair(pairs, key_of(key)) {
        Ok(i) => pairs.truncate(i),
        Err(i) => pairs.truncate(i),
    }
}

/// Changes spelled pairs by a row of a kind, with this body. Answers whether they are still a leaf. They are said to be none where the row is no image
/// and of another kind than those of common changes of a leaf.
fn change<'a>(pairs: &mut Items<&'a [u8]>, kind: u8, text: &'a [u8]) -> Result<bool, NoMemory>
    ensures { (old : List Pair) (change : Rec) → SpellsLeaf (map (λ t. t.now) pairs.old) old → FitsRec change → kind ≡ kind_of change → text.now ≡ body change
        → IfOk result (λ whole. whole ≡ true → IsChanged old change (map (λ t. t.now) pairs.new)) }
{
    if kind == PUT {
        return put(pairs, text);
    }
    if kind == CUT {
        cut(pairs, text);
        return Ok(true);
    }
    if kind == DELETE {
        remove(pairs, text);
        return Ok(true);
    }
    Ok(false)
}

/// Changes a leaf of a version, of spelled pairs, by rows. Answers the version behind them, and None where a row is an image or of a rare kind, is not of the
/// next version, or leaves no leaf.
fn change_all<'a>(
    pairs: &mut Items<&'a [u8]>,
    version: u64,
    rows: &'a [u8],
) -> Result<Option<u64>, NoMemory>
    ensures { (mark : Mark) (content : Content) (more : List Row) → LeadsTo mark content (map (λ t. t.now) pairs.old) version rows.now more
        → IfOk result (λ r. IfSome r (λ last. LeadsTo mark content (map (λ t. t.now) pairs.new) last [] more)) }
{
    let mut version = version;
    let mut left = rows;
    while !left.is_empty() {
        let Some((kind, next, text, behind)) = split_row(left) else {
            return Ok(None);
        };
        if kind < PUT || next <= version || next - version != 1 {
            return Ok(None);
        }
        if !change(pairs, kind, text)? {
            return Ok(None);
        }
        version = next;
        left = behind;
    }
    Ok(Some(version))
}

/// The spelled pairs and the version of the leaf with which rows begin, and the bytes behind its image. Where they begin with a pair that is put, this is the
/// empty leaf before all rows, and None where they begin otherwise.
fn begin(alloc: Global, rows: &[u8]) -> Result<Option<(Items<&[u8]>, u64, &[u8])>, NoMemory>
    ensures { (mark : Mark) (own more : List Row) → AreRows mark rows.now own
        → IfOk result (λ r. IfSome r (λ begun. LeadsTo mark (replay (node.Leaf [], 0) (own ++ more)) (map (λ t. t.now) begun.0) begun.1 begun.2.now more)) }
{
    let Some((kind, version, text, behind)) = split_row(rows) else {
        return Ok(None);
    };
    if kind == PUT {
        return Ok(Some((no_pairs(alloc)?, 0, rows)));
    }
    if kind != LEAF_IMAGE {
        return Ok(None);
    }
    match split_pairs(alloc, text)? {
        Some(pairs) => Ok(Some((pairs, version, behind))),
        None => Ok(None),
    }
}

/// The spelled pairs and the version of the leaf that rows leave, where all but the first, which may be an image, are common changes of a leaf.
fn leaf_from<'a>(alloc: Global, first: &'a [u8], behind: &'a [u8]) -> Result<Leaf<'a>, NoMemory>
    ensures { (mark also : Mark) (a b : List Row) → AreRows mark first.now a → AreRows also behind.now b
        → IfOk result (λ r. IfSome r (λ leaf. IsLeft (replay (node.Leaf [], 0) (a ++ b)) (map (λ t. t.now) leaf.0) leaf.1)) }
{
    let Some((mut pairs, version, left)) = begin(alloc, first)? else {
        return Ok(None);
    };
    let Some(version) = change_all(&mut pairs, version, left)? else {
        return Ok(None);
    };
    match change_all(&mut pairs, version, behind)? {
        Some(version) => Ok(Some((pairs, version))),
        None => Ok(None),
    }
}

/// The same of rows, of which the older ones may be none.
fn leaf_of<'a>(alloc: Global, older: &'a [u8], newer: &'a [u8]) -> Result<Leaf<'a>, NoMemory>
    ensures { (mark also : Mark) (a b : List Row) → AreRows mark older.now a → AreRows also newer.now b
        → IfOk result (λ r. IfSome r (λ leaf. IsLeft (replay (node.Leaf [], 0) (a ++ b)) (map (λ t. t.now) leaf.0) leaf.1)) }
{
    if older.is_empty() {
        return leaf_from(alloc, newer, older);
    }
    leaf_from(alloc, older, newer)
}

/// The number of bytes of the body of a leaf image.
fn body_len(pairs: &[&[u8]]) -> u32
    ensures { (leaf : List Pair) → SpellsLeaf (map (λ t. t.now) pairs.now) leaf → result ≡ length (body (rec.LeafImage leaf)) }
{
    let mut len = 1_usize;
    for pair in pairs {
        len = len.saturating_add(pair.len());
    }
    len.min(u32::MAX as usize) as u32
}

/// Spells what stands before the pairs of a leaf image.
fn put_front(out: &mut Vec<u8>, node: NodeId, version: u64, len: u32) -> Result<(), NoMemory>
    ensures { OnOk result (out.new.items ≡ out.old.items ++ front 2 node version len) }
{
    out.extend_from_slice(&[LEAF_IMAGE])?;
    out.extend_from_slice(&node.bucket.to_be_bytes())?;
    out.extend_from_slice(&node.number.to_be_bytes())?;
    out.extend_from_slice(&version.to_be_bytes())?;
    out.extend_from_slice(&len.to_be_bytes())?;
    Ok(())
}

/// Appends spelled pairs.
fn put_pairs(out: &mut Vec<u8>, pairs: &[&[u8]]) -> Result<(), NoMemory>
    ensures { OnOk result (out.new.items ≡ out.old.items ++ flat_map (λ t. t.now) pairs.now) }
{
    for pair in pairs {
        out.extend_from_slice(pair)?;
    }
    Ok(())
}

/// The leaf image of spelled pairs, with a body of so many bytes, as it is spelled, if that is asked for.
fn spell(
    alloc: Global,
    spells: bool,
    node: NodeId,
    version: u64,
    pairs: &[&[u8]],
    len: u32,
) -> Result<Vec<u8>, NoMemory>
    requires few { length pairs.now ≤ most_in_node }
    ensures image { (leaf : List Pair) → SpellsLeaf (map (λ t. t.now) pairs.now) leaf → len ≡ length (body (rec.LeafImage leaf))
        → IfOk result (λ bytes. spells ≡ true → bytes.items ≡ row_bytes (record { node = node; version = version; rec = rec.LeafImage leaf })) }
{
    if !spells {
        return Ok(Vec::new(alloc));
    }
    let mut out = Vec::with_capacity(alloc, ROW_FRONT + len as usize)?;
    put_front(&mut out, node, version, len)?;
    out.extend_from_slice(&[pairs.len() as u8])?;
    put_pairs(&mut out, pairs)?;
    Ok(out)
}

/// The image into which the rows of a node are merged, if they begin afresh, with a leaf image or with version 1, and if all behind an image are common
/// changes of a leaf. They have so many bytes. None where another image may stand for them, or none.
pub(crate) fn leaf_image(
    alloc: Global,
    spells: bool,
    node: NodeId,
    older: &[u8],
    newer: &[u8],
    len: u32,
) -> Result<Option<NodeImage>, NoMemory>
    ensures { (mark also : Mark) (a b : List Row) → AreRows mark older.now a → AreRows also newer.now b → starts_afresh (a ++ b) ≡ true → len ≡ min (rows_len (a ++ b)) 4294967295
        → IfOk result (λ r. IfSome r (λ image. IsImageOf spells node (a ++ b) image.bytes.items image.len)) }
{
    if node.number == 0 {
        return Ok(None);
    }
    let Some((pairs, version)) = leaf_of(alloc, older, newer)? else {
        return Ok(None);
    };
    if pairs.len() > MOST_IN_NODE {
        return Ok(None);
    }
    let body = body_len(pairs.as_slice());
    let image = body.saturating_add(ROW_FRONT as u32);
    if image > len {
        return Ok(None);
    }
    let bytes = spell(alloc, spells, node, version, pairs.as_slice(), body)?;
    Ok(Some(NodeImage { bytes, len: image }))
}
