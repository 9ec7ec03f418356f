//! The image of a node, where it may stand for the node's rows.

ghost use Rattle.std.specs.Prelude.{◌≡◌, ◌-◌, [], ◌∷◌, ◌++◌, min, true, IfOk, IfSome};
ghost use Rattle.fine_model.specs.Merge.{image_of, is_image, starts_afresh};
ghost use Rattle.fine_model.specs.RowBytes.{FitsRec, rows_len};
ghost use Rattle.partition_merge.specs.Merging.{FitRows, merged_of, one_or};

use fine_model::{NoMemory, Node, NodeId, Rec, Row, Rows};
use node_fetch::{base, replayed, replayed_moved};
use node_record::{image_of, row_len};
use std::alloc::Global;

/// Whether a change is the image of a node.
fn is_image(change: &Rec) -> bool
    ensures { result ≡ is_image change.now }
{
    match change {
        Rec::HeadImage { .. } | Rec::LeafImage { .. } | Rec::InnerImage { .. } => true,
        _ => false,
    }
}

/// Whether rows need nothing before them.
fn starts_afresh(older: &[Row], newer: &[Row]) -> bool
    ensures { result ≡ starts_afresh (older.now ++ newer.now) }
{
    let Some(row) = older.first().or(newer.first()) else {
        return false;
    };
    is_image(&row.rec) || row.version == 1
}

/// The row of both lists, where there is one and no more.
fn only_row<'a>(older: &'a [Row], newer: &'a [Row]) -> Option<&'a Row>
    ensures { IfSome result (λ row. older.now ++ newer.now ≡ row.now ∷ []) }
{
    if older.len() + newer.len() != 1 {
        return None;
    }
    older.first().or(newer.first())
}

/// Whether a row is the image of a node, which stands for itself, so that nothing is to be folded.
fn is_image_of(node: NodeId, row: &Row) -> bool
    ensures { result ≡ true → merged_of node (row.now ∷ []) ≡ row.now ∷ [] }
{
    if row.node != node {
        return false;
    }
    is_image(&row.rec)
}

/// Whether all rows are one image of a node.
fn is_one_image(node: NodeId, older: &[Row], newer: &[Row]) -> bool
    ensures { result ≡ true → merged_of node (older.now ++ newer.now) ≡ older.now ++ newer.now }
{
    match only_row(older, newer) {
        Some(row) => is_image_of(node, row),
        None => false,
    }
}

/// By how much a length is above that of rows, and 0 where it is not.
fn excess(len: u32, rows: &[Row]) -> u32
    requires { FitRows rows.now }
    ensures { result ≡ len - rows_len rows.now }
{
    let mut left = len;
    for row in rows {
        left = left.saturating_sub(row_len(row));
    }
    left
}

/// The image row that stands for the rows of a node, where one does.
pub fn folded(
    alloc: Global,
    node: NodeId,
    older: &[Row],
    newer: &[Row],
) -> Result<Option<Row>, NoMemory>
    requires older { FitRows older.now }
    requires newer { FitRows newer.now }
    ensures image { IfOk result (λ image. merged_of node (older.now ++ newer.now) ≡ one_or image (older.now ++ newer.now)) }
    ensures fit { IfOk result (λ image. IfSome image (λ row. FitsRec row.rec)) }
{
    if !starts_afresh(older, newer) {
        return Ok(None);
    }
    if is_one_image(node, older, newer) {
        return Ok(None);
    }
    let between = replayed(alloc, base(alloc, node), older)?;
    let (content, version) = replayed(alloc, between, newer)?;
    if let Node::Broken = content {
        return Ok(None);
    }
    let image = image_of(alloc, node, version, &content)?;
    if excess(excess(row_len(&image), older), newer) > 0 {
        return Ok(None);
    }
    Ok(Some(image))
}

/// The image of a node's content, which is moved. A broken one has none.
fn rec_of(content: Node) -> Option<Rec>
    ensures { result ≡ image_of content }
{
    match content {
        Node::Head { root, next, depth } => Some(Rec::HeadImage { root, next, depth }),
        Node::Leaf { pairs } => Some(Rec::LeafImage { pairs }),
        Node::Inner { seps, kids } => Some(Rec::InnerImage { seps, kids }),
        Node::Broken => None,
    }
}

/// The same as `folded`, of rows that are given up, and that have so many bytes: what images hold is not copied.
#[inline(never)]
pub(crate) fn folded_moved(
    alloc: Global,
    node: NodeId,
    older: Rows,
    newer: Rows,
    len: u32,
) -> Result<Option<Row>, NoMemory>
    requires older { FitRows older }
    requires newer { FitRows newer }
    requires len { len ≡ min (rows_len (older ++ newer)) 4294967295 }
    ensures image { IfOk result (λ image. merged_of node (older ++ newer) ≡ one_or image (older ++ newer)) }
    ensures fit { IfOk result (λ image. IfSome image (λ row. FitsRec row.rec)) }
{
    if !starts_afresh(older.as_slice(), newer.as_slice()) {
        return Ok(None);
    }
    let between = replayed_moved(alloc, base(alloc, node), older)?;
    let (content, version) = replayed_moved(alloc, between, newer)?;
    let Some(rec) = rec_of(content) else {
        return Ok(None);
    };
    let image = Row { node, version, rec };
    if row_len(&image) > len {
        return Ok(None);
    }
    Ok(Some(image))
}
