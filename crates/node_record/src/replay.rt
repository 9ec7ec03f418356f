//! What rows do to a node, and the image of a node.

ghost use Rattle.std.specs.Prelude.{◌≡◌, ◌≢◌, ◌+◌, ◌≤◌, IsTrue, IfOk, IsOk, OnOk, OnErr, length, map};
ghost use Rattle.fine_model.specs.Map.{is_ascending};
ghost use Rattle.fine_model.specs.Nodes.{changed, step, step_node};
ghost use Rattle.fine_model.specs.RowBytes.{FitsRec, FitsRow, most_in_node};
ghost use Rattle.fine_model.specs.Merge.{image_of};
ghost use Rattle.fine_model.specs.declared.Mark.{Mark};
ghost use Rattle.fine_model.specs.declared.Node.TheVariants as variant;
ghost use Rattle.fine_model.specs.declared.Rec.TheVariants as rec;
ghost use Rattle.node_record.specs.Bounds.{FitsNode, MayHave, takes_no_memory, whole_or_broken};

use crate::leaves::{add, cut_inner, cut_leaf, link, put, remove};
use fine_model::{Copied, Keys, Kids, NoMemory, Node, NodeId, Pairs, Rec, Row};
use std::alloc::Global;

/// Changes a leaf. Answers whether it is still one; where it is not, nothing is changed.
#[tactic(auto, unfolding(fine_model::specs::Nodes::changed))]
fn change_leaf(alloc: Global, pairs: &mut Pairs, change: &Rec) -> Result<bool, NoMemory>
    requires few { length pairs.old ≤ most_in_node }
    requires order { IsTrue (is_ascending (map (λ p. p.0) pairs.old)) }
    ensures ok { IfOk result (λ whole. whole_or_broken whole (variant.Leaf pairs.new) ≡ changed (variant.Leaf pairs.old) change.now) }
    ensures err { OnErr result (pairs.new ≡ pairs.old) }
    ensures sure { IsTrue (takes_no_memory change.now) → IsOk result }
{
    match change {
        Rec::Put { key, value } => put(pairs, key, value),
        Rec::Del { key } => {
            remove(pairs, key);
            Ok(true)
        }
        Rec::CutLeaf { key } => {
            cut_leaf(pairs, key);
            Ok(true)
        }
        Rec::Plus { key, by } => add(alloc, pairs, key, *by),
        _ => Ok(false),
    }
}

/// Changes an inner node. Answers whether it is still one; where it is not, nothing is changed.
#[tactic(auto, unfolding(fine_model::specs::Nodes::changed))]
fn change_inner(seps: &mut Keys, kids: &mut Kids, change: &Rec) -> Result<bool, NoMemory>
    requires few { length seps.old ≤ most_in_node }
    requires order { IsTrue (is_ascending seps.old) }
    requires kids { length kids.old ≡ length seps.old + 1 }
    ensures ok { IfOk result (λ whole. whole_or_broken whole (variant.Inner seps.new kids.new) ≡ changed (variant.Inner seps.old kids.old) change.now) }
    ensures err_seps { OnErr result (seps.new ≡ seps.old) }
    ensures err_kids { OnErr result (kids.new ≡ kids.old) }
    ensures sure { IsTrue (takes_no_memory change.now) → IsOk result }
{
    match change {
        Rec::CutInner { key } => {
            cut_inner(seps, kids, key);
            Ok(true)
        }
        Rec::Link { key, child } => link(seps, kids, key, *child),
        _ => Ok(false),
    }
}

/// Changes a node by what is no image.
#[tactic(auto, unfolding(fine_model::specs::Nodes::changed))]
fn change_node(alloc: Global, node: &mut Node, change: &Rec) -> Result<(), NoMemory>
    requires { FitsNode node.old }
    ensures ok { OnOk result (node.new ≡ changed node.old change.now) }
    ensures err { OnErr result (node.new ≡ node.old) }
    ensures sure { IsTrue (takes_no_memory change.now) → IsOk result }
{
    let whole = match node {
        Node::Leaf { pairs } => change_leaf(alloc, pairs, change)?,
        Node::Inner { seps, kids } => change_inner(seps, kids, change)?,
        _ => false,
    };
    if !whole {
        *node = Node::Broken;
    }
    Ok(())
}

/// The node after a row.
#[tactic(auto, unfolding(fine_model::specs::Nodes::step))]
fn step_node(alloc: Global, node: &mut Node, version: u64, row: &Row) -> Result<(), NoMemory>
    requires { FitsNode node.old }
    ensures ok { OnOk result (node.new ≡ step_node (node.old, version) row.now.version row.now.rec) }
    ensures err { OnErr result (node.new ≡ node.old) }
    ensures sure { IsTrue (takes_no_memory row.now.rec) → IsOk result }
{
    match &row.rec {
        Rec::HeadImage { root, next, depth } => {
            *node = Node::Head {
                root: *root,
                next: *next,
                depth: *depth,
            };
        }
        Rec::LeafImage { pairs } => {
            *node = Node::Leaf {
                pairs: pairs.copy()?,
            };
        }
        Rec::InnerImage { seps, kids } => {
            *node = Node::Inner {
                seps: seps.copy()?,
                kids: kids.copy()?,
            };
        }
        change => {
            if version < row.version && row.version - version == 1 {
                change_node(alloc, node, change)?;
            } else {
                *node = Node::Broken;
            }
        }
    }
    Ok(())
}

/// Does to a node what a row says, in place. An image stands for itself. Any other row that is not the node's next version, or
/// that does not fit the node, breaks it. After `NoMemory` the node and its version are as they were. What keeps nothing of the row
/// but numbers takes no memory. A node within bounds stays within bounds.
#[tactic(auto, unfolding(fine_model::specs::Nodes::step))]
pub fn apply(alloc: Global, node: &mut Node, version: &mut u64, row: &Row) -> Result<(), NoMemory>
    requires node { FitsNode node.old }
    requires row { FitsRec row.now.rec }
    ensures ok { OnOk result ((node.new, version.new) ≡ step (node.old, version.old) row.now) }
    ensures err_node { OnErr result (node.new ≡ node.old) }
    ensures err_version { OnErr result (version.new ≡ version.old) }
    ensures fits { FitsNode node.new }
    ensures sure { IsTrue (takes_no_memory row.now.rec) → IsOk result }
{
    step_node(alloc, node, *version, row)?;
    *version = row.version;
    Ok(())
}

/// The image of a node's content, which a broken one has not.
fn rec_of(content: &Node) -> Result<Option<Rec>, NoMemory>
    ensures { IfOk result (λ rec. rec ≡ image_of content.now) }
{
    Ok(match content {
        Node::Head { root, next, depth } => Some(Rec::HeadImage {
            root: *root,
            next: *next,
            depth: *depth,
        }),
        Node::Leaf { pairs } => Some(Rec::LeafImage {
            pairs: pairs.copy()?,
        }),
        Node::Inner { seps, kids } => Some(Rec::InnerImage {
            seps: seps.copy()?,
            kids: kids.copy()?,
        }),
        Node::Broken => None,
    })
}

/// The row that stands for a node with this version and content. It is within bounds where the node and the version are, and where
/// number 0 goes with a head.
pub fn image_of(_alloc: Global, node: NodeId, version: u64, content: &Node) -> Result<Row, NoMemory>
    requires whole { content.now ≢ variant.Broken }
    requires bounds { FitsNode content.now }
    ensures node { IfOk result (λ row. row.node ≡ node) }
    ensures version { IfOk result (λ row. row.version ≡ version) }
    ensures image { IfOk result (λ row. image_of content.now ≡ Some row.rec) }
    ensures rec { IfOk result (λ row. FitsRec row.rec) }
    ensures fits { IfOk result (λ row. MayHave node version content.now → (mark : Mark) → FitsRow mark row) }
{
    let rec = rec_of(content)?.unwrap();
    Ok(Row { node, version, rec })
}
