//! Replaying the rows of one node.

ghost use Rattle.std.specs.Prelude.{◌≡◌, IfOk};
ghost use Rattle.std.specs.List.{AllByRecursion};
ghost use Rattle.fine_model.specs.BoundLaws.{FitsNode};
ghost use Rattle.fine_model.specs.Nodes.{base, replay, step};
ghost use Rattle.fine_model.specs.RowBytes.{FitsRec};

use fine_model::{Items, NoMemory, Node, NodeId, Rec, Row, Rows};
use node_record::apply;
use std::alloc::Global;

/// A node before its first row, at version 0: a head with root 1, or an empty leaf.
pub fn base(alloc: Global, node: NodeId) -> (Node, u64)
    ensures base { result ≡ base node }
    ensures version { result.1 ≡ 0 }
    ensures fits { FitsNode result.0 }
{
    let content = if node.number == 0 {
        Node::Head {
            root: 1,
            next: 2,
            depth: 1,
        }
    } else {
        Node::Leaf {
            pairs: Items::new(alloc),
        }
    };
    (content, 0)
}

/// The content and the version of a node after rows, in order.
#[tactic(auto, unfolding(fine_model::specs::Nodes::replay))]
pub fn replayed(alloc: Global, before: (Node, u64), rows: &[Row]) -> Result<(Node, u64), NoMemory>
    requires node { FitsNode before.0 }
    requires rows { AllByRecursion (λ row. FitsRec row.rec) rows.now }
    ensures replay { IfOk result (λ after. after ≡ replay before rows.now) }
    ensures fits { IfOk result (λ after. FitsNode after.0) }
{
    let (mut content, mut version) = before;
    for row in rows {
        apply(alloc, &mut content, &mut version, row)?;
    }
    Ok((content, version))
}

/// A node after a row that is given up: what an image holds is moved. After `NoMemory` nothing is left.
#[tactic(auto, unfolding(fine_model::specs::Nodes::step))]
fn after_row(alloc: Global, before: (Node, u64), row: Row) -> Result<(Node, u64), NoMemory>
    requires node { FitsNode before.0 }
    requires row { FitsRec row.rec }
    ensures step { IfOk result (λ after. after ≡ step before row) }
    ensures fits { IfOk result (λ after. FitsNode after.0) }
{
    let version = row.version;
    match row.rec {
        Rec::HeadImage { root, next, depth } => Ok((Node::Head { root, next, depth }, version)),
        Rec::LeafImage { pairs } => Ok((Node::Leaf { pairs }, version)),
        Rec::InnerImage { seps, kids } => Ok((Node::Inner { seps, kids }, version)),
        rec => {
            let (mut content, mut last) = before;
            let row = Row {
                node: row.node,
                version,
                rec,
            };
            apply(alloc, &mut content, &mut last, &row)?;
            Ok((content, last))
        }
    }
}

/// The same as `replayed`, of rows that are given up: what images hold is not copied.
#[tactic(auto, unfolding(fine_model::specs::Nodes::replay))]
pub fn replayed_moved(
    alloc: Global,
    before: (Node, u64),
    rows: Rows,
) -> Result<(Node, u64), NoMemory>
    requires node { FitsNode before.0 }
    requires rows { AllByRecursion (λ row. FitsRec row.rec) rows }
    ensures replay { IfOk result (λ after. after ≡ replay before rows) }
    ensures fits { IfOk result (λ after. FitsNode after.0) }
{
    let mut after = before;
    for row in rows.into_vec() {
        after = after_row(alloc, after, row)?;
    }
    Ok(after)
}
