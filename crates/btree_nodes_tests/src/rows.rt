//! A source of the rows that bytes spell.

ghost use Rattle.std.specs.Prelude.{◌≡◌, ◌≤◌, ℕ, [], IfOk, IfSome, length};
ghost use Rattle.fine_model.specs.Nodes.{base};
ghost use Rattle.fine_model.specs.RowBytes.{FitsRec, greatest};
ghost use Rattle.node_record.specs.Bounds.{FitsNode};
ghost use Rattle.node_cache.specs.Given.{OnCleanFault};

use fine_model::{FetchFault, Mark, NoMemory, Node, NodeId, Row};
use node_cache::{Bucket, Cached, NodeSource};
use node_fetch::base;
use node_record::{apply, read_row};
use std::alloc::Global;

/// Does a row to a node, if it is the node's. Answers the place behind it.
#[tactic(auto, unfolding(fine_model::specs::Nodes::step))]
fn replay_row(
    alloc: Global,
    row: &Row,
    behind: usize,
    id: NodeId,
    node: &mut Node,
    version: &mut u64,
) -> Result<Option<usize>, NoMemory>
    requires row { FitsRec row.now.rec }
    requires row_version { row.now.version ≤ greatest }
    requires node { FitsNode node.old }
    requires version { version.old ≤ greatest }
    ensures at { IfOk result (λ found. IfSome found (λ at. at ≡ behind)) }
    ensures node { FitsNode node.new }
    ensures version { version.new ≤ greatest }
{
    if row.node == id {
        apply(alloc, node, version, row)?;
    }
    Ok(Some(behind))
}

/// So of the row at a place. Answers the place behind it, or None where there is no row.
fn replay_one(
    alloc: Global,
    bytes: &[u8],
    at: usize,
    id: NodeId,
    node: &mut Node,
    version: &mut u64,
) -> Result<Option<usize>, NoMemory>
    requires at { at ≤ length bytes.now }
    requires node { FitsNode node.old }
    requires version { version.old ≤ greatest }
    ensures at { IfOk result (λ found. IfSome found (λ behind. behind ≤ length bytes.now)) }
    ensures node { FitsNode node.new }
    ensures version { version.new ≤ greatest }
{
    match read_row(alloc, bytes, at, Mark::Two) {
        Ok(found) => replay_row(alloc, &found.0, found.1, id, node, version),
        Err(_no_row) => Ok(None),
    }
}

/// Does the rows of a node among bytes to it. It ends at the first bytes that are no row.
fn replay_all(
    alloc: Global,
    bytes: &[u8],
    id: NodeId,
    node: &mut Node,
    version: &mut u64,
) -> Result<(), NoMemory>
    requires node { FitsNode node.old }
    requires version { version.old ≤ greatest }
    ensures node { FitsNode node.new }
    ensures version { version.new ≤ greatest }
{
    let mut at = 0;
    for _row in 0..bytes.len() {
        match replay_one(alloc, bytes, at, id, node, version)? {
            Some(behind) => at = behind,
            None => return Ok(()),
        }
    }
    Ok(())
}

/// What the rows of a node among bytes leave, under an epoch.
fn replay(alloc: Global, bytes: &[u8], id: NodeId, epoch: u64) -> Result<Cached, NoMemory>
    ensures epoch { IfOk result (λ kept. kept.epoch ≡ epoch) }
{
    let (mut node, mut version) = base(alloc, id);
    replay_all(alloc, bytes, id, &mut node, &mut version)?;
    Ok(Cached {
        node,
        version,
        epoch,
    })
}

/// A node as the rows that bytes spell leave it, under an epoch.
fn node_of(alloc: Global, bytes: &[u8], id: NodeId, epoch: u64) -> Result<Cached, NoMemory>
    ensures epoch { IfOk result (λ kept. kept.epoch ≡ epoch) }
    ensures first { bytes.now ≡ [] → IfOk result (λ kept. (kept.node, kept.version) ≡ base id) }
{
    if bytes.is_empty() {
        let (node, version) = base(alloc, id);
        Ok(Cached {
            node,
            version,
            epoch,
        })
    } else {
        replay(alloc, bytes, id, epoch)
    }
}

/// A source of the rows that bytes spell, all of one epoch, which counts its loads. The load of one number of them fails. Where there are no
/// bytes it tells a log that has no rows, and else nothing.
#[derive(Drop)]
pub struct Rows {
    pub alloc: Global,
    pub bytes: Vec<u8>,
    pub epoch: u64,
    pub loads: u32,
    pub fails: u32,
}

impl Rows {
    /// A source of these bytes, under an epoch, of which no load fails.
    pub fn new(alloc: Global, bytes: Vec<u8>, epoch: u64) -> Rows
        ensures epoch { result.epoch ≡ epoch }
    {
        Rows {
            alloc,
            bytes,
            epoch,
            loads: 0,
            fails: 0,
        }
    }

    /// A source of a log that has no rows, and whose last epoch is this one.
    pub fn none(alloc: Global, epoch: u64) -> Rows
        ensures epoch { result.epoch ≡ epoch }
    {
        Rows::new(alloc, Vec::new(alloc), epoch)
    }
}

impl NodeSource for Rows {
    ghost use Rattle.std.proofs.Common.{refl, sym, ◌∙◌};

    ghost tells = { λ s rows. (s.bytes.items ≡ []) × (rows ≡ []) };

    ghost finds = { λ s id found. s.bytes.items ≡ [] → found ≡ base id };

    ghost upper = { λ s. s.epoch };

    ghost later = { λ s t. (t.bytes.items ≡ s.bytes.items) × (t.epoch ≡ s.epoch) };

    ghost clean = { λ _ _. Unit {0} };

    ghost fails = { λ _ fault _. OnCleanFault fault ⊥ };

    ghost later_itself = { λ _. (refl, refl) };

    ghost later_on = { λ _ _ _ before behind. (behind.0 ∙ before.0, behind.1 ∙ before.1) };

    ghost later_tells = { λ _ _ _ later told. (later.0 ∙ told.0, told.1) };

    ghost tells_before = { λ _ _ _ later told. (sym later.0 ∙ told.0, told.1) };

    ghost finds_before = { λ _ _ _ _ later found empty. found (later.0 ∙ empty) };

    ghost later_upper = { λ _ _ later. later.1 };

    ghost clean_itself = { λ _. tt };

    ghost clean_on = { λ _ _ _ _ _. tt };

    ghost fails_earlier = { λ _ _ _ _ _ failed. failed };

    ghost fails_told = { λ _ _ _ _ _ failed. failed };

    fn load(&mut self, bucket: &mut Bucket, number: u32) -> Result<(), FetchFault> {
        if bucket.peek(number).is_some() {
            return Ok(());
        }
        self.loads = self.loads.saturating_add(1);
        if self.loads == self.fails {
            return Err(FetchFault::Failed);
        }
        let id = NodeId {
            bucket: bucket.bucket(),
            number,
        };
        let Ok(kept) = node_of(self.alloc, self.bytes.as_slice(), id, self.epoch) else {
            return Err(FetchFault::NoMemory);
        };
        match bucket.put(number, kept) {
            Ok(()) => Ok(()),
            Err(_) => Err(FetchFault::NoMemory),
        }
    }
}
