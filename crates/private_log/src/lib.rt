//! The rows of one transaction, kept apart from the shared log until the transaction commits.
#![tactic(auto)]

ghost use Rattle.std.specs.Prelude.{◌≡◌, ◌≤◌, [], ◌∷◌, ◌++◌, length, OnOk, OnErr};
ghost use Rattle.std.specs.List.Sorted.{IsStrictlySortedBy};
ghost use Rattle.std.specs.BTreeSet.{insert_key};
ghost use Rattle.fine_model.specs.RowBytes.{FitsRec, rows_bytes};
ghost use Rattle.fine_model.specs.Merge.{node_cmp, cost};
ghost use Rattle.private_log.specs.Kept.{noted, many_nodes};

use fine_model::format::INDEX_ENTRY;
use fine_model::{Copied, Items, NoMemory, NodeId, Row, Rows};
use node_record::write_row;
use std::alloc::Global;
use std::collections::BTreeSet;
use std::marker::Model;
use std::mem;

/// The rows that a transaction pushed, in their order, with their bytes and, where there are two or more, the nodes that they name.
#[derive(Drop)]
pub struct PrivateLog {
    bytes: Vec<u8>,
    nodes: BTreeSet<NodeId>,
    rows: Vec<Row>,
}

impl Model for PrivateLog {
    ghost use Rattle.std.specs.Prelude.{List};
    ghost use Rattle.fine_model.specs.declared.Row.{Row as ModelRow};
    ghost use Rattle.private_log.specs.Kept.{rows_in, IsKept};

    ghost Value = { List ModelRow };

    ghost view = { rows_in };

    ghost invariant = { IsKept };
}

/// Notes the node of a first row and that of the second one, or none of them.
fn note_both(nodes: &mut BTreeSet<NodeId>, first: NodeId, second: NodeId) -> Result<(), NoMemory>
    requires { nodes.old.keys ≡ [] }
    ensures ok { OnOk result (nodes.new.keys ≡ insert_key node_cmp (insert_key node_cmp [] first) second) }
    ensures err { OnErr result (nodes.new.keys ≡ []) }
    ensures order { IsStrictlySortedBy node_cmp nodes.new.keys }
{
    nodes.insert(first)?;
    if nodes.insert(second).is_err() {
        nodes.clear();
        return Err(NoMemory);
    }
    Ok(())
}

/// Notes the node of one row more. That of a row alone is not noted: a log of one row then has no set of nodes.
fn note(nodes: &mut BTreeSet<NodeId>, rows: &[Row], node: NodeId) -> Result<(), NoMemory>
    requires none { length rows.now ≤ 1 → nodes.old.keys ≡ [] }
    requires order { IsStrictlySortedBy node_cmp nodes.old.keys }
    ensures ok { OnOk result (nodes.new.keys ≡ noted nodes.old.keys rows.now node) }
    ensures err { OnErr result (nodes.new.keys ≡ nodes.old.keys) }
    ensures order { IsStrictlySortedBy node_cmp nodes.new.keys }
{
    match rows {
        [] => Ok(()),
        [first] => note_both(nodes, first.node, node),
        _ => {
            nodes.insert(node)?;
            Ok(())
        }
    }
}

/// How many nodes rows name, of which two or more have theirs noted.
fn many_nodes(rows: &[Row], nodes: &BTreeSet<NodeId>) -> usize
    ensures { result ≡ many_nodes nodes.now.keys rows.now }
{
    match rows {
        [] => 0,
        [_] => 1,
        _ => nodes.len(),
    }
}

impl PrivateLog {
    /// A log with no rows. It takes no memory.
    pub fn new(alloc: Global) -> PrivateLog
        ensures { result ≡ [] }
    {
        PrivateLog {
            bytes: Vec::new(alloc),
            nodes: BTreeSet::new(alloc),
            rows: Vec::new(alloc),
        }
    }

    /// A log with no rows, and with memory for so many rows, where it is to be had.
    pub fn with_capacity(alloc: Global, rows: usize) -> PrivateLog
        ensures { result ≡ [] }
    {
        let mut log = PrivateLog::new(alloc);
        let _ = log.rows.reserve_exact(rows);
        log
    }

    /// Puts a copy of a row, whose body is within the format's bounds, behind those that are there. `NoMemory` is the only refusal, and
    /// leaves the log as it was.
    pub fn push(&mut self, row: &Row) -> Result<(), NoMemory>
        requires { FitsRec row.now.rec }
        ensures ok { OnOk result (self.new ≡ self.old ++ row.now ∷ []) }
        ensures err { OnErr result (self.new ≡ self.old) }
    {
        let row = row.copy()?;
        self.keep(row)
    }

    /// Puts a row behind those that are there, as `push` does, and copies nothing.
    pub fn keep(&mut self, row: Row) -> Result<(), NoMemory>
        requires { FitsRec row.rec }
        ensures ok { OnOk result (self.new ≡ self.old ++ row ∷ []) }
        ensures err { OnErr result (self.new ≡ self.old) }
    {
        let before = self.bytes.len();
        self.rows.reserve(1)?;
        write_row(&mut self.bytes, &row)?;
        match note(&mut self.nodes, self.rows.as_slice(), row.node) {
            Ok(()) => {
                self.rows.push_reserved(row);
                Ok(())
            }
            Err(refused) => {
                self.bytes.truncate(before);
                Err(refused)
            }
        }
    }

    /// The bytes of the rows, one row after the other.
    pub fn bytes(&self) -> &[u8]
        ensures { result.now ≡ rows_bytes self.now }
    {
        self.bytes.as_slice()
    }

    /// What the rows take in a partition beside its header, in bytes: their lengths, and the index entry of each node that
    /// they name. The time that it takes does not depend on the rows.
    pub fn cost(&self) -> u64
        ensures { result ≡ cost self.now }
    {
        let nodes = many_nodes(self.rows.as_slice(), &self.nodes);
        self.bytes.len() as u64 + INDEX_ENTRY as u64 * nodes as u64
    }

    /// Moves all rows out. It takes no memory.
    pub fn take_rows(&mut self) -> Rows
        ensures rows { result ≡ self.old }
        ensures left { self.new ≡ [] }
    {
        let PrivateLog { bytes, nodes, rows } = self;
        bytes.clear();
        nodes.clear();
        let none = Vec::new(*rows.allocator());
        Items::from_vec(mem::replace(rows, none))
    }

    /// Takes all rows off. It takes no memory.
    pub fn clear(&mut self)
        ensures { self.new ≡ [] }
    {
        self.bytes.clear();
        self.nodes.clear();
        self.rows.clear();
    }
}
