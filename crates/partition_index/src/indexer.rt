//! An index that is written entry by entry.

ghost use Rattle.std.specs.Prelude.{◌≡◌, ℕ, ◌+◌, ◌<◌, ◌≤◌, [], ◌∷◌, ◌++◌, IsTrue, IfSome, List, None, Option, Some, flat_map, length, vec_capacity, vec_len};
ghost use Rattle.fine_model.specs.declared.Row.{Row};
ghost use Rattle.fine_model.specs.Regions.{index_bytes};
ghost use Rattle.fine_model.specs.RowBytes.{row_len, index_entry};
ghost use Rattle.partition_index.specs.Entries.{bytes_of};
ghost use Rattle.partition_index.specs.Index.{closed, is_rising, opened};
ghost use Rattle.partition_index.specs.Indexer.{HasNext, Indexes};

use crate::entries::{IndexEntry, entry_bytes};
use fine_model::NodeId;
use std::marker::Model;

/// The index of rows that are fed one after the other, put behind the bytes that stand in a vector. It keeps the last entry alone, and
/// no call takes memory.
#[derive(Drop)]
pub struct Indexer {
    out: Vec<u8>,
    last: Option<IndexEntry>,
    offset: u32,
}

impl Model for Indexer {
    ghost use Rattle.std.specs.Prelude.{◌+◌, ◌≤◌, IfSome, vec_capacity, vec_len};
    ghost use Rattle.fine_model.specs.RowBytes.{index_entry};
    ghost use Rattle.partition_index.specs.Indexer.{IndexerValue};

    ghost Value = { IndexerValue };

    ghost view = { λ indexer. record { bytes = indexer.out.items; capacity = vec_capacity indexer.out; last = indexer.last; offset = indexer.offset } };

    ghost invariant = { λ indexer. IfSome indexer.last (λ e. vec_len indexer.out + index_entry ≤ vec_capacity indexer.out) };
}

// Puts the last entry behind the bytes.
fn close(out: &mut Vec<u8>, last: Option<IndexEntry>)
    requires { IfSome last (λ e. vec_len out.old + index_entry ≤ vec_capacity out.old) }
    ensures bytes { out.new.items ≡ out.old.items ++ flat_map bytes_of (closed [] last) }
    ensures room { vec_capacity out.old ≤ vec_capacity out.new }
{
    if let Some(entry) = last {
        let _room = out.extend_from_slice(&entry_bytes(&entry));
    }
}

// The last entry after a row more, which starts at an offset. That of another node is put behind the bytes.
fn next_entry(out: &mut Vec<u8>, last: Option<IndexEntry>, node: NodeId, offset: u32) -> IndexEntry
    requires counted { IfSome last (λ e. e.rows < 4294967295) }
    requires room { IfSome last (λ e. vec_len out.old + index_entry ≤ vec_capacity out.old) }
    ensures bytes { out.new.items ≡ out.old.items ++ flat_map bytes_of (opened [] last node offset).0 }
    ensures last { result ≡ (opened [] last node offset).1 }
    ensures room { vec_capacity out.old ≤ vec_capacity out.new }
{
    if let Some(entry) = last {
        if entry.node == node {
            return IndexEntry {
                node: entry.node,
                offset: entry.offset,
                rows: entry.rows + 1,
            };
        }
        close(out, last);
    }
    IndexEntry {
        node,
        offset,
        rows: 1,
    }
}

impl Indexer {
    /// An index behind the bytes of a vector.
    pub fn new(out: Vec<u8>) -> Indexer
        ensures starts { Indexes out.items [] result }
        ensures capacity { result.capacity ≡ vec_capacity out }
    {
        Indexer {
            out,
            last: None,
            offset: 0,
        }
    }

    /// Goes on by a row of a node, of so many bytes, behind those that were fed.
    pub fn feed(&mut self, node: NodeId, len: u32)
        requires { HasNext self.old node len }
        ensures rows { (before : List ℕ) (rows : List Row) (row : Row) → Indexes before rows self.old → row.node ≡ node → row_len row ≡ len → IsTrue (is_rising (rows ++ row ∷ []))
            → Indexes before (rows ++ row ∷ []) self.new }
        ensures capacity { self.old.capacity ≤ self.new.capacity }
    {
        self.last = Some(next_entry(&mut self.out, self.last, node, self.offset));
        self.offset += len;
    }

    /// What stood in the vector, and the index of all rows behind it.
    pub fn finish(self) -> Vec<u8>
        ensures { (before : List ℕ) (rows : List Row) → Indexes before rows self → result.items ≡ before ++ index_bytes rows }
    {
        let Indexer { mut out, last, .. } = self;
        close(&mut out, last);
        out
    }
}
