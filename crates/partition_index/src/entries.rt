//! Index entries and their bytes.

ghost use Rattle.std.specs.Prelude.{◌≡◌};
ghost use Rattle.fine_model.specs.Seek.{entry_of};
ghost use Rattle.partition_index.specs.Entries.{model_of, bytes_of, EntryLaw};

use fine_model::NodeId;
use fine_model::format::INDEX_ENTRY;

/// An index entry: a node, the offset of its first row in the row area, and the number of its rows.
#[derive(Clone, Copy, Debug, PartialEq, Eq)]
pub struct IndexEntry {
    pub node: NodeId,
    pub offset: u32,
    pub rows: u32,
}

/// Where a node's rows stand in the row area: from `at` up to, but without, `end`.
#[derive(Clone, Copy, Debug, PartialEq, Eq)]
pub struct Span {
    pub at: u32,
    pub end: u32,
    pub rows: u32,
}

/// Why an index gave no answer: the eye failed, or the entry at an offset of the body is none.
#[derive(Clone, Copy, Debug, PartialEq, Eq)]
pub enum SeekFault {
    Failed,
    BadIndex { at: u32 },
}

/// The 14 bytes of an entry.
#[tactic(auto, unfolding(crate::specs::Entries::bytes_of))]
pub fn entry_bytes(entry: &IndexEntry) -> [u8; INDEX_ENTRY]
    ensures { result ≡ bytes_of entry.now }
{
    let [b0, b1] = entry.node.bucket.to_be_bytes();
    let [n0, n1, n2, n3] = entry.node.number.to_be_bytes();
    let [o0, o1, o2, o3] = entry.offset.to_be_bytes();
    let [r0, r1, r2, r3] = entry.rows.to_be_bytes();
    [b0, b1, n0, n1, n2, n3, o0, o1, o2, o3, r0, r1, r2, r3]
}

/// The entry that 14 bytes spell. Nothing is tested.
pub fn entry_of(bytes: [u8; INDEX_ENTRY]) -> IndexEntry
    ensures { model_of result ≡ entry_of bytes 0 }
{
    let [b0, b1, n0, n1, n2, n3, o0, o1, o2, o3, r0, r1, r2, r3] = bytes;
    IndexEntry {
        node: NodeId {
            bucket: u16::from_be_bytes([b0, b1]),
            number: u32::from_be_bytes([n0, n1, n2, n3]),
        },
        offset: u32::from_be_bytes([o0, o1, o2, o3]),
        rows: u32::from_be_bytes([r0, r1, r2, r3]),
    }
}

/// The bytes of an entry spell this entry again.
pub fn entry_law()
    ensures { EntryLaw }
{}
