//! The index of a partition: its entries, and the search for a node through an eye.
//!
//! Behind its rows a partition has an entry of 14 bytes for each node, in the order of the nodes: the bucket in two bytes, the
//! number in four, the offset of the node's first row in four, and the number of its rows in four. All numbers are big-endian.
#![tactic(auto)]

mod built;
mod entries;
mod indexer;
mod places;
mod search;

pub use built::{build, index_law};
pub use entries::{IndexEntry, SeekFault, Span, entry_bytes, entry_law, entry_of};
pub use indexer::Indexer;
pub use places::{place_of, placed_law, read_body};
pub use search::{entry_at, entry_in, entry_place, seek, span_in};
