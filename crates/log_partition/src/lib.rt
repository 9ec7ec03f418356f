//! Partitions of the log: their headers and bodies, both ways.
//!
//! A partition starts in one region, its lead. Byte 0 is the gate, `a7` when sealed; then come a mark, the region's length, the range
//! of epochs, the counts of rows and of index entries, and the length of the rows. The body is the rows and then the index. A partition
//! of mark `FLP3` has continuations, which its header names.
#![tactic(auto)]

mod body;
mod encoding;
mod fault;
mod header;
mod write_header;

pub use body::decode_body;
pub use encoding::{Partition, encode, encode_law, encoded_len};
pub use fault::{DecodeFault, HeaderFault};
pub use header::{header_law, read_header};
pub use write_header::{header_bytes, written_law};
