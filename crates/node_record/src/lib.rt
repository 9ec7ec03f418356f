//! Rows of the log: their bytes both ways, and what they do to a node.
//!
//! A row is a kind in one byte, a bucket in two, a number in four, a version in eight, the length of its body in four, and the
//! body. All numbers are big-endian. Each row has one spelling, and none begins another.
#![tactic(auto)]

mod bodies;
mod fault;
mod fields;
mod frames;
mod front;
mod items;
mod key;
mod leaves;
mod places;
mod replay;
mod rows;

pub use fault::RowFault;
pub use frames::{Frame, frame_at};
pub use key::{RowAt, front_at, keys_of, sorted_law};
pub use places::{find_pair, is_below};
pub use replay::{apply, image_of};
pub use rows::{read_row, row_len, write_row};
