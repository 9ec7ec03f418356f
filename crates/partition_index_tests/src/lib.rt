//! The tests of `partition_index` and of the lists of `fine_model`, and the header of a part of one row. They stand in a crate of their own, since a
//! crate with tests is proved once more with them.
#![tactic(auto)]

#[cfg(test)]
mod lists;
#[cfg(test)]
mod tests;

use fine_model::{Header, Mark, Range};

/// The header of a part of epoch 1 that has one row, of 24 bytes.
pub const ONE_ROW: Header = Header {
    mark: Mark::Two,
    range: Range { first: 1, last: 1 },
    rows: 1,
    nodes: 1,
    area: 24,
    regions: 1,
    more: [0; 7],
};
