//! The tests of `btree_nodes`, and the source of nodes that they load from. They stand in a crate of their own, since a crate with tests is
//! proved once more with them.
#![tactic(auto)]

pub mod rows;
#[cfg(test)]
mod tests;
