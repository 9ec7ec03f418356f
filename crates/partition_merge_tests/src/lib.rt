//! The tests of `partition_merge`, `row_gathering` and `merge_policy`. They stand in a crate of their own, since a crate with tests is proved once more with them.
#![tactic(auto)]

#[cfg(test)]
mod gathering;
#[cfg(test)]
mod policy;
#[cfg(test)]
mod tests;
