//! The tests of `fine_places` and `fine_boxes`. They stand in a crate of their own, since a crate with tests is proved once more with them.
#![tactic(auto)]

#[cfg(test)]
mod boxes;
#[cfg(test)]
mod places;
