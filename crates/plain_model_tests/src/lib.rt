//! The tests of `plain_model`, and the whole program beside it. They stand in a crate of their own, since a crate with tests is proved once more with them.
#![tactic(auto)]

#[cfg(test)]
mod beside;
#[cfg(test)]
mod tests;
