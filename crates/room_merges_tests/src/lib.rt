//! The tests of `room_merges`. They stand in a crate of their own, since a crate with tests is proved once more with them.
#![tactic(auto)]

#[cfg(test)]
mod adopting;
#[cfg(test)]
mod fixtures;
#[cfg(test)]
mod stops;
#[cfg(test)]
mod tests;
#[cfg(test)]
mod turns;
