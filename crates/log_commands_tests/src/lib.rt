//! The tests of `log_commands`. They stand in a crate of their own, since a crate with tests is proved once more with them.
#![tactic(auto)]

#[cfg(test)]
mod dump_fixtures;
#[cfg(test)]
mod dump_tests;
#[cfg(test)]
mod fixtures;
#[cfg(test)]
mod tests;
