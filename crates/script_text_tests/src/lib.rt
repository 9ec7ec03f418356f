//! The tests of `script_text`. They stand in a crate of their own, since a crate with tests is proved once more with them.
#![tactic(auto)]

#[cfg(test)]
mod commands;
#[cfg(test)]
mod streams;
#[cfg(test)]
mod tests;
