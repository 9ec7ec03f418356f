//! Runs of the program in which each call of the disk, the source and the sink fails once.
#![tactic(auto)]

#[cfg(test)]
mod runs;
#[cfg(test)]
mod tests;
