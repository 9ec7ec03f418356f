//! The tests of `txn_engine`, by tables of steps of `hall_accounts`.
#![tactic(auto)]

#[cfg(test)]
mod seats;
#[cfg(test)]
mod tests;
