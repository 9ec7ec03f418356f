//! A user of `txn_engine`: accounts on a hall on a disk in memory, and transactions between them.
#![tactic(auto)]

mod accounts;
mod halls;
mod many;
mod steps;
mod tables;
mod threads;
mod transfers;

pub use accounts::{balance_of, get_of, put_of, scan_of, sum_of};
pub use halls::{Two, end_two, open, open_two};
pub use many::{Load, Workload, puts, puts_at_once, puts_by_one};
pub use steps::{Seat, Step, Told, take, take_back};
pub use tables::{Act, Line, Outcome, walked};
pub use threads::{Route, RunOfTwo, two_threads};
pub use transfers::{Ended, commit, fresh, give_up, run, show, transfer};
