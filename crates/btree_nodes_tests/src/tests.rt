//! Worked calls, and what no clause says.

mod again;
mod calls;
mod fixtures;
mod keys;
mod limits;
mod scans;
mod splits;
mod unfit;
mod worked;
