//! What a thread is given for its lane.

use fine_hall::Pass;
use lane_runs::{Lane, Stop};
use log_disk::LogDisk;
use partition_hold::View;
use txn_engine::Txn;

/// A lane, the transaction that it uses again and again, and how its worker came to its end.
#[derive(Drop)]
pub(crate) struct Part {
    pub(crate) lane: Lane,
    pub(crate) txn: Txn,
    pub(crate) stop: Stop,
}

/// A lane with the pass of its seat.
#[derive(Drop)]
pub(crate) struct Worker<D: LogDisk> {
    pub(crate) pass: Pass<View<D::Eye>>,
    pub(crate) part: Part,
}
