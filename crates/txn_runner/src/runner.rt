//! The body of a run on one thread, beside its buckets.

use epoch_room::Room;
use log_disk::LogDisk;
use partition_hold::View;
use run_laws::EndedLanes;
use std::marker::Model;

/// A room with the view that is out for loading, whether its log is known to be stuck, and how each lane ended. The buckets stand beside it.
#[derive(Drop)]
pub struct Runner<D: LogDisk> {
    pub(crate) room: Room<D>,
    pub(crate) view: Option<View<D::Eye>>,
    pub(crate) full: bool,
    pub(crate) ended: EndedLanes,
}

impl<D: LogDisk> Model for Runner<D> {
    ghost use Rattle.txn_runner.specs.Body.{RunnerValue};

    ghost Value = { RunnerValue };

    ghost view = { λ r. record { room = r.room; view = r.view; full = r.full; ended = r.ended } };
}
