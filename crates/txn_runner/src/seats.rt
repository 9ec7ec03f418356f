//! The seats for which the gate is called.

use fine_model::{Gate, Point, Script};

/// The seats of a script: 1 is that of who merges, each lane of the script has one of those from 2 on, in ascending order, and the next one is the caller's. They are
/// those of a run with a thread for each lane.
#[derive(Clone, Copy, Debug)]
pub(crate) struct Seats {
    /// A bit for each lane.
    lanes: u32,
}

impl Seats {
    pub(crate) fn of_script(script: &Script) -> Seats {
        let mut lanes: u32 = 0;
        for txn in script.as_slice() {
            lanes |= 1 << (u32::from(txn.lane) % 32);
        }
        Seats { lanes }
    }

    /// The seat of a lane, which is one of the script's.
    pub(crate) fn of_lane(self, lane: u8) -> u32 {
        // the bits of the lanes up to this one
        let up_to = self.lanes << (31 - u32::from(lane) % 32);
        1 + up_to.count_ones()
    }

    /// The seat of who seals behind the last lane.
    pub(crate) fn of_caller(self) -> u32 {
        2 + self.lanes.count_ones()
    }
}

/// The gate, for one seat.
#[derive(Drop)]
pub(crate) struct SeatGate<'a, G> {
    gate: &'a G,
    seat: u32,
}

impl<'a, G: Gate> SeatGate<'a, G> {
    pub(crate) fn new(gate: &'a G, seat: u32) -> SeatGate<'a, G> {
        SeatGate { gate, seat }
    }

    pub(crate) fn at(&self, point: Point) {
        self.gate.at(self.seat, point);
    }
}
