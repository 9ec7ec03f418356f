//! What comes back to the board.

ghost use Rattle.fine_model.specs.Jobs.{KeepsJob};
ghost use Rattle.epoch_room.specs.Meaning.{Keeps};
ghost use Rattle.epoch_room.specs.Returns.{IsPosted, TakesBack};

use super::Room;
use log_disk::LogDisk;
use partition_hold::View;

impl<D: LogDisk> Room<D> {
    /// Takes back a view that is out: closes its eye, whose count of faults goes to the disk's, and empties its buffer.
    ///
    /// It works in a shut room too, and takes no memory.
    pub fn take_back(&mut self, view: View<D::Eye>)
        requires posted { IsPosted self.old.room view }
        ensures room { TakesBack self.old self.new view }
        ensures keeps { Keeps self.old self.new }
        ensures job { KeepsJob self.old.room self.new.room }
    {
        self.board.returned(view.seat(), view.buffer());
        self.disk.close(view.into_eye());
    }
}
