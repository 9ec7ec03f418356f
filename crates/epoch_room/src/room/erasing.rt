//! Erasing retired parts.

ghost use Rattle.std.specs.Prelude.{◌≡◌, ◌==◌, [], ◌∷◌, None, OnOk, false, true};
ghost use Rattle.std.specs.List.{AllByRecursion, list_any};
ghost use Rattle.fine_model.specs.Boards.{naming_of};
ghost use Rattle.fine_model.specs.Jobs.{KeepsJob};
ghost use Rattle.log_disk.specs.Disk.{SameBeside};
ghost use Rattle.epoch_room.specs.Closing.{LeavesClosing, ReadsButGates};
ghost use Rattle.epoch_room.specs.Meaning.{Keeps};
ghost use Rattle.epoch_room.specs.Erasing.{Erases, ErasesAll, ErasesAllOr, ErasesLed, ErasesOr, held, unheld};

use super::Room;
use crate::answers::{DiskResult, EraseFault, RoomFault};
use crate::closing::{close_gates, has_failed};
use crate::led_parts::{add_led, keep_others, unheld_leads};
use log_disk::{DiskRefusal, LogDisk};

impl<D: LogDisk> Room<D> {
    /// Erases the retired part that a region leads: closes its gate and syncs, and then all its regions are free.
    ///
    /// `Held` comes exactly where the room is not shut and the board names the region, with the first seat and its first buffer that do;
    /// it writes nothing. `Disk` comes only where the disk failed in this call, and shuts the room: the part is no longer retired, and its
    /// regions are lost. `Shut` comes exactly where an earlier call answered `Disk`, and changes nothing; so does `NoMemory`. A crash at any
    /// moment of the call leaves an image that shows what was sealed before.
    pub fn erase(&mut self, region: u32) -> Result<(), EraseFault>
        requires retired { list_any (λ p. p.region == region) self.old.room.retired ≡ true }
        ensures room { ErasesOr region self.old self.new result }
        ensures read { ReadsButGates (region ∷ []) self.old.disk self.new.disk }
        ensures leaves { LeavesClosing (region ∷ []) self.old.disk self.new.disk }
        ensures beside { SameBeside self.old.disk self.new.disk }
        ensures keeps { Keeps self.old self.new }
        ensures job { KeepsJob self.old.room self.new.room }
    {
        self.erase_part(region)
    }

    /// Erases a retired part; all that `erase` says of it, in one clause.
    fn erase_part(&mut self, region: u32) -> Result<(), EraseFault>
        requires retired { list_any (λ p. p.region == region) self.old.room.retired ≡ true }
        ensures { Erases region self.old self.new result }
    {
        if self.is_shut {
            return Err(EraseFault::Shut { epoch: self.sealed });
        }
        if let Some((seat, buffer)) = self.board.names(region) {
            return Err(EraseFault::Held { seat, buffer });
        }
        match self.erase_led(&[region]) {
            Ok(()) => Ok(()),
            Err(refusal) => match refusal {
                DiskRefusal::Failed => Err(EraseFault::Disk),
                DiskRefusal::NoMemory => Err(EraseFault::NoMemory),
            },
        }
    }

    /// Erases each retired part that no view names, with one sync for all, and answers how many. The retired parts that are left are
    /// those that views name.
    ///
    /// `Disk` comes only where the disk failed in this call, and shuts the room: the parts whose gates were begun are no longer retired,
    /// and their regions are lost. `Shut` comes exactly where an earlier call answered `Disk`, and changes nothing. After `NoMemory` the
    /// first ones of these parts may be erased, and no other gate was begun. A crash at any moment of the call leaves an image that shows
    /// what was sealed before.
    pub fn erase_all(&mut self) -> Result<u32, RoomFault>
        ensures room { ErasesAllOr self.old self.new result }
        ensures left { OnOk result (self.new.room.retired ≡ held self.old.room) }
        ensures read { ReadsButGates (unheld self.old.room) self.old.disk self.new.disk }
        ensures leaves { LeavesClosing (unheld self.old.room) self.old.disk self.new.disk }
        ensures beside { SameBeside self.old.disk self.new.disk }
        ensures keeps { Keeps self.old self.new }
        ensures job { KeepsJob self.old.room self.new.room }
    {
        self.erase_unheld()
    }

    /// Erases all that no view names; all that `erase_all` says of it, in one clause.
    fn erase_unheld(&mut self) -> Result<u32, RoomFault>
        ensures { ErasesAll self.old self.new result }
    {
        if self.is_shut {
            return Err(RoomFault::Shut { epoch: self.sealed });
        }
        let Ok(leads) = unheld_leads(self.alloc, &self.board, self.retired.as_slice()) else {
            return Err(RoomFault::NoMemory);
        };
        match self.erase_led(leads.as_slice()) {
            Ok(()) => Ok(leads.len() as u32),
            Err(refusal) => match refusal {
                DiskRefusal::Failed => Err(RoomFault::Disk),
                DiskRefusal::NoMemory => Err(RoomFault::NoMemory),
            },
        }
    }

    /// Erases the retired parts that these regions lead, as far as it comes.
    fn erase_led(&mut self, leads: &[u32]) -> DiskResult<()>
        requires open_room { self.old.room.is_shut ≡ false }
        requires retired { AllByRecursion (λ region. list_any (λ p. p.region == region) self.old.room.retired ≡ true) leads.now }
        requires unnamed { AllByRecursion (λ region. naming_of self.old.room.board region ≡ None) leads.now }
        ensures { ErasesLed leads.now self.old self.new result }
    {
        let (begun, written) = close_gates(&mut self.disk, leads);
        if begun == 0 {
            return written;
        }
        let done = &leads[..begun];
        if has_failed(&written) {
            add_led(&mut self.lost, done, self.retired.as_slice());
            keep_others(&mut self.retired, done);
            self.is_shut = true;
            return written;
        }
        add_led(&mut self.free, done, self.retired.as_slice());
        keep_others(&mut self.retired, done);
        written
    }
}
