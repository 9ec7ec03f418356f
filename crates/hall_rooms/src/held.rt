//! A room and a bucket as they lie in a hall.

ghost use Rattle.std.specs.Prelude.{◌≡◌, [], IfOk, IfErr};
ghost use Rattle.std.specs.List.{AllByRecursion};
ghost use Rattle.std.specs.Borrow.{sem};
ghost use Rattle.fine_model.specs.Merge.{cost};
ghost use Rattle.fine_model.specs.RowBytes.{FitsRow};
ghost use Rattle.fine_model.specs.declared.Mark.TheVariants as mark;
ghost use Rattle.epoch_room.specs.declared.answers.Fit.TheVariants as fit;
ghost use Rattle.epoch_room.specs.Fitting.{fit_of};
ghost use Rattle.hall_rooms.specs.Lent.{LendsBucket, LendsRoom};
ghost use Rattle.hall_rooms.specs.Steps.{Appends};

use epoch_room::{Fit, Room, Stamp};
use fine_model::{BucketLaw, RoomLaw};
use log_disk::LogDisk;
use node_cache::Bucket;
use private_log::PrivateLog;
use std::alloc::{AllocError, Global};
use std::marker::Model;

/// A room on the heap, so that a turn moves a pointer and leaves the room where it lies. Contracts see the room.
#[derive(Drop)]
pub struct HeldRoom<D: LogDisk> {
    room: Box<Room<D>>,
}

/// A bucket on the heap, since all places of a hall have one size, and the room's place is moved with each turn. Contracts see the bucket.
#[derive(Drop)]
pub struct HeldBucket {
    bucket: Box<Bucket>,
}

impl<D: LogDisk> Model for HeldRoom<D> {
    ghost use Rattle.epoch_room.specs.Value.{RoomValue};

    ghost Value = { RoomValue };

    ghost view = { λ held. held.room.value };
}

impl<D: LogDisk> RoomLaw for HeldRoom<D> {
    ghost use Rattle.epoch_room.specs.Meaning.{Stands};
    ghost use Rattle.hall_rooms.specs.Rooms.{room_log, room_state};

    ghost state = { room_state };

    ghost origin = { room_log };

    ghost stands_for = { Stands };
}

impl Model for HeldBucket {
    ghost use Rattle.node_cache.specs.Cache.{Cache};
    ghost use Rattle.node_cache.specs.Codes.{cache_code};

    ghost Value = { Cache };

    ghost coded = { cache_code };

    ghost view = { λ held. held.bucket.value };
}

impl BucketLaw for HeldBucket {
    ghost use Rattle.node_cache.specs.Cache.{kept_at, IsResting};

    ghost bucket = { λ b. b.bucket };

    ghost cached = { kept_at };

    ghost is_settled = { IsResting };
}

impl<D: LogDisk> HeldRoom<D> {
    /// The room on the heap, or as it was where there is no memory.
    pub(crate) fn hold(alloc: Global, room: Room<D>) -> Result<HeldRoom<D>, Room<D>>
        ensures held { IfOk result (λ held. held ≡ room) }
        ensures back { IfErr result (λ back. back ≡ room) }
    {
        match Box::new(alloc, room) {
            Ok(room) => Ok(HeldRoom { room }),
            Err(failed) => Err(failed.value),
        }
    }

    /// The room.
    pub(crate) fn into_room(self) -> Room<D>
        ensures { result ≡ self }
    {
        Box::into_inner(self.room)
    }

    /// The room, to be changed in a turn.
    pub(crate) fn room(&mut self) -> &mut Room<D>
        ensures value { result.now ≡ self.old }
        ensures* writes_back { sem 𝓛 (LendsRoom D.row D.Eye.row D.LogDisk D.Eye.LogEye self.entry result) }
    {
        self.room.as_mut()
    }

    /// As `Room::fit`.
    pub fn fit(&self, cost: u64) -> Fit
        ensures { result ≡ fit_of self.now.room cost }
    {
        self.room.fit(cost)
    }

    /// As `Room::waiting`: how many entries wait in the open epoch.
    pub fn waiting(&self) -> u64
        ensures { result ≡ self.now.room.waiting }
    {
        self.room.waiting()
    }

    /// As `Room::append`.
    pub fn append(&mut self, log: &PrivateLog) -> Stamp
        requires fits { fit_of self.old.room (cost log.now) ≡ fit.Fits }
        requires rows { AllByRecursion (FitsRow mark.Two) log.now }
        ensures { Appends log.now self.old self.new result }
    {
        self.room().append(log)
    }
}

impl HeldBucket {
    /// A bucket that caches nothing, of this number, on the heap.
    pub(crate) fn new(alloc: Global, number: u16) -> Result<HeldBucket, AllocError>
        ensures { IfOk result (λ held. held ≡ record { bucket = number; nodes = []; saved = [] }) }
    {
        match Box::new(alloc, Bucket::new(alloc, number)) {
            Ok(bucket) => Ok(HeldBucket { bucket }),
            Err(_failed) => Err(AllocError),
        }
    }

    /// The bucket.
    pub fn bucket(&mut self) -> &mut Bucket
        ensures value { result.now ≡ self.old }
        ensures* writes_back { sem 𝓛 (LendsBucket self.entry result) }
    {
        self.bucket.as_mut()
    }
}
