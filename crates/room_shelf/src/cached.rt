//! The nodes that buckets have, as a source that loads none.

ghost use Rattle.std.specs.Prelude.{◌≡◌, ◌<◌, IfErr, OnErr, OnOk};
ghost use Rattle.fine_model.specs.RowBytes.{buckets, node_numbers};
ghost use Rattle.fine_model.specs.declared.FetchFault.TheVariants as fetch_fault;
ghost use Rattle.node_cache.specs.Given.{IsCached, IsLoad, OnCleanLoad, SameNodes};
ghost use Rattle.partition_hold.specs.Sources.{finds_in, tells_rows};
ghost use Rattle.room_shelf.specs.Shelves.{sight};

use epoch_room::Room;
use fine_model::FetchFault;
use log_disk::LogDisk;
use node_cache::{Bucket, NodeSource};
use std::marker::Model;
use std::snapshot::Snapshot;

/// The nodes that buckets have of a room, as a source of nodes: it loads none, and calls no disk.
///
/// It tells what a view of the room would. So calls all of whose nodes are cached are answered as through a view, and none has to be made for them.
#[derive(Drop)]
pub struct CachedNodes<D: LogDisk> {
    room: Snapshot<Room<D>>,
}

impl<D: LogDisk> Model for CachedNodes<D> {
    ghost use Rattle.epoch_room.specs.Value.{RoomValue};

    ghost Value = { RoomValue };

    ghost view = { λ s. s.room.value };
}

impl<D: LogDisk> CachedNodes<D> {
    /// Those of this room.
    pub fn of(room: &Room<D>) -> CachedNodes<D>
        ensures { result ≡ room.now }
    {
        CachedNodes {
            room: Snapshot::of(room),
        }
    }
}

impl<D: LogDisk> NodeSource for CachedNodes<D> {
    ghost use Rattle.std.specs.Prelude.{◌≡◌};
    ghost use Rattle.std.proofs.Common.{refl, ap, ◌∙◌};
    ghost use Rattle.fine_model.specs.declared.FetchFault.TheVariants as fetch_fault;
    ghost use Rattle.partition_hold.specs.Sources.{finds_in, tells_rows};
    ghost use Rattle.epoch_room.specs.Value.{RoomValue};
    ghost use Rattle.room_shelf.specs.Shelves.{sight};
    ghost use Rattle.room_shelf.specs.CachedLaws as laws;

    ghost tells = { λ s. tells_rows (sight s) };

    ghost finds = { λ s. finds_in (sight s) };

    ghost upper = { λ s. s.room.sealed };

    ghost later = { λ s t. t ≡ s };

    ghost clean = { λ s t. t ≡ s };

    ghost fails = { λ s fault t. fault ≡ fetch_fault.NoMemory };

    ghost later_itself = { λ _. refl };

    ghost later_on = { λ _ _ _ before behind. behind ∙ before };

    ghost later_tells = { laws.later_tells };

    ghost tells_before = { laws.tells_before };

    ghost finds_before = { laws.finds_before };

    ghost later_upper = { λ _ _ later. ap (λ (r : RoomValue). r.room.sealed) later };

    ghost clean_itself = { λ _. refl };

    ghost clean_on = { λ _ _ _ before behind. behind ∙ before };

    ghost fails_earlier = { λ _ _ _ _ _ failed. failed };

    ghost fails_told = { laws.fails_told };

    /// Caches nothing. `NoMemory` comes exactly where the node is not cached.
    fn load(&mut self, bucket: &mut Bucket, number: u32) -> Result<(), FetchFault>
        requires bucket { bucket.old.bucket < buckets }
        requires number { number < node_numbers }
        ensures later { self.new ≡ self.old }
        ensures clean { OnCleanLoad result (self.new ≡ self.old) }
        ensures load { IsLoad (tells_rows (sight self.old)) (finds_in (sight self.old)) self.old.room.sealed number bucket.old bucket.new }
        ensures there { OnOk result (IsCached bucket.new number) }
        ensures none { OnErr result (SameNodes bucket.old bucket.new) }
        ensures fails { IfErr result (λ fault. fault ≡ fetch_fault.NoMemory) }
    {
        if bucket.peek(number).is_some() {
            return Ok(());
        }
        Err(FetchFault::NoMemory)
    }
}
