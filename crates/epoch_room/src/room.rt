//! The room.

ghost use Rattle.std.specs.Prelude.{◌≡◌, ◌+◌, ◌*◌, ◌≤◌, ◌==◌, true, None, length, replicate, IfOk, IfErr, IfSome, IsSome, OnOk, OnErr, option_to_list};
ghost use Rattle.std.specs.List.{AllByRecursion, list_all, list_any};
ghost use Rattle.fine_model.specs.Boards.{empty_of, is_empty};
ghost use Rattle.fine_model.specs.Becomes.{Becomes};
ghost use Rattle.fine_model.specs.Jobs.{KeepsJob};
ghost use Rattle.fine_model.specs.Merge.{cost};
ghost use Rattle.fine_model.specs.RowBytes.{FitsRow};
ghost use Rattle.fine_model.specs.declared.Mark.TheVariants as mark;
ghost use Rattle.log_disk.specs.Disk.{Disk, SameBeside};
ghost use Rattle.epoch_room.specs.declared.answers.Fit.TheVariants as fit;
ghost use Rattle.epoch_room.specs.declared.answers.RoomFault.TheVariants as room_fault;
ghost use Rattle.epoch_room.specs.Value.{made};
ghost use Rattle.epoch_room.specs.Fitting.{fit_of, counts_of, is_pressed};
ghost use Rattle.epoch_room.specs.Whole.{AreParts, IsIdle, IsWhole};
ghost use Rattle.epoch_room.specs.Steps.{appended, retired_from, with_state, SealsOr};
ghost use Rattle.epoch_room.specs.Gate.{KeepsBeside};
ghost use Rattle.epoch_room.specs.Meaning.{HoldsEpoch, Keeps, Seals, StandsAtFirst, StandsForMore};
ghost use Rattle.epoch_room.specs.Views.{MakesView, ViewsLog, ViewsOr};

mod adopting;
mod board;
mod erasing;
mod gathering;
mod merge_sealing;
mod merging;

use crate::answers::{Counts, Fit, RoomFault, Stamp};
use crate::epoch::OpenEpoch;
use crate::partition::as_partition;
use crate::regions::{
    all_regions, first_lead, free_regions, has_taken, last_epoch, regions_in, take_target,
};
use crate::sealing::seal_region;
use fine_model::format::{BODY_START, GREATEST, MOST_IN_LOG};
use fine_model::{Copied, Job, NoMemory, Part, Parts, Range, RoomLaw};
use log_disk::{DiskRefusal, LogDisk};
pub use merging::first_neighbours;
use partition_hold::{Board, RegionSet, View};
use private_log::PrivateLog;
use std::alloc::Global;
use std::marker::Model;
use std::snapshot::Snapshot;

/// How many regions are free before a new epoch takes one: the last one is kept for merging.
const FREE: u32 = 2;

/// A log on a disk: the chain of live parts, the free and the retired regions, the open epoch, the board of the views, and the merge
/// that is out.
///
/// After a failure of the device the room is shut: every call that touches the device then answers `Shut`. What the failed call was
/// writing is lost to writing until the log is opened again.
#[derive(Drop)]
pub struct Room<D: LogDisk> {
    disk: D,
    entry: Snapshot<D>,
    alloc: Global,
    parts: Parts,
    retired: Vec<Part>,
    free: RegionSet,
    lost: RegionSet,
    target: Option<u32>,
    board: Board<D::Eye>,
    job: Option<Job>,
    epoch: OpenEpoch,
    sealed: u64,
    places: u64,
    is_shut: bool,
}

impl<D: LogDisk> Model for Room<D> {
    ghost use Rattle.std.specs.Prelude.{◌≡◌, ◌+◌, ◌≤◌, vec_capacity};
    ghost use Rattle.fine_model.specs.RowBytes.{most_in_log, short_header};
    ghost use Rattle.epoch_room.specs.Value.{RoomValue, value_of};
    ghost use Rattle.epoch_room.specs.Whole.{IsWhole};

    ghost Value = { RoomValue };

    ghost view = { λ r. value_of (D.state r.disk) (D.state r.entry.value) (record {
      parts = r.parts;
      retired = r.retired.items;
      free = r.free;
      lost = r.lost;
      target = r.target;
      board = r.board;
      job = r.job;
      epoch = r.epoch;
      sealed = r.sealed;
      places = r.places;
      is_shut = r.is_shut;
    }) };

    ghost invariant = { λ r. IsWhole (view r) × (short_header + r.epoch.most ≡ (D.state r.disk).region_len) × (most_in_log ≤ vec_capacity r.retired) };
}

impl<D: LogDisk> RoomLaw for Room<D> {
    ghost use Rattle.epoch_room.specs.Meaning.{origin_of, Stands};

    ghost state = { λ room. room.room };

    ghost origin = { λ room. origin_of room.entry };

    ghost stands_for = { Stands };
}

impl<D: LogDisk> Room<D> {
    /// A room on a disk with these live parts, in chain order, and these retired ones, in the order of their regions. The other regions
    /// are free. It takes all memory that `append` and `into_disk` need.
    ///
    /// The disk has 4 to 64 regions of 4,096 to 67,108,864 bytes, whole KiB; nothing is unsynced, and no eye is open. The ranges of the
    /// live parts follow one another from epoch 1 on, and no region is in two parts. Where the disk tells its bytes, the live parts are
    /// its chain, and the retired ones its other sealed parts. `NoMemory` gives the disk back as it was.
    pub fn make(
        alloc: Global,
        disk: D,
        parts: Parts,
        retired: Parts,
    ) -> Result<Room<D>, (NoMemory, D)>
        requires idle { IsIdle (D.state disk) }
        requires parts { AreParts (D.state disk) parts retired }
        ensures made { IfOk result (λ room. room ≡ made (D.state disk) parts retired) }
        ensures stands { IfOk result (λ room. StandsAtFirst room (D.state disk).told) }
        ensures back { IfErr result (λ e. D.state e.1 ≡ D.state disk) }
    {
        let mut retired = retired.into_vec();
        let Ok(_reserved) = retired.reserve_exact(MOST_IN_LOG as usize) else {
            return Err((NoMemory, disk));
        };
        let free = free_regions(disk.regions(), parts.as_slice(), retired.as_slice());
        let Ok(epoch) = OpenEpoch::new(alloc, disk.region_len() - BODY_START) else {
            return Err((NoMemory, disk));
        };
        let Ok(board) = Board::new(alloc, 1) else {
            return Err((NoMemory, disk));
        };
        let sealed = last_epoch(&parts);
        let entry = Snapshot::of(&disk);
        Ok(Room {
            disk,
            entry,
            alloc,
            parts,
            retired,
            free,
            lost: RegionSet::none(),
            target: None,
            board,
            job: None,
            epoch,
            sealed,
            places: 0,
            is_shut: false,
        })
    }

    /// Whether rows that take so many bytes in a partition beside its header may be appended; if not, the first reason that holds.
    ///
    /// `Shut` comes exactly where an earlier call answered `Disk`; `Number` where the open epoch's number is above 2^62, or 2^62 places were
    /// given; `TooLarge` where the rows alone need more bytes than a region has; `Full` where the open epoch has no entry and fewer than
    /// two regions are free, a merge that has taken its regions counting as one; `EpochFull` where the open epoch would need more bytes
    /// than a region has. A sum above the greatest number of 64 bits counts as that number.
    #[tactic(auto, unfolding(crate::specs::Fitting::fit_of))]
    pub fn fit(&self, cost: u64) -> Fit
        ensures { result ≡ fit_of self.now.room cost }
    {
        let room = self.disk.region_len();
        if self.is_shut {
            return Fit::Shut { epoch: self.sealed };
        }
        if self.sealed >= GREATEST || self.places >= GREATEST {
            return Fit::Number {
                epoch: self.sealed + 1,
                place: self.places,
            };
        }
        let need = cost.saturating_add(BODY_START);
        if need > room {
            return Fit::TooLarge { need, room };
        }
        if self.epoch.waiting() == 0 && self.free.len() + u32::from(has_taken(&self.job)) < FREE {
            return Fit::Full {
                free: self.free.len(),
                live: regions_in(self.parts.as_slice()),
                retired: regions_in(self.retired.as_slice()),
            };
        }
        let need = need.saturating_add(self.epoch.used());
        if need > room {
            return Fit::EpochFull { need, room };
        }
        Fit::Fits
    }

    /// Appends the rows of a transaction to the open epoch, whose first entry takes the free region of the lowest number as the epoch's
    /// target. `fit` of the rows' cost is `Fits`. It takes no memory.
    pub fn append(&mut self, log: &PrivateLog) -> Stamp
        requires fits { fit_of self.old.room (cost log.now) ≡ fit.Fits }
        requires rows { AllByRecursion (FitsRow mark.Two) log.now }
        ensures stamp { result ≡ record { place = self.old.room.places + 1; epoch = self.old.room.sealed + 1 } }
        ensures room { self.new ≡ appended self.old log.now }
        ensures stands { StandsForMore self.old self.new log.now }
        ensures becomes { Becomes self.old.room self.new.room }
        ensures job { KeepsJob self.old.room self.new.room }
    {
        self.target = take_target(&mut self.free, self.target, self.epoch.waiting());
        self.epoch.add(log);
        self.places += 1;
        Stamp {
            place: self.places,
            epoch: self.sealed + 1,
        }
    }

    /// Makes the open epoch durable as one partition, and answers its number: writes the partition behind the closed gate of its target,
    /// syncs, writes the gate, and syncs. Then the part is live, its rows are those of the epoch in the order of node and version, and the
    /// next epoch is open. Whatever it answers, a read gives the same in all regions but the target.
    ///
    /// After `NoMemory` the epoch is still open and whole. `Disk` comes only where the disk failed in this call, and shuts the room;
    /// `Shut` comes exactly where an earlier call answered `Disk`, and changes nothing. A crash at any moment of the call leaves an
    /// image that shows at least what was sealed before.
    pub fn seal(&mut self) -> Result<u64, RoomFault>
        requires waiting { 1 ≤ self.old.room.waiting }
        ensures room { SealsOr self.old self.new result }
        ensures body { OnOk result (HoldsEpoch self.old self.new) }
        ensures read { KeepsBeside (option_to_list self.old.target) self.old.disk self.new.disk }
        ensures beside { SameBeside self.old.disk self.new.disk }
        ensures keeps { Keeps self.old self.new }
        ensures job { KeepsJob self.old.room self.new.room }
    {
        self.seal_epoch()
    }

    /// Seals the open epoch; all that `seal` says of it, in one clause.
    fn seal_epoch(&mut self) -> Result<u64, RoomFault>
        requires waiting { 1 ≤ self.old.room.waiting }
        ensures { Seals self.old self.new result }
    {
        if self.is_shut {
            return Err(RoomFault::Shut { epoch: self.sealed });
        }
        let region_len = self.disk.region_len();
        let region = self.target.unwrap_or(0);
        let epoch = self.sealed + 1;
        let range = Range {
            first: epoch,
            last: epoch,
        };
        let partition = as_partition(self.alloc, &self.epoch, range, region_len)?;
        self.parts.push(Part {
            region,
            header: partition.header,
        })?;
        match seal_region(&mut self.disk, region, partition.bytes.as_slice()) {
            Ok(()) => {
                self.target = None;
                self.epoch.clear();
                self.sealed = epoch;
                Ok(epoch)
            }
            Err(refusal) => {
                self.parts.truncate(self.parts.len() - 1);
                match refusal {
                    DiskRefusal::Failed => {
                        self.lost = RegionSet::of(&[region]);
                        self.target = None;
                        self.is_shut = true;
                        Err(RoomFault::Disk)
                    }
                    DiskRefusal::NoMemory => Err(RoomFault::NoMemory),
                }
            }
        }
    }

    /// Three empty buffers for each of so many seats. No view is out. After `NoMemory` the board is as it was.
    pub fn set_seats(&mut self, seats: u32) -> Result<(), NoMemory>
        requires some { 1 ≤ seats }
        requires few { seats ≤ 18 }
        requires board { list_all is_empty self.old.room.board ≡ true }
        ensures ok { OnOk result (self.new ≡ with_state self.old (record self.old.room { board = replicate (3 * seats) None })) }
        ensures err { OnErr result (self.new ≡ self.old) }
        ensures keeps { Keeps self.old self.new }
        ensures job { KeepsJob self.old.room self.new.room }
    {
        self.board = Board::new(self.alloc, seats)?;
        Ok(())
    }

    /// A view of all live parts for a seat that has an empty buffer: its eye stands in the lowest one, and its rows are those of the log up
    /// to the last sealed epoch. Until it is taken back no region of these parts is written or erased.
    ///
    /// `Disk` comes only where the disk failed in this call, and shuts the room; nothing is lost. After `NoMemory` the room is as it was.
    pub fn view_for(&mut self, seat: u32) -> Result<View<D::Eye>, RoomFault>
        requires some { 1 ≤ seat }
        requires seats { 3 * seat ≤ length self.old.room.board }
        requires empty { IsSome (empty_of self.old.room.board seat) }
        ensures room { ViewsOr self.old self.new seat result }
        ensures log { IfOk result (ViewsLog self.old) }
        ensures keeps { Keeps self.old self.new }
        ensures job { KeepsJob self.old.room self.new.room }
    {
        self.make_view(seat)
    }

    /// Makes a view; all that `view_for` says of it, in one clause.
    fn make_view(&mut self, seat: u32) -> Result<View<D::Eye>, RoomFault>
        requires some { 1 ≤ seat }
        requires seats { 3 * seat ≤ length self.old.room.board }
        requires empty { IsSome (empty_of self.old.room.board seat) }
        ensures { MakesView self.old self.new seat result }
    {
        if self.is_shut {
            return Err(RoomFault::Shut { epoch: self.sealed });
        }
        let region_len = self.disk.region_len();
        let parts = self.parts.copy()?;
        let regions = all_regions(self.alloc, &self.parts)?;
        match self.disk.eye(regions.as_slice()) {
            Ok(eye) => {
                let buffer = self.board.post(seat, &eye, regions.as_slice());
                Ok(View::new(
                    self.alloc,
                    eye,
                    parts,
                    self.sealed,
                    seat,
                    buffer,
                    region_len,
                ))
            }
            Err(refusal) => match refusal {
                DiskRefusal::Failed => {
                    self.is_shut = true;
                    Err(RoomFault::Disk)
                }
                DiskRefusal::NoMemory => Err(RoomFault::NoMemory),
            },
        }
    }

    /// The live parts in chain order.
    pub fn parts(&self) -> &Parts
        ensures { result.now ≡ self.now.room.parts }
    {
        &self.parts
    }

    /// The lowest region from a number on that is the lead of a retired part. None exactly where there is none.
    pub fn retired(&self, from: u32) -> Option<u32>
        ensures lowest { result ≡ retired_from self.now.room from }
        ensures leads { IfSome result (λ region. list_any (λ p. p.region == region) self.now.room.retired ≡ true) }
    {
        first_lead(self.retired.as_slice(), from)
    }

    /// The room in numbers. By `whole`, what holds of every room comes to the caller.
    #[tactic(auto, unfolding(crate::specs::Fitting::counts_of))]
    pub fn counts(&self) -> Counts
        ensures counts { result ≡ counts_of self.now.room }
        ensures whole { IsWhole self.now }
    {
        Counts {
            free: self.free.len(),
            live: regions_in(self.parts.as_slice()),
            retired: regions_in(self.retired.as_slice()),
            sealed: self.sealed,
            place: self.places,
            waiting: self.epoch.waiting(),
        }
    }

    /// The last sealed epoch. By `whole`, what holds of every room comes to the caller, at no walk over its parts.
    pub fn sealed(&self) -> u64
        ensures sealed { result ≡ self.now.room.sealed }
        ensures whole { IsWhole self.now }
    {
        self.sealed
    }

    /// The number of entries in the open epoch.
    pub fn waiting(&self) -> u64
        ensures { result ≡ self.now.room.waiting }
    {
        self.epoch.waiting()
    }

    /// Whether an earlier call answered `Disk`: then nothing is written any more.
    pub fn is_shut(&self) -> bool
        ensures { result ≡ self.now.room.is_shut }
    {
        self.is_shut
    }

    /// Whether fewer than half of all regions are free.
    pub fn pressed(&self) -> bool
        ensures { result ≡ is_pressed self.now.room }
    {
        2 * u64::from(self.free.len()) < u64::from(self.disk.regions())
    }

    /// The length of each region in bytes.
    pub fn region_len(&self) -> u64
        ensures { result ≡ self.now.room.region_len }
    {
        self.disk.region_len()
    }

    /// The disk. No view is out, and no merge. It takes no memory.
    pub fn into_disk(self) -> D
        requires board { list_all is_empty self.room.board ≡ true }
        requires no_job { self.room.job ≡ None }
        ensures disk { D.state result ≡ self.disk }
        ensures whole { IsWhole self }
    {
        self.disk
    }
}
