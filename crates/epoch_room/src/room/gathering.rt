//! Gathering the youngest parts of the chain into one.

ghost use Rattle.std.specs.Prelude.{◌≡◌, ◌+◌, ◌<◌, ◌≤◌, ◌++◌, [], ◌∷◌, None, drop, length, nat_le, position, take, vec_capacity};
ghost use Rattle.log_disk.specs.Disk.{SameBeside};
ghost use Rattle.epoch_room.specs.Gate.{KeepsBeside};
ghost use Rattle.epoch_room.specs.Gathering.{GathersOr, GathersYoung, retire_all, young_at};
ghost use Rattle.epoch_room.specs.Meaning.{Keeps};
ghost use Rattle.epoch_room.specs.Youngest.{CanSealYoung, SealsYoung};

use super::Room;
use super::merge_sealing::{or_end, retire};
use crate::answers::RoomFault;
use crate::sealing::seal_region;
use fine_model::{Part, Parts, Range};
use log_disk::{DiskRefusal, LogDisk};
use log_partition::encode;
use partition_hold::RegionSet;
use row_gathering::{Gathered, gather};

/// The place of the first part that begins at an epoch or later.
fn position_young(parts: &[Part], from: u64) -> Option<usize>
    ensures { result ≡ position (λ p. nat_le from p.header.range.first) parts.now }
{
    parts
        .iter()
        .position(|part| from <= part.header.range.first)
}

/// That place, or the one behind all parts.
fn young_at(parts: &[Part], from: u64) -> usize
    ensures at { result ≡ young_at from parts.now }
    ensures most { result ≤ length parts.now }
{
    or_end(position_young(parts, from), parts)
}

/// Retires parts, where there is room.
fn retire_parts(retired: &mut Vec<Part>, parts: &[Part])
    requires { length parts.now + length retired.old.items ≤ vec_capacity retired.old }
    ensures items { retired.new.items ≡ retire_all parts.now retired.old.items }
    ensures capacity { vec_capacity retired.new ≡ vec_capacity retired.old }
{
    for part in parts {
        retire(retired, *part);
    }
}

/// Puts a part in place of those from a place on, and retires these. It takes no memory.
fn replace_young(parts: &mut Parts, retired: &mut Vec<Part>, at: usize, part: Part)
    requires some { at < length parts.old }
    requires room { length (drop at parts.old) + length retired.old.items ≤ vec_capacity retired.old }
    ensures parts { parts.new ≡ take at parts.old ++ part ∷ [] }
    ensures retired { retired.new.items ≡ retire_all (drop at parts.old) retired.old.items }
    ensures capacity { vec_capacity retired.new ≡ vec_capacity retired.old }
{
    retire_parts(retired, &parts.as_slice()[at..]);
    let _oldest = parts.replace(at, part);
    parts.truncate(at + 1);
}

impl<D: LogDisk> Room<D> {
    /// Gathers the live parts that begin at an epoch or later, which are the youngest, into one part over the lowest free region: their rows as they are, of each node those of
    /// the first part and then those of the next. They are retired, and all is synced. No merge is out; views may be.
    ///
    /// True exactly where that was done. False only where there are fewer than two such parts, no region is free, or their rows are not gathered, as `row_gathering::gather` tells;
    /// then nothing is changed. `Disk` comes only where the disk failed in this call, and shuts the room: nothing is lost where a read failed; where all rows were
    /// read, the region that was being written is lost, and unsynced. `Shut` comes exactly where an earlier call answered `Disk`, and changes nothing. After `NoMemory` the room is as it was, but for what the free region may hold behind its
    /// closed gate. A crash at any moment of the call leaves an image that shows what was sealed before.
    pub fn gather(&mut self, from: u64) -> Result<bool, RoomFault>
        requires no_job { self.old.room.job ≡ None }
        ensures room { GathersOr from self.old self.new result }
        ensures read { KeepsBeside (take 1 self.old.room.free) self.old.disk self.new.disk }
        ensures beside { SameBeside self.old.disk self.new.disk }
        ensures keeps { Keeps self.old self.new }
    {
        self.gather_young(from)
    }

    /// Gathers the young parts; all that `gather` says of it, in one clause.
    fn gather_young(&mut self, from: u64) -> Result<bool, RoomFault>
        requires no_job { self.old.room.job ≡ None }
        ensures { GathersYoung from self.old self.new result }
    {
        if self.is_shut {
            return Err(RoomFault::Shut { epoch: self.sealed });
        }
        let Some(region) = self.free.lowest() else {
            return Ok(false);
        };
        let parts = self.parts.as_slice();
        let at = young_at(parts, from);
        if parts.len() - at < 2 {
            return Ok(false);
        }
        match gather(self.alloc, &mut self.disk, &parts[at..]) {
            Ok(found) => match found {
                Some(gathered) => self.seal_young(at, region, &gathered),
                None => Ok(false),
            },
            Err(refusal) => match refusal {
                DiskRefusal::Failed => {
                    // nothing was being written, so that nothing is lost
                    self.is_shut = true;
                    Err(RoomFault::Disk)
                }
                DiskRefusal::NoMemory => Err(RoomFault::NoMemory),
            },
        }
    }

    /// Seals gathered rows in the lowest free region, in place of the parts from a place on.
    fn seal_young(&mut self, at: usize, region: u32, gathered: &Gathered) -> Result<bool, RoomFault>
        requires { CanSealYoung self.old at region gathered.now }
        ensures { SealsYoung at self.old self.new result }
    {
        let region_len = self.disk.region_len();
        let range = Range {
            first: self.parts.at(at).header.range.first,
            last: self.sealed,
        };
        let bytes = gathered.bytes.as_slice();
        let keys = gathered.keys.as_slice();
        let partition = encode(self.alloc, range, bytes, keys, region_len)?;
        match seal_region(&mut self.disk, region, partition.bytes.as_slice()) {
            Ok(()) => {
                let _taken = self.free.take_lowest();
                let part = Part {
                    region,
                    header: partition.header,
                };
                replace_young(&mut self.parts, &mut self.retired, at, part);
                Ok(true)
            }
            Err(refusal) => match refusal {
                DiskRefusal::Failed => {
                    let _taken = self.free.take_lowest();
                    self.lost = RegionSet::of(&[region]);
                    self.is_shut = true;
                    Err(RoomFault::Disk)
                }
                DiskRefusal::NoMemory => Err(RoomFault::NoMemory),
            },
        }
    }
}
