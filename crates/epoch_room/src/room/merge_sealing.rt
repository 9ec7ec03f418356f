//! Sealing the merged part: the last step of a merge.

ghost use Rattle.std.specs.Prelude.{◌≡◌, Bool, nat_lt, position, ◌+◌, ◌<◌, ◌≤◌, ◌==◌, [], ◌∷◌, ◌++◌, IfSome, IsSome, OnOk, Some, length, vec_capacity};
ghost use Rattle.std.specs.List.{AllByRecursion, position_or_len};
ghost use Rattle.fine_model.specs.Boards.{set_of};
ghost use Rattle.fine_model.specs.declared.Part.{Part};
ghost use Rattle.fine_model.specs.Jobs.{taken_by};
ghost use Rattle.fine_model.specs.Regions.{header_bytes, body_len};
ghost use Rattle.fine_model.specs.RowBytes.{most_in_log};
ghost use Rattle.log_disk.specs.Disk.{SameBeside, with_bytes};
ghost use Rattle.epoch_room.specs.Gate.{gate, DirtiesOnly, HasBytes, KeepsBeside, LeavesSealing};
ghost use Rattle.epoch_room.specs.Meaning.{Keeps};
ghost use Rattle.epoch_room.specs.MergeSealing.{IsWrittenOut, SealsJob, SealsJobOr, replaced, retire};

use super::Room;
use crate::answers::RoomFault;
use crate::sealing::{header_len, seal_region};
use fine_model::{Header, Job, Part, Parts};
use log_disk::{DiskRefusal, LogDisk};
use log_partition::header_bytes;
use partition_hold::RegionSet;

/// The place of the part that a region leads.
fn position_of_lead(parts: &[Part], lead: u32) -> Option<usize>
    ensures { result ≡ position (λ p. p.region == lead) parts.now }
{
    parts.iter().position(|part| part.region == lead)
}

/// The place of the first part with a higher lead.
fn position_above(parts: &[Part], lead: u32) -> Option<usize>
    ensures { result ≡ position (λ p. nat_lt lead p.region) parts.now }
{
    parts.iter().position(|part| lead < part.region)
}

/// A place, or that behind all of them.
pub(super) fn or_end(place: Option<usize>, parts: &[Part]) -> usize
    ensures { (p : Part → Bool) → place ≡ position p parts.now → result ≡ position_or_len p parts.now }
{
    place.unwrap_or(parts.len())
}

/// Puts a part in place of the one that a region leads and of the one behind it. It takes no memory.
fn replace_two(parts: &mut Parts, lead: u32, part: Part)
    requires { position_or_len (λ p. p.region == lead) parts.old + 1 < length parts.old }
    ensures { parts.new ≡ replaced lead part parts.old }
{
    let slice = parts.as_slice();
    let at = or_end(position_of_lead(slice, lead), slice);
    let _older = parts.replace(at, part);
    let _newer = parts.remove(at + 1);
}

/// Puts a part before the first one with a higher lead, where there is room.
pub(super) fn retire(parts: &mut Vec<Part>, part: Part)
    requires { length parts.old.items < vec_capacity parts.old }
    ensures items { parts.new.items ≡ retire part parts.old.items }
    ensures capacity { vec_capacity parts.new ≡ vec_capacity parts.old }
{
    let slice = parts.as_slice();
    let at = or_end(position_above(slice, part.region), slice);
    let _inserted = parts.insert(at, part);
}

/// Adds all regions of a job.
fn lose_job(lost: &mut RegionSet, job: &Job, header: &Header)
    requires low { 1 ≤ header.now.regions }
    requires high { header.now.regions ≤ 8 }
    requires small { AllByRecursion (λ r. r < most_in_log) (taken_by job.now.target (Some header.now)) }
    ensures { lost.new ≡ set_of (lost.old ++ taken_by job.now.target (Some header.now)) }
{
    lost.insert(job.target);
    lost.insert_all(&header.more[..usize::from(header.regions - 1)]);
}

impl<D: LogDisk> Room<D> {
    /// Seals the part of a job whose body is all written: writes its header behind the closed gate, syncs, writes the gate, and syncs. Then
    /// the part stands in the chain in place of the two that were merged, which are retired, and no merge is out.
    ///
    /// The body is that of the merged rows of both parts, as far as the disk tells them. Every refusal gives the job back, which is out
    /// still. `Disk` comes only where the disk failed in this call, and shuts the room: all regions of the job are lost, since its part may
    /// be sealed beside the two. `Shut` comes exactly where an earlier call answered `Disk`, and changes nothing. After `NoMemory` the room
    /// is whole, and the job holds what it held, so that it may be sealed again. A crash at any moment of the call leaves an image that
    /// shows what was sealed before.
    pub fn merge_seal(&mut self, job: Job) -> Result<(), (RoomFault, Job)>
        requires out { self.old.room.job ≡ Some job }
        requires taken { IsSome job.header }
        requires total { IfSome job.header (λ header. job.written ≡ body_len header) }
        requires written { IfSome job.header (IsWrittenOut self.old.room job) }
        ensures room { IfSome job.header (λ header. SealsJobOr self.old self.new job header result) }
        ensures read { KeepsBeside (job.target ∷ []) self.old.disk self.new.disk }
        ensures dirties { DirtiesOnly (job.target ∷ []) self.old.disk self.new.disk }
        ensures leaves { IfSome job.header (λ header. LeavesSealing job.target (header_bytes self.old.room.region_len header) self.old.disk self.new.disk) }
        ensures bytes { OnOk result (IfSome job.header (λ header. HasBytes (λ image. with_bytes (with_bytes image job.target 1 (header_bytes self.old.room.region_len header)) job.target 0 gate) self.old.disk self.new.disk)) }
        ensures beside { SameBeside self.old.disk self.new.disk }
        ensures keeps { Keeps self.old self.new }
    {
        let Some(header) = job.header else {
            unreachable!()
        };
        self.seal_job(job, header)
    }

    /// Seals a job with a header; all that `merge_seal` says of it, in one clause.
    fn seal_job(&mut self, job: Job, header: Header) -> Result<(), (RoomFault, Job)>
        requires out { self.old.room.job ≡ Some job }
        requires taken { job.header ≡ Some header }
        requires total { job.written ≡ body_len header }
        requires written { IsWrittenOut self.old.room job header }
        ensures { SealsJob self.old self.new job header result }
    {
        if self.is_shut {
            return Err((RoomFault::Shut { epoch: self.sealed }, job));
        }
        let bytes = header_bytes(&header, self.disk.region_len());
        match seal_region(
            &mut self.disk,
            job.target,
            &bytes[..header_len(header.mark)],
        ) {
            Ok(()) => {
                let part = Part {
                    region: job.target,
                    header,
                };
                replace_two(&mut self.parts, job.older.region, part);
                retire(&mut self.retired, job.older);
                retire(&mut self.retired, job.newer);
                self.job = None;
                Ok(())
            }
            Err(refusal) => match refusal {
                DiskRefusal::Failed => {
                    lose_job(&mut self.lost, &job, &header);
                    self.is_shut = true;
                    Err((RoomFault::Disk, job))
                }
                DiskRefusal::NoMemory => Err((RoomFault::NoMemory, job)),
            },
        }
    }
}
