//! A disk in a file of the system. What the file keeps is not told: this is the edge where the system is trusted.
//!
//! Contracts name the path by which each file was opened, and the place and length of what it is asked for.

ghost use Rattle.std.specs.Prelude.{◌≡◌, ◌≢◌, ◌⊎◌, ◌*◌, ◌<◌, ◌≤◌, ◌+◌, ◌^◌, ◌++◌, ◌∷◌, [], true, false, All, Any, Contains, None, Some, Err, IfSome, IfOk, IfErr, OnOk, OnErr, IsErr, IsErrOf, is_err, if◌then◌else◌, length, string_bytes};
ghost use Rattle.log_disk.specs.declared.file.MakeFault.TheVariants as fault;
ghost use Rattle.log_disk.specs.declared.file.handle.FileAsk.TheVariants as ask;
ghost use Rattle.log_disk.specs.MakeFault.{IsWhy};
ghost use Rattle.log_disk.specs.Disk.{new_disk, last_count, IsWithin, IsUnseen, Reads, Writes, Syncs, OnlyFails, Opens, Closes, Looks};

use crate::eyes::OpenEyes;
use crate::faults::Faults;
use crate::{DiskRefusal, Failed, LogDisk, LogEye};
use std::alloc::{AllocError, Global};
use std::fmt;
use std::fs::{File, Files};
use std::marker::Model;
use std::snapshot::Snapshot;
use thiserror::Error;

mod handle;
mod kept;

use handle::Handle;
pub use handle::{FileAsk, FileCall, FileNotes};
use kept::{EyeFile, KeptFiles};

/// Why no disk was made of a file. The notes are there for contracts and take no memory.
#[derive(Drop, Error)]
pub enum MakeFault {
    /// A call on the file failed.
    #[error("a call on the log file failed")]
    Failed {
        notes: Snapshot<FileNotes>,
    },
    /// The file's length is neither 0 nor that of all regions.
    #[error("the log file has another length")]
    WrongLength {
        found: u64,
        notes: Snapshot<FileNotes>,
    },
    #[error("memory ran out")]
    NoMemory,
}

impl fmt::Debug for MakeFault {
    fn fmt<W: fmt::Write>(&self, f: &mut fmt::Formatter<W>) -> fmt::Result {
        f.write_str(match self {
            MakeFault::Failed { .. } => "Failed",
            MakeFault::WrongLength { .. } => "WrongLength",
            MakeFault::NoMemory => "NoMemory",
        })
    }
}

impl From<AllocError> for MakeFault {
    ghost from_gives = { λ _ e. e ≡ fault.NoMemory };

    fn from(_: AllocError) -> Self {
        MakeFault::NoMemory
    }
}

/// A disk in one file, with region `r` from byte `r * region_len` on. It tells no bytes, and its counts rise at each call
/// on the file that fails.
///
/// Its file is locked as long as it lives. It keeps the path, by which the file is opened once more for an eye. No call changes
/// that. A file that an eye had is kept for a later eye, and is closed with the disk.
#[derive(Drop)]
pub struct FileDisk<R: Files<File = File> + Clone + Drop + Send> {
    alloc: Global,
    rt: R,
    path: String,
    file: Handle,
    regions: u32,
    region_len: u64,
    unsynced: Vec<Snapshot<u32>>,
    eyes: OpenEyes,
    kept: KeptFiles,
    faults: Faults,
}

impl<R: Files<File = File> + Clone + Drop + Send> Model for FileDisk<R> {
    ghost use Rattle.std.specs.Prelude.{ℕ, ◌≡◌, ◌*◌, ◌<◌, ◌^◌, true, map, length, All, None, string_bytes};
    ghost use Rattle.log_disk.specs.Disk.{AreNumbered};
    ghost use Rattle.log_disk.specs.FileDisk.{DiskAtPath, HasPlaces, IsAtPath, file_of, kept_in};

    ghost Value = { DiskAtPath };

    ghost use Rattle.log_disk.specs.Eyes.{eyes_in, numbers_to};

    ghost view = { λ d. record {
      path = string_bytes d.file.notes.path.value;
      file = file_of d.file.notes;
      kept = kept_in d.kept;
      disk = record {
        regions = d.regions;
        region_len = d.region_len;
        told = None;
        unsynced = map (λ region. region.value) d.unsynced.items;
        eyes = eyes_in d.eyes;
        given = numbers_to d.eyes.given;
        faults = d.faults.all;
        own_faults = d.faults.own;
      };
    } };

    ghost invariant = { λ d. (d.regions * d.region_len < 2 ^ 63) × AreNumbered (eyes_in d.eyes) (numbers_to d.eyes.given) × (d.file.notes.locked.value ≡ true) × (d.file.notes.path.value ≡ d.path) × All (IsAtPath (string_bytes d.path)) d.kept.files.items × HasPlaces (length (eyes_in d.eyes)) d.kept };
}

impl<R: Files<File = File> + Clone + Drop + Send> FileDisk<R> {
    /// Opens the file at a path as a disk of regions, and makes it where there is none. It takes the file's lock, fills an
    /// empty file with zeros, and then syncs it with all that the system offers.
    ///
    /// `WrongLength` says that the file, under its lock, told a length that is neither 0 nor the whole, and was asked for no
    /// change until then. Where it told such a length, no disk is made and `Failed` does not come. `Failed` says that the last
    /// call on the file failed, as the lock does where another disk, of this or another process, has the file; the file may then
    /// have been made, or filled where it was empty. No clause gives the cause of `NoMemory`.
    pub fn make(
        rt: &R,
        alloc: Global,
        path: &str,
        regions: u32,
        region_len: u64,
    ) -> Result<FileDisk<R>, MakeFault>
        requires { regions * region_len < 2 ^ 63 }
        ensures made { IfOk result (λ made. made.disk ≡ new_disk regions region_len None) }
        ensures at_path { IfOk result (λ made. made.path ≡ path.now) }
        ensures locked { IfOk result (λ made. made.file.locked ≡ true) }
        ensures whole { IfOk result (λ made. made.file.len ≡ Some (regions * region_len)) }
        ensures synced { IfOk result (λ made. made.file.last ≡ record { ask = ask.Sync; failed = false }) }
        ensures none_kept { IfOk result (λ made. made.kept ≡ []) }
        ensures found { IfOk result (λ made. made.file.found ≡ Some (if made.file.changed then 0 else regions * region_len)) }
        ensures fault { IfErr result (IsWhy path.now (regions * region_len)) }
    {
        let path = String::from_str(alloc, path)?;
        let rt = rt.clone()?;
        let mut file = match Handle::open(&rt, &path, true) {
            Ok(file) => file,
            Err(notes) => return Err(MakeFault::Failed { notes }),
        };
        prepare(&mut file, u64::from(regions) * region_len)?;
        Ok(FileDisk {
            alloc,
            rt,
            path,
            file,
            regions,
            region_len,
            unsynced: Vec::new(alloc),
            eyes: OpenEyes::none(alloc),
            kept: KeptFiles::none(alloc),
            faults: Faults::none(),
        })
    }
}

// Takes the lock of a file that was opened, fills an empty one up to the whole of a disk, and syncs it. A file of another
// length is refused.
fn prepare(file: &mut Handle, whole: u64) -> Result<(), MakeFault>
    requires unasked { (file.old.notes.found.value ≡ None) × (file.old.notes.changed.value ≡ false) }
    ensures locked { OnOk result (file.new.notes.locked.value ≡ true) }
    ensures whole { OnOk result (file.new.notes.len.value ≡ Some whole) }
    ensures found { OnOk result (file.new.notes.found.value ≡ Some (if file.new.notes.changed.value then 0 else whole)) }
    ensures synced { OnOk result (file.new.notes.last.value ≡ record { ask = ask.Sync; failed = false }) }
    ensures fault { IfErr result (IsWhy (string_bytes file.old.notes.path.value) whole) }
    ensures path { file.new.notes.path ≡ file.old.notes.path }
{
    if file.lock().is_err() {
        return Err(failed(file, whole));
    }
    fill(file, whole)?;
    if file.sync().is_err() {
        return Err(failed(file, whole));
    }
    Ok(())
}

// Fills an empty file up to the whole of a disk. A file of another length is refused.
fn fill(file: &mut Handle, whole: u64) -> Result<(), MakeFault>
    requires locked { file.old.notes.locked.value ≡ true }
    requires unasked { (file.old.notes.found.value ≡ None) × (file.old.notes.changed.value ≡ false) }
    ensures whole { OnOk result (file.new.notes.len.value ≡ Some whole) }
    ensures found { OnOk result (file.new.notes.found.value ≡ Some (if file.new.notes.changed.value then 0 else whole)) }
    ensures fits { OnOk result (IfSome file.new.notes.found.value (λ found. (found ≡ 0) ⊎ (found ≡ whole))) }
    ensures fault { IfErr result (IsWhy (string_bytes file.old.notes.path.value) whole) }
    ensures locked { file.new.notes.locked ≡ file.old.notes.locked }
    ensures path { file.new.notes.path ≡ file.old.notes.path }
{
    let Ok(found) = file.len() else {
        return Err(failed(file, whole));
    };
    if found == 0 {
        if file.fill(whole).is_err() {
            return Err(failed(file, whole));
        }
    } else if found != whole {
        return Err(MakeFault::WrongLength {
            found,
            notes: Snapshot::of(&file.notes),
        });
    }
    Ok(())
}

// The fault of a file whose last call failed, and that told no length but 0 or the whole, which is there for contracts.
fn failed(file: &Handle, _whole: u64) -> MakeFault
    requires failed { file.now.notes.last.value.failed ≡ true }
    requires fits { IfSome file.now.notes.found.value (λ found. (found ≡ 0) ⊎ (found ≡ _whole)) }
    requires only_filled { file.now.notes.changed.value ≡ true → (file.now.notes.locked.value ≡ true) × (file.now.notes.found.value ≡ Some 0) }
    ensures fault { IsWhy (string_bytes file.now.notes.path.value) _whole result }
{
    MakeFault::Failed {
        notes: Snapshot::of(&file.notes),
    }
}

// The byte of the file at an offset of a region.
fn place_of(region_len: u64, region: u32, at: u64) -> u64
    requires { region * region_len + at < 2 ^ 64 }
    ensures { result ≡ region * region_len + at }
{
    u64::from(region) * region_len + at
}

impl<R: Files<File = File> + Clone + Drop + Send> LogDisk for FileDisk<R> {
    type Eye = FileEye;

    ghost state = { λ at_path. at_path.disk };

    fn regions(&self) -> u32 {
        self.regions
    }

    fn region_len(&self) -> u64 {
        self.region_len
    }

    /// The file is asked for these bytes, once, and `Failed` says that it failed.
    fn read(&mut self, region: u32, at: u64, out: &mut [u8]) -> Result<(), Failed>
        requires { IsWithin self.old.disk region at (length out.old) }
        ensures reads { Reads region at out.new (IsErr result) self.old.disk self.new.disk }
        ensures asked { self.new.file.last ≡ record { ask = ask.Read (region * self.old.disk.region_len + at) (length out.old); failed = is_err result } }
        ensures same_path { self.new.path ≡ self.old.path }
        ensures same_kept { self.new.kept ≡ self.old.kept }
    {
        let done = self.file.read(place_of(self.region_len, region, at), out);
        self.faults.answer(done)
    }

    /// The file is given these bytes, once, and `Failed` says that it failed.
    fn write(&mut self, region: u32, at: u64, bytes: &[u8]) -> Result<(), DiskRefusal>
        requires within { IsWithin self.old.disk region at (length bytes.now) }
        requires unseen { IsUnseen self.old.disk region }
        ensures begun { result ≢ Err DiskRefusal.NoMemory → Writes region at bytes.now (IsErr result) self.old.disk self.new.disk }
        ensures no_memory { IsErrOf result DiskRefusal.NoMemory → self.new.disk ≡ self.old.disk }
        ensures asked { result ≢ Err DiskRefusal.NoMemory → self.new.file.last ≡ record { ask = ask.Write (region * self.old.disk.region_len + at) (length bytes.now); failed = is_err result } }
        ensures same_path { self.new.path ≡ self.old.path }
        ensures same_kept { self.new.kept ≡ self.old.kept }
    {
        self.unsynced.push(Snapshot::of(&region))?;
        let done = self
            .file
            .write(place_of(self.region_len, region, at), bytes);
        match self.faults.answer(done) {
            Ok(()) => Ok(()),
            Err(Failed) => Err(DiskRefusal::Failed),
        }
    }

    /// The file is asked to sync, once, and `Failed` says that it failed.
    fn sync(&mut self) -> Result<(), Failed>
        ensures ok { OnOk result (Syncs self.old.disk self.new.disk) }
        ensures err { OnErr result (OnlyFails self.old.disk self.new.disk) }
        ensures asked { self.new.file.last ≡ record { ask = ask.Sync; failed = is_err result } }
        ensures same_path { self.new.path ≡ self.old.path }
        ensures same_kept { self.new.kept ≡ self.old.kept }
    {
        let done = self.file.sync();
        if self.faults.answer(done).is_err() {
            return Err(Failed);
        }
        self.unsynced.clear();
        Ok(())
    }

    /// The eye gets the file that came back last from an eye, and no file is asked for anything. Where none is left of these, the
    /// eye's file is opened by the disk's own path. `Failed` says that this failed, or that all numbers are spent. An eye that is
    /// refused leaves all files that came back.
    fn eye(&mut self, regions: &[u32]) -> Result<FileEye, DiskRefusal>
        requires there { All (λ r. r < self.old.disk.regions) regions.now }
        requires synced { All (λ r. Contains self.old.disk.unsynced r → ⊥) regions.now }
        ensures ok { IfOk result (λ opened. Opens regions.now opened.eye self.old.disk self.new.disk) }
        ensures failed { IsErrOf result DiskRefusal.Failed → OnlyFails self.old.disk self.new.disk }
        ensures no_memory { IsErrOf result DiskRefusal.NoMemory → self.new.disk ≡ self.old.disk }
        ensures cause { IsErrOf result DiskRefusal.Failed → (length self.old.disk.given ≡ last_count) ⊎ (self.new.file.last ≡ record { ask = ask.Open; failed = true }) }
        ensures at_path { IfOk result (λ opened. opened.path ≡ self.old.path) }
        ensures same_path { self.new.path ≡ self.old.path }
        ensures opens { self.old.kept ≡ [] → IfOk result (λ opened. (opened.file.last ≡ record { ask = ask.Open; failed = false }) × (self.new.file.last ≡ record { ask = ask.Open; failed = false })) }
        ensures takes { self.old.kept ≢ [] → IfOk result (λ opened. self.old.kept ≡ self.new.kept ++ opened.file ∷ []) }
        ensures not_asked { self.old.kept ≢ [] → self.new.file ≡ self.old.file }
        ensures spent { self.old.kept ≢ [] → IsErrOf result DiskRefusal.Failed → length self.old.disk.given ≡ last_count }
        ensures none_left { self.old.kept ≡ [] → self.new.kept ≡ [] }
        ensures keeps { OnErr result (self.new.kept ≡ self.old.kept) }
    {
        if self.eyes.are_spent() {
            self.faults.count();
            return Err(DiskRefusal::Failed);
        }
        self.eyes.reserve()?;
        let named = Vec::from_slice(self.alloc, regions)?;
        let out = self.eyes.count();
        let taken = self
            .kept
            .take_or_open(&mut self.file, &self.rt, &self.path, out)?;
        let Some(file) = taken else {
            self.faults.count();
            return Err(DiskRefusal::Failed);
        };
        let number = self.eyes.open(&named);
        Ok(FileEye {
            number,
            file,
            disk_regions: self.regions,
            region_len: self.region_len,
            regions: Snapshot::of(&named),
            faults: 0,
            taken: 0,
        })
    }

    /// The eye's file is kept for a later eye, and no file is asked for anything. An eye of another disk may have the number of an
    /// open one; its file is closed where it was opened by another path than the disk's.
    fn close(&mut self, eye: FileEye)
        requires { Any (λ e. e.number ≡ eye.eye.number) self.old.disk.eyes }
        ensures closes { Closes eye.eye self.old.disk self.new.disk }
        ensures not_asked { self.new.file ≡ self.old.file }
        ensures same_path { self.new.path ≡ self.old.path }
        ensures keeps { eye.path ≡ self.old.path → self.new.kept ≡ self.old.kept ++ eye.file ∷ [] }
        ensures other_path { eye.path ≢ self.old.path → self.new.kept ≡ self.old.kept }
    {
        let FileEye {
            number,
            file,
            faults,
            ..
        } = eye;
        self.faults.add(faults);
        self.eyes.close(number);
        self.kept.keep(&self.path, file);
    }
}

/// An eye on a disk in a file. It has its file alone, which was opened for it or came back from an eye before. It tells no bytes,
/// and takes no lock.
#[derive(Drop)]
pub struct FileEye {
    number: u64,
    file: EyeFile,
    disk_regions: u32,
    region_len: u64,
    regions: Snapshot<Vec<u32>>,
    faults: u64,
    taken: u64,
}

impl Model for FileEye {
    ghost use Rattle.std.specs.Prelude.{ℕ, ◌*◌, ◌<◌, ◌^◌, All, None, string_bytes};
    ghost use Rattle.log_disk.specs.FileDisk.{EyeAtPath, IsAtPath, file_of};

    ghost Value = { EyeAtPath };

    ghost view = { λ e. record {
      path = string_bytes e.file.file.notes.path.value;
      file = file_of e.file.file.notes;
      eye = record {
        number = e.number;
        regions = e.regions.value.items;
        region_len = e.region_len;
        told = None;
        faults = e.faults;
        taken = e.taken;
      };
    } };

    ghost invariant = { λ e. (e.disk_regions * e.region_len < 2 ^ 63) × All (λ region. region < e.disk_regions) e.regions.value.items × IsAtPath (string_bytes e.file.path) e.file };
}

impl LogEye for FileEye {
    ghost state = { λ at_path. at_path.eye };

    fn number(&self) -> u64 {
        self.number
    }

    fn read(&mut self, region: u32, at: u64, out: &mut [u8]) -> Result<(), Failed>
        requires named { Contains self.old.eye.regions region }
        requires within { at + length out.old ≤ self.old.eye.region_len }
        ensures looks { Looks region at out.new (IsErr result) self.old.eye self.new.eye }
        ensures asked { self.new.file.last ≡ record { ask = ask.Read (region * self.old.eye.region_len + at) (length out.old); failed = is_err result } }
        ensures same_path { self.new.path ≡ self.old.path }
    {
        self.taken = self.taken.saturating_add(out.len() as u64);
        let done = self
            .file
            .file
            .read(place_of(self.region_len, region, at), out);
        if done.is_err() {
            self.faults = self.faults.saturating_add(1);
            return Err(Failed);
        }
        Ok(())
    }
}
