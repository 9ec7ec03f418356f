//! The file of a disk. Each call of the library on it stands here, alone in a function.
//!
//! A handle keeps notes for contracts of what its file was asked and what it told, which take no memory. That the system
//! then does what it was asked, and fails only where the device does, no contract can say.

ghost use Rattle.std.specs.Prelude.{◌≡◌, true, false, length, Some, None, IfOk, IfErr, OnOk, is_err};
ghost use Rattle.log_disk.specs.declared.file.handle.FileAsk.TheVariants as ask;

use std::fs::{File, Files, OpenOptions};
use std::io;
use std::os::unix::fs::FileExt;
use std::snapshot::Snapshot;

/// What a file is asked for.
#[derive(Clone, Copy)]
pub enum FileAsk {
    Open,
    Lock,
    Len,
    Fill { len: u64 },
    Read { from: u64, len: usize },
    Write { from: u64, len: usize },
    Sync,
}

/// A call on a file, and whether it failed.
#[derive(Clone, Copy)]
pub struct FileCall {
    pub ask: FileAsk,
    pub failed: bool,
}

/// What contracts know of a file: the path by which it was opened, whether its lock is held, its length as it was told last,
/// its length as it was told or set last, whether it was asked to change, and what it was asked last. Only this module writes them.
#[derive(Drop)]
pub struct FileNotes {
    path: Snapshot<String>,
    locked: Snapshot<bool>,
    found: Snapshot<Option<u64>>,
    len: Snapshot<Option<u64>>,
    changed: Snapshot<bool>,
    last: Snapshot<FileCall>,
}

impl FileNotes {
    // The file at a path as it is opened.
    fn opened(path: &String, failed: bool) -> FileNotes
        ensures path { result.path.value ≡ path.now }
        ensures fresh { (result.found.value ≡ None) × (result.changed.value ≡ false) }
        ensures last { result.last.value ≡ record { ask = ask.Open; failed = failed } }
    {
        FileNotes {
            path: Snapshot::of(path),
            locked: Snapshot::of(&false),
            found: Snapshot::of(&None),
            len: Snapshot::of(&None),
            changed: Snapshot::of(&false),
            last: Handle::call(FileAsk::Open, failed),
        }
    }
}

/// An open file.
#[derive(Drop)]
pub(crate) struct Handle {
    pub(crate) file: File,
    pub(crate) notes: FileNotes,
}

impl Handle {
    /// Opens the file at a path to be read, and, where it is the disk's own, to be written and made.
    pub(crate) fn open<R: Files<File = File>>(
        rt: &R,
        path: &String,
        is_own: bool,
    ) -> Result<Handle, Snapshot<FileNotes>>
        ensures path { IfOk result (λ file. file.notes.path.value ≡ path.now) }
        ensures fresh { IfOk result (λ file. (file.notes.found.value ≡ None) × (file.notes.changed.value ≡ false)) }
        ensures last { IfOk result (λ file. file.notes.last.value ≡ record { ask = ask.Open; failed = false }) }
        ensures err_path { IfErr result (λ notes. notes.value.path.value ≡ path.now) }
        ensures err_fresh { IfErr result (λ notes. (notes.value.found.value ≡ None) × (notes.value.changed.value ≡ false)) }
        ensures err_last { IfErr result (λ notes. notes.value.last.value ≡ record { ask = ask.Open; failed = true }) }
    {
        let mut options = OpenOptions::new();
        options.read(true).write(is_own).create(is_own);
        match options.open(rt, path.as_str()) {
            Ok(file) => Ok(Handle {
                file,
                notes: FileNotes::opened(path, false),
            }),
            Err(_) => Err(Snapshot::of(&FileNotes::opened(path, true))),
        }
    }

    /// Opens the file at a path once more, to be read.
    pub(crate) fn open_again<R: Files<File = File>>(
        &mut self,
        rt: &R,
        path: &String,
    ) -> Result<Handle, Snapshot<FileNotes>>
        ensures opened { IfOk result (λ file. file.notes.path.value ≡ path.now) }
        ensures fresh { IfOk result (λ file. file.notes.last.value ≡ record { ask = ask.Open; failed = false }) }
        ensures last { self.new.notes.last.value ≡ record { ask = ask.Open; failed = is_err result } }
        ensures locked { self.new.notes.locked ≡ self.old.notes.locked }
        ensures path { self.new.notes.path ≡ self.old.notes.path }
    {
        let opened = Handle::open(rt, path, false);
        self.notes.last = Handle::call(FileAsk::Open, opened.is_err());
        opened
    }

    /// Takes the exclusive lock, which lasts as long as the handle. It fails where another handle has it, also one of this
    /// process.
    pub(crate) fn lock(&mut self) -> io::Result<()>
        ensures locked { OnOk result (self.new.notes.locked.value ≡ true) }
        ensures found { self.new.notes.found ≡ self.old.notes.found }
        ensures changed { self.new.notes.changed ≡ self.old.notes.changed }
        ensures last { self.new.notes.last.value ≡ record { ask = ask.Lock; failed = is_err result } }
        ensures path { self.new.notes.path ≡ self.old.notes.path }
    {
        let done = self.file.try_lock();
        self.notes.last = Handle::call(FileAsk::Lock, done.is_err());
        done?;
        self.notes.locked = Snapshot::of(&true);
        Ok(())
    }

    /// The file's length.
    pub(crate) fn len(&mut self) -> io::Result<u64>
        ensures len { IfOk result (λ len. self.new.notes.len.value ≡ Some len) }
        ensures found { IfOk result (λ len. self.new.notes.found.value ≡ Some len) }
        ensures not_found { IfErr result (λ _. self.new.notes.found ≡ self.old.notes.found) }
        ensures changed { self.new.notes.changed ≡ self.old.notes.changed }
        ensures last { self.new.notes.last.value ≡ record { ask = ask.Len; failed = is_err result } }
        ensures locked { self.new.notes.locked ≡ self.old.notes.locked }
        ensures path { self.new.notes.path ≡ self.old.notes.path }
    {
        let found = self.file.metadata();
        self.notes.last = Handle::call(FileAsk::Len, found.is_err());
        let len = found?.len();
        self.notes.found = Snapshot::of(&Some(len));
        self.notes.len = Snapshot::of(&Some(len));
        Ok(len)
    }

    /// Fills an empty file with zeros up to a length. No other process has the file, and it was found empty last: so no call
    /// cuts or wipes a log.
    pub(crate) fn fill(&mut self, len: u64) -> io::Result<()>
        requires locked { self.old.notes.locked.value ≡ true }
        requires is_empty { self.old.notes.len.value ≡ Some 0 }
        ensures len { OnOk result (self.new.notes.len.value ≡ Some len) }
        ensures found { self.new.notes.found ≡ self.old.notes.found }
        ensures changed { self.new.notes.changed.value ≡ true }
        ensures last { self.new.notes.last.value ≡ record { ask = ask.Fill len; failed = is_err result } }
        ensures locked { self.new.notes.locked ≡ self.old.notes.locked }
        ensures path { self.new.notes.path ≡ self.old.notes.path }
    {
        let done = self.file.set_len(len);
        self.notes.changed = Snapshot::of(&true);
        self.notes.last = Handle::call(FileAsk::Fill { len }, done.is_err());
        done?;
        self.notes.len = Snapshot::of(&Some(len));
        Ok(())
    }

    /// Reads the bytes from a place of the file on.
    pub(crate) fn read(&mut self, from: u64, out: &mut [u8]) -> io::Result<()>
        ensures last { self.new.notes.last.value ≡ record { ask = ask.Read from (length out.old); failed = is_err result } }
        ensures locked { self.new.notes.locked ≡ self.old.notes.locked }
        ensures path { self.new.notes.path ≡ self.old.notes.path }
    {
        let len = out.len();
        let done = self.file.read_exact_at(out, from);
        self.notes.last = Handle::call(FileAsk::Read { from, len }, done.is_err());
        done
    }

    /// Writes bytes from a place of the file on. No other process has the file.
    pub(crate) fn write(&mut self, from: u64, bytes: &[u8]) -> io::Result<()>
        requires locked { self.old.notes.locked.value ≡ true }
        ensures last { self.new.notes.last.value ≡ record { ask = ask.Write from (length bytes.now); failed = is_err result } }
        ensures changed { self.new.notes.changed.value ≡ true }
        ensures locked { self.new.notes.locked ≡ self.old.notes.locked }
        ensures path { self.new.notes.path ≡ self.old.notes.path }
    {
        let len = bytes.len();
        let done = self.file.write_all_at(bytes, from);
        self.notes.changed = Snapshot::of(&true);
        self.notes.last = Handle::call(FileAsk::Write { from, len }, done.is_err());
        done
    }

    /// Syncs the bytes of the file, with what of its length and of its places on the medium is needed to read them (`fdatasync`). Its times are none of that: a sync that
    /// wrote them too would wait for the file system's journal at each call, also where nothing was written but a file was read.
    pub(crate) fn sync(&mut self) -> io::Result<()>
        ensures last { self.new.notes.last.value ≡ record { ask = ask.Sync; failed = is_err result } }
        ensures len { self.new.notes.len ≡ self.old.notes.len }
        ensures found { self.new.notes.found ≡ self.old.notes.found }
        ensures changed { self.new.notes.changed ≡ self.old.notes.changed }
        ensures locked { self.new.notes.locked ≡ self.old.notes.locked }
        ensures path { self.new.notes.path ≡ self.old.notes.path }
    {
        let done = self.file.sync_data();
        self.notes.last = Handle::call(FileAsk::Sync, done.is_err());
        done
    }

    fn call(ask: FileAsk, failed: bool) -> Snapshot<FileCall>
        ensures { result.value ≡ record { ask = ask; failed = failed } }
    {
        Snapshot::of(&FileCall { ask, failed })
    }
}
