//! The files of a disk's eyes. One that came back is kept for a later eye.

ghost use Rattle.std.specs.Prelude.{◌≡◌, ◌≢◌, ◌+◌, ◌<◌, ◌≤◌, ◌^◌, ◌++◌, ◌∷◌, [], All, None, IfOk, IfSome, OnErr, false, is_none, string_bytes, vec_len, vec_capacity};
ghost use Rattle.log_disk.specs.declared.file.handle.FileAsk.TheVariants as ask;
ghost use Rattle.log_disk.specs.FileDisk.{HasPlaces, IsAtPath, file_of, kept_in};

use super::handle::Handle;
use std::alloc::{AllocError, Global};
use std::fs::{File, Files};

/// A file that was opened for an eye, with the path by which it was opened.
#[derive(Drop)]
pub(crate) struct EyeFile {
    pub(crate) path: String,
    pub(crate) file: Handle,
}

impl EyeFile {
    // Opens the file at the path of a disk once more. None says that this failed.
    fn open<R: Files<File = File>>(
        own: &mut Handle,
        rt: &R,
        alloc: Global,
        path: &String,
    ) -> Result<Option<EyeFile>, AllocError>
        ensures at_path { IfOk result (λ opened. IfSome opened (IsAtPath (string_bytes path.now))) }
        ensures fresh { IfOk result (λ opened. IfSome opened (λ file. file.file.notes.last.value ≡ record { ask = ask.Open; failed = false })) }
        ensures asked { IfOk result (λ opened. own.new.notes.last.value ≡ record { ask = ask.Open; failed = is_none opened }) }
        ensures locked { own.new.notes.locked ≡ own.old.notes.locked }
        ensures path { own.new.notes.path ≡ own.old.notes.path }
    {
        let path = String::from_str(alloc, path.as_str())?;
        match own.open_again(rt, &path) {
            Ok(file) => Ok(Some(EyeFile { path, file })),
            Err(_) => Ok(None),
        }
    }
}

/// The files that came back from eyes, the last one last. They have places for the files of all eyes that are out.
#[derive(Drop)]
pub(crate) struct KeptFiles {
    pub(crate) files: Vec<EyeFile>,
}

impl KeptFiles {
    pub(crate) fn none(alloc: Global) -> KeptFiles
        ensures kept { kept_in result ≡ [] }
        ensures at_path { (path : _) → All (IsAtPath path) result.files.items }
        ensures places { HasPlaces 0 result }
    {
        KeptFiles {
            files: Vec::new(alloc),
        }
    }

    /// Takes the file that came back last. Where none is there, it opens one by the disk's path, and makes a place for it
    /// beside those for `out` others; None says that the file could not be opened.
    pub(crate) fn take_or_open<R: Files<File = File>>(
        &mut self,
        own: &mut Handle,
        rt: &R,
        path: &String,
        out: usize,
    ) -> Result<Option<EyeFile>, AllocError>
        requires at_path { All (IsAtPath (string_bytes path.now)) self.old.files.items }
        requires places { HasPlaces out self.old }
        requires fits { out + 1 < 2 ^ 64 }
        ensures at_path { All (IsAtPath (string_bytes path.now)) self.new.files.items }
        ensures places { HasPlaces out self.new }
        ensures one_more { IfOk result (λ taken. IfSome taken (λ _. HasPlaces (out + 1) self.new)) }
        ensures file_at_path { IfOk result (λ taken. IfSome taken (IsAtPath (string_bytes path.now))) }
        ensures takes { kept_in self.old ≢ [] → IfOk result (λ taken. IfSome taken (λ file. kept_in self.old ≡ kept_in self.new ++ file_of file.file.notes ∷ [])) }
        ensures there { kept_in self.old ≢ [] → IfOk result (λ taken. taken ≢ None) × (OnErr result ⊥) }
        ensures not_asked { kept_in self.old ≢ [] → own.new.notes ≡ own.old.notes }
        ensures asked { kept_in self.old ≡ [] → IfOk result (λ taken. own.new.notes.last.value ≡ record { ask = ask.Open; failed = is_none taken }) }
        ensures fresh { kept_in self.old ≡ [] → IfOk result (λ taken. IfSome taken (λ file. file.file.notes.last.value ≡ record { ask = ask.Open; failed = false })) }
        ensures none_left { kept_in self.old ≡ [] → kept_in self.new ≡ [] }
        ensures locked { own.new.notes.locked ≡ own.old.notes.locked }
        ensures path { own.new.notes.path ≡ own.old.notes.path }
    {
        if let Some(file) = self.files.pop() {
            return Ok(Some(file));
        }
        self.files.reserve(out + 1)?;
        EyeFile::open(own, rt, *self.files.allocator(), path)
    }

    /// Keeps the file of an eye that came back, for which there is a place. A file that was opened by another path than the
    /// disk's is closed.
    pub(crate) fn keep(&mut self, path: &String, file: EyeFile)
        requires at_path { All (IsAtPath (string_bytes path.now)) self.old.files.items }
        requires place { HasPlaces 1 self.old }
        requires opened { IsAtPath (string_bytes file.path) file }
        ensures at_path { All (IsAtPath (string_bytes path.now)) self.new.files.items }
        ensures places { (out : _) → HasPlaces (out + 1) self.old → HasPlaces out self.new }
        ensures kept { string_bytes file.path ≡ string_bytes path.now → kept_in self.new ≡ kept_in self.old ++ file_of file.file.notes ∷ [] }
        ensures closed { string_bytes file.path ≢ string_bytes path.now → kept_in self.new ≡ kept_in self.old }
    {
        if file.path == *path {
            self.files.push_reserved(file);
        }
    }
}
