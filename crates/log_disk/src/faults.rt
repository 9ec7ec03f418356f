//! The counts of faults of a disk.

ghost use Rattle.std.specs.Prelude.{◌≡◌, ◌+◌, ◌≤◌, min, if◌then◌else◌, is_err};
ghost use Rattle.log_disk.specs.Disk.{last_count};

use crate::Failed;
use std::io;

/// How often a call of a disk, or a read of an eye of it that was closed, has failed, and how often a call of its own.
#[derive(Clone, Copy)]
pub struct Faults {
    pub all: u64,
    pub own: u64,
}

impl Faults {
    pub fn none() -> Faults
        ensures all { result.all ≡ 0 }
        ensures own { result.own ≡ 0 }
    {
        Faults { all: 0, own: 0 }
    }

    /// Counts a call of the disk that failed.
    pub fn count(&mut self)
        ensures all { self.new.all ≡ min (self.old.all + 1) last_count }
        ensures own { self.new.own ≡ min (self.old.own + 1) last_count }
    {
        self.all = self.all.saturating_add(1);
        self.own = self.own.saturating_add(1);
    }

    /// Answers for a call on a file of the disk, and counts it where it failed.
    pub fn answer(&mut self, done: io::Result<()>) -> Result<(), Failed>
        ensures answer { is_err result ≡ is_err done }
        ensures all { self.new.all ≡ (if is_err done then min (self.old.all + 1) last_count else self.old.all) }
        ensures own { self.new.own ≡ (if is_err done then min (self.old.own + 1) last_count else self.old.own) }
    {
        match done {
            Ok(()) => Ok(()),
            Err(_) => {
                self.count();
                Err(Failed)
            }
        }
    }

    /// Adds the count of an eye that is closed.
    pub fn add(&mut self, eye: u64)
        ensures all { self.new.all ≡ min (self.old.all + eye) last_count }
        ensures no_lower { self.old.all ≤ self.new.all }
        ensures own { self.new.own ≡ self.old.own }
    {
        self.all = self.all.saturating_add(eye);
    }
}
