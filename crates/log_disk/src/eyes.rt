//! The open eyes of a disk.

ghost use Rattle.std.specs.Bool.{OnFalse};
ghost use Rattle.std.specs.Prelude.{length, true, ◌≡◌, ◌+◌, ◌<◌, ◌^◌, ◌++◌, ◌∷◌, [], Any, Contains, OnOk, filter, not, ◌==◌, vec_len, vec_capacity};
ghost use Rattle.log_disk.specs.Disk.{AreNumbered, last_count};
ghost use Rattle.log_disk.specs.Eyes.{eyes_in, numbers_to};

use std::alloc::{AllocError, Global};
use std::snapshot::Snapshot;

/// An eye that is open, by its number. Its regions are there for contracts and take no memory.
#[derive(Drop)]
pub struct OpenEye {
    pub number: u64,
    pub regions: Snapshot<Vec<u32>>,
}

/// The eyes that are open, and how many were opened so far. They are numbered from 1 on.
#[derive(Drop)]
pub struct OpenEyes {
    pub open: Vec<OpenEye>,
    pub given: u64,
}

impl OpenEyes {
    pub fn none(alloc: Global) -> OpenEyes
        ensures eyes { eyes_in result ≡ [] }
        ensures given { result.given ≡ 0 }
        ensures numbered { AreNumbered (eyes_in result) (numbers_to result.given) }
    {
        OpenEyes {
            open: Vec::new(alloc),
            given: 0,
        }
    }

    /// Whether all numbers of 64 bits were given.
    pub fn are_spent(&self) -> bool
        ensures spent { result ≡ (length (numbers_to self.now.given) == last_count) }
        ensures all { result ≡ true → length (numbers_to self.now.given) ≡ last_count }
        ensures left { OnFalse result (self.now.given + 1 < 2 ^ 64) }
    {
        self.given == u64::MAX
    }

    /// How many are open, where there is room for one more.
    pub fn count(&self) -> usize
        requires room { vec_len self.now.open < vec_capacity self.now.open }
        ensures count { result ≡ length (eyes_in self.now) }
        ensures fits { result + 1 < 2 ^ 64 }
    {
        self.open.len()
    }

    /// Makes room for one more.
    pub fn reserve(&mut self) -> Result<(), AllocError>
        ensures eyes { eyes_in self.new ≡ eyes_in self.old }
        ensures given { self.new.given ≡ self.old.given }
        ensures room { OnOk result (vec_len self.new.open < vec_capacity self.new.open) }
    {
        self.open.reserve(1)
    }

    /// Gives the next number to an eye on some regions. There is room.
    pub fn open(&mut self, regions: &Vec<u32>) -> u64
        requires room { vec_len self.old.open < vec_capacity self.old.open }
        requires left { self.old.given + 1 < 2 ^ 64 }
        requires numbered { AreNumbered (eyes_in self.old) (numbers_to self.old.given) }
        ensures number { result ≡ self.old.given + 1 }
        ensures is_new { Contains (numbers_to self.old.given) result → ⊥ }
        ensures numbers { numbers_to self.new.given ≡ numbers_to self.old.given ++ result ∷ [] }
        ensures given { self.new.given ≡ self.old.given + 1 }
        ensures eyes { eyes_in self.new ≡ eyes_in self.old ++ record { number = result; regions = regions.now.items } ∷ [] }
        ensures numbered { AreNumbered (eyes_in self.new) (numbers_to self.new.given) }
    {
        self.given += 1;
        self.open.push_reserved(OpenEye {
            number: self.given,
            regions: Snapshot::of(regions),
        });
        self.given
    }

    /// Takes the eye of a number off.
    pub fn close(&mut self, number: u64)
        requires numbered { AreNumbered (eyes_in self.old) (numbers_to self.old.given) }
        ensures given { self.new.given ≡ self.old.given }
        ensures eyes { eyes_in self.new ≡ filter (λ eye. not (eye.number == number)) (eyes_in self.old) }
        ensures fewer { Any (λ eye. eye.number ≡ number) (eyes_in self.old) → length (eyes_in self.new) < length (eyes_in self.old) }
        ensures numbered { AreNumbered (eyes_in self.new) (numbers_to self.new.given) }
    {
        self.open.retain(|eye| eye.number != number);
    }
}
