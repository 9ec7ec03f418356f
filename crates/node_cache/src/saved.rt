//! The originals of the numbers that were saved.

ghost use Rattle.std.specs.Prelude.{◌≡◌, ◌++◌, ◌∷◌, [], ℕ, IfErr, IfSome, OnOk, OnErr, None, cond, is_some, nat_eq};
ghost use Rattle.std.specs.Map.{lookup};
ghost use Rattle.std.specs.Option.{option_to_list};
ghost use Rattle.node_cache.specs.Originals.{noted, whole_at, Stands};
ghost use Rattle.node_cache.specs.Saves.{saved_in, IsOnce};

use crate::cached::Cached;
use crate::original::{Original, add_change, keep_whole_in, make_whole, note_in};
use crate::undo::UndoLog;
use fine_model::NoMemory;
use indexmap::IndexMap;
use std::alloc::Global;

/// The originals of the numbers that were saved, in the order in which they were. The first one lies in the value itself, and the others in a map: most transactions
/// change one node of a bucket, and take no memory to save it.
#[derive(Drop)]
pub struct Saved {
    first: Option<(u32, Original)>,
    others: IndexMap<u32, Original>,
}

impl Saved {
    /// Nothing is saved. It takes no memory.
    pub fn new(alloc: Global) -> Saved
        ensures none { saved_in result ≡ [] }
        ensures once { IsOnce result }
    {
        Saved {
            first: None,
            others: IndexMap::new(alloc),
        }
    }

    /// Whether a number is saved.
    pub fn has(&self, number: u32) -> bool
        ensures { result ≡ is_some (lookup (nat_eq number) (saved_in self.now)) }
    {
        if let Some((first, _original)) = &self.first {
            if number == *first {
                return true;
            }
        }
        self.others.contains_key(&number)
    }

    /// Puts the original of a number that is not saved behind the others.
    pub fn push(&mut self, number: u32, original: Original) -> Result<(), NoMemory>
        requires absent { lookup (nat_eq number) (saved_in self.old) ≡ None }
        requires once { IsOnce self.old }
        ensures ok { OnOk result (saved_in self.new ≡ saved_in self.old ++ (number, original) ∷ []) }
        ensures err { OnErr result (saved_in self.new ≡ saved_in self.old) }
        ensures once { IsOnce self.new }
    {
        if self.first.is_none() && self.others.is_empty() {
            self.first = Some((number, original));
            return Ok(());
        }
        self.others.insert(number, original)?;
        Ok(())
    }

    /// Takes the last one off.
    pub fn pop(&mut self) -> Option<(u32, Original)>
        requires once { IsOnce self.old }
        ensures entries { saved_in self.old ≡ saved_in self.new ++ option_to_list result }
        ensures none { result ≡ None → saved_in self.old ≡ [] }
        ensures finds { IfSome result (λ p. (q : ℕ) → lookup (nat_eq q) (saved_in self.new) ≡ cond (nat_eq p.0 q) None (lookup (nat_eq q) (saved_in self.old))) }
        ensures once { IsOnce self.new }
    {
        match self.others.pop() {
            Some(last) => Some(last),
            None => self.first.take(),
        }
    }

    /// Notes what takes back a change of a number's node, which is saved so if it was not. Where memory is wanting, the log comes back.
    pub fn note(&mut self, number: u32, undo: UndoLog) -> Result<(), UndoLog>
        requires once { IsOnce self.old }
        ensures ok { OnOk result (saved_in self.new ≡ noted number undo (saved_in self.old)) }
        ensures err { OnErr result (saved_in self.new ≡ saved_in self.old) }
        ensures back { IfErr result (λ back. back ≡ undo) }
        ensures once { IsOnce self.new }
    {
        match &mut self.first {
            Some((first, original)) => {
                if number == *first {
                    return add_change(original, undo);
                }
            }
            None => {
                if self.others.is_empty() {
                    self.first = Some((number, Original::Changed(undo)));
                    return Ok(());
                }
            }
        }
        note_in(&mut self.others, number, undo)
    }

    /// Keeps the original of a number whole, so that its node may be changed in any way.
    pub fn keep_whole(&mut self, nodes: &IndexMap<u32, Cached>, number: u32) -> Result<(), NoMemory>
        requires stands { IfSome (lookup (nat_eq number) (saved_in self.old)) (λ original. Stands original (lookup (nat_eq number) nodes.now.entries)) }
        requires once { IsOnce self.old }
        ensures ok { OnOk result (saved_in self.new ≡ whole_at (nat_eq number) (saved_in self.old)) }
        ensures err { OnErr result (saved_in self.new ≡ saved_in self.old) }
        ensures once { IsOnce self.new }
    {
        if let Some((first, original)) = &mut self.first {
            if number == *first {
                return match nodes.get(&number) {
                    Some(kept) => make_whole(*nodes.allocator(), kept, original),
                    None => Ok(()),
                };
            }
        }
        keep_whole_in(nodes, &mut self.others, number)
    }
}
