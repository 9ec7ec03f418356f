//! What a number was when it was saved.

ghost use Rattle.std.specs.Prelude.{◌≡◌, IfErr, IfSome, OnOk, OnErr, Some, nat_eq};
ghost use Rattle.std.specs.Map.{lookup};
ghost use Rattle.indexmap.specs.IndexMap.{IsUnique};
ghost use Rattle.node_cache.specs.Entries.{restored};
ghost use Rattle.node_cache.specs.Undo.{IsChangedBy};
ghost use Rattle.node_cache.specs.Originals.{is_changed, original_of, made_whole, whole_at, with_change, noted, ChangedAt, Stands};
ghost use Rattle.node_cache.specs.declared.original.Original.TheVariants as original;

use crate::cached::Cached;
use crate::undo::{UndoLog, add_step, rewind};
use fine_model::{Copied, NoMemory};
use indexmap::IndexMap;
use std::alloc::Global;
use std::mem;

/// What a number was when it was saved.
#[derive(Drop)]
pub enum Original {
    /// What was cached then, if anything was.
    Whole(Option<Cached>),
    /// The leaf that was cached then, by what takes back the changes of its pairs since.
    Changed(UndoLog),
}

/// Whether an original is kept by what takes changes back.
fn is_changed(original: &Original) -> bool
    ensures { result ≡ is_changed original.now }
{
    match original {
        Original::Whole(_) => false,
        Original::Changed(_) => true,
    }
}

/// Adds what takes back a change. An original that is kept whole needs nothing. Where memory is wanting, the log comes back.
pub fn add_change(original: &mut Original, undo: UndoLog) -> Result<(), UndoLog>
    ensures ok { OnOk result (original.new ≡ with_change original.old undo) }
    ensures err { OnErr result (original.new ≡ original.old) }
    ensures back { IfErr result (λ back. back ≡ undo) }
{
    match original {
        Original::Whole(_) => Ok(()),
        Original::Changed(known) => {
            let UndoLog {
                original,
                version,
                epoch,
                earlier,
                last,
            } = undo;
            match add_step(known, last) {
                Ok(()) => Ok(()),
                Err(last) => Err(UndoLog {
                    original,
                    version,
                    epoch,
                    earlier,
                    last,
                }),
            }
        }
    }
}

/// Notes what takes back a change of a number's node, which is saved so if it was not. Where memory is wanting, the log comes back.
pub fn note_in(
    saved: &mut IndexMap<u32, Original>,
    number: u32,
    undo: UndoLog,
) -> Result<(), UndoLog>
    ensures ok { OnOk result (saved.new.entries ≡ noted number undo saved.old.entries) }
    ensures unique { IsUnique nat_eq saved.new }
    ensures err { OnErr result (saved.new.entries ≡ saved.old.entries) }
    ensures back { IfErr result (λ back. back ≡ undo) }
{
    if saved.contains_key(&number) {
        return match saved.get_mut(&number) {
            Some(original) => add_change(original, undo),
            None => Ok(()),
        };
    }
    if saved.reserve(1).is_err() {
        return Err(undo);
    }
    match saved.insert(number, Original::Changed(undo)) {
        Ok(_) => Ok(()),
        Err(_) => unreachable!(),
    }
}

/// Keeps an original whole that was kept by what takes changes back.
pub fn make_whole(alloc: Global, kept: &Cached, original: &mut Original) -> Result<(), NoMemory>
    requires { ChangedAt original.old kept.now }
    ensures ok { OnOk result (original.new ≡ made_whole original.old) }
    ensures err { OnErr result (original.new ≡ original.old) }
{
    if !is_changed(original) {
        return Ok(());
    }
    let mut was = kept.copy()?;
    match mem::replace(original, Original::Whole(None)) {
        Original::Whole(whole) => *original = Original::Whole(whole),
        Original::Changed(undo) => {
            rewind(alloc, &mut was, undo);
            *original = Original::Whole(Some(was));
        }
    }
    Ok(())
}

/// Keeps the original of a number whole, so that its node may be changed in any way.
pub fn keep_whole_in(
    nodes: &IndexMap<u32, Cached>,
    saved: &mut IndexMap<u32, Original>,
    number: u32,
) -> Result<(), NoMemory>
    requires stands { IfSome (lookup (nat_eq number) saved.old.entries) (λ original. Stands original (lookup (nat_eq number) nodes.now.entries)) }
    requires unique { IsUnique nat_eq saved.old }
    ensures ok { OnOk result (saved.new.entries ≡ whole_at (nat_eq number) saved.old.entries) }
    ensures unique { IsUnique nat_eq saved.new }
    ensures err { OnErr result (saved.new.entries ≡ saved.old.entries) }
{
    let alloc = *nodes.allocator();
    let Some(kept) = nodes.get(&number) else {
        return Ok(());
    };
    match saved.get_mut(&number) {
        Some(original) => make_whole(alloc, kept, original),
        None => Ok(()),
    }
}

/// Puts a node back as it was saved, or takes it out where it was not cached.
fn restore_whole(nodes: &mut IndexMap<u32, Cached>, number: u32, original: Option<Cached>)
    ensures nodes { nodes.new.entries ≡ restored (nat_eq number) original nodes.old.entries }
    ensures unique { IsUnique nat_eq nodes.new }
{
    match original {
        Some(kept) => {
            if let Some(node) = nodes.get_mut(&number) {
                *node = kept;
            }
        }
        None => {
            nodes.shift_remove(&number);
        }
    }
}

/// Takes back the changes of a node, where it is cached.
fn restore_changed(nodes: &mut IndexMap<u32, Cached>, number: u32, undo: UndoLog)
    requires { IfSome (lookup (nat_eq number) nodes.old.entries) (λ kept. IsChangedBy kept undo) }
    ensures nodes { nodes.new.entries ≡ restored (nat_eq number) (Some undo.original.value) nodes.old.entries }
    ensures unique { IsUnique nat_eq nodes.new }
{
    let alloc = *nodes.allocator();
    if let Some(kept) = nodes.get_mut(&number) {
        rewind(alloc, kept, undo);
    }
}

/// Makes a node what it was when it was saved.
pub fn restore(nodes: &mut IndexMap<u32, Cached>, number: u32, original: Original)
    requires { IfSome (lookup (nat_eq number) nodes.old.entries) (ChangedAt original) }
    ensures nodes { nodes.new.entries ≡ restored (nat_eq number) (original_of original) nodes.old.entries }
    ensures unique { IsUnique nat_eq nodes.new }
{
    match original {
        Original::Whole(whole) => restore_whole(nodes, number, whole),
        Original::Changed(undo) => restore_changed(nodes, number, undo),
    }
}
