//! The nodes of one bucket that are kept in memory, in the order of their last use, and what a transaction needs to take back
//! its changes of them.
#![tactic(auto)]

ghost use Rattle.std.specs.Prelude.{◌≡◌, ◌≢◌, ℕ, ◌<◌, ◌≤◌, ◌-◌, length, nat_eq, nat_le, nat_lt, not, ◌&&◌, if◌then◌else◌, [], map, IfOk, OnOk, OnErr, IfSome, IsSome, Some, is_some, option_copied, count_by};
ghost use Rattle.std.specs.List.{filter_map};
ghost use Rattle.std.specs.Bool.{OnTrue, OnFalse};
ghost use Rattle.fine_model.specs.RowBytes.{FitsRec, greatest};
ghost use Rattle.indexmap.specs.IndexMap.{IsUnique};
ghost use Rattle.node_cache.specs.Entries.{as_saved, stamped_at, settled_entry, is_published, without_first};
ghost use Rattle.node_cache.specs.Originals.{originals, IsKept};
ghost use Rattle.node_cache.specs.Saves.{saved_in, IsOnce};
ghost use Rattle.node_cache.specs.Marked.{AreMarked};
ghost use Rattle.std.specs.Borrow.{sem};

use changing::change_pair;
use fine_model::{BucketLaw, Copied, NoMemory, Row};
use indexmap::IndexMap;
use marks::Marks;
use std::alloc::Global;
use std::marker::Model;

mod cached;
mod changing;
mod marks;
mod original;
mod pairs;
mod recent;
mod saved;
mod source;
mod undo;

pub use cached::Cached;
use original::{Original, restore};
use recent::{look_up, place_of};
use saved::Saved;
pub use source::NodeSource;

/// The cached nodes of a bucket by number, the least recently used first, and the originals of those that were saved.
///
/// A number is saved before its first change in a transaction. `undo` then takes the changes back, and `settle` keeps them. Beside
/// its nodes a bucket keeps of which cached leaves it is known that all their keys are of the bucket, which shows in no clause but
/// that of `has_own_keys`.
#[derive(Drop)]
pub struct Bucket {
    bucket: u16,
    nodes: IndexMap<u32, Cached>,
    saved: Saved,
    marks: Marks,
}

impl Model for Bucket {
    ghost use Rattle.node_cache.specs.Cache.{Cache};
    ghost use Rattle.node_cache.specs.Originals.{originals};
    ghost use Rattle.node_cache.specs.Saves.{saved_in};
    ghost use Rattle.node_cache.specs.Marked.{IsInside};
    ghost use Rattle.node_cache.specs.Codes.{cache_code};

    ghost Value = { Cache };

    ghost coded = { cache_code };

    ghost view = { λ b. record { bucket = b.bucket; nodes = b.nodes.entries; saved = originals (saved_in b.saved) } };

    ghost invariant = { λ b. IsInside b.bucket b.nodes.entries b.saved b.marks };
}

impl BucketLaw for Bucket {
    ghost use Rattle.node_cache.specs.Cache.{kept_at, IsResting};

    ghost bucket = { λ b. b.bucket };

    ghost cached = { kept_at };

    ghost is_settled = { IsResting };
}

impl Bucket {
    ghost use Rattle.node_cache.specs.Cache.{Cache, IsCache, cached, original, before, after, IsSaved, IsResting, touched, with_node, saving, undone, settled, evicted};
    ghost use Rattle.node_cache.specs.Changing.{changes_cached, IsPairChange};
    ghost use Rattle.node_cache.specs.Lent.{EndsTouched, LendsNode};
    ghost use Rattle.node_cache.specs.Marked.{HasOwnKeys};

    /// A bucket that caches nothing, of this number. It takes no memory.
    pub fn new(alloc: Global, bucket: u16) -> Bucket
        ensures { result ≡ record { bucket = bucket; nodes = []; saved = [] } }
    {
        Bucket {
            bucket,
            nodes: IndexMap::new(alloc),
            saved: Saved::new(alloc),
            marks: Marks::new(alloc),
        }
    }

    /// The bucket's number.
    pub fn bucket(&self) -> u16
        ensures { result ≡ self.now.bucket }
    {
        self.bucket
    }

    /// How many nodes are cached. It also tells what holds of every bucket.
    pub fn len(&self) -> usize
        ensures count { result ≡ length self.now.nodes }
        ensures whole { IsCache self.now.nodes self.now.saved }
    {
        self.nodes.len()
    }

    /// What is cached of a number, with the order of last use as it was. None exactly where nothing is. It takes no memory.
    pub fn peek(&self, number: u32) -> Option<&Cached>
        ensures { option_copied result ≡ cached self.now number }
    {
        look_up(&self.nodes, number)
    }

    /// Whether it is known that all keys of the leaf that is cached of a number are of this bucket: only where `note_own_keys` noted it and
    /// no call was asked to change the leaf since.
    pub fn has_own_keys(&self, number: u32) -> bool
        ensures { OnTrue result (IfSome (cached self.now number) (λ kept. HasOwnKeys self.now.bucket kept.node)) }
    {
        self.marks.has(number)
    }

    /// Notes that all keys of the leaf that is cached of a number are of this bucket. Where memory is wanting it is not noted.
    pub fn note_own_keys(&mut self, number: u32)
        requires { IfSome (cached self.old number) (λ kept. HasOwnKeys self.old.bucket kept.node) }
        ensures { self.new ≡ self.old }
    {
        self.marks.add(number);
    }

    /// Makes a number the last used, and answers whether it is cached. It takes no memory.
    pub fn touch(&mut self, number: u32) -> bool
        ensures there { result ≡ is_some (cached self.old number) }
        ensures nodes { self.new ≡ touched self.old number }
        ensures same { (n : ℕ) → cached self.new n ≡ cached self.old n }
    {
        match place_of(&self.nodes, number) {
            Some(i) => {
                let last = self.nodes.len() - 1;
                self.nodes.move_index(i, last);
                true
            }
            None => false,
        }
    }

    /// What is cached of a number, which becomes the last used. None exactly where nothing is. It takes no memory.
    pub fn get(&mut self, number: u32) -> Option<&Cached>
        ensures value { option_copied result ≡ cached self.old number }
        ensures* touches { sem 𝓛 (EndsTouched self.entry number) }
    {
        if self.touch(number) {
            look_up(&self.nodes, number)
        } else {
            None
        }
    }

    /// Caches a node under a number, which becomes the last used, in place of what was cached there. `NoMemory` is the only refusal,
    /// and leaves the bucket as it was.
    pub fn put(&mut self, number: u32, kept: Cached) -> Result<(), NoMemory>
        ensures nodes { OnOk result (self.new ≡ with_node self.old number kept) }
        ensures here { OnOk result (cached self.new number ≡ Some kept) }
        ensures elsewhere { OnOk result ((n : ℕ) → n ≢ number → cached self.new n ≡ cached self.old n) }
        ensures err { OnErr result (self.new ≡ self.old) }
    {
        self.saved.keep_whole(&self.nodes, number)?;
        self.marks.take(number);
        self.nodes.insert(number, kept)?;
        self.touch(number);
        Ok(())
    }

    /// Keeps what is cached of a number, or that nothing is, until `undo` or `settle`. A number that was saved already stays as it
    /// was saved. `NoMemory` is the only refusal, and leaves the bucket as it was.
    pub fn save(&mut self, number: u32) -> Result<(), NoMemory>
        ensures saved { OnOk result (self.new ≡ saving self.old number) }
        ensures here { OnOk result (IsSaved self.new number) }
        ensures before { (n : ℕ) → before self.new n ≡ before self.old n }
        ensures err { OnErr result (self.new ≡ self.old) }
    {
        if self.saved.has(number) {
            return Ok(());
        }
        let original = copy_of(self.nodes.get(&number))?;
        self.saved.push(number, Original::Whole(original))?;
        Ok(())
    }

    /// A cached node that was saved, to change in its place, with the order of last use as it was. `NoMemory` is the only refusal. It
    /// comes only where the node was saved by the changes of its pairs, so that its original has to be copied first, and leaves the
    /// bucket as it was.
    pub fn get_mut(&mut self, number: u32) -> Result<&mut Cached, NoMemory>
        requires saved { IsSaved self.old number }
        requires there { IsSome (cached self.old number) }
        ensures value { IfOk result (λ kept. cached self.old number ≡ Some kept.now) }
        ensures* writes_back { sem 𝓛 (LendsNode self.entry number result) }
    {
        self.saved.keep_whole(&self.nodes, number)?;
        self.marks.take(number);
        match self.nodes.get_mut(&number) {
            Some(kept) => Ok(kept),
            None => Err(NoMemory),
        }
    }

    /// Does to a cached leaf what a row says that sets or removes one of its pairs, or cuts pairs off, with the order of last use as it
    /// was. Answers whether it did: false exactly where no leaf is cached of the number, the row is not its next version, or is no `Put`,
    /// `Del` or `CutLeaf`, the key of a `Del` is not in the leaf, or that of a `Put` is not and the leaf is full; the bucket is then as it
    /// was. A number that was not saved is saved, at the cost of the pair and not of the node; pairs that are cut off are moved and not
    /// copied. `NoMemory` is the only refusal, and leaves the bucket as it was.
    pub fn change_pair(&mut self, row: &Row) -> Result<bool, NoMemory>
        requires rec { FitsRec row.now.rec }
        requires version { row.now.version ≤ greatest }
        ensures done { IfOk result (λ done. done ≡ changes_cached (cached self.old row.now.node.number) row.now) }
        ensures changed { IfOk result (λ done. OnTrue done (IsPairChange self.old self.new row.now)) }
        ensures before { (n : ℕ) → before self.new n ≡ before self.old n }
        ensures same { IfOk result (λ done. OnFalse done (self.new ≡ self.old)) }
        ensures err { OnErr result (self.new ≡ self.old) }
    {
        self.marks.take(row.node.number);
        change_pair(&mut self.nodes, &mut self.saved, row)
    }

    /// Takes back all that was done since numbers were saved: each is cached as it was saved, in its place, or is not cached where
    /// it was not. Nothing is saved then. It takes no memory.
    pub fn undo(&mut self)
        ensures nodes { self.new ≡ undone self.old }
        ensures restored { (n : ℕ) → cached self.new n ≡ before self.old n }
    {
        restore_all(&mut self.nodes, &mut self.saved, &mut self.marks);
        // The memory of many originals is given back: the next transaction, mostly of another bucket, then has memory that was used just now.
        self.saved = Saved::new(*self.nodes.allocator());
    }

    /// Keeps all that was done since numbers were saved: each of these nodes has this epoch, and what was saved is forgotten. It
    /// takes no memory.
    pub fn settle(&mut self, epoch: u64)
        ensures nodes { self.new ≡ settled epoch self.old }
        ensures stamped { (n : ℕ) → cached self.new n ≡ after self.old epoch n }
    {
        stamp_all(&mut self.nodes, &mut self.saved, epoch);
        // As in `undo`.
        self.saved = Saved::new(*self.nodes.allocator());
    }

    /// Removes nodes whose epoch is at most `published`, the least recently used first, until at most `keep` of these are left. All
    /// others stay, in their order. It takes no memory.
    pub fn evict(&mut self, published: u64, keep: usize)
        requires { IsResting self.old }
        ensures nodes { self.new ≡ evicted published keep self.old }
        ensures kept { (n : ℕ) → IfSome (cached self.old n) (λ kept. published < kept.epoch → cached self.new n ≡ Some kept) }
        ensures same { (n : ℕ) → IfSome (cached self.new n) (λ kept. cached self.old n ≡ Some kept) }
        ensures few { count_by (is_published published) self.new.nodes ≤ keep }
    {
        let surplus = surplus_of(&self.nodes, published, keep);
        if surplus > 0 {
            remove_first(&mut self.nodes, published, surplus);
        }
    }
}

/// A copy of a node, where there is one.
fn copy_of(kept: Option<&Cached>) -> Result<Option<Cached>, NoMemory>
    ensures { IfOk result (λ copy. copy ≡ option_copied kept.entry) }
{
    match kept {
        Some(kept) => Ok(Some(kept.copy()?)),
        None => Ok(None),
    }
}

/// Puts each node back as it was saved, and takes its mark away.
fn restore_all(nodes: &mut IndexMap<u32, Cached>, saved: &mut Saved, marks: &mut Marks)
    requires kept { IsKept nodes.old.entries (saved_in saved.old) }
    requires once { IsOnce saved.old }
    ensures nodes { nodes.new.entries ≡ filter_map (as_saved (originals (saved_in saved.old))) nodes.old.entries }
    ensures unique { IsUnique nat_eq nodes.new }
    ensures saved { saved_in saved.new ≡ [] }
    ensures marks { (bucket : ℕ) → AreMarked bucket marks.old nodes.old.entries → AreMarked bucket marks.new nodes.new.entries }
{
    while let Some((number, original)) = saved.pop() {
        marks.take(number);
        restore(nodes, number, original);
    }
}

/// Gives a node an epoch, where it is cached.
fn stamp(nodes: &mut IndexMap<u32, Cached>, number: u32, epoch: u64)
    ensures nodes { nodes.new.entries ≡ stamped_at (nat_eq number) epoch nodes.old.entries }
    ensures unique { IsUnique nat_eq nodes.new }
{
    if let Some(node) = nodes.get_mut(&number) {
        node.epoch = epoch;
    }
}

/// Gives each node that was saved an epoch.
fn stamp_all(nodes: &mut IndexMap<u32, Cached>, saved: &mut Saved, epoch: u64)
    requires unique { IsUnique nat_eq nodes.old }
    requires once { IsOnce saved.old }
    ensures nodes { nodes.new.entries ≡ map (settled_entry epoch (originals (saved_in saved.old))) nodes.old.entries }
    ensures unique { IsUnique nat_eq nodes.new }
    ensures saved { saved_in saved.new ≡ [] }
{
    while let Some((number, original)) = saved.pop() {
        drop(original);
        stamp(nodes, number, epoch);
    }
}

/// How many nodes are published.
fn count_published(nodes: &IndexMap<u32, Cached>, published: u64) -> usize
    ensures { result ≡ count_by (is_published published) nodes.now.entries }
{
    let mut count = 0;
    for (_number, kept) in nodes.iter() {
        if kept.epoch <= published {
            count += 1;
        }
    }
    count
}

/// How many nodes are published above `keep`. Where so many are not cached at all, none is looked at.
fn surplus_of(nodes: &IndexMap<u32, Cached>, published: u64, keep: usize) -> usize
    ensures { result ≡ count_by (is_published published) nodes.now.entries - keep }
{
    if nodes.len() <= keep {
        return 0;
    }
    count_published(nodes, published).saturating_sub(keep)
}

/// Removes the first `surplus` of the nodes that are published.
fn remove_first(nodes: &mut IndexMap<u32, Cached>, published: u64, surplus: usize)
    ensures nodes { nodes.new.entries ≡ without_first published surplus nodes.old.entries }
    ensures unique { IsUnique nat_eq nodes.new }
{
    let mut left = surplus;
    nodes.retain(
        move |_number: &u32, kept: &mut Cached| -> bool
            ensures answer { result ≡ not (nat_le kept.old.epoch published && nat_lt 0 left.entry) }
            ensures same { kept.new ≡ kept.old }
            ensures left { left.exit ≡ (if nat_le kept.old.epoch published && nat_lt 0 left.entry then left.entry - 1 else left.entry) }
        {
            let goes = kept.epoch <= published && left > 0;
            if goes {
                left -= 1;
            }
            !goes
        },
    );
}
