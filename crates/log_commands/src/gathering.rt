//! Gathering the pairs of all trees, bucket by bucket.

ghost use Rattle.std.specs.Prelude.{◌≡◌, ◌<◌, ℕ, List, [], IfErr, OnOk, replicate};
ghost use Rattle.fine_model.specs.Map.{from_pairs};
ghost use Rattle.fine_model.specs.RowBytes.{buckets};
ghost use Rattle.fine_model.specs.ScanLaws.{IsSorted};
ghost use Rattle.btree_nodes.specs.Calls.{OnCleanAnswer, Reads};
ghost use Rattle.log_commands.specs.Reading.{Gathers, GathersOne, MeetsUnfit, ReadsAll, behind_keys};

use crate::keys::note_bucket;
use btree_nodes::{TreeFault, scan};
use fine_model::{Bytes, Items, Pairs};
use node_cache::{Bucket, NodeSource};
use std::alloc::Global;

/// How many buckets there are.
const BUCKETS: u16 = 256;

/// One more than the most pairs that are read.
const MOST_PAIRS: u32 = 4_294_967_295;

/// Bytes that stand behind every key: a key has 64 at most.
const BEHIND_KEYS: [u8; 65] = [255; 65];

/// Puts the pairs of a bucket's tree behind those of the buckets before it. The bucket is new, and forgotten again. With 4,294,967,295 pairs or more, which no log
/// has room for, memory counts as run out.
fn gather_in<S: NodeSource>(
    alloc: Global,
    source: &mut S,
    number: u16,
    pairs: &mut Pairs,
) -> Result<(), TreeFault>
    requires number { number < buckets }
    ensures later { S.later source.old source.new }
    ensures clean { OnCleanAnswer result (S.clean source.old source.new) }
    ensures answer { Reads (λ done. GathersOne (S.tells source.old) (S.finds source.old) number pairs.old pairs.new) (λ failed. S.fails source.old failed source.new) (MeetsUnfit (S.tells source.old) (S.finds source.old)) result }
{
    let mut bucket = Bucket::new(alloc, number);
    match scan(source, &mut bucket, &[], &BEHIND_KEYS, MOST_PAIRS, pairs) {
        Ok(()) => {
            note_bucket(&bucket);
            if pairs.len() < MOST_PAIRS as usize {
                Ok(())
            } else {
                Err(TreeFault::NoMemory)
            }
        }
        Err(fault) => Err(fault),
    }
}

/// The pairs of all trees, bucket by bucket.
fn gather_all<S: NodeSource>(alloc: Global, source: &mut S) -> Result<Pairs, TreeFault>
    ensures later { S.later source.old source.new }
    ensures clean { OnCleanAnswer result (S.clean source.old source.new) }
    ensures answer { Reads (λ pairs. Gathers (S.tells source.old) (S.finds source.old) buckets pairs) (λ failed. S.fails source.old failed source.new) (MeetsUnfit (S.tells source.old) (S.finds source.old)) result }
{
    let mut pairs = Items::new(alloc);
    for number in 0..BUCKETS {
        if let Err(fault) = gather_in(alloc, source, number, &mut pairs) {
            return Err(fault);
        }
    }
    Ok(pairs)
}

/// Pairs in the byte order of their keys. It takes no memory.
fn in_order(pairs: Pairs) -> Pairs
    ensures { IsSorted pairs result }
{
    let mut sorted = pairs.into_vec();
    sorted.sort_unstable_by(|a, b| a.0.as_slice().cmp(b.0.as_slice()));
    Items::from_vec(sorted)
}

/// The pairs of all trees, in the byte order of their keys.
pub(crate) fn read_all<S: NodeSource>(alloc: Global, source: &mut S) -> Result<Pairs, TreeFault>
    ensures later { S.later source.old source.new }
    ensures clean { OnCleanAnswer result (S.clean source.old source.new) }
    ensures answer { ReadsAll (S.tells source.old) (S.finds source.old) (λ failed. S.fails source.old failed source.new) result }
{
    match gather_all(alloc, source) {
        Ok(pairs) => Ok(in_order(pairs)),
        Err(fault) => Err(fault),
    }
}
