//! The regions of parts, and those beside them.

ghost use Rattle.std.specs.Prelude.{◌≡◌, ◌<◌, ◌^◌, ◌≤◌, ◌++◌, ◌==◌, not, ◌&&◌, if◌then◌else◌, nat_eq, nat_le, map, find, length, sum_by, take, drop, slice_get, IfOk, OnOk};
ghost use Rattle.std.specs.List.{AllByRecursion, list_any};
ghost use Rattle.fine_model.specs.RowBytes.{most_in_log};
ghost use Rattle.fine_model.specs.Chain.{regions_of, chain_end};
ghost use Rattle.epoch_room.specs.Fitting.{one_taken};
ghost use Rattle.epoch_room.specs.Value.{all_regions, regions_outside};
ghost use Rattle.epoch_room.specs.Whole.{HasRegions};

use fine_model::{Job, NoMemory, Part, Parts};
use partition_hold::RegionSet;
use std::alloc::Global;

/// Whether a region is among the first entries of a header.
fn is_among(more: &[u32], entries: usize, region: u32) -> bool
    ensures { result ≡ list_any (nat_eq region) (take entries more.now) }
{
    more.iter().take(entries).any(|entry| region == *entry)
}

/// Whether a region is one of a part.
fn has_region(part: &Part, region: u32) -> bool
    ensures { result ≡ list_any (nat_eq region) (regions_of part.now) }
{
    let behind = usize::from(part.header.regions).saturating_sub(1);
    region == part.region || is_among(&part.header.more, behind, region)
}

/// Whether a region is one of these parts.
fn is_taken(parts: &[Part], region: u32) -> bool
    ensures { result ≡ list_any (λ p. list_any (nat_eq region) (regions_of p)) parts.now }
{
    parts.iter().any(|part| has_region(part, region))
}

/// Whether a region is in none of these parts.
fn is_beside(live: &[Part], retired: &[Part], region: u32) -> bool
    ensures { result ≡ (not (list_any (λ p. list_any (nat_eq region) (regions_of p)) live.now) && not (list_any (λ p. list_any (nat_eq region) (regions_of p)) retired.now)) }
{
    !is_taken(live, region) && !is_taken(retired, region)
}

/// The regions of a disk that are in no part.
#[tactic(auto, unfolding(crate::specs::Value::regions_outside))]
pub fn free_regions(regions: u32, live: &[Part], retired: &[Part]) -> RegionSet
    requires few { regions ≤ most_in_log }
    ensures { result ≡ regions_outside regions (all_regions (live.now ++ retired.now)) }
{
    let mut free = RegionSet::none();
    for region in 0..regions {
        if is_beside(live, retired, region) {
            free.insert(region);
        }
    }
    free
}

/// Whether the merge that is out has taken its regions.
pub fn has_taken(job: &Option<Job>) -> bool
    ensures { (if result then 1 else 0) ≡ one_taken job.now }
{
    match job {
        Some(job) => job.header.is_some(),
        None => false,
    }
}

/// Puts the regions of a part behind others.
fn add_regions(out: &mut Vec<u32>, part: &Part) -> Result<(), NoMemory>
    requires { HasRegions part.now }
    ensures { OnOk result (out.new.items ≡ out.old.items ++ regions_of part.now) }
{
    let behind = usize::from(part.header.regions) - 1;
    out.push(part.region)?;
    out.extend_from_slice(&part.header.more[..behind])?;
    Ok(())
}

/// All regions of parts, in their order. Memory is taken once, for as many as the headers tell.
pub fn all_regions(alloc: Global, parts: &Parts) -> Result<Vec<u32>, NoMemory>
    requires each { AllByRecursion HasRegions parts.now }
    ensures { IfOk result (λ regions. regions.items ≡ all_regions parts.now) }
{
    let slice = parts.as_slice();
    let told = slice.iter().fold(0usize, |sum, part| {
        sum.saturating_add(usize::from(part.header.regions))
    });
    let mut regions = Vec::with_capacity(alloc, told)?;
    for part in slice {
        add_regions(&mut regions, part)?;
    }
    Ok(regions)
}

/// The sum of the numbers of regions that headers tell.
fn told_regions(parts: &[Part]) -> u32
    requires { sum_by (λ p. p.header.regions) parts.now < 2 ^ 32 }
    ensures { result ≡ sum_by (λ p. p.header.regions) parts.now }
{
    parts
        .iter()
        .map(|part| u32::from(part.header.regions))
        .sum()
}

/// How many regions parts have, continuations included.
pub fn regions_in(parts: &[Part]) -> u32
    requires each { AllByRecursion HasRegions parts.now }
    requires few { length (all_regions parts.now) < 2 ^ 32 }
    ensures { result ≡ length (all_regions parts.now) }
{
    told_regions(parts)
}

/// The first lead of these parts from a number on.
pub fn first_lead(parts: &[Part], from: u32) -> Option<u32>
    ensures { result ≡ find (nat_le from) (map (λ p. p.region) parts.now) }
{
    parts
        .iter()
        .map(|part| part.region)
        .find(|region| from <= *region)
}

/// The target of an epoch: before its first entry it takes the lowest free region, and then it keeps it.
pub fn take_target(free: &mut RegionSet, target: Option<u32>, waiting: u64) -> Option<u32>
    ensures free { free.new ≡ (if waiting == 0 then drop 1 free.old else free.old) }
    ensures target { result ≡ (if waiting == 0 then slice_get free.old 0 else target) }
{
    if waiting == 0 {
        free.take_lowest()
    } else {
        target
    }
}

/// The last epoch of a chain, or 0.
pub fn last_epoch(parts: &Parts) -> u64
    ensures { result ≡ chain_end parts.now }
{
    match parts.as_slice().last() {
        Some(part) => part.header.range.last,
        None => 0,
    }
}
