//! The chain of parts.

ghost use Rattle.std.specs.Prelude.{◌≡◌, ◌≤◌, ◌==◌, List, [], length, IfOk, IfErr, OnOk, IfSome, Ok, Err, Some, option_and_then, option_map, find, nat_lt, ◌&&◌, nat_eq, Contains, All, not, filter};
ghost use Rattle.std.specs.List.{AllByRecursion, list_any, filter_map};
ghost use Rattle.reopen.specs.declared.fault.OpenFault.TheVariants as fault;
ghost use Rattle.fine_model.specs.Regions.{continuations};
ghost use Rattle.fine_model.specs.Chain.{is_taken_from, bad_continuation, apart, later, longest_at, taken, chain_end, is_within, holds_first_of, fault_beside, first_fault, chain_of};
ghost use Rattle.reopen.specs.Opening.{damage_of, EndsInTime, IsDamage, Tells, beside};

use crate::fault::OpenFault;
use fine_model::{Header, Items, NoMemory, Part, Parts};
use std::alloc::Global;

/// The chain of a log, and its other sealed parts, which the chain covers, in ascending order of their leads.
#[derive(Debug, Drop)]
pub struct Chain {
    pub parts: Parts,
    pub retired: Parts,
}

/// The regions behind a part's lead.
fn continuations(header: &Header) -> &[u32]
    ensures is { result.now ≡ continuations header.now }
    ensures few { length result.now ≤ 7 }
{
    let behind = usize::from(header.regions.saturating_sub(1)).min(7);
    &header.more[..behind]
}

fn names(part: &Part, region: u32) -> bool
    ensures { result ≡ list_any (nat_eq region) (continuations part.now.header) }
{
    continuations(&part.header).contains(&region)
}

/// Whether a region is the lead of a part.
fn is_lead(parts: &[Part], region: u32) -> bool
    ensures { result ≡ list_any (λ q. q.region == region) parts.now }
{
    parts.iter().any(|other| other.region == region)
}

/// Whether a part in a lower region than a part's names a region.
fn is_named_before(parts: &[Part], part: &Part, region: u32) -> bool
    ensures { result ≡ list_any (λ q. nat_lt q.region part.now.region && list_any (nat_eq region) (continuations q.header)) parts.now }
{
    parts
        .iter()
        .any(|other| other.region < part.region && names(other, region))
}

/// Whether a region that a part names is sealed itself, or is named by a part in a lower region.
fn is_taken_from(parts: &[Part], part: &Part, region: u32) -> bool
    ensures { result ≡ is_taken_from parts.now part.now region }
{
    is_lead(parts, region) || is_named_before(parts, part, region)
}

/// What is wrong with the regions that a part names behind its lead.
#[tactic(auto, unfolding(fine_model::specs::Chain::bad_continuation))]
fn bad_continuation(parts: &[Part], part: &Part) -> Option<OpenFault>
    ensures is { option_and_then damage_of result ≡ bad_continuation parts.now part.now }
    ensures damage { IfSome result IsDamage }
{
    let named = continuations(&part.header);
    for (i, region) in named.iter().enumerate() {
        if is_taken_from(parts, part, *region) {
            return Some(OpenFault::BadRegion {
                region: part.region,
                at: 42 + 4 * i as u32,
            });
        }
    }
    None
}

/// Whether no two parts have a region in common.
#[tactic(auto, unfolding(fine_model::specs::Chain::apart))]
pub fn check_apart(parts: &[Part]) -> Result<(), OpenFault>
    ensures ok { OnOk result (apart parts.now ≡ Ok parts.now) }
    ensures err { IfErr result (λ fault. IsDamage fault × Tells (apart parts.now) fault) }
{
    for part in parts {
        if let Some(fault) = bad_continuation(parts, part) {
            return Err(fault);
        }
    }
    Ok(())
}

/// The part of two that ends later, the first one on a tie.
fn later(best: Option<Part>, part: Part) -> Option<Part>
    ensures { result ≡ later best part }
{
    match best {
        Some(best) if best.header.range.last >= part.header.range.last => Some(best),
        _ => Some(part),
    }
}

/// Of the parts that begin at an epoch, the one that ends last, in the lowest region on a tie.
#[tactic(auto, unfolding(fine_model::specs::Chain::longest_at))]
fn longest_at(next: u64, parts: &[Part]) -> Option<Part>
    ensures { result ≡ longest_at next parts.now }
{
    parts.iter().fold(None, |best, part| {
        if part.header.range.first == next {
            later(best, *part)
        } else {
            best
        }
    })
}

/// The parts from epoch 1 on, each where the one before it ends.
pub fn take_chain(alloc: Global, parts: &[Part]) -> Result<Parts, NoMemory>
    requires { AllByRecursion EndsInTime parts.now }
    ensures { IfOk result (λ chain. chain ≡ taken (length parts.now) parts.now 1) }
{
    let mut chain = Items::new(alloc);
    let mut next = 1;
    for _ in 0..parts.len() {
        let Some(part) = longest_at(next, parts) else {
            break;
        };
        chain.push(part)?;
        next = part.header.range.last + 1;
    }
    Ok(chain)
}

/// The last epoch of a chain, or 0.
fn chain_end(chain: &[Part]) -> u64
    ensures { result ≡ chain_end chain.now }
{
    chain.iter().fold(0, |_end, part| part.header.range.last)
}

/// Whether the epochs of a part lie within those of another.
fn is_within(part: &Part, other: &Part) -> bool
    ensures { result ≡ is_within part.now other.now }
{
    other.header.range.first <= part.header.range.first
        && part.header.range.last <= other.header.range.last
}

/// Whether another part has the first epoch of a part.
fn holds_first_of(part: &Part, other: &Part) -> bool
    ensures { result ≡ holds_first_of part.now other.now }
{
    other.header.range.first <= part.header.range.first
        && part.header.range.first <= other.header.range.last
}

/// Whether a part lies within one of a chain.
fn is_covered(chain: &[Part], part: &Part) -> bool
    ensures { result ≡ list_any (is_within part.now) chain.now }
{
    chain.iter().any(|other| is_within(part, other))
}

/// The part of a chain that has the first epoch of a part.
fn holder<'a>(chain: &'a [Part], part: &Part) -> Option<&'a Part>
    ensures { option_map (λ q. q.now) result ≡ find (holds_first_of part.now) chain.now }
{
    chain.iter().find(|other| holds_first_of(part, *other))
}

/// What is wrong with a part beside a chain.
#[tactic(auto, unfolding(fine_model::specs::Chain::fault_beside))]
fn fault_beside(chain: &[Part], part: &Part) -> Option<OpenFault>
    ensures is { option_and_then damage_of result ≡ fault_beside chain.now part.now }
    ensures damage { IfSome result IsDamage }
{
    if is_covered(chain, part) {
        return None;
    }
    let end = chain_end(chain);
    if end < part.header.range.first {
        return Some(OpenFault::Gap {
            after: end,
            region: part.region,
        });
    }
    match holder(chain, part) {
        None => None,
        Some(other) => Some(OpenFault::Overlap {
            region: part.region,
            other: other.region,
        }),
    }
}

/// Whether each sealed part is of the chain, or covered by it.
pub fn check_beside(chain: &[Part], sealed: &[Part]) -> Result<(), OpenFault>
    ensures ok { OnOk result (filter_map (fault_beside chain.now) sealed.now ≡ []) }
    ensures err { IfErr result (λ fault. IsDamage fault × Tells (first_fault (filter_map (fault_beside chain.now) sealed.now) chain.now) fault) }
{
    for part in sealed {
        if let Some(fault) = fault_beside(chain, part) {
            return Err(fault);
        }
    }
    Ok(())
}

/// The sealed parts that are not of the chain.
#[tactic(auto, unfolding(crate::specs::Opening::beside))]
pub fn parts_beside(alloc: Global, chain: &[Part], sealed: &[Part]) -> Result<Parts, NoMemory>
    ensures { IfOk result (λ retired. retired ≡ beside chain.now sealed.now) }
{
    let mut retired = Items::new(alloc);
    for part in sealed {
        if !is_lead(chain, part.region) {
            retired.push(*part)?;
        }
    }
    Ok(retired)
}

/// The chain of sealed parts that share no region.
#[tactic(auto, unfolding(fine_model::specs::Chain::chain_of))]
pub fn chain_of(alloc: Global, sealed: &[Part]) -> Result<Chain, OpenFault>
    requires { AllByRecursion EndsInTime sealed.now }
    ensures ok { IfOk result (λ chain. (chain_of sealed.now ≡ Ok chain.parts) × (chain.retired ≡ beside chain.parts sealed.now)) }
    ensures err { IfErr result (λ fault. IsDamage fault → Tells (chain_of sealed.now) fault) }
    ensures no_disk { result ≡ Err fault.Disk → ⊥ }
{
    let parts = take_chain(alloc, sealed)?;
    check_beside(parts.as_slice(), sealed)?;
    let retired = parts_beside(alloc, parts.as_slice(), sealed)?;
    Ok(Chain { parts, retired })
}
