//! Sets of regions.

ghost use Rattle.std.specs.Prelude.{◌≡◌, ℕ, ◌<◌, ◌==◌, ◌≤◌, [], ◌∷◌, ◌++◌, not, nat_eq, filter, length, take, drop, slice_get, IfSome};
ghost use Rattle.std.specs.Int.{bit_at};
ghost use Rattle.std.specs.List.{AllByRecursion, list_any, range_with_len};
ghost use Rattle.fine_model.specs.Boards.{set_of};
ghost use Rattle.fine_model.specs.RowBytes.{most_in_log};

use fine_model::format::MOST_IN_LOG;
use std::marker::Model;

/// Regions below 64, each once. Contracts see them as the list of the regions, ascending. No call takes memory.
#[derive(Drop)]
pub struct RegionSet {
    bits: u64,
}

impl Model for RegionSet {
    ghost use Rattle.std.specs.Prelude.{ℕ, List, ◌<◌, ◌==◌};
    ghost use Rattle.std.specs.Int.{bit_at};
    ghost use Rattle.fine_model.specs.Boards.{regions_by};

    ghost Value = { List ℕ };

    ghost invariant = { λ set. set.bits < 18446744073709551616 };

    ghost view = { λ set. regions_by (λ region. bit_at set.bits region == 1) };
}

/// The word of some regions.
fn word_of(regions: &[u32]) -> u64
    requires { AllByRecursion (λ region. region < most_in_log) regions.now }
    ensures { (region : ℕ) → region < most_in_log → (bit_at result region == 1) ≡ list_any (nat_eq region) regions.now }
{
    let mut word = 0;
    for region in regions {
        word |= 1 << *region;
    }
    word
}

impl RegionSet {
    /// The set of regions that a list has.
    pub fn of(regions: &[u32]) -> RegionSet
        requires { AllByRecursion (λ region. region < most_in_log) regions.now }
        ensures { result ≡ set_of regions.now }
    {
        RegionSet {
            bits: word_of(regions),
        }
    }

    /// The empty set.
    pub fn none() -> RegionSet
        ensures { result ≡ [] }
    {
        RegionSet { bits: 0 }
    }

    /// All regions below a number.
    pub fn below(regions: u32) -> RegionSet
        requires { regions ≤ most_in_log }
        ensures { result ≡ range_with_len 0 regions }
    {
        if regions == MOST_IN_LOG {
            return RegionSet { bits: u64::MAX };
        }
        RegionSet {
            bits: (1 << regions) - 1,
        }
    }

    /// Adds a region, which may be there.
    pub fn insert(&mut self, region: u32)
        requires { region < most_in_log }
        ensures { self.new ≡ set_of (self.old ++ region ∷ []) }
    {
        self.bits |= 1 << region;
    }

    /// Adds regions, of which some may be there.
    pub fn insert_all(&mut self, regions: &[u32])
        requires { AllByRecursion (λ region. region < most_in_log) regions.now }
        ensures { self.new ≡ set_of (self.old ++ regions.now) }
    {
        self.bits |= word_of(regions);
    }

    /// Takes a region out, which may not be there.
    pub fn remove(&mut self, region: u32)
        requires { region < most_in_log }
        ensures { self.new ≡ filter (λ r. not (nat_eq r region)) self.old }
    {
        self.bits &= !(1 << region);
    }

    /// Whether a region is there.
    pub fn holds(&self, region: u32) -> bool
        requires { region < most_in_log }
        ensures { result ≡ list_any (nat_eq region) self.now }
    {
        self.bits >> region & 1 == 1
    }

    /// The lowest region; None exactly where there is none.
    pub fn lowest(&self) -> Option<u32>
        ensures lowest { result ≡ slice_get self.now 0 }
        ensures small { IfSome result (λ region. region < most_in_log) }
    {
        if self.bits == 0 {
            return None;
        }
        Some(self.bits.trailing_zeros())
    }

    /// How many regions there are, at most 64. A set has each of its regions once, in ascending order.
    pub fn len(&self) -> u32
        ensures count { result ≡ length self.now }
        ensures few { result ≤ most_in_log }
        ensures ordered { set_of self.now ≡ self.now }
    {
        self.bits.count_ones()
    }

    /// Takes the lowest region out; None exactly where there is none.
    pub fn take_lowest(&mut self) -> Option<u32>
        ensures lowest { result ≡ slice_get self.old 0 }
        ensures small { IfSome result (λ region. region < most_in_log) }
        ensures left { self.new ≡ drop 1 self.old }
    {
        let region = self.lowest()?;
        self.bits &= !(1 << region);
        Some(region)
    }

    /// Takes the lowest regions out, as many as `out` has places, and puts them there in ascending order.
    pub fn take_into(&mut self, out: &mut [u32])
        requires { length out.old ≤ length self.old }
        ensures taken { out.new ≡ take (length out.old) self.old }
        ensures left { self.new ≡ drop (length out.old) self.old }
    {
        for i in 0..out.len() {
            if let Some(region) = self.take_lowest() {
                out[i] = region;
            }
        }
    }
}
