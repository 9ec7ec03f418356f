//! What a choice between pairs of neighbours goes by: numbers of the disk, and of a pair.

ghost use Rattle.std.specs.Prelude.{◌≡◌, ◌+◌, ◌*◌, ◌<◌, ◌≤◌, find, nat_lt, option_map};
ghost use Rattle.std.specs.List.{sum_by};
ghost use Rattle.fine_model.specs.RowBytes.{longest_region, index_entry};
ghost use Rattle.merge_policy.specs.Figures.{figures, fits_free, fits_up_to, frees, is_level, is_low, is_of, is_trial, least_len, part_len, unevenness, unused};
ghost use Rattle.merge_policy.specs.Choices.{rank, serves};

use fine_model::format::MOST_REGIONS;
use fine_model::{Part, body_start, fits_in};

/// The regions of a disk, as far as they matter for merging.
#[derive(Clone, Copy, Debug)]
pub struct Space {
    /// The bytes of a region, from 1 to 67,108,864.
    pub region_len: u64,
    /// How many regions are free.
    pub free: u32,
    /// Whether fewer are free than the room would have, so that neighbours of fitting lengths may be merged, and the youngest parts gathered.
    pub is_pressed: bool,
    /// With fewer free regions than these, neighbours of any lengths are merged too.
    pub spare: u32,
    /// The last sealed epoch.
    pub sealed: u64,
}

/// What the rows of two neighbours take once they are merged: the bytes of the rows, and how many index entries.
#[derive(Clone, Copy, Debug)]
pub struct Measured {
    /// The first epoch of the older part.
    pub older: u64,
    /// The first and the last epoch of the newer part.
    pub newer: u64,
    pub last: u64,
    pub area: u32,
    pub nodes: u32,
}

/// Two neighbours in numbers. All but `regions` are bytes.
#[derive(Drop)]
pub(crate) struct Pair {
    /// The lengths of both parts, headers included.
    pub(crate) older: u64,
    pub(crate) newer: u64,
    /// The same, in their order.
    pub(crate) longer: u64,
    pub(crate) shorter: u64,
    /// What all their rows and index entries take.
    pub(crate) together: u64,
    /// The least that their merged rows and index entries may take, as far as was measured.
    pub(crate) least: u64,
    /// How many regions both parts hold.
    pub(crate) regions: u32,
}

/// Why a pair is merged.
#[derive(Clone, Copy)]
pub(crate) enum Aim {
    /// It fits the free regions, whatever its rows come to and as far as was measured, and its older part is no longer than two of the newer one.
    Level,
    /// Its older part is no longer than two of the newer one, and it fits the free regions where its rows fold, as its longer part alone fits them. A long
    /// pair is so tried at each eighth epoch alone, as it is read for that, and that it was tried in vain is not kept.
    Fold,
    /// It may free a region.
    Gain,
    /// It may fit the free regions.
    Fit,
}

/// What the rows and the index entries of a partition take, in bytes.
fn body_len(area: u32, nodes: u32) -> u64
    ensures is { result ≡ area + index_entry * nodes }
    ensures few { result < 68719476736 }
{
    u64::from(area) + 14 * u64::from(nodes)
}

/// The length of a part, its header included.
pub(crate) fn part_len(part: &Part) -> u64
    ensures is { result ≡ part_len part.now }
    ensures few { result < 68719476806 }
    ensures some { 1 ≤ result }
{
    body_start(part.header.mark) + body_len(part.header.area, part.header.nodes)
}

/// Whether so many bytes fit at most so many regions, of which a partition has up to eight.
fn fits_up_to(region_len: u64, most: u32, len: u64) -> bool
    requires len { len < 137438953472 }
    requires short { 1 ≤ region_len }
    requires long { region_len ≤ longest_region }
    ensures { result ≡ fits_up_to region_len most len }
{
    1 <= most && fits_in(region_len, most.min(u32::from(MOST_REGIONS)) as u8, len)
}

/// Whether so many bytes fit the free regions.
fn fits_free(space: Space, len: u64) -> bool
    requires len { len < 137438953472 }
    requires short { 1 ≤ space.region_len }
    requires long { space.region_len ≤ longest_region }
    ensures { result ≡ fits_free space len }
{
    fits_up_to(space.region_len, space.free, len)
}

/// Whether the parts have more bytes than so many.
fn are_over(most: u64, parts: &[Part]) -> bool
    ensures { result ≡ nat_lt most (sum_by part_len parts.now) }
{
    let mut left = most;
    let mut rest = parts;
    while let Some((part, behind)) = rest.split_first() {
        let len = part_len(part);
        if left < len {
            return true;
        }
        left -= len;
        rest = behind;
    }
    false
}

/// Whether so few regions are free that lengths are to fall.
pub(crate) fn is_low(space: Space, parts: &[Part]) -> bool
    requires long { space.region_len ≤ longest_region }
    ensures { result ≡ is_low space parts.now }
{
    space.is_pressed
        && are_over(
            space.region_len * u64::from(space.free.saturating_sub(2)),
            parts,
        )
}

/// Whether a pair that fits only where its rows fold is tried.
fn is_trial(space: Space, together: u64) -> bool
    ensures { result ≡ is_trial space together }
{
    together <= 1_048_576 || space.sealed % 8 == 0
}

/// Whether two neighbours were measured.
fn is_of(measured: &Measured, older: &Part, newer: &Part) -> bool
    ensures { result ≡ is_of older.now newer.now measured.now }
{
    measured.older == older.header.range.first
        && measured.newer == newer.header.range.first
        && measured.last == newer.header.range.last
}

/// What was measured of two neighbours.
fn measured_of<'a>(known: &'a [Measured], older: &Part, newer: &Part) -> Option<&'a Measured>
    ensures { option_map (λ m. m.now) result ≡ find (is_of older.now newer.now) known.now }
{
    known.iter().find(|measured| is_of(*measured, older, newer))
}

/// The least that the merged rows of two neighbours may take: what was measured, or nothing.
fn least_len(known: &[Measured], older: &Part, newer: &Part) -> u64
    ensures is { result ≡ least_len known.now older.now newer.now }
    ensures few { result < 68719476736 }
{
    match measured_of(known, older, newer) {
        Some(measured) => body_len(measured.area, measured.nodes),
        None => 0,
    }
}

impl Pair {
    #[tactic(auto, unfolding(crate::specs::Figures::figures))]
    pub(crate) fn new(known: &[Measured], older: &Part, newer: &Part) -> Pair
        ensures is { result ≡ figures known.now older.now newer.now }
        ensures newer { result.newer < 68719476806 }
        ensures longer { result.longer < 68719476806 }
        ensures some { 1 ≤ result.shorter }
        ensures shorter { result.shorter < 68719476806 }
        ensures together { result.together < 137438953472 }
        ensures least { result.least < 68719476736 }
        ensures regions { result.regions ≤ 510 }
    {
        let older_len = part_len(older);
        let newer_len = part_len(newer);
        Pair {
            older: older_len,
            newer: newer_len,
            longer: older_len.max(newer_len),
            shorter: older_len.min(newer_len),
            together: body_len(older.header.area, older.header.nodes)
                + body_len(newer.header.area, newer.header.nodes),
            least: least_len(known, older, newer),
            regions: u32::from(older.header.regions) + u32::from(newer.header.regions),
        }
    }

    /// Whether the older part is at most twice as long as the newer.
    fn is_level(&self) -> bool
        requires newer { self.now.newer < 68719476806 }
        ensures { result ≡ is_level self.now }
    {
        self.older <= 2 * self.newer
    }

    /// Whether a merged part of so many bytes fits the free regions, and fewer regions than the pair holds.
    fn frees(&self, space: Space, len: u64) -> bool
        requires len { len < 137438953472 }
        requires short { 1 ≤ space.region_len }
        requires long { space.region_len ≤ longest_region }
        ensures { result ≡ frees space self.now len }
    {
        let most = space.free.min(self.regions.saturating_sub(1));
        fits_up_to(space.region_len, most, len)
    }

    pub(crate) fn serves(&self, aim: Aim, space: Space) -> bool
        requires newer { self.now.newer < 68719476806 }
        requires longer { self.now.longer < 68719476806 }
        requires together { self.now.together < 137438953472 }
        requires least { self.now.least < 68719476736 }
        requires short { 1 ≤ space.region_len }
        requires long { space.region_len ≤ longest_region }
        ensures { result ≡ serves aim space self.now }
    {
        match aim {
            Aim::Level => self.is_level() && fits_free(space, self.together.max(self.least)),
            Aim::Fold => {
                is_trial(space, self.together)
                    && self.is_level()
                    && fits_free(space, self.longer.max(self.least))
            }
            Aim::Gain => self.frees(space, self.least),
            Aim::Fit => fits_free(space, self.least),
        }
    }

    /// How good a pair is for an aim: the less, the better.
    pub(crate) fn rank(&self, aim: Aim, space: Space) -> u64
        requires longer { self.now.longer < 68719476806 }
        requires some { 1 ≤ self.now.shorter }
        requires shorter { self.now.shorter < 68719476806 }
        requires regions { self.now.regions ≤ 510 }
        requires long { space.region_len ≤ longest_region }
        ensures { result ≡ rank aim space self.now }
    {
        match aim {
            Aim::Level | Aim::Fold => self.together,
            Aim::Gain => self.unevenness(),
            Aim::Fit => u64::MAX - self.unused(space),
        }
    }

    /// How many times the shorter part the longer one is, in parts of 16,777,216.
    fn unevenness(&self) -> u64
        requires longer { self.now.longer < 68719476806 }
        requires some { 1 ≤ self.now.shorter }
        ensures { result ≡ unevenness self.now }
    {
        self.longer * 16_777_216 / self.shorter
    }

    /// The bytes of the pair's regions that neither part uses.
    fn unused(&self, space: Space) -> u64
        requires longer { self.now.longer < 68719476806 }
        requires shorter { self.now.shorter < 68719476806 }
        requires regions { self.now.regions ≤ 510 }
        requires long { space.region_len ≤ longest_region }
        ensures { result ≡ unused space self.now }
    {
        (space.region_len * u64::from(self.regions)).saturating_sub(self.longer + self.shorter)
    }
}
