//! Where the body of a partition begins, and how many regions it takes.

ghost use Rattle.std.specs.Prelude.{◌≡◌, ◌<◌, ◌≤◌};
ghost use Rattle.fine_model.specs.Merge.{fits_in};
ghost use Rattle.fine_model.specs.RowBytes.{longest_header, longest_region, most_regions};
ghost use Rattle.fine_model.specs.Regions.{body_start};

use crate::Mark;
use crate::format::{BODY_START, LONG_BODY_START};

/// Where the body of a partition of a mark begins in its lead: behind the gate and its header.
pub fn body_start(mark: Mark) -> u64
    ensures is { result ≡ body_start mark }
    ensures some { 1 ≤ result }
    ensures few { result ≤ longest_header }
{
    match mark {
        Mark::One | Mark::Two => BODY_START,
        Mark::Three => LONG_BODY_START,
    }
}

/// Whether so many bytes of rows and index entries fit a number of regions, up to eight. Lengths are in bytes.
pub fn fits_in(region_len: u64, regions: u8, len: u64) -> bool
    requires regions { regions ≤ most_regions }
    requires len { len < 137438953472 }
    requires short { 1 ≤ region_len }
    requires long { region_len ≤ longest_region }
    ensures { result ≡ fits_in region_len regions len }
{
    if regions == 1 {
        BODY_START + len <= region_len
    } else {
        LONG_BODY_START + len
            <= region_len + u64::from(regions.saturating_sub(1)) * (region_len - 1)
    }
}
