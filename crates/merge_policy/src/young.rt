//! Which of the youngest parts are gathered into one.

ghost use Rattle.std.specs.Prelude.{◌≡◌, ◌*◌, ◌<◌, ◌≤◌, ◌&&◌, nat_le, if◌then◌else◌, Some};
ghost use Rattle.fine_model.specs.RowBytes.{longest_region};
ghost use Rattle.merge_policy.specs.Young.{is_crowded, young_from, young_run};

use crate::figures::{Space, is_low, part_len};
use fine_model::Part;

/// From so many live parts on the youngest are gathered.
const MANY: usize = 17;

/// The same where so few regions are free that lengths are to fall.
const MANY_IF_LOW: usize = 9;

/// At least so many parts stand behind the oldest of those that are gathered.
const BEHIND: usize = 3;

/// The most bytes of parts that are gathered. They are held in memory meanwhile.
const MOST: u64 = 4_194_304;

/// Where the oldest young part begins, with one part more: the one before all that were seen.
fn with_part(oldest: Option<u64>, first: u64, len: u64, behind: u64, count: usize) -> Option<u64>
    requires len { len < 68719476806 }
    requires behind { behind ≤ 4194304 }
    ensures { result ≡ (if nat_le 3 count && nat_le (2 * len) (3 * behind) then Some first else oldest) }
{
    if BEHIND <= count && 2 * len <= 3 * behind {
        Some(first)
    } else {
        oldest
    }
}

/// Where the oldest of some parts begins that is at most one and a half times as long as all behind it together, of which there are three at least, where all of these have at most so many bytes.
fn young_from(parts: &[Part], most: u64) -> Option<u64>
    requires { most ≤ 4194304 }
    ensures { result ≡ young_from most parts.now }
{
    let mut left = parts;
    let mut behind = 0;
    let mut count: usize = 0;
    let mut oldest = None;
    while let Some((part, before)) = left.split_last() {
        let len = part_len(part);
        if most < behind + len {
            return oldest;
        }
        oldest = with_part(oldest, part.header.range.first, len, behind, count);
        behind += len;
        count += 1;
        left = before;
    }
    oldest
}

/// Whether the chain has so many parts that the youngest ones are to be one.
fn is_crowded(parts: &[Part], space: Space) -> bool
    requires long { space.region_len ≤ longest_region }
    ensures { result ≡ is_crowded space parts.now }
{
    (space.is_pressed && MANY <= parts.len())
        || (MANY_IF_LOW <= parts.len() && is_low(space, parts))
}

/// Where the youngest parts of the chain begin that are gathered into one, if any are: the first epoch of the oldest of them.
///
/// None while enough regions are free: while the room is not pressed, the chain has fewer than nine parts, or it has fewer than 17 and all of them, written once more, would leave two of the
/// free regions. Else the oldest part decides that is at most one and a half times as long as all parts behind it together, of which there are three at least, where it and these have at most 4 MiB, and fit a region.
/// So short epochs are written anew a few times until they are nearly as long as a region, where merges of two alone would write them once for each doubling of their number.
pub fn young_run(parts: &[Part], space: Space) -> Option<u64>
    requires long { space.region_len ≤ longest_region }
    ensures { result ≡ young_run space parts.now }
{
    if !is_crowded(parts, space) {
        return None;
    }
    young_from(parts, MOST.min(space.region_len))
}
