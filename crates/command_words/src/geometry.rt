//! The word of a geometry.

ghost use Rattle.std.specs.Prelude.{◌≡◌, ◌≤◌, IfSome, IsSome, length};
ghost use Rattle.fine_model.specs.Words.{geometry_of};
ghost use Rattle.command_words.specs.Words.{IsGeometry, geometry_in};

use super::splitting::{before, behind};
use fine_model::natural_of;

/// The regions that a word may spell.
const LEAST_REGIONS: u32 = 4;

const MOST_REGIONS: u32 = 64;

/// The least and the greatest length of a region that a word may spell, in KiB.
const LEAST_KIB: u32 = 4;

const MOST_KIB: u32 = 65_536;

/// The regions and the length of a region that a word spells.
#[tactic(auto, unfolding(fine_model::specs::Words::geometry_of))]
fn geometry(word: &[u8]) -> Option<(u32, u64)>
    ensures is { result ≡ geometry_of word.now }
    ensures limits { IfSome result IsGeometry }
{
    if word == b"default".as_slice() {
        return Some((24, 4_194_304));
    }
    let regions = natural_of(before(b'x', word), LEAST_REGIONS, MOST_REGIONS)?;
    let kib = natural_of(behind(b'x', word), LEAST_KIB, MOST_KIB)?;
    Some((regions, u64::from(kib) * 1024))
}

/// The geometry that the second word spells, as the number of regions and their length in bytes: `default` for 24 regions of
/// 4 MiB, or `NxK` for N regions of K KiB, with N from 4 to 64 and K from 4 to 65,536. None exactly where there is no second
/// word or it spells no geometry. It takes no memory.
pub fn geometry_of(words: &[String]) -> Option<(u32, u64)>
    ensures is { result ≡ geometry_in words.now }
    ensures limits { IfSome result IsGeometry }
    ensures words { IsSome result → 2 ≤ length words.now }
{
    geometry(words.get(1)?.as_str().as_bytes())
}
