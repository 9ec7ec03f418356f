//! The choice between the pairs.

ghost use Rattle.std.specs.Prelude.{◌≡◌, ◌≤◌, ◌++◌, ◌∷◌, [], if◌then◌else◌, true, false, List, IfSome};
ghost use Rattle.std.specs.List.{AllByRecursion};
ghost use Rattle.fine_model.specs.declared.Part.{Part as ModelPart};
ghost use Rattle.fine_model.specs.RowBytes.{longest_region};
ghost use Rattle.merge_policy.specs.declared.figures.Aim.TheVariants as aim;
ghost use Rattle.merge_policy.specs.Figures.{fits_up_to, is_low, is_short, least_len};
ghost use Rattle.merge_policy.specs.Choices.{IsOlder, Picks, aims_of, low_aims, neighbours, question, short_aims, with_next};
ghost use Rattle.merge_policy.specs.Steps.{BestSoFar, PicksFor, better, choice_of};

use crate::figures::{Aim, Measured, Pair, Space, is_low};
use fine_model::Part;

/// A pair that serves an aim.
#[derive(Clone, Copy)]
pub(crate) struct Choice {
    /// The first epoch of the older part.
    pub(crate) first: u64,
    pub(crate) rank: u64,
}

/// Two neighbours, where they serve an aim.
fn choice_of(
    aim: Aim,
    space: Space,
    known: &[Measured],
    older: &Part,
    newer: &Part,
) -> Option<Choice>
    requires short { 1 ≤ space.region_len }
    requires long { space.region_len ≤ longest_region }
    ensures { result ≡ choice_of (question space known.now) aim (older.now, newer.now) }
{
    let pair = Pair::new(known, older, newer);
    if pair.serves(aim, space) {
        Some(Choice {
            first: older.header.range.first,
            rank: pair.rank(aim, space),
        })
    } else {
        None
    }
}

/// The better one of a choice and of a newer one.
fn better(best: Option<Choice>, next: Option<Choice>) -> Option<Choice>
    ensures { result ≡ better best next }
{
    let Some(newer) = next else {
        return best;
    };
    match best {
        Some(older) if older.rank < newer.rank => Some(older),
        _ => Some(newer),
    }
}

/// The best of the pairs before a part and of the pair that it makes with the first of those behind it.
fn with_pair(
    best: Option<Choice>,
    aim: Aim,
    space: Space,
    known: &[Measured],
    older: &Part,
    behind: &[Part],
) -> Option<Choice>
    requires short { 1 ≤ space.region_len }
    requires long { space.region_len ≤ longest_region }
    ensures { (pairs : List (ModelPart × ModelPart)) → BestSoFar (question space known.now) aim pairs best → BestSoFar (question space known.now) aim (pairs ++ with_next older.now behind.now) result }
{
    match behind.first() {
        Some(newer) => better(best, choice_of(aim, space, known, older, newer)),
        None => best,
    }
}

/// The best pair for an aim, where one serves it.
fn best_for(aim: Aim, space: Space, known: &[Measured], parts: &[Part]) -> Option<Choice>
    requires short { 1 ≤ space.region_len }
    requires long { space.region_len ≤ longest_region }
    ensures { BestSoFar (question space known.now) aim (neighbours parts.now) result }
{
    let mut best = None;
    let mut left = parts;
    while let Some((older, behind)) = left.split_first() {
        best = with_pair(best, aim, space, known, older, behind);
        left = behind;
    }
    best
}

/// The first epoch of the best pair for an aim.
fn first_for(aim: Aim, space: Space, known: &[Measured], parts: &[Part]) -> Option<u64>
    requires short { 1 ≤ space.region_len }
    requires long { space.region_len ≤ longest_region }
    ensures { PicksFor (question space known.now) aim (neighbours parts.now) result }
{
    let best = best_for(aim, space, known, parts)?;
    Some(best.first)
}

/// The best of the pairs for the first of two aims that some pair serves.
fn first_of(aim: Aim, other: Aim, space: Space, known: &[Measured], parts: &[Part]) -> Option<u64>
    requires short { 1 ≤ space.region_len }
    requires long { space.region_len ≤ longest_region }
    ensures { Picks (question space known.now) (neighbours parts.now) (aim ∷ other ∷ []) result }
{
    match first_for(aim, space, known, parts) {
        Some(first) => Some(first),
        None => first_for(other, space, known, parts),
    }
}

/// What is merged where regions are short, whatever the lengths.
fn pick_short(space: Space, known: &[Measured], parts: &[Part]) -> Option<u64>
    requires short { 1 ≤ space.region_len }
    requires long { space.region_len ≤ longest_region }
    ensures { Picks (question space known.now) (neighbours parts.now) (short_aims (is_short space)) result }
{
    if space.free >= space.spare {
        return None;
    }
    first_of(Aim::Gain, Aim::Fit, space, known, parts)
}

/// What is merged where few regions are free, so that lengths fall.
fn pick_low(space: Space, known: &[Measured], parts: &[Part]) -> Option<u64>
    requires short { 1 ≤ space.region_len }
    requires long { space.region_len ≤ longest_region }
    ensures { Picks (question space known.now) (neighbours parts.now) (low_aims (is_low space parts.now)) result }
{
    if !is_low(space, parts) {
        return None;
    }
    first_of(Aim::Level, Aim::Fold, space, known, parts)
}

/// What is merged by the aims of a merge.
fn pick(space: Space, known: &[Measured], parts: &[Part]) -> Option<u64>
    requires short { 1 ≤ space.region_len }
    requires long { space.region_len ≤ longest_region }
    ensures { Picks (question space known.now) (neighbours parts.now) (aims_of space parts.now) result }
{
    match pick_low(space, known, parts) {
        Some(first) => Some(first),
        None => pick_short(space, known, parts),
    }
}

/// Which two neighbours of the chain a merge takes next: the first epoch of the older one. It takes no memory.
///
/// `parts` is the chain from the oldest part, and `known` has what was measured of pairs that were tried. Lengths and their sums are
/// bytes. Where the room is pressed, and all parts, written once more, would not leave two of the free regions, that pair is taken which fits the free regions
/// whatever its rows come to, and by what was measured of it, and whose older part is at most twice as long as the newer: that with the fewest bytes, of equal
/// ones the newest. So lengths come to fall from the oldest part to the newest by halves at least, no short part stays between longer ones, and the longest
/// ones have room to be merged. Where there is none, the same of pairs that fit only where their rows fold: where both have at most 1,048,576 bytes, or the
/// last sealed epoch is a multiple of eight. Else, where fewer regions are free than are to be spared, the most even
/// pair that may free a region as far as was measured, and where there is none, of those that may fit the free regions that with the most unused bytes.
///
/// None where no pair is to be merged; where regions are short and one is free, every pair was then measured and is too long for the free
/// regions. Of a pair that was not measured nothing is known, so it may be answered: measure it, and if it frees nothing, put it into
/// `known` and ask again. A pair that cannot be merged, as its rows are not in order, goes into `known` with the greatest numbers: it
/// serves no aim then.
pub fn next_merge(parts: &[Part], space: Space, known: &[Measured]) -> Option<u64>
    requires short { 1 ≤ space.region_len }
    requires long { space.region_len ≤ longest_region }
    ensures policy { Picks (question space known.now) (neighbours parts.now) (aims_of space parts.now) result }
    ensures older { IfSome result (IsOlder parts.now) }
    ensures at_ease { is_low space parts.now ≡ false → is_short space ≡ false → result ≡ None }
    ensures nothing_fits { is_short space ≡ true → result ≡ None → AllByRecursion (λ two. fits_up_to space.region_len space.free (least_len known.now two.0 two.1) ≡ false) (neighbours parts.now) }
{
    pick(space, known, parts)
}
