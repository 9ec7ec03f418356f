//! What no clause says: which parts are taken in some plain cases, and how often a byte is merged.

ghost use Rattle.std.specs.Prelude.{◌≡◌};

use fine_model::{Header, Mark, Part, Range};
use merge_policy::{Measured, Space, next_merge, young_run};
use std::alloc::{AllocError, Global};
use std::test::Fail;

const REGION: u64 = 4_194_304;

const REGIONS: u32 = 24;

const EPOCHS: u64 = 5_000;

// The regions for so many bytes of rows.
fn regions_for(area: u32) -> u8 {
    (1..8u8)
        .find(|regions| u64::from(area) + 78 <= REGION * u64::from(*regions))
        .unwrap_or(8)
}

// A part of so many bytes of rows.
fn part_of(first: u64, last: u64, area: u32) -> Part {
    Part {
        region: 0,
        header: Header {
            mark: Mark::Two,
            range: Range { first, last },
            rows: 1,
            nodes: 0,
            area,
            regions: regions_for(area),
            more: [0; 7],
        },
    }
}

// Three parts of an epoch each.
fn three(areas: [u32; 3]) -> [Part; 3] {
    [
        part_of(1, 1, areas[0]),
        part_of(2, 2, areas[1]),
        part_of(3, 3, areas[2]),
    ]
}

fn space(free: u32, is_pressed: bool, spare: u32, sealed: u64) -> Space
    ensures { result.region_len ≡ 4194304 }
{
    Space {
        region_len: REGION,
        free,
        is_pressed,
        spare,
        sealed,
    }
}

// What was measured of the first two of three parts, and of the last two.
fn measured(older: u64, area: u32) -> Measured {
    Measured {
        older,
        newer: older.saturating_add(1),
        last: older.saturating_add(1),
        area,
        nodes: 0,
    }
}

#[test]
fn neighbours_that_do_not_fall_are_taken_while_few_regions_are_free(rt: HostRuntime) {
    // the most free regions with which they are taken
    let cases = [
        ([1000, 1000, 1000], 2, Some(2)),
        ([1000, 1001, 1004], 2, Some(1)),
        ([3000, 1000, 1500], 2, Some(2)),
        ([9000, 1000, 5000], 2, Some(2)),
        ([9000, 4000, 1000], 2, None),
        ([4_000_000, 4_000_000, 1000], 3, Some(1)),
    ];
    for (areas, free, first) in cases {
        let parts = three(areas);
        assert_eq!(rt; next_merge(&parts, space(free, true, 2, 7), &[]), first);
        assert_eq!(rt; next_merge(&parts, space(free + 1, true, 2, 7), &[]), None);
        assert_eq!(rt; next_merge(&parts, space(free, false, 2, 7), &[]), None);
    }
}

#[test]
fn a_long_pair_that_may_fold_is_tried_at_each_eighth_epoch(rt: HostRuntime) {
    let parts = three([30_000_000, 15_500_000, 1000]);
    assert_eq!(rt; next_merge(&parts, space(9, true, 2, 7), &[]), None);
    assert_eq!(rt; next_merge(&parts, space(9, true, 2, 8), &[]), Some(1));
    assert_eq!(rt; next_merge(&parts, space(7, true, 2, 8), &[]), None);
    assert_eq!(rt;
        next_merge(&parts, space(9, true, 2, 8), &[measured(1, 34_000_000)]),
        None
    );
}

#[test]
fn what_was_measured_counts_where_regions_are_short(rt: HostRuntime) {
    let parts = three([4_000_000, 3_900_000, 1_000_000]);
    let known = [measured(1, 7_900_000), measured(2, 4_900_000)];
    assert_eq!(rt; next_merge(&parts, space(1, true, 3, 7), &[]), Some(1));
    assert_eq!(rt;
        next_merge(&parts, space(1, true, 3, 7), &known[..1]),
        Some(2)
    );
    assert_eq!(rt; next_merge(&parts, space(1, true, 3, 7), &known), None);
    assert_eq!(rt; next_merge(&parts, space(2, false, 3, 7), &known), Some(2));
}

// The regions that are free beside the parts.
fn space_beside(parts: &[Part], spare: u32, sealed: u64) -> Space
    ensures { result.region_len ≡ 4194304 }
{
    let mut free = REGIONS;
    for part in parts {
        free = free.saturating_sub(u32::from(part.header.regions));
    }
    space(free, free < REGIONS / 2, spare, sealed)
}

// Merges the part that begins at an epoch with the next one, and answers how many bytes that writes.
fn merge(parts: &mut Vec<Part>, first: u64) -> u64 {
    let mut next = 0;
    for i in 1..parts.len() {
        if parts[i - 1].header.range.first == first {
            next = i;
        }
    }
    if next == 0 || next >= parts.len() {
        return 0;
    }
    let newer = parts.remove(next);
    let area = parts[next - 1]
        .header
        .area
        .saturating_add(newer.header.area);
    parts[next - 1] = part_of(first, newer.header.range.last, area);
    u64::from(area)
}

// Merges what is to be merged, and answers how many bytes that writes.
fn settle(parts: &mut Vec<Part>, spare: u32, sealed: u64) -> u64 {
    let mut written = 0u64;
    for _ in 0..REGIONS {
        let space = space_beside(parts.as_slice(), spare, sealed);
        let Some(first) = next_merge(parts.as_slice(), space, &[]) else {
            break;
        };
        written = written.saturating_add(merge(parts, first));
    }
    written
}

// How many bytes are merged, in tenths of those of all epochs, rounded, where each epoch is first a part of its own and nothing folds. Each sixteenth
// epoch has as many bytes as are told last.
fn tenths_merged(alloc: Global, spare: u32, lens: [u32; 2]) -> Result<u64, AllocError> {
    let mut parts = Vec::new(alloc);
    let mut written = 0u64;
    let mut bytes = 0u64;
    for epoch in 1..EPOCHS + 1 {
        let len = if epoch % 16 == 0 { lens[1] } else { lens[0] };
        written = written.saturating_add(settle(&mut parts, spare, epoch - 1));
        bytes = bytes.saturating_add(u64::from(len));
        parts.push(part_of(epoch, epoch, len))?;
    }
    Ok(written.saturating_mul(10).saturating_add(bytes / 2) / bytes.max(1))
}

#[test]
fn a_byte_is_merged_nine_times_in_five_thousand_epochs(rt: HostRuntime) -> Result<(), Fail> {
    assert_eq!(rt; tenths_merged(rt.alloc(), 3, [4096, 4096])?, 89);
    assert_eq!(rt; tenths_merged(rt.alloc(), 2, [4096, 4096])?, 89);
    // a put alone, and one that splits a leaf
    assert_eq!(rt; tenths_merged(rt.alloc(), 2, [150, 2700])?, 72);
    Ok(())
}

// So many parts of an epoch each, the oldest of so many bytes of rows and the others of so many.
fn epochs_of(alloc: Global, count: u64, oldest: u32, area: u32) -> Result<Vec<Part>, AllocError> {
    let mut parts = Vec::new(alloc);
    for before in 0..count {
        let area = if before == 0 { oldest } else { area };
        parts.push(part_of(before + 1, before + 1, area))?;
    }
    Ok(parts)
}

#[test]
fn the_youngest_parts_are_gathered_from_seventeen_on_or_where_few_regions_are_free(
    rt: HostRuntime,
) -> Result<(), Fail> {
    let cases = [
        (7, 16, 1000, 1000, None),
        (7, 17, 1000, 1000, Some(1)),
        // one and a half times as long as all behind it, and longer by a byte
        (7, 17, 24_943, 1000, Some(1)),
        (7, 17, 24_944, 1000, Some(2)),
        // five parts have at most 4 MiB, and two of twice their length
        (7, 17, 1000, 800_000, Some(13)),
        (7, 17, 1000, 1_600_000, None),
        // no room for all parts once more
        (2, 9, 1000, 1000, Some(1)),
        (2, 8, 1000, 1000, None),
    ];
    for (free, count, oldest, area, first) in cases {
        let parts = epochs_of(rt.alloc(), count, oldest, area)?;
        assert_eq!(rt; young_run(parts.as_slice(), space(free, true, 2, 7)), first);
        assert_eq!(rt; young_run(parts.as_slice(), space(free, false, 2, 7)), None);
    }
    Ok(())
}
