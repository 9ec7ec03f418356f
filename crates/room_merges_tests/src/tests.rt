//! What no clause says: whole chains that are merged in memory, each call with ample memory.

ghost use Rattle.std.specs.Prelude.{◌≡◌, [], ◌∷◌, None, IfOk};
ghost use Rattle.room_merges_tests.specs.Turns.{HadTurns};

use crate::fixtures::{Refusal, merge_idle, new_room, seal_some, seal_version};
use epoch_room::Room;
use fine_model::{Header, Part, Range};
use log_disk::{FaultPlan, LogDisk, MemDisk};
use partition_index_tests::ONE_ROW;
use room_merges::merge_near;
use std::alloc::Global;

// Five epochs more of one entry each, in five nodes.
fn seal_five(room: &mut Room<MemDisk>, alloc: Global) -> Result<(), Refusal>
    ensures { HadTurns room.old room.new }
{
    seal_some(room, alloc, 1, 1, 1)?;
    seal_some(room, alloc, 2, 1, 1)?;
    seal_some(room, alloc, 3, 1, 1)?;
    seal_some(room, alloc, 4, 1, 1)?;
    seal_some(room, alloc, 5, 1, 1)
}

// What merging once answers, and how many regions are live, retired and free then.
fn merge_once(room: &mut Room<MemDisk>, alloc: Global) -> (Option<bool>, u32, u32, u32)
    requires board { room.old.room.board ≡ None ∷ None ∷ None ∷ [] }
    requires job { room.old.room.job ≡ None }
    ensures board { room.new.room.board ≡ None ∷ None ∷ None ∷ [] }
    ensures job { room.new.room.job ≡ None }
{
    let merged = merge_idle(room, alloc).ok();
    let counts = room.counts();
    (merged, counts.live, counts.retired, counts.free)
}

type Merged = [(Option<bool>, u32, u32, u32); 5];

// Five merges of five parts, one after another.
fn merge_five(room: &mut Room<MemDisk>, alloc: Global) -> Result<Merged, Refusal>
    requires board { room.old.room.board ≡ None ∷ None ∷ None ∷ [] }
    requires job { room.old.room.job ≡ None }
{
    seal_five(room, alloc)?;
    let first = merge_once(room, alloc);
    let second = merge_once(room, alloc);
    let third = merge_once(room, alloc);
    let fourth = merge_once(room, alloc);
    let fifth = merge_once(room, alloc);
    Ok([first, second, third, fourth, fifth])
}

// So in a new room.
fn merged_five(alloc: Global) -> Result<Merged, Refusal> {
    let mut room = new_room(alloc, FaultPlan::none(alloc))?;
    merge_five(&mut room, alloc)
}

#[test]
fn five_parts_become_one(rt: HostRuntime) {
    let answers = [
        (Some(true), 4, 0, 4),
        (Some(true), 3, 0, 5),
        (Some(true), 2, 0, 6),
        (Some(true), 1, 0, 7),
        (Some(false), 1, 0, 7),
    ];
    assert_eq!(rt; merged_five(rt.alloc()), Ok(answers));
}

// ---- rows that are folded

// Puts the first node twice at one key, in two epochs more.
fn seal_both(room: &mut Room<MemDisk>, alloc: Global) -> Result<(), Refusal>
    ensures { HadTurns room.old room.new }
{
    seal_version(room, alloc, 1, b"1")?;
    seal_version(room, alloc, 2, b"2")
}

// A room with these two parts.
fn put_twice(alloc: Global) -> Result<Room<MemDisk>, Refusal>
    ensures { IfOk result (λ room. (room.room.board ≡ None ∷ None ∷ None ∷ []) × (room.room.job ≡ None)) }
{
    let mut room = new_room(alloc, FaultPlan::none(alloc))?;
    seal_both(&mut room, alloc)?;
    Ok(room)
}

// The first 25 bytes of the body of a part of one region.
fn body_on(disk: &mut MemDisk, region: u32) -> Result<[u8; 25], Refusal> {
    let mut bytes = [0u8; 25];
    if region >= disk.regions() || disk.region_len() < 66 {
        return Err("region");
    }
    match disk.read(region, 41, &mut bytes) {
        Ok(()) => Ok(bytes),
        Err(_failed) => Err("read"),
    }
}

fn body_at(room: Room<MemDisk>, region: u32) -> Result<[u8; 25], Refusal>
    requires board { room.room.board ≡ None ∷ None ∷ None ∷ [] }
    requires job { room.room.job ≡ None }
{
    let mut disk = room.into_disk();
    body_on(&mut disk, region)
}

type Folded = ((Option<bool>, u32, u32, u32), Option<Part>, [u8; 25]);

// What merging such a room answers, and how many regions are live, retired and free then; the first part of the chain, and the bytes of the row
// in the third region.
fn folded(alloc: Global) -> Result<Folded, Refusal> {
    let mut room = put_twice(alloc)?;
    let merged = merge_once(&mut room, alloc);
    let part = room.parts().as_slice().first().copied();
    Ok((merged, part, body_at(room, 2)?))
}

// The part of both epochs: one row of 25 bytes, in the third region.
const IMAGE_PART: Part = Part {
    region: 2,
    header: Header {
        range: Range { first: 1, last: 2 },
        area: 25,
        ..ONE_ROW
    },
};

// A leaf of one pair, `a` and `2`, as the second version of the node.
fn image_row() -> [u8; 25] {
    [
        2, 0, 0x61, 0, 0, 0, 1, 0, 0, 0, 0, 0, 0, 0, 2, 0, 0, 0, 6, 1, 1, 0x61, 0, 1, 0x32,
    ]
}

#[test]
fn two_puts_of_a_key_become_an_image(rt: HostRuntime) {
    let merged = (Some(true), 1, 0, 7);
    assert_eq!(rt;
        folded(rt.alloc()),
        Ok((merged, Some(IMAGE_PART), image_row()))
    );
}

// ---- which neighbours are merged

// The epochs of the part at a place.
fn range_at(parts: &[Part], place: usize) -> Option<(u64, u64)> {
    let part = parts.get(place).copied()?;
    Some((part.header.range.first, part.header.range.last))
}

// What a merge answers, and the epochs of the second and the third part then.
type Neighbours = (Option<bool>, Option<(u64, u64)>, Option<(u64, u64)>);

// So of five parts, where neighbours are merged from an epoch on.
fn merge_from(room: &mut Room<MemDisk>, alloc: Global, from: u64) -> Result<Neighbours, Refusal>
    requires board { room.old.room.board ≡ None ∷ None ∷ None ∷ [] }
    requires job { room.old.room.job ≡ None }
{
    seal_five(room, alloc)?;
    let merged = merge_near(alloc, room, from).ok();
    let parts = room.parts().as_slice();
    Ok((merged, range_at(parts, 1), range_at(parts, 2)))
}

// So in a new room.
fn merged_from(alloc: Global, from: u64) -> Result<Neighbours, Refusal> {
    let mut room = new_room(alloc, FaultPlan::none(alloc))?;
    merge_from(&mut room, alloc, from)
}

#[test]
fn the_neighbours_from_an_epoch_on_are_first(rt: HostRuntime) {
    for (from, second, third) in [
        (1, (3, 3), (4, 4)),
        (2, (2, 3), (4, 4)),
        (3, (2, 2), (3, 4)),
        (4, (2, 2), (3, 3)),
        (5, (3, 3), (4, 4)),
    ] {
        assert_eq!(rt;
            merged_from(rt.alloc(), from),
            Ok((Some(true), Some(second), Some(third)))
        );
    }
}
