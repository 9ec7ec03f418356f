//! How a hall of rooms begins.

ghost use Rattle.std.specs.Prelude.{◌≡◌, ◌≤◌, ◌+◌, ◌*◌, ℕ, true, None, List, [], ◌++◌, length, replicate, reverse, IfOk, IfErr, vec_len, vec_capacity};
ghost use Rattle.std.specs.List.{list_all};
ghost use Rattle.fine_model.specs.Boards.{is_empty};
ghost use Rattle.node_cache.specs.Cache.{IsResting, kept_at};
ghost use Rattle.partition_hold.specs.Views.{ViewValue, state_of};
ghost use Rattle.epoch_room.specs.Value.{RoomValue};
ghost use Rattle.fine_hall.specs.Halls.{AreFreshBuckets};
ghost use Rattle.fine_hall.specs.Opening.{HandedOut};
ghost use Rattle.hall_rooms.specs.Rooms.{beginning_of, bucket_number};
ghost use Rattle.hall_rooms.specs.Opening.{OpensHall, HandsBack, StandsAlone, LacksViews, MakesFrontsOr, MakesMiddlesOr, MakesFronts};

use crate::held::{HeldBucket, HeldRoom};
use crate::views::{make_view, take_back_all};
use epoch_room::{Room, RoomFault};
use fine_hall::{Hall, Pass};
use log_disk::{LogDisk, LogEye};
use partition_hold::View;
use std::alloc::{AllocError, Global};

/// A hall of a room, the buckets of its log, and views of it.
pub type RoomHall<D> = Hall<HeldRoom<D>, HeldBucket, View<<D as LogDisk>::Eye>>;

/// A hall with the passes of its seats, from the greatest number down, and the memory that its end takes.
#[derive(Drop)]
pub struct Opened<D: LogDisk> {
    pub hall: RoomHall<D>,
    pub passes: Vec<Pass<View<D::Eye>>>,
    pub spare: Vec<View<D::Eye>>,
}

/// The lists that a hall begins with, and those that it ends with.
struct Lists<E: LogEye> {
    buckets: Vec<HeldBucket>,
    fronts: Vec<View<E>>,
    middles: Vec<View<E>>,
    spare: Vec<View<E>>,
}

/// The buckets of all numbers in order, which cache nothing.
fn fresh_buckets(alloc: Global) -> Result<Vec<HeldBucket>, AllocError>
    ensures { IfOk result (λ buckets. AreFreshBuckets bucket_number kept_at IsResting buckets.items) }
{
    let mut buckets = Vec::with_capacity(alloc, 256)?;
    for number in 0..256 {
        buckets.push_reserved(HeldBucket::new(alloc, number)?);
    }
    Ok(buckets)
}

/// All memory that a hall of so many seats takes beside its own.
fn make_lists<E: LogEye>(alloc: Global, seats: u32) -> Result<Lists<E>, AllocError>
    requires few { seats ≤ 18 }
    ensures buckets { IfOk result (λ lists. AreFreshBuckets bucket_number kept_at IsResting lists.buckets.items) }
    ensures empty { IfOk result (λ lists. (lists.fronts.items ≡ []) × (lists.middles.items ≡ []) × (lists.spare.items ≡ [])) }
    ensures room { IfOk result (λ lists. (seats ≤ vec_capacity lists.fronts) × (seats ≤ vec_capacity lists.middles) × (2 * seats ≤ vec_capacity lists.spare)) }
{
    let count = seats as usize;
    Ok(Lists {
        buckets: fresh_buckets(alloc)?,
        fronts: Vec::with_capacity(alloc, count)?,
        middles: Vec::with_capacity(alloc, count)?,
        spare: Vec::with_capacity(alloc, 2 * count)?,
    })
}

/// Makes a front for each seat, in its first buffer.
fn make_fronts<D: LogDisk>(
    room: &mut Room<D>,
    seats: u32,
    fronts: &mut Vec<View<D::Eye>>,
) -> Result<(), RoomFault>
    requires seats { seats ≤ 18 }
    requires board { room.old.room.board ≡ replicate (3 * seats) None }
    requires stands { StandsAlone room.old }
    requires fronts { (fronts.old.items ≡ []) × (seats ≤ vec_capacity fronts.old) }
    ensures { MakesFrontsOr room.old room.new seats fronts.new.items result }
{
    let _whole = room.counts();
    for i in 0..seats {
        fronts.push_reserved(make_view(room, i + 1)?);
    }
    Ok(())
}

/// Makes a middle for each seat, in its second buffer.
fn make_middles<D: LogDisk>(
    room: &mut Room<D>,
    seats: u32,
    middles: &mut Vec<View<D::Eye>>,
) -> Result<(), RoomFault>
    requires seats { seats ≤ 18 }
    requires fronts { (old : RoomValue) × (fronts : List ViewValue) × StandsAlone old × (length fronts ≡ seats) × MakesFronts old room.old seats fronts }
    requires middles { (middles.old.items ≡ []) × (seats ≤ vec_capacity middles.old) }
    ensures { (old : RoomValue) (fronts : List ViewValue) → StandsAlone old → length fronts ≡ seats → MakesFronts old room.old seats fronts → MakesMiddlesOr old room.new seats fronts middles.new.items result }
{
    for i in 0..seats {
        middles.push_reserved(make_view(room, i + 1)?);
    }
    Ok(())
}

/// Takes all views back, and says why no hall was made.
fn give_up<D: LogDisk>(
    mut room: Room<D>,
    fronts: Vec<View<D::Eye>>,
    middles: Vec<View<D::Eye>>,
    fault: RoomFault,
) -> (RoomFault, Room<D>)
    requires views { (old : RoomValue) × LacksViews old room (reverse middles.items ++ reverse fronts.items) fault }
    ensures { (old : RoomValue) → LacksViews old room (reverse middles.items ++ reverse fronts.items) fault → HandsBack old result.1 result.0 }
{
    take_back_all(&mut room, middles);
    take_back_all(&mut room, fronts);
    let _whole = room.counts();
    (fault, room)
}

/// The room as it was, for want of memory.
fn refuse<D: LogDisk>(room: Room<D>) -> (RoomFault, Room<D>)
    requires { list_all is_empty room.room.board ≡ true }
    ensures { HandsBack room result.1 result.0 }
{
    let _whole = room.counts();
    (RoomFault::NoMemory, room)
}

/// A hall of 1 to 18 seats on a room, with two views for each seat, and its passes. The room of the hall is not shut as it begins. Where it cannot be made,
/// the room comes back with no view on its board, and stands for what it stood for.
///
/// The room has no view, no merge and no entry yet, and stands for what its log showed at entry, with no history. `Disk` comes only where the disk failed in
/// this call, and the room is shut; `Shut` only where it was shut before.
pub fn open_hall<D: LogDisk>(
    alloc: Global,
    mut room: Room<D>,
    seats: u32,
) -> Result<Opened<D>, (RoomFault, Room<D>)>
    requires seats { (1 ≤ seats) × (seats ≤ 18) }
    requires board { list_all is_empty room.room.board ≡ true }
    requires no_job { room.room.job ≡ None }
    requires no_place { (room.room.places ≡ 0) × (room.room.waiting ≡ 0) }
    requires stands { StandsAlone room }
    ensures hall { IfOk result (λ opened. OpensHall room seats (beginning_of opened.hall)) }
    ensures passes { IfOk result (λ opened. (length opened.passes.items ≡ seats) × ((fronts : List ViewValue) × HandedOut state_of opened.hall.table.shared.table_id (beginning_of opened.hall) fronts opened.passes.items)) }
    ensures spare { IfOk result (λ opened. (opened.spare.items ≡ []) × (2 * seats ≤ vec_capacity opened.spare)) }
    ensures back { IfErr result (λ refused. HandsBack room refused.1 refused.0) }
{
    let Ok(lists) = make_lists(alloc, seats) else {
        return Err(refuse(room));
    };
    let Lists {
        buckets,
        mut fronts,
        mut middles,
        spare,
    } = lists;
    let Ok(()) = room.set_seats(seats) else {
        return Err(refuse(room));
    };
    if let Err(fault) = make_fronts(&mut room, seats, &mut fronts) {
        return Err(give_up(room, fronts, middles, fault));
    }
    if let Err(fault) = make_middles(&mut room, seats, &mut middles) {
        return Err(give_up(room, fronts, middles, fault));
    }
    let held = match HeldRoom::hold(alloc, room) {
        Ok(held) => held,
        Err(room) => return Err(give_up(room, fronts, middles, RoomFault::NoMemory)),
    };
    match Hall::new(alloc, held, buckets, fronts, middles) {
        Ok((hall, passes)) => Ok(Opened {
            hall,
            passes,
            spare,
        }),
        Err((_refused, room, _buckets, fronts, middles)) => Err(give_up(
            room.into_room(),
            fronts,
            middles,
            RoomFault::NoMemory,
        )),
    }
}
