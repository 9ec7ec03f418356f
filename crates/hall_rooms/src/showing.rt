//! Turns of the room in which views are posted to all seats: one that seals what waits before, and one that seals nothing.

ghost use Rattle.std.specs.Prelude.{◌≡◌, ◌≤◌};
ghost use Rattle.fine_model.specs.Jobs.{KeepsJob};
ghost use Rattle.fine_places.specs.History as places;
ghost use Rattle.fine_boxes.specs.declared.model.TurnNote.{TurnNote};
ghost use Rattle.fine_hall.specs.Passes.{LacksPlace};
ghost use Rattle.hall_rooms.specs.Rooms.{IsRoomPass, beginning_of};
ghost use Rattle.hall_rooms.specs.Steps.{InTurn, IsCleanTurn, PostsEachOr, PostsOr, PublishesOr, SealsWaitingOr, ShowsOr, StaysPass};
ghost use Rattle.hall_rooms.specs.Posting.{ShowsViews};
ghost use Rattle.hall_rooms.specs.Turning.{SealsAndPosts};

use crate::opening::RoomHall;
use crate::turn::{begin_turn, end_turn};
use crate::views::{make_view, take_back};
use epoch_room::{Room, RoomFault};
use fine_hall::Pass;
use log_disk::LogDisk;
use partition_hold::View;
use std::sync::Wait;

/// Seals the open epoch, where some entry waits in it.
fn seal_waiting<D: LogDisk>(room: &mut Room<D>) -> Result<(), RoomFault>
    ensures { SealsWaitingOr room.old room.new result }
{
    if room.counts().waiting == 0 {
        return Ok(());
    }
    match room.seal() {
        Ok(_epoch) => Ok(()),
        Err(fault) => Err(fault),
    }
}

/// Posts a view of all that is sealed to a seat, and takes the seat's old middle back.
fn post_to<D: LogDisk>(
    hall: &RoomHall<D>,
    pass: &mut Pass<View<D::Eye>>,
    room: &mut Room<D>,
    seat: u32,
) -> Result<(), RoomFault>
    requires pass { IsRoomPass hall.now pass.old }
    requires seat { (1 ≤ seat) × (seat ≤ (beginning_of hall.now).seats) }
    requires turn { (t : TurnNote) × InTurn (beginning_of hall.now) room.old pass.old t }
    ensures pass { IsRoomPass hall.now pass.new × (pass.new.number ≡ pass.old.number) }
    ensures posts { (t : TurnNote) → InTurn (beginning_of hall.now) room.old pass.old t → PostsOr (beginning_of hall.now) seat t room.old room.new pass.old pass.new result }
{
    match make_view(room, seat) {
        Ok(view) => {
            let old = hall.post(pass, seat, view);
            take_back(room, old);
            Ok(())
        }
        Err(fault) => Err(fault),
    }
}

/// Posts a view of all that is sealed to each seat.
fn post_to_each<D: LogDisk>(
    hall: &RoomHall<D>,
    pass: &mut Pass<View<D::Eye>>,
    room: &mut Room<D>,
) -> Result<(), RoomFault>
    requires pass { IsRoomPass hall.now pass.old }
    requires turn { IsCleanTurn (beginning_of hall.now) room.old pass.old }
    ensures stays { StaysPass hall.now pass.old pass.new }
    ensures job { KeepsJob room.old.room room.new.room }
    ensures posts { PostsEachOr (beginning_of hall.now) room.old room.new pass.new result }
{
    let seats = hall.seats(pass);
    for i in 0..seats {
        post_to(hall, pass, room, i + 1)?;
    }
    Ok(())
}

/// Posts a view of all live parts to each seat, and publishes the sealed epoch, which it answers. What waits still waits.
pub(crate) fn post_and_publish<D: LogDisk>(
    hall: &RoomHall<D>,
    pass: &mut Pass<View<D::Eye>>,
    room: &mut Room<D>,
) -> Result<u64, RoomFault>
    requires pass { IsRoomPass hall.now pass.old }
    requires turn { IsCleanTurn (beginning_of hall.now) room.old pass.old }
    ensures stays { StaysPass hall.now pass.old pass.new }
    ensures job { KeepsJob room.old.room room.new.room }
    ensures posts { PublishesOr (beginning_of hall.now) room.old room.new pass.new result }
{
    post_to_each(hall, pass, room)?;
    let epoch = room.counts().sealed;
    hall.publish(pass, epoch);
    Ok(epoch)
}

/// Seals what waits, posts a view of all live parts to each seat, and publishes the sealed epoch, which it answers, also where nothing waited.
fn show<D: LogDisk>(
    hall: &RoomHall<D>,
    pass: &mut Pass<View<D::Eye>>,
    room: &mut Room<D>,
) -> Result<u64, RoomFault>
    requires pass { IsRoomPass hall.now pass.old }
    requires turn { IsCleanTurn (beginning_of hall.now) room.old pass.old }
    ensures stays { StaysPass hall.now pass.old pass.new }
    ensures job { KeepsJob room.old.room room.new.room }
    ensures shows { ShowsOr (beginning_of hall.now) room.old room.new pass.new result }
{
    seal_waiting(room)?;
    post_and_publish(hall, pass, room)
}

/// Seals what waits, posts a view of all live parts to each seat, takes the old middles back, and publishes the sealed epoch, which it answers: one turn
/// without an entry. It may wait for the room.
///
/// `Disk` comes only where the disk failed in this call, and the room is shut; `Shut` exactly where it was shut before, and the turn leaves it as it was.
/// After `Disk` and `NoMemory` what waits is sealed as one epoch more, or none waited, and the first seats, but not all, have their views; or what waits
/// waits as it did, and no seat has a new view. What is retired or free is as it was, and so is what is lost, but where the disk failed in sealing: then
/// the region that the epoch was to take is. Nothing is published then, of which the clauses say only that the published number does not fall.
pub fn seal_and_post<D: LogDisk, W: Wait>(
    rt: &W,
    hall: &RoomHall<D>,
    pass: &mut Pass<View<D::Eye>>,
) -> Result<u64, RoomFault>
    requires pass { IsRoomPass hall.now pass.old }
    requires free { LacksPlace pass.old places.room }
    ensures pass { IsRoomPass hall.now pass.new × (pass.new.number ≡ pass.old.number) }
    ensures seals { SealsAndPosts (beginning_of hall.now) pass.old pass.new result }
{
    let mut held = begin_turn(rt, hall, pass);
    let shown = show(hall, pass, held.room());
    end_turn(hall, pass, held);
    shown
}

/// Posts a view of all live parts to each seat, takes the old middles back, and publishes the sealed epoch, which it answers: one turn without an entry, which
/// seals nothing. So views that name regions which were merged or erased since come back once the seats look at their mailboxes. It may wait for the room.
///
/// What waits still waits, and the epochs are as they were, with every answer. `Disk` comes only where the disk failed in this call, and the room is shut; `Shut`
/// exactly where it was shut before, and the turn leaves it as it was. After `Disk` and `NoMemory` the first seats, but not all, have their views, and nothing
/// else of the room changed but the eyes and the counts of faults. Nothing is published then, of which the clauses say only that the published number does
/// not fall.
pub fn show_views<D: LogDisk, W: Wait>(
    rt: &W,
    hall: &RoomHall<D>,
    pass: &mut Pass<View<D::Eye>>,
) -> Result<u64, RoomFault>
    requires pass { IsRoomPass hall.now pass.old }
    requires free { LacksPlace pass.old places.room }
    ensures pass { IsRoomPass hall.now pass.new × (pass.new.number ≡ pass.old.number) }
    ensures shows { ShowsViews (beginning_of hall.now) pass.old pass.new result }
{
    let mut held = begin_turn(rt, hall, pass);
    let shown = post_and_publish(hall, pass, held.room());
    end_turn(hall, pass, held);
    shown
}
