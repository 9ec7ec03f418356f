//! A turn of the room in which room is made with all passes of a hall.

ghost use Rattle.std.specs.Prelude.{◌≡◌, ◌<◌, ◌≤◌, ℕ, None, IfOk, false, map, true};
ghost use mathlib.Core.Option.{some};
ghost use lib.ListN.{get_elem?};
ghost use Rattle.fine_model.specs.Jobs.{KeepsJob};
ghost use Rattle.partition_hold.specs.Views.{state_of};
ghost use Rattle.fine_places.specs.History as places;
ghost use Rattle.fine_hall.specs.Passes.{LacksJob, LacksPlace, published};
ghost use Rattle.fine_hall.specs.Halls.{IsAhead};
ghost use Rattle.hall_rooms.specs.Rooms.{RoomPass, IsRoomPass, beginning_of};
ghost use Rattle.hall_rooms.specs.declared.making.Space.TheVariants as space;
ghost use Rattle.hall_rooms.specs.Steps.{IsCleanTurn};
ghost use Rattle.hall_rooms.specs.Merging.{OnDamage};
ghost use Rattle.hall_rooms.specs.Turning.{NotBegan};
ghost use Rattle.hall_rooms.specs.Making.{AllAhead, AreInTurn, ClearsMergedOr, ClearsOr, ErasesAndLooks, GoesOn, IsCleared, MakesOr, MergesClearedOr, NoneOpen, OnRenewed, RenewsEach, RoundOr, SameOpen, StayInTurn, TriesRoom};

use crate::merging::merge_through;
use crate::opening::RoomHall;
use crate::settling::erase_unheld;
use crate::showing::post_and_publish;
use crate::turn::{begin_turn, end_turn};
use epoch_room::{Room, RoomFault};
use fine_hall::Pass;
use log_disk::LogDisk;
use partition_hold::View;
use room_merges::MergeFault;
use std::alloc::Global;
use std::sync::Wait;

/// How many rounds of views clearing makes at most. Where all passes of the hall are at hand two are enough, since no other view is out behind the
/// second, which no clause says.
const ROUNDS: u32 = 3;

/// What making room came to.
#[derive(Clone, Copy, Debug, PartialEq, Eq)]
pub enum Space {
    /// Something that was retired is erased, or two parts were merged.
    Made,
    /// Nothing was retired, no two neighbours fit, and two regions or more are free.
    Enough,
    /// Nothing was retired, no two neighbours fit, and fewer than two regions are free.
    Stuck,
    /// Some entry waits in the open epoch, and nothing was done.
    Waits,
    /// Behind so many rounds of views something is retired still, as where the pass of a seat is not at hand. Two parts may have been merged.
    Held,
}

/// What it came to where nothing was merged, by whether something was retired, and with so many regions free.
fn space_of(had_retired: bool, free: u32) -> Space
    ensures made { had_retired ≡ true → result ≡ space.Made }
    ensures stuck { had_retired ≡ false → free < 2 → result ≡ space.Stuck }
    ensures enough { had_retired ≡ false → 2 ≤ free → result ≡ space.Enough }
{
    if had_retired {
        Space::Made
    } else if free < 2 {
        Space::Stuck
    } else {
        Space::Enough
    }
}

/// Each of some passes looks once at its mailbox.
fn refresh_each<D: LogDisk>(hall: &RoomHall<D>, passes: &mut [Pass<View<D::Eye>>])
    requires passes { (i : ℕ) (p : RoomPass) → get_elem? passes.old i ≡ some p → IsRoomPass hall.now p }
    ensures passes { (i : ℕ) (p : RoomPass) → get_elem? passes.new i ≡ some p → IsRoomPass hall.now p }
    ensures renews { RenewsEach (beginning_of hall.now) passes.old passes.new }
    ensures ahead { AllAhead (beginning_of hall.now) passes.new }
{
    for at in 0..passes.len() {
        hall.refresh(&mut passes[at]);
    }
}

/// The pass of a turn and the others look once at their mailboxes.
fn refresh_all<D: LogDisk>(
    hall: &RoomHall<D>,
    pass: &mut Pass<View<D::Eye>>,
    others: &mut [Pass<View<D::Eye>>],
    room: &Room<D>,
)
    requires part { AreInTurn hall.now room.now pass.old others.old }
    ensures goes { StayInTurn hall.now pass.old pass.new others.old others.new }
    ensures turn { IsCleanTurn (beginning_of hall.now) room.now pass.new }
    ensures ahead { IsAhead state_of (beginning_of hall.now) pass.new × AllAhead (beginning_of hall.now) others.new }
    ensures reaches { published pass.new ≤ room.now.room.sealed }
{
    let _whole = room.counts();
    hall.refresh(pass);
    refresh_each(hall, others);
}

/// Erases what no view names, and answers whether nothing is retired.
fn erase_and_look<D: LogDisk>(room: &mut Room<D>) -> Result<bool, RoomFault>
    ensures { ErasesAndLooks room.old room.new result }
{
    match erase_unheld(room) {
        Ok(_erased) => Ok(room.retired(0).is_none()),
        Err(fault) => Err(fault),
    }
}

/// Posts a view of all live parts to each seat, and publishes the sealed epoch; the passes take their views, and what no view names is erased. Answers
/// whether nothing is retired.
///
/// Behind a refusal it stopped in posting or in erasing, as `show_views` and `settle_views` do.
fn renew_and_erase<D: LogDisk>(
    hall: &RoomHall<D>,
    pass: &mut Pass<View<D::Eye>>,
    others: &mut [Pass<View<D::Eye>>],
    room: &mut Room<D>,
) -> Result<bool, RoomFault>
    requires part { AreInTurn hall.now room.old pass.old others.old }
    ensures goes { StayInTurn hall.now pass.old pass.new others.old others.new }
    ensures job { KeepsJob room.old.room room.new.room }
    ensures round { RoundOr (beginning_of hall.now) room.old room.new pass.new others.new result }
{
    match post_and_publish(hall, pass, room) {
        Ok(_epoch) => {
            refresh_all(hall, pass, others, room);
            erase_and_look(room)
        }
        Err(fault) => Err(fault),
    }
}

/// Renews the views of all passes and erases what none names until nothing is retired, or up to the last round: some rounds, each of which left something
/// retired, and one more. The sealed epoch is published then. Answers whether nothing is retired.
///
/// Behind a refusal some rounds came to their end, each of which left something retired, and the next one stopped; nothing else was done to the
/// chain, the epochs, the buffers of the board, and what is retired, free or lost.
fn clear<D: LogDisk>(
    hall: &RoomHall<D>,
    pass: &mut Pass<View<D::Eye>>,
    others: &mut [Pass<View<D::Eye>>],
    room: &mut Room<D>,
) -> Result<bool, RoomFault>
    requires part { AreInTurn hall.now room.old pass.old others.old }
    requires none_waits { room.old.room.waiting ≡ 0 }
    requires no_job { room.old.room.job ≡ None }
    ensures goes { StayInTurn hall.now pass.old pass.new others.old others.new }
    ensures no_job { room.new.room.job ≡ None }
    ensures clears { ClearsOr (beginning_of hall.now) room.old room.new pass.new others.new result }
{
    for _ in 0..ROUNDS {
        match renew_and_erase(hall, pass, others, room) {
            Ok(is_done) => {
                if is_done {
                    let _whole = room.counts();
                    return Ok(true);
                }
            }
            Err(fault) => return Err(fault),
        }
    }
    Ok(false)
}

/// Clears a room in which two were merged.
fn clear_merged<D: LogDisk>(
    hall: &RoomHall<D>,
    pass: &mut Pass<View<D::Eye>>,
    others: &mut [Pass<View<D::Eye>>],
    room: &mut Room<D>,
) -> Result<Space, MergeFault>
    requires part { AreInTurn hall.now room.old pass.old others.old }
    requires none_waits { room.old.room.waiting ≡ 0 }
    requires no_job { room.old.room.job ≡ None }
    ensures goes { StayInTurn hall.now pass.old pass.new others.old others.new }
    ensures no_job { room.new.room.job ≡ None }
    ensures turn { GoesOn (beginning_of hall.now) room.new pass.new result }
    ensures ahead { IfOk result (λ made. IsAhead state_of (beginning_of hall.now) pass.new × AllAhead (beginning_of hall.now) others.new) }
    ensures publishes { IfOk result (λ made. published pass.new ≡ room.new.room.sealed) }
    ensures clears { ClearsMergedOr (beginning_of hall.now).seats room.old room.new result }
{
    match clear(hall, pass, others, room) {
        Ok(is_cleared) => {
            if is_cleared {
                return Ok(Space::Made);
            }
            Ok(Space::Held)
        }
        Err(fault) => Err(MergeFault::Room(fault)),
    }
}

/// Merges the first neighbours that fit, in a room that was cleared, and clears it again where two were merged.
fn merge_cleared<D: LogDisk>(
    alloc: Global,
    hall: &RoomHall<D>,
    pass: &mut Pass<View<D::Eye>>,
    others: &mut [Pass<View<D::Eye>>],
    room: &mut Room<D>,
    from: u64,
    had_retired: bool,
) -> Result<Space, MergeFault>
    requires part { AreInTurn hall.now room.old pass.old others.old }
    requires cleared { IsCleared room.old }
    requires ahead { IsAhead state_of (beginning_of hall.now) pass.old × AllAhead (beginning_of hall.now) others.old }
    requires publishes { published pass.old ≡ room.old.room.sealed }
    ensures goes { StayInTurn hall.now pass.old pass.new others.old others.new }
    ensures no_job { room.new.room.job ≡ None }
    ensures turn { GoesOn (beginning_of hall.now) room.new pass.new result }
    ensures ahead { IfOk result (λ made. IsAhead state_of (beginning_of hall.now) pass.new × AllAhead (beginning_of hall.now) others.new) }
    ensures publishes { IfOk result (λ made. published pass.new ≡ room.new.room.sealed) }
    ensures merges { MergesClearedOr (beginning_of hall.now).seats from had_retired room.old room.new result }
    ensures damage { OnDamage result (NotBegan (beginning_of hall.now)) }
{
    match merge_through(alloc, room, from) {
        Ok(merged) => {
            let left = room.counts();
            if !merged {
                return Ok(space_of(had_retired, left.free));
            }
            clear_merged(hall, pass, others, room)
        }
        Err(fault) => Err(fault),
    }
}

/// Clears a room in which nothing waits, merges the first neighbours that fit, and clears it again where two were merged.
fn clear_and_merge<D: LogDisk>(
    alloc: Global,
    hall: &RoomHall<D>,
    pass: &mut Pass<View<D::Eye>>,
    others: &mut [Pass<View<D::Eye>>],
    room: &mut Room<D>,
    from: u64,
) -> Result<Space, MergeFault>
    requires part { AreInTurn hall.now room.old pass.old others.old }
    requires none_waits { room.old.room.waiting ≡ 0 }
    requires no_job { room.old.room.job ≡ None }
    ensures goes { StayInTurn hall.now pass.old pass.new others.old others.new }
    ensures no_job { room.new.room.job ≡ None }
    ensures turn { GoesOn (beginning_of hall.now) room.new pass.new result }
    ensures ahead { IfOk result (λ made. IsAhead state_of (beginning_of hall.now) pass.new × AllAhead (beginning_of hall.now) others.new) }
    ensures publishes { IfOk result (λ made. published pass.new ≡ room.new.room.sealed) }
    ensures makes { MakesOr (beginning_of hall.now).seats from room.old room.new result }
    ensures damage { OnDamage result (NotBegan (beginning_of hall.now)) }
{
    let had_retired = room.retired(0).is_some();
    match clear(hall, pass, others, room) {
        Ok(is_cleared) => {
            if !is_cleared {
                return Ok(Space::Held);
            }
            merge_cleared(alloc, hall, pass, others, room, from, had_retired)
        }
        Err(fault) => Err(MergeFault::Room(fault)),
    }
}

/// Makes room where nothing waits, and does nothing where some entry does.
fn make_space<D: LogDisk>(
    alloc: Global,
    hall: &RoomHall<D>,
    pass: &mut Pass<View<D::Eye>>,
    others: &mut [Pass<View<D::Eye>>],
    room: &mut Room<D>,
    from: u64,
) -> Result<Space, MergeFault>
    requires part { AreInTurn hall.now room.old pass.old others.old }
    requires no_job { room.old.room.job ≡ None }
    ensures goes { StayInTurn hall.now pass.old pass.new others.old others.new }
    ensures no_job { room.new.room.job ≡ None }
    ensures turn { GoesOn (beginning_of hall.now) room.new pass.new result }
    ensures ahead { OnRenewed result (IsAhead state_of (beginning_of hall.now) pass.new × AllAhead (beginning_of hall.now) others.new) }
    ensures publishes { OnRenewed result (published pass.new ≡ room.new.room.sealed) }
    ensures makes { MakesOr (beginning_of hall.now).seats from room.old room.new result }
    ensures same_open { SameOpen room.old.room room.new.room }
    ensures none_open { NoneOpen room.old.room result }
    ensures damage { OnDamage result (NotBegan (beginning_of hall.now)) }
{
    if room.counts().waiting != 0 {
        return Ok(Space::Waits);
    }
    let made = clear_and_merge(alloc, hall, pass, others, room, from);
    let _left = room.counts();
    made
}

/// Makes room in the log of a hall, with all its passes: the one of the seat 1, which has no merge out, and the others. It is one turn of the
/// first, without an entry, which leaves the epochs as they are. Where some entry waits it does nothing, and answers `Waits`. Else each seat is posted a view
/// of all live parts, which its pass takes, until no view names what is retired, and that is erased; then the first neighbours that fit are merged, through a
/// view that is made for it, and in the same way the two are erased. Tried are first the neighbours of which the older one begins at an epoch or later, in
/// chain order, and then those before it.
///
/// Clearing is one to three whole rounds of posting and erasing, and the sealed epoch is published. After `Made`, `Enough` and `Stuck` nothing is retired, no
/// merge is out, and each region that is of no live part is free. `Made` where two were merged, or something was retired and no two fit. `Enough` and `Stuck`
/// exactly where nothing was retired and no two neighbours fit what is free, by what a read of the disk gives: `Stuck` with fewer than two free regions, in the
/// same turn. `Held` where something is retired still behind three rounds: behind those of a first clearing nothing was merged, else two were.
///
/// `Disk` comes only where the disk failed in this call, and the room is shut; `Shut` only where it was shut before, and the turn leaves it as it was: one
/// that is shut, and in which some entry waits, answers `Waits`. After `NoMemory` it is open. After a refusal of a read it is cleared, and the chain is as it was
/// then; a bad place is named only where the log at entry was not told, or not sound. After `Disk` and `NoMemory` it stopped in clearing, in merging once the
/// room was cleared, or in clearing behind two that were merged, which may be retired still. Clearing that stopped did two whole rounds at most, and of the next
/// one what `show_views` and `settle_views` leave behind such a refusal, and nothing else was done to the chain, the buffers of the board, and what is retired,
/// free or lost.
///
/// It may wait for the room. With all passes of the hall here two rounds of views are enough, since no other view is out then, which no clause says; where
/// one is missing, what its views name is held.
pub fn try_room<D: LogDisk, W: Wait>(
    rt: &W,
    alloc: Global,
    hall: &RoomHall<D>,
    pass: &mut Pass<View<D::Eye>>,
    others: &mut [Pass<View<D::Eye>>],
    from: u64,
) -> Result<Space, MergeFault>
    requires pass { IsRoomPass hall.now pass.old }
    requires others { (i : ℕ) (p : RoomPass) → get_elem? others.old i ≡ some p → IsRoomPass hall.now p }
    requires free { LacksPlace pass.old places.room }
    requires first { pass.old.number ≡ 1 }
    requires no_job { LacksJob (beginning_of hall.now) pass.old }
    ensures pass { IsRoomPass hall.now pass.new × (pass.new.number ≡ pass.old.number) }
    ensures others { (i : ℕ) (p : RoomPass) → get_elem? others.new i ≡ some p → IsRoomPass hall.now p }
    ensures numbers { map (λ p. p.number) others.new ≡ map (λ p. p.number) others.old }
    ensures renews { RenewsEach (beginning_of hall.now) others.old others.new }
    ensures ahead { OnRenewed result (IsAhead state_of (beginning_of hall.now) pass.new × AllAhead (beginning_of hall.now) others.new) }
    ensures tries { TriesRoom (beginning_of hall.now) from pass.old pass.new result }
{
    let mut held = begin_turn(rt, hall, pass);
    let made = make_space(alloc, hall, pass, others, held.room(), from);
    end_turn(hall, pass, held);
    made
}
