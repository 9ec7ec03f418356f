//! Halls on new disks in memory, with their passes.

ghost use Rattle.std.specs.Prelude.{◌≡◌, ◌≤◌, ◌%◌, ◌*◌, [], ◌∷◌, length, All, IfOk, IfSome, vec_capacity};
ghost use Rattle.fine_model.specs.Buckets.{Began};
ghost use Rattle.fine_hall.specs.Passes.{own_turns};
ghost use Rattle.fine_hall.specs.Halls.{AreAll};
ghost use Rattle.fine_hall.specs.declared.pass.Pass.{Pass as HallPass};
ghost use Rattle.hall_rooms.specs.Rooms.{beginning_of};
ghost use Rattle.hall_rooms.specs.Closing.{ClosesHall};
ghost use Rattle.hall_accounts.specs.Halls.{AreFresh, IsNewRoom};
ghost use Rattle.hall_accounts.specs.Going.{AreTwo, IsAtRest};

use epoch_room::Room;
use fine_hall::Pass;
use fine_model::Items;
use log_disk::{FaultPlan, LogDisk, LogEye, MemDisk, MemEye};
use partition_hold::View;
use std::alloc::{AllocError, Global};
use txn_engine::{Opened, RoomHall, close_hall, open_hall};

/// A room on a new disk of eight regions.
fn new_room(alloc: Global, region_len: u64, plan: FaultPlan) -> Option<Room<MemDisk>>
    requires low { 4096 ≤ region_len }
    requires high { region_len ≤ 67108864 }
    requires whole { region_len % 1024 ≡ 0 }
    ensures { IfSome result IsNewRoom }
{
    let Ok(disk) = MemDisk::new(alloc, 8, region_len, plan) else {
        return None;
    };
    match Room::make(alloc, disk, Items::new(alloc), Items::new(alloc)) {
        Ok(room) => Some(room),
        Err(_refused) => None,
    }
}

/// A hall of 1 to 18 seats on a new disk of eight regions in memory, which fails where the plan says so. None where there is no memory, or where the plan
/// lets no view be made.
pub fn open(alloc: Global, seats: u32, region_len: u64, plan: FaultPlan) -> Option<Opened<MemDisk>>
    requires seats { (1 ≤ seats) × (seats ≤ 18) }
    requires low { 4096 ≤ region_len }
    requires high { region_len ≤ 67108864 }
    requires whole { region_len % 1024 ≡ 0 }
    ensures seats { IfSome result (λ opened. (beginning_of opened.hall).seats ≡ seats) }
    ensures count { IfSome result (λ opened. length opened.passes.items ≡ seats) }
    ensures idle { IfSome result (λ opened. All (IsAtRest opened.hall) opened.passes.items) }
    ensures fresh { IfSome result (λ opened. AreFresh seats opened.passes.items) }
    ensures all { IfSome result (λ opened. AreAll (beginning_of opened.hall).seats opened.passes.items) }
    ensures new { IfSome result (λ opened. Began (beginning_of opened.hall).log 0 []) }
    ensures spare { IfSome result (λ opened. (opened.spare.items ≡ []) × (2 * (beginning_of opened.hall).seats ≤ vec_capacity opened.spare)) }
{
    let room = new_room(alloc, region_len, plan)?;
    match open_hall(alloc, room, seats) {
        Ok(opened) => Some(opened),
        Err(_refused) => None,
    }
}

/// A hall of two seats, with both its passes, and the memory that its end takes.
#[derive(Drop)]
pub struct Two {
    pub hall: RoomHall<MemDisk>,
    pub one: Pass<View<MemEye>>,
    pub two: Pass<View<MemEye>>,
    pub spare: Vec<View<MemEye>>,
}

/// The same with two seats: the pass of the seat 1, and that of the seat 2.
pub fn open_two(alloc: Global, region_len: u64, plan: FaultPlan) -> Option<Two>
    requires low { 4096 ≤ region_len }
    requires high { region_len ≤ 67108864 }
    requires whole { region_len % 1024 ≡ 0 }
    ensures two { IfSome result (λ made. AreTwo made.hall made.one made.two made.spare.items (vec_capacity made.spare)) }
    ensures fresh { IfSome result (λ made. (own_turns made.one ≡ []) × (own_turns made.two ≡ [])) }
    ensures new { IfSome result (λ made. Began (beginning_of made.hall).log 0 []) }
{
    let Opened {
        hall,
        mut passes,
        spare,
    } = open(alloc, 2, region_len, plan)?;
    let one = passes.pop()?;
    let two = passes.pop()?;
    Some(Two {
        hall,
        one,
        two,
        spare,
    })
}

fn pair<E: LogEye + Send>(
    alloc: Global,
    one: Pass<View<E>>,
    two: Pass<View<E>>,
) -> Result<Vec<Pass<View<E>>>, AllocError>
    ensures { IfOk result (λ passes. passes.items ≡ one ∷ two ∷ []) }
{
    let mut passes = Vec::with_capacity(alloc, 2)?;
    passes.push_reserved(one);
    passes.push_reserved(two);
    Ok(passes)
}

/// Ends a hall of two seats with both its passes, and hands out the room, with one list of all turns. None where there is no memory.
pub fn end_two<D: LogDisk>(
    alloc: Global,
    hall: RoomHall<D>,
    one: Pass<View<D::Eye>>,
    two: Pass<View<D::Eye>>,
    spare: Vec<View<D::Eye>>,
) -> Option<Room<D>>
    requires two { AreTwo hall one two spare.items (vec_capacity spare) }
    ensures closes { IfSome result (λ room. ClosesHall (beginning_of hall) (one ∷ two ∷ []) room) }
{
    match pair(alloc, one, two) {
        Ok(passes) => Some(close_hall(hall, passes, spare)),
        Err(_refused) => None,
    }
}
