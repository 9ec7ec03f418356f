//! Many transactions of one put each.

ghost use Rattle.std.specs.Prelude.{◌≡◌, ◌≤◌, ◌<◌, ◌*◌, ℕ, [], length, All, IfOk, IfSome, slice_index_or, vec_len, vec_capacity};
ghost use Rattle.fine_model.specs.Bounds.{FitsCall};
ghost use Rattle.fine_hall.specs.Halls.{AreAll};
ghost use Rattle.hall_rooms.specs.Rooms.{RoomPass, beginning_of};
ghost use Rattle.txn_engine.specs.Txns.{IsBlankTxn};
ghost use Rattle.hall_accounts.specs.Going.{AreTwo, IsAtRest};

use crate::accounts::{put_bytes, put_of};
use crate::halls::{Two, end_two};
use crate::transfers::{Ended, fresh, run, seat_of};
use epoch_room::Counts;
use fine_hall::Pass;
use fine_model::{Call, bucket_of};
use log_disk::{LogDisk, MemDisk, MemEye};
use partition_hold::View;
use std::alloc::{AllocError, Global};
use std::sync::Wait;
use std::thread;
use std::thread::Threads;
use txn_engine::{Opened, RoomHall, Txn, close_hall};

/// What is put.
#[derive(Clone, Copy, Debug, PartialEq, Eq)]
pub enum Load {
    /// One pair, of a byte and a byte.
    Short,
    /// Keys of 12 bytes with values of 100: 400 in turn, as many as 100,000 keys have in each of 256 buckets.
    Long,
}

/// How many transactions of one put each all passes commit together, and what is put.
#[derive(Clone, Copy, Debug, PartialEq, Eq)]
pub struct Workload {
    /// Each pass goes on until so many are committed by all, or it has tried so many itself. Of several passes each but one may so commit one more, which it had begun.
    pub times: u64,
    pub load: Load,
}

/// How far the buckets of two passes lie apart, so that their words share no cache line, as those of two of 256 buckets mostly do
/// not. That of the greatest seat is 252.
const APART: u8 = 14;

const KEYS: u64 = 400;

const VALUE: [u8; 100] = [b'v'; 100];

/// The key of 12 bytes with a number, of which the last one is chosen so that it is of a bucket: it is added to the sum that tells it.
fn key_in(bucket: u8, number: u64) -> [u8; 12] {
    let [a, b, c, d, e, f, g, h] = number.to_be_bytes();
    let mut key = [b'k', b'e', b'y', a, b, c, d, e, f, g, h, 0];
    let [low, _high] = bucket_of(&key).to_le_bytes();
    key[11] = bucket.wrapping_sub(low);
    key
}

/// Puts in a bucket of one's own.
#[derive(Clone, Copy)]
struct OwnPuts {
    alloc: Global,
    bucket: u8,
    load: Load,
}

impl OwnPuts {
    /// The put with a number. None where there is no memory.
    fn call(&self, number: u64) -> Option<Call>
        ensures { IfSome result FitsCall }
    {
        match self.load {
            Load::Short => put_of(self.alloc, self.bucket, 1),
            Load::Long => put_bytes(self.alloc, &key_in(self.bucket, number % KEYS), &VALUE),
        }
    }
}

/// Whether a transaction was committed at a place or behind it.
fn has_reached(place: u64, ended: &Ended) -> bool {
    match ended {
        Ended::Committed(done) => place <= done.stamp.place,
        _ => false,
    }
}

/// Transactions of one put each, until all passes together have committed so many, or this one has tried so many. Where memory is wanting it ends early.
fn put_often<D: LogDisk, W: Wait>(
    rt: &W,
    txn: &mut Txn,
    hall: &RoomHall<D>,
    pass: &mut Pass<View<D::Eye>>,
    puts: &OwnPuts,
    times: u64,
)
    requires idle { IsAtRest hall.now pass.old }
    requires free { IsBlankTxn txn.old }
    ensures idle { IsAtRest hall.now pass.new × (pass.new.number ≡ pass.old.number) }
{
    for number in 0..times {
        let Some(call) = puts.call(number) else {
            return;
        };
        let calls = [call];
        let ended: Ended = run(rt, txn, hall, pass, &calls, 0);
        if has_reached(times, &ended) {
            return;
        }
    }
}

/// Transactions of one put each, in a bucket that is the pass's own, until all passes together have committed so many, or this one has tried so many. Where memory is wanting it ends early.
pub fn puts<D: LogDisk, W: Wait>(
    rt: &W,
    alloc: Global,
    hall: &RoomHall<D>,
    mut pass: Pass<View<D::Eye>>,
    workload: Workload,
) -> Pass<View<D::Eye>>
    requires idle { IsAtRest hall.now pass }
    ensures idle { IsAtRest hall.now result × (result.number ≡ pass.number) }
{
    let seat = seat_of(&pass);
    let Some(mut txn) = fresh(alloc, seat) else {
        return pass;
    };
    let own = OwnPuts {
        alloc,
        bucket: seat.saturating_mul(APART),
        load: workload.load,
    };
    put_often(rt, &mut txn, hall, &mut pass, &own, workload.times);
    pass
}

/// Lets the first pass of a hall do so many transactions of one put each, and ends the hall: the room in numbers. None where there is no memory.
pub fn puts_by_one<W: Wait>(
    rt: &W,
    alloc: Global,
    opened: Two,
    workload: Workload,
) -> Option<Counts>
    requires two { AreTwo opened.hall opened.one opened.two opened.spare.items (vec_capacity opened.spare) }
{
    let Two {
        hall,
        one,
        two,
        spare,
    } = opened;
    let one = puts(rt, alloc, &hall, one, workload);
    let room = end_two(alloc, hall, one, two, spare)?;
    Some(room.counts())
}

/// So many transactions of one put each by all passes together, each of which is on a thread of its own.
fn at_once<R: Threads + Wait + Sync>(
    rt: &R,
    alloc: Global,
    hall: &RoomHall<MemDisk>,
    passes: Vec<Pass<View<MemEye>>>,
    workload: Workload,
) -> Result<Vec<Pass<View<MemEye>>>, AllocError>
    requires passes { All (IsAtRest hall.now) passes.items }
    ensures idle { IfOk result (λ back. All (IsAtRest hall.now) back.items) }
    ensures numbers { IfOk result (λ back. (i : ℕ) (d : RoomPass) → i < vec_len passes → (slice_index_or back.items i d).number ≡ (slice_index_or passes.items i d).number) }
    ensures len { IfOk result (λ back. vec_len back ≡ vec_len passes) }
{
    let work = |pass: Pass<View<MemEye>>| -> Pass<View<MemEye>>
        requires { IsAtRest hall.now pass }
        ensures { IsAtRest hall.entry.now result × (result.number ≡ pass.number) }
    { puts(rt, alloc, hall, pass, workload) };
    thread::map_vec(rt, passes, &work)
}

/// Lets all passes of a hall commit so many transactions of one put each together, each pass on a thread of its own, and ends the hall: the room in numbers. All threads are at it until the last
/// of these places is given, however unlike their processors are. Where commits are refused or memory is wanting there are fewer. None where there is no memory for the passes.
pub fn puts_at_once<R: Threads + Wait + Sync>(
    rt: &R,
    alloc: Global,
    opened: Opened<MemDisk>,
    workload: Workload,
) -> Option<Counts>
    requires seats { 1 ≤ (beginning_of opened.hall).seats }
    requires count { length opened.passes.items ≡ (beginning_of opened.hall).seats }
    requires idle { All (IsAtRest opened.hall) opened.passes.items }
    requires all { AreAll (beginning_of opened.hall).seats opened.passes.items }
    requires spare { (opened.spare.items ≡ []) × (2 * (beginning_of opened.hall).seats ≤ vec_capacity opened.spare) }
{
    let Opened {
        hall,
        passes,
        spare,
    } = opened;
    let Ok(passes) = at_once(rt, alloc, &hall, passes, workload) else {
        return None;
    };
    Some(close_hall(hall, passes, spare).counts())
}
