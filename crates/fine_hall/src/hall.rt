//! The hall, and its buckets.

ghost use Rattle.std.specs.Prelude.{◌≡◌, ◌≢◌, ◌<◌, ◌≤◌, ◌∷◌, [], Some, IfOk, IfErr};
ghost use Rattle.fine_places.specs.History as places;
ghost use Rattle.fine_places.specs.Telling.{IsSized};

use crate::law::{Beginning, HallLaw, Load, Start};
use crate::pass::{Conflict, HallSeat, Pass};
use crate::turn::Turn;
use atomic_table::{Table, TableRule};
use fine_boxes::{Boxes, Reads};
use fine_model::{BucketLaw, RoomLaw, ViewLaw};
use fine_places::{PLACES, Rule, View, give, take};
use std::alloc::Global;

pub(crate) type Seat<R, B, V> = HallSeat<Load<R, B, V>>;

/// A hall by what its slots hold: a type may cross threads only where a parameter of its own may.
#[derive(Drop)]
pub struct HallTable<S, K, Q: TableRule<S, View<Beginning, Turn, Reads<Turn>>, K>> {
    pub(crate) table: Table<S, View<Beginning, Turn, Reads<Turn>>, K, Q, Global>,
    ghost sized: { IsSized table.shared.table_id },
}

/// One room, 256 buckets and three buffers of views for each seat, which passes take, give back, post and exchange, and the one
/// history of what they commit.
pub type Hall<R, B, V> = HallTable<
    Option<Load<R, B, V>>,
    Start<R, V>,
    Rule<HallLaw<R, B, V>, Boxes<HallLaw<R, B, V>>>,
>;

impl<R: RoomLaw, B: BucketLaw, V: ViewLaw> Hall<R, B, V> {
    ghost use Rattle.fine_model.specs.Buckets.{IsBucketFor};
    ghost use Rattle.fine_hall.specs.Passes.{HasPlace, LacksPlace, published, seen};
    ghost use Rattle.fine_hall.specs.Halls.{IsPassOf, begun, Takes, Gives, FindsHeld};

    /// How many seats the hall has, which any of its passes knows.
    pub fn seats(&self, pass: &Pass<V>) -> u32
        requires pass { IsPassOf R.state R.origin V.state self.now pass.now }
        ensures { result ≡ (begun R.state R.origin V.state self.now).seats }
    {
        (self.table.word_count() - PLACES - 1) as u32
    }

    /// Takes a bucket that the pass does not hold, or says which seat holds it. It never waits, and takes no memory.
    ///
    /// The bucket stands for the whole history so far, which the pass then saw, and no try found it held. A conflict comes exactly where
    /// a compare-exchange of this call found another seat's number, the only one that did, and changes nothing else.
    pub fn take_bucket(&self, pass: &mut Pass<V>, bucket: u16) -> Result<B, Conflict>
        requires pass { IsPassOf R.state R.origin V.state self.now pass.old }
        requires free { (bucket < places.room) × LacksPlace pass.old bucket }
        ensures pass { IsPassOf R.state R.origin V.state self.now pass.new × (pass.new.number ≡ pass.old.number) }
        ensures takes { IfOk result (λ content. Takes bucket pass.old pass.new) }
        ensures content { IfOk result (λ content. IsBucketFor B.bucket B.cached B.is_settled (begun R.state R.origin V.state self.now).log bucket (published pass.new) content (seen pass.new)) }
        ensures conflict { IfErr result (λ conflict. (conflict.bucket ≡ bucket) × FindsHeld (begun R.state R.origin V.state self.now) bucket conflict.owner pass.old pass.new) }
    {
        let mut seat: Seat<R, B, V> = pass.take_seat();
        let answer = take(
            &self.table.shared,
            &mut seat,
            usize::from(bucket),
            u64::from(pass.number),
        );
        pass.give_seat(seat);
        match answer {
            Ok(load) => {
                let Load::Bucket(content) = load else {
                    unreachable!()
                };
                Ok(content)
            }
            Err(owner) => Err(Conflict {
                bucket,
                owner: owner as u32,
            }),
        }
    }

    /// Gives back a bucket that the pass holds. It takes no memory.
    ///
    /// The content stands for the whole history that the pass saw.
    pub fn give_bucket(&self, pass: &mut Pass<V>, bucket: u16, content: B)
        requires pass { IsPassOf R.state R.origin V.state self.now pass.old }
        requires held { (bucket < places.room) × HasPlace pass.old bucket }
        requires stands { IsBucketFor B.bucket B.cached B.is_settled (begun R.state R.origin V.state self.now).log bucket (published pass.old) content (seen pass.old) }
        ensures pass { IsPassOf R.state R.origin V.state self.now pass.new × (pass.new.number ≡ pass.old.number) }
        ensures gives { Gives bucket pass.old pass.new }
    {
        let mut seat: Seat<R, B, V> = pass.take_seat();
        give(
            &self.table.shared,
            &mut seat,
            usize::from(bucket),
            Load::Bucket(content),
        );
        pass.give_seat(seat);
    }
}
