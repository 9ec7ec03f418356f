//! A view as the source of the nodes of buckets.

ghost use Rattle.std.specs.Prelude.{◌≡◌, ◌<◌, IfErr, OnErr, OnOk};
ghost use Rattle.fine_model.specs.RowBytes.{node_numbers, buckets};
ghost use Rattle.node_cache.specs.Given.{IsCached, IsLoad, OnCleanLoad, SameNodes};
ghost use Rattle.partition_hold.specs.Sources.{Fails, IsClean, IsLater, finds_in, tells_rows};

use crate::view::View;
use fine_model::{FetchFault, NodeId};
use log_disk::LogEye;
use node_cache::{Bucket, Cached, NodeSource};

impl<E: LogEye> NodeSource for View<E> {
    ghost use Rattle.partition_hold.specs.Sources.{Fails, IsClean, IsLater, finds_in, tells_rows};
    ghost use Rattle.partition_hold.specs.SourceLaws as laws;

    ghost tells = { tells_rows };

    ghost finds = { finds_in };

    ghost upper = { λ v. v.upto };

    ghost later = { IsLater };

    ghost clean = { IsClean };

    ghost fails = { Fails };

    ghost later_itself = { laws.later_itself };

    ghost later_on = { laws.later_on };

    ghost later_tells = { laws.later_tells };

    ghost tells_before = { laws.tells_before };

    ghost finds_before = { laws.finds_before };

    ghost later_upper = { laws.later_upper };

    ghost clean_itself = { laws.clean_itself };

    ghost clean_on = { laws.clean_on };

    ghost fails_earlier = { laws.fails_earlier };

    ghost fails_told = { laws.fails_told };

    /// Caches a node that is not cached, as the replay of what was read of the view's parts, and exactly what the view's rows leave there.
    ///
    /// With a fault, no node is cached that was not before. `Failed` comes only where the eye's count of faults rose in this call, and
    /// `BadRow` and `BadIndex` only with a place that is bad by the bytes that were read, and only where the view tells no rows. A call
    /// that answers anything but `Failed` leaves the count. The view is as before but for its eye's counts.
    fn load(&mut self, bucket: &mut Bucket, number: u32) -> Result<(), FetchFault>
        requires bucket { bucket.old.bucket < buckets }
        requires number { number < node_numbers }
        ensures later { IsLater self.old self.new }
        ensures clean { OnCleanLoad result (IsClean self.old self.new) }
        ensures load { IsLoad (tells_rows self.old) (finds_in self.old) self.old.upto number bucket.old bucket.new }
        ensures there { OnOk result (IsCached bucket.new number) }
        ensures none { OnErr result (SameNodes bucket.old bucket.new) }
        ensures fails { IfErr result (λ fault. Fails self.old fault self.new) }
    {
        if bucket.peek(number).is_some() {
            return Ok(());
        }
        let (node, version) = self.fetch(NodeId {
            bucket: bucket.bucket(),
            number,
        })?;
        let kept = Cached {
            node,
            version,
            epoch: self.upto(),
        };
        match bucket.put(number, kept) {
            Ok(()) => Ok(()),
            Err(_) => Err(FetchFault::NoMemory),
        }
    }
}
