//! Where nodes come from that a bucket has not.

ghost use Rattle.std.specs.Prelude.{◌≡◌, ℕ, ◌<◌, List, OnOk, OnErr, IfErr};
ghost use Rattle.fine_model.specs.declared.NodeId.{NodeId};
ghost use Rattle.fine_model.specs.declared.Row.{Row};
ghost use Rattle.fine_model.specs.Nodes.{Content};
ghost use Rattle.fine_model.specs.declared.FetchFault.{FetchFault as Fault};
ghost use Rattle.fine_model.specs.RowBytes.{buckets, node_numbers};
ghost use Rattle.node_cache.specs.Given.{Finds, IsCached, IsLoad, SameNodes, OnCleanFault, OnCleanLoad};

use crate::Bucket;
use fine_model::FetchFault;

/// A source of nodes, by the lists of rows that it tells and their last epoch.
pub trait NodeSource {
    ghost tells: { Self → List Row → Type 0 };

    // the contents that it may find in a node, whatever is told
    ghost finds: { Self → Finds };

    ghost upper: { Self → ℕ };

    // the second state is that of the first, some loads later
    ghost later: { Self → Self → Type 0 };

    // and none of these loads failed
    ghost clean: { Self → Self → Type 0 };

    // what holds between the states before and after a load that answers a fault
    ghost fails: { Self → Fault → Self → Type 0 };

    /// Caches a node that is not cached, as a content that the source finds in it, and exactly what the source's rows leave there, a broken node included.
    /// With a fault, no node is cached that was not before.
    fn load(&mut self, bucket: &mut Bucket, number: u32) -> Result<(), FetchFault>
        requires bucket { bucket.old.bucket < buckets }
        requires number { number < node_numbers }
        ensures later { later self.old self.new }
        ensures clean { OnCleanLoad result (clean self.old self.new) }
        ensures load { IsLoad (tells self.old) (finds self.old) (upper self.old) number bucket.old bucket.new }
        ensures there { OnOk result (IsCached bucket.new number) }
        ensures none { OnErr result (SameNodes bucket.old bucket.new) }
        ensures fails { IfErr result (λ fault. fails self.old fault self.new) };

    ghost later_itself: { (s : Self) → later s s };

    ghost later_on: { (s t u : Self) → later s t → later t u → later s u };

    ghost later_tells: { (s t : Self) (rows : List Row) → later s t → tells s rows → tells t rows };

    ghost tells_before: { (s t : Self) (rows : List Row) → later s t → tells t rows → tells s rows };

    ghost finds_before: { (s t : Self) (id : NodeId) (found : Content) → later s t → finds t id found → finds s id found };

    ghost later_upper: { (s t : Self) → later s t → upper t ≡ upper s };

    ghost clean_itself: { (s : Self) → clean s s };

    ghost clean_on: { (s t u : Self) → clean s t → clean t u → clean s u };

    ghost fails_earlier: { (s t u : Self) (fault : Fault) → later s t → fails t fault u → fails s fault u };

    // where the source tells rows, no fault of it is damage
    ghost fails_told: { (s t : Self) (rows : List Row) (fault : Fault) → tells s rows → fails s fault t → OnCleanFault fault ⊥ };
}
