//! Places of a part's body, told as places of the disk.

ghost use Rattle.std.specs.Prelude.{◌≡◌, ◌<◌};
ghost use Rattle.fine_model.specs.declared.FetchFault.TheVariants as fetch_fault;
ghost use Rattle.fine_model.specs.Regions.{place_of, body_len};
ghost use Rattle.partition_index.specs.Parts.{LiesIn};
ghost use Rattle.node_fetch.specs.Fetched.{index_fault};

use fine_model::{FetchFault, Part};
use partition_index::place_of;

/// A bad index entry at an offset of a part's body.
pub fn bad_index(part: &Part, region_len: u64, at: u32) -> FetchFault
    requires lies { LiesIn region_len part.now.header }
    requires within { at < body_len part.now.header }
    ensures { result ≡ index_fault (place_of region_len part.now.region part.now.header at) }
{
    let (region, at) = place_of(part, region_len, at);
    FetchFault::BadIndex { region, at }
}
