//! Where the bytes of a part's body stand on the disk.

ghost use Rattle.std.specs.Prelude.{◌≡◌, ◌+◌, ◌<◌, ◌≤◌, Contains, IsErr, length};
ghost use Rattle.fine_model.specs.Chain.{regions_of};
ghost use Rattle.fine_model.specs.Regions.{place_of, body_len};
ghost use Rattle.partition_index.specs.Parts.{LiesIn, IsSeen, LooksAt};
ghost use Rattle.partition_index.specs.Placing.{PlacedLaw, FrontLaw};

use fine_model::{Part, body_start};
use log_disk::{Failed, LogEye};

/// The region that holds a byte of a part's body, and the byte's place in it.
#[tactic(auto, unfolding(fine_model::specs::Regions::place_of))]
pub fn place_of(part: &Part, region_len: u64, at: u32) -> (u32, u32)
    requires lies { LiesIn region_len part.now.header }
    requires within { at < body_len part.now.header }
    ensures region { result.0 ≡ (place_of region_len part.now.region part.now.header at).region }
    ensures place { result.1 ≡ (place_of region_len part.now.region part.now.header at).at }
    ensures of_part { Contains (regions_of part.now) result.0 }
    ensures in_region { result.1 < region_len }
{
    let start = body_start(part.header.mark);
    let in_lead = region_len - start;
    let at = u64::from(at);
    if at < in_lead {
        return (part.region, (start + at) as u32);
    }
    let behind = at - in_lead;
    let step = region_len - 1;
    (
        part.header.more[(behind / step) as usize],
        (1 + behind % step) as u32,
    )
}

/// Reads a range of a part's body, which may lie over several of its regions.
///
/// `Failed` comes only where the eye's count of faults rose in this call; what `out` then holds is not told. The bytes taken rise
/// by the length of `out`, and by no more where the call failed.
pub fn read_body<E: LogEye>(
    eye: &mut E,
    part: &Part,
    region_len: u64,
    at: u32,
    out: &mut [u8],
) -> Result<(), Failed>
    requires seen { IsSeen (E.LogEye.state eye.old) part.now }
    requires region_len { region_len ≡ (E.LogEye.state eye.old).region_len }
    requires within { at + length out.old ≤ body_len part.now.header }
    ensures { LooksAt part.now at out.new (IsErr result) (E.LogEye.state eye.old) (E.LogEye.state eye.new) }
{
    let mut done = 0;
    while done < out.len() {
        let (region, from) = place_of(part, region_len, at + done as u32);
        let room = (region_len - u64::from(from)) as usize;
        let end = out.len().min(done + room);
        eye.read(region, u64::from(from), &mut out[done..end])?;
        done = end;
    }
    Ok(())
}

/// Bytes that are written where `place_of` says, and do not pass the end of that region, stand at this offset of the body, and no
/// other byte of the body, no gate and no other region changes. Bytes that are written to the lead before its body, as a gate or a
/// header, leave the body.
pub fn placed_law()
    ensures placed { PlacedLaw }
    ensures front { FrontLaw }
{}
