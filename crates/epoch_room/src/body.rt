//! Bytes of a part's body, written behind the gates of its regions.

ghost use Rattle.std.specs.Prelude.{◌+◌, ◌≤◌, ◌<◌, ◌≡◌, [], ◌∷◌, length};
ghost use Rattle.fine_model.specs.Regions.{place_of, body_len};
ghost use Rattle.epoch_room.specs.BodyWrites.{HasPlace, WritesBody, lying_in};

use crate::answers::DiskResult;
use fine_model::Part;
use log_disk::LogDisk;
use partition_index::place_of;

/// Writes bytes of a part's body that do not pass the end of the region in which they begin.
fn write_piece<D: LogDisk>(disk: &mut D, part: &Part, at: u32, bytes: &[u8]) -> DiskResult<()>
    requires place { HasPlace (D.state disk.old) part.now }
    requires some { 1 ≤ length bytes.now }
    requires within { at + length bytes.now ≤ body_len part.now.header }
    requires in_region { (place_of (D.state disk.old).region_len part.now.region part.now.header at).at + length bytes.now ≤ (D.state disk.old).region_len }
    ensures { WritesBody ((place_of (D.state disk.old).region_len part.now.region part.now.header at).region ∷ []) part.now at bytes.now result (D.state disk.old) (D.state disk.new) }
{
    let (region, from) = place_of(part, disk.region_len(), at);
    disk.write(region, u64::from(from), bytes)
}

/// Writes bytes of a part's body, by two writes at most: at the end of a region they go on behind the gate of the next one.
pub fn write_body<D: LogDisk>(disk: &mut D, part: &Part, at: u32, bytes: &[u8]) -> DiskResult<()>
    requires place { HasPlace (D.state disk.old) part.now }
    requires within { at + length bytes.now ≤ body_len part.now.header }
    requires few { length bytes.now < (D.state disk.old).region_len }
    ensures { WritesBody (lying_in (D.state disk.old).region_len part.now.region part.now.header at (length bytes.now)) part.now at bytes.now result (D.state disk.old) (D.state disk.new) }
{
    if bytes.is_empty() {
        return Ok(());
    }
    let region_len = disk.region_len();
    let (_region, from) = place_of(part, region_len, at);
    let room = (region_len - u64::from(from)) as usize;
    let (front, back) = bytes.split_at(room.min(bytes.len()));
    write_piece(disk, part, at, front)?;
    if back.is_empty() {
        return Ok(());
    }
    write_piece(disk, part, at + front.len() as u32, back)
}
