//! Headers, written.

ghost use Rattle.std.specs.Prelude.{◌≡◌, ◌+◌, ◌≤◌, ◌∷◌, ◌++◌, length, flat_map};
ghost use Rattle.std.specs.Int.{to_be_bytes, w32};
ghost use Rattle.fine_model.specs.Regions.{header_bytes, mark_bytes};
ghost use Rattle.log_partition.specs.Headers.{padding, Fills, front};
ghost use Rattle.log_partition.specs.Written.{WrittenHeaderLaw, WrittenPartitionLaw};

use fine_model::{Header, Mark};

/// The bytes of a mark.
fn mark_bytes(mark: Mark) -> [u8; 4]
    ensures { result ≡ mark_bytes mark }
{
    match mark {
        Mark::One => *b"FLP1",
        Mark::Two => *b"FLP2",
        Mark::Three => *b"FLP3",
    }
}

/// Writes a field behind those that stand there.
fn put(bytes: &mut [u8; 69], at: usize, field: &[u8])
    requires { at + length field.now ≤ 69 }
    ensures { Fills bytes.old bytes.new at field.now (at + length field.now) }
{
    let end = at + field.len();
    bytes[at..end].copy_from_slice(field);
}

/// Writes what headers of all marks have.
#[tactic(auto, unfolding(crate::specs::Headers::front))]
fn put_front(bytes: &mut [u8; 69], header: &Header, region_len: u64)
    ensures { Fills bytes.old bytes.new 0 (front region_len header.now) 40 }
{
    put(bytes, 0, &mark_bytes(header.mark));
    put(bytes, 4, &region_len.to_be_bytes());
    put(bytes, 12, &header.range.first.to_be_bytes());
    put(bytes, 20, &header.range.last.to_be_bytes());
    put(bytes, 28, &header.rows.to_be_bytes());
    put(bytes, 32, &header.nodes.to_be_bytes());
    put(bytes, 36, &header.area.to_be_bytes());
}

/// Writes the number of regions, and those behind the lead.
fn put_regions(bytes: &mut [u8; 69], header: &Header)
    ensures { Fills bytes.old bytes.new 40 (header.now.regions ∷ flat_map (to_be_bytes w32) header.now.more) 69 }
{
    put(bytes, 40, &[header.regions]);
    for i in 0..7 {
        put(bytes, 41 + 4 * i, &header.more[i].to_be_bytes());
    }
}

/// A header from byte 1 of its region on. Those of marks `FLP1` and `FLP2` have 40 bytes, and zeros follow. Takes no memory.
pub fn header_bytes(header: &Header, region_len: u64) -> [u8; 69]
    ensures { result ≡ header_bytes region_len header.now ++ padding header.now.mark }
{
    let mut bytes = [0; 69];
    put_front(&mut bytes, header, region_len);
    match header.mark {
        Mark::Three => put_regions(&mut bytes, header),
        _ => {}
    }
    bytes
}

/// The gate and the bytes of a good header are read as this header, whatever follows them and over however many regions its partition
/// lies. Where its rows and their index are the body, they are in the grammar.
pub fn written_law()
    ensures header { WrittenHeaderLaw }
    ensures partition { WrittenPartitionLaw }
{}
