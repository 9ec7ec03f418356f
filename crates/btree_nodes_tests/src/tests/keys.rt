//! The keys of one bucket.

ghost use Rattle.std.specs.Prelude.{◌≡◌, true};
ghost use Rattle.fine_model.specs.RowBytes.{FitsKey};
ghost use Rattle.fine_model.specs.Trees.{bucket_of};

use fine_model::{NoMemory, bucket_of};
use node_cache::Bucket;
use std::alloc::Global;

/// The key at a place in order among those of so many pieces, where each is `Aa` or `BB`. All keys of five pieces, as all of thirteen,
/// have one bucket, 64.
pub fn key_at(alloc: Global, place: u32, pieces: u32) -> Result<Vec<u8>, NoMemory> {
    let mut key = Vec::new(alloc);
    let mut left = place;
    let mut span = 1u32;
    for _piece in 1..pieces {
        span = span.saturating_mul(2);
    }
    for _piece in 0..pieces {
        let piece = if left < span { b"Aa" } else { b"BB" };
        key.extend_from_slice(piece)?;
        left = if left < span { left } else { left - span };
        span /= 2;
    }
    Ok(key)
}

/// Whether a key may be asked of a bucket.
pub fn is_of(bucket: &Bucket, key: &[u8]) -> bool
    ensures key { result ≡ true → FitsKey key.now }
    ensures bucket { result ≡ true → bucket.now.bucket ≡ bucket_of key.now }
{
    !key.is_empty() && key.len() <= 64 && bucket_of(key) == bucket.bucket()
}
