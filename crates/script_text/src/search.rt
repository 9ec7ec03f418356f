//! Where a byte stands.

ghost use Rattle.std.specs.Prelude.{◌≡◌, ◌≢◌, ℕ, ◌<◌, ◌≤◌, length, slice_index};

use memchr::memchr;

/// The place of the first such byte, or how many bytes there are.
pub(crate) fn place_of(byte: u8, bytes: &[u8]) -> usize
    ensures within { result ≤ length bytes.now }
    ensures before { (k : ℕ) → k < result → slice_index bytes.now k ≢ byte }
    ensures there { result < length bytes.now → slice_index bytes.now result ≡ byte }
{
    memchr(byte, bytes).unwrap_or(bytes.len())
}
