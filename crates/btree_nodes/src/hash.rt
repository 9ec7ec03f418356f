//! The number of a key's bucket.

ghost use Rattle.std.specs.Prelude.{◌≡◌, ℕ, ◌+◌, ◌%◌, ◌<◌, ◌≤◌, length, take, fold};
ghost use Rattle.fine_model.specs.Trees.{bucket_of};
ghost use Rattle.btree_nodes.specs.Hashes.{low_step, hash_of_word, IsFirstWord};

/// Each second byte of a word, the lowest one included.
const EVEN_BYTES: u64 = 0x00FF_00FF_00FF_00FF;

/// 195, 131, 67 and 3 in lanes of 16 bits, the highest first: these are 3 times 31^6, 31^4, 31^2 and 1 in the low byte, and their sums but the
/// highest stay within a lane.
const THREEFOLD: u64 = 0x00C3_0083_0043_0003;

/// What the eight bytes of a word, the lowest first, add to the low byte of a hash, in which 31^8 is 1. Two bytes and two are joined in lanes
/// of 16 bits, and the four lanes are summed by one product, three times as large, which 171 takes back.
#[tactic(auto, unfolding(crate::specs::Hashes::hash_of_word))]
fn hash_of_word(word: u64) -> u8
    ensures { result ≡ hash_of_word word }
{
    let joined = (word & EVEN_BYTES) * 31 + ((word >> 8) & EVEN_BYTES);
    let sum = (joined & EVEN_BYTES).wrapping_mul(THREEFOLD) >> 48;
    ((sum & 0xFF) as u8).wrapping_mul(171)
}

/// The first eight bytes as a word, the lowest first.
fn first_word(bytes: &[u8]) -> u64
    requires { 8 ≤ length bytes.now }
    ensures { IsFirstWord bytes.now result }
{
    u64::from_le_bytes([
        bytes[0], bytes[1], bytes[2], bytes[3], bytes[4], bytes[5], bytes[6], bytes[7],
    ])
}

/// What eight bytes add to the low byte of a hash.
fn hash_of_eight(bytes: &[u8]) -> u8
    requires { length bytes.now ≡ 8 }
    ensures { (low : ℕ) → fold low_step low bytes.now ≡ (low + result) % 256 }
{
    hash_of_word(first_word(bytes))
}

/// The low byte of the hash of the first bytes of a key, of which there are fewer than eight, and more behind them: zeros in front add nothing.
fn hash_of_first(key: &[u8], many: usize) -> u8
    requires long { 8 ≤ length key.now }
    requires many { (1 ≤ many) × (many < 8) }
    ensures { result ≡ fold low_step 0 (take many key.now) }
{
    hash_of_word(first_word(key) << (64 - 8 * many))
}

/// The low byte of a hash behind more bytes, one by one.
fn hash_behind(low: u8, bytes: &[u8]) -> u8
    ensures { result ≡ fold low_step low bytes.now }
{
    let mut hash = low;
    for byte in bytes {
        hash = hash.wrapping_mul(31).wrapping_add(*byte);
    }
    hash
}

/// The number of a key's bucket. It is the low byte of the key's hash, to which no other bit of a step before adds anything.
pub fn bucket_number(key: &[u8]) -> u8
    ensures { result ≡ bucket_of key.now }
{
    if key.len() < 8 {
        return hash_behind(0, key);
    }
    let (over, mut left) = key.split_at(key.len() % 8);
    let mut hash = match over.len() {
        0 => 0,
        many => hash_of_first(key, many),
    };
    while left.len() >= 8 {
        let (front, rest) = left.split_at(8);
        hash = hash.wrapping_add(hash_of_eight(front));
        left = rest;
    }
    hash_behind(hash, left)
}
