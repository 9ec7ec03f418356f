//! A word before a byte and behind it.

ghost use Rattle.std.specs.Prelude.{◌≡◌, ◌≤◌, ◌==◌, length, position};
ghost use Rattle.std.specs.List.{position_or_len, before_first, after_first};

/// Where a byte first stands in a word.
fn position_of(byte: u8, word: &[u8]) -> Option<usize>
    ensures { result ≡ position (λ b. b == byte) word.now }
{
    word.iter().position(|other| *other == byte)
}

/// Where a byte first stands in a word, or the word's length.
fn place_of(byte: u8, word: &[u8]) -> usize
    ensures is { result ≡ position_or_len (λ b. b == byte) word.now }
    ensures within { result ≤ length word.now }
{
    position_of(byte, word).unwrap_or(word.len())
}

/// What stands before the first such byte of a word, or the whole word.
pub(crate) fn before(byte: u8, word: &[u8]) -> &[u8]
    ensures { result.now ≡ before_first (λ b. b == byte) word.now }
{
    &word[..place_of(byte, word)]
}

/// What stands behind the first such byte of a word, or nothing.
pub(crate) fn behind(byte: u8, word: &[u8]) -> &[u8]
    ensures { result.now ≡ after_first (λ b. b == byte) word.now }
{
    &word[word.len().min(place_of(byte, word) + 1)..]
}
