//! Numbers as texts. A text is a number's only where it is the text that the number has: `+5`, `007` and `-0` are no numbers.

ghost use Rattle.std.specs.Prelude.{◌≡◌, ◌≤◌, IfOk, IfSome, FitsSigned, min, pos, neg_ℤ, true, false, MatchOption};
ghost use Rattle.std.specs.Int.{w64};
ghost use Rattle.fine_model.specs.NumberText.{digits_worth, worth, is_i64, number_of, number_text};
ghost use Rattle.fine_model.specs.Script.{natural_of};

use crate::{Bytes, NoMemory};
use itoa::Buffer;
use std::alloc::Global;

/// What digits are worth, up to the greatest number of 64 bits.
fn worth(digits: &[u8]) -> u64
    ensures { result ≡ min (digits_worth digits.now) 18446744073709551615 }
{
    let mut worth: u64 = 0;
    for digit in digits {
        let digit = u64::from(digit.saturating_sub(b'0'));
        worth = worth.saturating_mul(10).saturating_add(digit);
    }
    worth
}

/// The number from `low` to `high` that a word spells in digits without a leading zero. None exactly where it spells none. It
/// takes no memory.
pub fn natural_of_64(word: &[u8], low: u64, high: u64) -> Option<u64>
    ensures is { result ≡ natural_of low high word.now }
    ensures within { IfSome result (λ n. (low ≤ n) × (n ≤ high)) }
{
    let worth = worth(word);
    if worth < low || high < worth {
        return None;
    }
    let mut buffer = Buffer::new();
    if buffer.format(worth).as_bytes() == word {
        Some(worth)
    } else {
        None
    }
}

/// The same within 32 bits.
pub fn natural_of(word: &[u8], low: u32, high: u32) -> Option<u32>
    ensures is { result ≡ natural_of low high word.now }
    ensures within { IfSome result (λ n. (low ≤ n) × (n ≤ high)) }
{
    let number = natural_of_64(word, u64::from(low), u64::from(high))?;
    Some(number as u32)
}

/// The number as far below zero as `worth` is above it.
fn below_zero(worth: u64) -> Option<i64>
    ensures { MatchOption result (is_i64 (neg_ℤ (pos worth)) ≡ false) (λ z. (z ≡ neg_ℤ (pos worth)) × (is_i64 z ≡ true)) }
{
    0i64.checked_sub_unsigned(worth)
}

/// What a word's digits are worth, behind a minus or without one, if a number of 64 bits is.
fn signed_worth(word: &[u8]) -> Option<i64>
    ensures { MatchOption result (is_i64 (worth word.now) ≡ false) (λ z. (z ≡ worth word.now) × (is_i64 z ≡ true)) }
{
    let Some((first, digits)) = word.split_first() else {
        return Some(0);
    };
    if *first == b'-' {
        below_zero(worth(digits))
    } else {
        i64::try_from(worth(word)).ok()
    }
}

/// The number of 64 bits with a sign that a word spells as it is printed. None exactly where it spells none. It takes no memory.
#[tactic(auto, unfolding(crate::specs::NumberText::number_of, crate::specs::NumberText::number_text))]
pub fn number_of(word: &[u8]) -> Option<i64>
    ensures is { result ≡ number_of word.now }
    ensures fits { IfSome result (FitsSigned w64) }
{
    let number = signed_worth(word)?;
    let mut buffer = Buffer::new();
    if buffer.format(number).as_bytes() == word {
        Some(number)
    } else {
        None
    }
}

/// The text of a number.
#[tactic(auto, unfolding(crate::specs::NumberText::number_text))]
pub fn number_text(alloc: Global, number: i64) -> Result<Bytes, NoMemory>
    ensures { IfOk result (λ text. text ≡ number_text number) }
{
    let mut buffer = Buffer::new();
    Bytes::from_slice(alloc, buffer.format(number).as_bytes())
}
