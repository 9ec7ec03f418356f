//! The grammar of a script's lines.

ghost use Rattle.std.specs.Prelude.{◌≡◌, ◌≢◌, ℕ, ◌<◌, ◌≤◌, [], ◌∷◌, length, slice_index, not, ◌==◌, nat_le, bytes_eq, IfOk, MatchOption};
ghost use Rattle.std.specs.List.{list_all};
ghost use Rattle.fine_model.specs.Script.{words, without_return, meaning, said, is_key, is_value, is_printable};
ghost use Rattle.script_text.specs.Grammar.{meant, AreRest};
ghost use Rattle.script_text.specs.Fits.{AreWords, FitsLine};

use super::search::place_of;
use fine_model::format::{MOST_IN_KEY, MOST_IN_VALUE};
use fine_model::{Bytes, Call, Ending, NoMemory, natural_of, number_of};
use std::alloc::Global;

/// What a line says.
#[derive(Drop)]
pub(crate) enum SaidLine {
    Skipped,
    Begins { lane: u8 },
    Calls { call: Call },
    Ends { ending: Ending },
    Faulty,
}

/// The line without one carriage return at its end.
fn without_return(line: &[u8]) -> &[u8]
    ensures { result.now ≡ without_return line.now }
{
    let Some((last, front)) = line.split_last() else {
        return line;
    };
    if *last == b'\r' { front } else { line }
}

/// The length of the spaces before the first word.
fn spaces(line: &[u8]) -> usize
    ensures within { result ≤ length line.now }
    ensures spaces { (k : ℕ) → k < result → slice_index line.now k ≡ 32 }
    ensures behind { result < length line.now → slice_index line.now result ≢ 32 }
{
    for (i, byte) in line.iter().enumerate() {
        if *byte != b' ' {
            return i;
        }
    }
    line.len()
}

/// The first word of a line, and what is behind it.
fn next_word(line: &[u8]) -> Option<(&[u8], &[u8])>
    ensures { MatchOption result (words line.now ≡ []) (λ p. (words line.now ≡ p.0.now ∷ words p.1.now) × (0 < length p.0.now)) }
{
    let (_, line) = line.split_at(spaces(line));
    if line.is_empty() {
        return None;
    }
    Some(line.split_at(place_of(b' ', line)))
}

/// The words behind the first one of a line.
#[derive(Clone, Copy)]
enum Arguments<'a> {
    Zero,
    One(&'a [u8]),
    Two(&'a [u8], &'a [u8]),
    Three(&'a [u8], &'a [u8], &'a [u8]),
    More,
}

/// The words of what is behind the first word.
fn words_behind(rest: &[u8]) -> Arguments<'_>
    ensures rest { AreRest result (words rest.now) }
    ensures words { AreWords result }
{
    let Some((a, rest)) = next_word(rest) else {
        return Arguments::Zero;
    };
    let Some((b, rest)) = next_word(rest) else {
        return Arguments::One(a);
    };
    let Some((c, rest)) = next_word(rest) else {
        return Arguments::Two(a, b);
    };
    match next_word(rest) {
        None => Arguments::Three(a, b, c),
        Some(_) => Arguments::More,
    }
}

/// The bytes of a word.
fn bytes(alloc: Global, word: &[u8]) -> Result<Bytes, NoMemory>
    ensures { IfOk result (λ bytes. bytes ≡ word.now) }
{
    Bytes::from_slice(alloc, word)
}

fn is_word(word: &[u8], name: &[u8]) -> bool
    ensures { result ≡ bytes_eq name.now word.now }
{
    name == word
}

fn is_key(word: &[u8]) -> bool
    ensures { result ≡ is_key word.now }
{
    word.len() <= MOST_IN_KEY
}

fn is_value(word: &[u8]) -> bool
    ensures { result ≡ is_value word.now }
{
    word.len() <= MOST_IN_VALUE
}

/// What one word says.
#[tactic(auto, unfolding(fine_model::specs::Script::said))]
fn said_alone(word: &[u8]) -> SaidLine
    ensures said { meant result ≡ said (word.now ∷ []) }
    ensures fits { FitsLine (meant result) }
{
    if is_word(word, b"commit") {
        SaidLine::Ends {
            ending: Ending::Commit,
        }
    } else if is_word(word, b"abort") {
        SaidLine::Ends {
            ending: Ending::Abort,
        }
    } else {
        SaidLine::Faulty
    }
}

/// What two words say.
#[tactic(auto, unfolding(fine_model::specs::Script::said))]
fn said_with_one(alloc: Global, word: &[u8], a: &[u8]) -> Result<SaidLine, NoMemory>
    requires { 0 < length a.now }
    ensures said { IfOk result (λ line. meant line ≡ said (word.now ∷ a.now ∷ [])) }
    ensures fits { IfOk result (λ line. FitsLine (meant line)) }
{
    if is_word(word, b"txn") {
        return Ok(match natural_of(a, 1, 16) {
            Some(lane) => SaidLine::Begins { lane: lane as u8 },
            None => SaidLine::Faulty,
        });
    }
    if is_word(word, b"get") && is_key(a) {
        let key = bytes(alloc, a)?;
        return Ok(SaidLine::Calls {
            call: Call::Get { key },
        });
    }
    if is_word(word, b"del") && is_key(a) {
        let key = bytes(alloc, a)?;
        return Ok(SaidLine::Calls {
            call: Call::Del { key },
        });
    }
    Ok(SaidLine::Faulty)
}

/// What three words say.
#[tactic(auto, unfolding(fine_model::specs::Script::said))]
fn said_with_two(alloc: Global, word: &[u8], a: &[u8], b: &[u8]) -> Result<SaidLine, NoMemory>
    requires { (0 < length a.now) × (0 < length b.now) }
    ensures said { IfOk result (λ line. meant line ≡ said (word.now ∷ a.now ∷ b.now ∷ [])) }
    ensures fits { IfOk result (λ line. FitsLine (meant line)) }
{
    if is_word(word, b"put") && is_key(a) && is_value(b) {
        let key = bytes(alloc, a)?;
        let value = bytes(alloc, b)?;
        return Ok(SaidLine::Calls {
            call: Call::Put { key, value },
        });
    }
    if is_word(word, b"add") && is_key(a) {
        let Some(by) = number_of(b) else {
            return Ok(SaidLine::Faulty);
        };
        let key = bytes(alloc, a)?;
        return Ok(SaidLine::Calls {
            call: Call::Add { key, by },
        });
    }
    Ok(SaidLine::Faulty)
}

/// What four words say.
#[tactic(auto, unfolding(fine_model::specs::Script::said))]
fn said_with_three(
    alloc: Global,
    word: &[u8],
    a: &[u8],
    b: &[u8],
    c: &[u8],
) -> Result<SaidLine, NoMemory>
    requires { (0 < length a.now) × (0 < length b.now) × (0 < length c.now) }
    ensures said { IfOk result (λ line. meant line ≡ said (word.now ∷ a.now ∷ b.now ∷ c.now ∷ [])) }
    ensures fits { IfOk result (λ line. FitsLine (meant line)) }
{
    if is_word(word, b"scan") && is_key(a) && is_key(b) {
        let Some(limit) = natural_of(c, 0, 10_000) else {
            return Ok(SaidLine::Faulty);
        };
        let low = bytes(alloc, a)?;
        let high = bytes(alloc, b)?;
        return Ok(SaidLine::Calls {
            call: Call::Scan { low, high, limit },
        });
    }
    Ok(SaidLine::Faulty)
}

/// What words say, the first of them and those behind it.
#[tactic(auto, unfolding(fine_model::specs::Script::said))]
fn said(alloc: Global, word: &[u8], rest: &[u8]) -> Result<SaidLine, NoMemory>
    ensures said { IfOk result (λ line. meant line ≡ said (word.now ∷ words rest.now)) }
    ensures fits { IfOk result (λ line. FitsLine (meant line)) }
{
    match words_behind(rest) {
        Arguments::Zero => Ok(said_alone(word)),
        Arguments::One(a) => said_with_one(alloc, word, a),
        Arguments::Two(a, b) => said_with_two(alloc, word, a, b),
        Arguments::Three(a, b, c) => said_with_three(alloc, word, a, b, c),
        Arguments::More => Ok(SaidLine::Faulty),
    }
}

/// Whether each byte is printable. It looks at all of them, so that the processor may at many at once.
fn is_printable(line: &[u8]) -> bool
    ensures { result ≡ list_all is_printable line.now }
{
    let mut fine = true;
    for byte in line {
        fine &= (b' '..=b'~').contains(byte);
    }
    fine
}

/// What a line says.
#[tactic(auto, unfolding(fine_model::specs::Script::meaning))]
pub(crate) fn parse_line(alloc: Global, line: &[u8]) -> Result<SaidLine, NoMemory>
    ensures said { IfOk result (λ said. meant said ≡ meaning line.now) }
    ensures fits { IfOk result (λ said. FitsLine (meant said)) }
{
    let line = without_return(line);
    let Some((word, rest)) = next_word(line) else {
        return Ok(SaidLine::Skipped);
    };
    if word[0] == b'#' {
        return Ok(SaidLine::Skipped);
    }
    if !is_printable(line) {
        return Ok(SaidLine::Faulty);
    }
    said(alloc, word, rest)
}
