//! Lines of a source.

ghost use Rattle.std.specs.Prelude.{◌≡◌, suc, ◌+◌, ◌<◌, ◌≤◌, true, false, [], ◌∷◌, ◌++◌, length, take, drop, IfOk, OnOk, MatchOption, IfSome, IsErr};
ghost use Rattle.fine_model.specs.Faults.{CountsFault};
ghost use Rattle.script_text.specs.Streams.{before};
ghost use Rattle.script_text.specs.Reading.{IsOneLine, EndsLine, MovesLine};

use super::array::ByteArray;
use super::search::place_of;
use super::{Failed, Source};
use std::marker::Model;

const CHUNK: usize = 4096;

const MOST_BYTES: usize = 513;

/// Bytes that were taken from a source and not yet read.
#[derive(Drop)]
pub(crate) struct Chunk {
    bytes: [u8; CHUNK],
    from: usize,
    end: usize,
}

impl Model for Chunk {
    ghost use Rattle.std.specs.Prelude.{◌≤◌, List, ℕ, take, drop};

    ghost Value = { List ℕ };

    ghost view = { λ c. drop c.from (take c.end c.bytes) };

    ghost invariant = { λ c. (c.from ≤ c.end) × (c.end ≤ 4096) };
}

impl Chunk {
    pub(crate) fn new() -> Chunk
        ensures { result ≡ [] }
    {
        Chunk {
            bytes: [0; CHUNK],
            from: 0,
            end: 0,
        }
    }

    /// The next byte of those that were taken.
    fn pop(&mut self) -> Option<u8>
        ensures { MatchOption result ((self.old ≡ []) × (self.new ≡ [])) (λ byte. self.old ≡ byte ∷ self.new) }
    {
        if self.from == self.end {
            return None;
        }
        let byte = self.bytes[self.from];
        self.from += 1;
        Some(byte)
    }

    fn is_empty(&self) -> bool
        ensures yes { result ≡ true → self.now ≡ [] }
        ensures no { result ≡ false → 0 < length self.now }
    {
        self.from == self.end
    }

    /// The first of those that were taken, so many at most.
    fn front(&self, most: usize) -> &[u8]
        ensures { result.now ≡ take most self.now }
    {
        let len = most.min(self.end - self.from);
        &self.bytes[self.from..self.from + len]
    }

    /// Leaves out the first of those that were taken.
    fn skip(&mut self, count: usize)
        requires { count ≤ length self.old }
        ensures { self.new ≡ drop count self.old }
    {
        self.from += count;
    }

    /// Takes the bytes before the first line feed to the end of a line, as many as it has room for. Says whether the feed was found behind them, which is
    /// taken too.
    fn move_line(&mut self, line: &mut LineBytes) -> bool
        requires some { 0 < length self.old }
        requires room { length line.old < 513 }
        requires one { IsOneLine line.old }
        ensures one { IsOneLine line.new }
        ensures feed { result ≡ true → MovesLine (10 ∷ []) line.old line.new self.old self.new }
        ensures short { result ≡ true → length line.new ≤ 512 }
        ensures none { result ≡ false → MovesLine [] line.old line.new self.old self.new }
        ensures longer { result ≡ false → length line.old < length line.new }
    {
        let front = self.front(line.room());
        let len = feed_in(front);
        line.extend(&front[..len]);
        if len == front.len() {
            self.skip(len);
            return false;
        }
        self.skip(len + 1);
        true
    }

    /// Takes more bytes from a source, where none are left.
    fn fill<S: Source>(&mut self, source: &mut S) -> Result<(), Failed>
        requires { self.old ≡ [] }
        ensures ok { OnOk result (S.left source.old ≡ before self.new (S.left source.new)) }
        ensures end { OnOk result (self.new ≡ [] → IfSome (S.left source.new) (λ rest. rest ≡ [])) }
        ensures counts { CountsFault (IsErr result) (S.faults source.old) (S.faults source.new) }
    {
        self.from = 0;
        self.end = 0;
        self.end = source.take(&mut self.bytes)?;
        Ok(())
    }

    /// The next byte, or nothing at the end of the source.
    pub(crate) fn next<S: Source>(&mut self, source: &mut S) -> Result<Option<u8>, Failed>
        ensures some { IfOk result (λ next. IfSome next (λ byte. before self.old (S.left source.old) ≡ before (byte ∷ self.new) (S.left source.new))) }
        ensures none { IfOk result (λ next. MatchOption next ((before self.old (S.left source.old) ≡ before self.new (S.left source.new)) × IfSome (before self.new (S.left source.new)) (λ rest. rest ≡ [])) (λ _. Unit {0})) }
        ensures counts { CountsFault (IsErr result) (S.faults source.old) (S.faults source.new) }
    {
        if let Some(byte) = self.pop() {
            return Ok(Some(byte));
        }
        self.fill(source)?;
        Ok(self.pop())
    }
}

/// How a line ends: by a line feed, by the end of the input, or by its 513th byte.
#[derive(Clone, Copy)]
pub(crate) enum LineEnd {
    Feed,
    Input,
    TooLong,
}

/// The bytes of a line.
pub(crate) type LineBytes = ByteArray<MOST_BYTES>;

/// The place of the first line feed, or how many bytes there are.
fn feed_in(bytes: &[u8]) -> usize
    ensures within { result ≤ length bytes.now }
    ensures before { IsOneLine (take result bytes.now) }
    ensures feed { result < length bytes.now → drop result bytes.now ≡ 10 ∷ drop (suc result) bytes.now }
{
    place_of(b'\n', bytes)
}

/// Takes the next line, with no more than 513 bytes of it.
pub(crate) fn next_line<S: Source>(
    chunk: &mut Chunk,
    source: &mut S,
    line: &mut LineBytes,
) -> Result<LineEnd, Failed>
    ensures line { IfOk result (λ end. EndsLine end line.new (before chunk.old (S.left source.old)) (before chunk.new (S.left source.new))) }
    ensures one { OnOk result (IsOneLine line.new) }
    ensures counts { CountsFault (IsErr result) (S.faults source.old) (S.faults source.new) }
{
    line.clear();
    while line.room() > 0 {
        if chunk.is_empty() {
            chunk.fill(source)?;
            if chunk.is_empty() {
                return Ok(LineEnd::Input);
            }
        }
        if chunk.move_line(line) {
            return Ok(LineEnd::Feed);
        }
    }
    Ok(LineEnd::TooLong)
}
