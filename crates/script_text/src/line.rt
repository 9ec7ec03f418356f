//! Lines of words.

ghost use Rattle.std.specs.Prelude.{[], ◌∷◌, map};
ghost use Rattle.std.specs.List.{join_with_byte, flat_map};
ghost use Rattle.script_text.specs.Pages.{desk, Sends};
ghost use Rattle.script_text.specs.Words.{bytes_of, spaced, line_of};

use super::Sink;
use super::page::Page;
use itoa::Buffer;

/// A word of a line.
#[derive(Clone, Copy)]
pub(crate) enum Word<'a> {
    Text(&'a [u8]),
    Number(u64),
    Signed(i64),
}

/// Says a word.
#[tactic(auto, unfolding(fine_model::specs::NumberText::number_text))]
fn say_word<K: Sink>(page: &mut Page, sink: &mut K, word: &Word)
    ensures { Sends (bytes_of word.now) (desk (K.written sink.old) (K.faults sink.old) page.old) (desk (K.written sink.new) (K.faults sink.new) page.new) }
{
    match word {
        Word::Text(text) => page.say(sink, text),
        Word::Number(n) => page.say(sink, Buffer::new().format(*n).as_bytes()),
        Word::Signed(z) => page.say(sink, Buffer::new().format(*z).as_bytes()),
    }
}

/// Says a space and a word.
#[tactic(auto, using(crate::proofs::Paging::sends_then))]
fn say_spaced<K: Sink>(page: &mut Page, sink: &mut K, word: &Word)
    ensures { Sends (spaced word.now) (desk (K.written sink.old) (K.faults sink.old) page.old) (desk (K.written sink.new) (K.faults sink.new) page.new) }
{
    page.say_byte(sink, b' ');
    say_word(page, sink, word);
}

/// Says each word behind a space.
fn say_more<K: Sink>(page: &mut Page, sink: &mut K, words: &[Word])
    ensures { Sends (flat_map spaced words.now) (desk (K.written sink.old) (K.faults sink.old) page.old) (desk (K.written sink.new) (K.faults sink.new) page.new) }
{
    for word in words {
        say_spaced(page, sink, word);
    }
}

/// Says words with a space between each two.
fn say_words<K: Sink>(page: &mut Page, sink: &mut K, words: &[Word])
    ensures { Sends (join_with_byte 32 (map bytes_of words.now)) (desk (K.written sink.old) (K.faults sink.old) page.old) (desk (K.written sink.new) (K.faults sink.new) page.new) }
{
    let Some((first, rest)) = words.split_first() else {
        return;
    };
    say_word(page, sink, first);
    say_more(page, sink, rest);
}

/// Says words with a space between each two, and a line feed.
#[tactic(auto, using(crate::proofs::Paging::sends_then))]
pub(crate) fn say_line<K: Sink>(page: &mut Page, sink: &mut K, words: &[Word])
    ensures { Sends (line_of words.now) (desk (K.written sink.old) (K.faults sink.old) page.old) (desk (K.written sink.new) (K.faults sink.new) page.new) }
{
    say_words(page, sink, words);
    page.say_byte(sink, b'\n');
}
