// Lines of values: words with one space between, and an LF.
#![tactic(auto)]

pub mod layout;

ghost use Rattle.std.specs.Prelude.{◌≡◌, [], ◌∷◌, ◌<◌, length};
ghost use Rattle.score.specs.Rows.{row_words};
ghost use Rattle.score.specs.Limits.{row_within};
ghost use Rattle.values.specs.Lines.{holds_words, word_from, row_of, test_line};
ghost use Rattle.values.specs.Inner.{starts_word, first_line, OnLine};

use crate::layout::Layout;
use names::Source;
use score::limits::row_within;
use score::refusal::Refusal;
use score::rows::ROW_WORDS;
use text::pieces::{LF, SPACE};
use text::word::{WORD_DIGITS, is_word, word_of};

// A word and the byte after it.
pub const FIELD: usize = WORD_DIGITS + 1;

// A text starts with a word, and then the byte `after`.
fn starts_word(text: &[u8], after: u8) -> bool
    ensures { result ≡ starts_word after text.now }
{
    text.len() >= FIELD && is_word(&text[..WORD_DIGITS]) && text[WORD_DIGITS] == after
}

// A text's first line holds `count` words.
fn holds_words(text: &[u8], count: usize) -> bool
    requires { 0 < count }
    ensures { result ≡ holds_words count (first_line text.now) }
{
    let mut rest = text;
    for _ in 1..count {
        if !starts_word(rest, SPACE) {
            return false;
        }
        rest = &rest[FIELD..];
    }
    starts_word(rest, LF)
}

// The word of a source, on a text's first line.
fn word_from(text: &[u8], source: Source) -> u32
    requires { OnLine (source ∷ []) (first_line text.now) }
    ensures { result ≡ word_from (first_line text.now) source }
{
    match source {
        Source::Column(column) => {
            let at = column * FIELD;
            word_of(&text[at..at + WORD_DIGITS])
        }
        Source::Word(word) => word,
        Source::Missing => unreachable!(),
    }
}

// The row of a text's first line, by the sources of its words. By index: once `iter_mut` zipped with the sources is over, a proof knows how long
// the row is, and no more.
pub fn write_row(text: &[u8], sources: &[Source], row: &mut [u32])
    requires on_line { OnLine sources.now (first_line text.now) }
    requires row_len { length row.old ≡ length sources.now }
    ensures { row.new ≡ row_of sources.now (first_line text.now) }
{
    for k in 0..row.len() {
        row[k] = word_from(text, sources[k]);
    }
}

// The row of a text's first line is within the limits.
fn line_within(text: &[u8], sources: &[Source]) -> bool
    requires on_line { OnLine sources.now (first_line text.now) }
    requires row_len { length sources.now ≡ row_words }
    ensures { result ≡ row_within (row_of sources.now (first_line text.now)) }
{
    let mut row = [0u32; ROW_WORDS];
    write_row(text, sources, &mut row);
    row_within(row)
}

// Tests a text's first line, line `at` of the lines of values: that of a score by its limits too.
pub fn test_line(text: &[u8], layout: Layout<'_>, at: usize) -> Result<(), Refusal>
    ensures { let l = layout.entry in result ≡ test_line l.names l.sources.now l.score at (first_line text.now) }
{
    if !holds_words(text, layout.names) {
        return Err(Refusal::Value(at));
    }
    if layout.score && !line_within(text, layout.sources) {
        return Err(Refusal::Limit(at));
    }
    Ok(())
}
