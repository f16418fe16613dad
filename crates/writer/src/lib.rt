// Writing a score as a tidy text: the names in row order, lower-case digits. What is written goes into a slice of the bytes that it takes: an array
// of them would be copied there once more.
#![tactic(auto)]

ghost use Rattle.std.specs.Prelude.{◌≡◌, [], ◌∷◌, ◌++◌, map, ◌*◌, ◌≤◌, length};
ghost use Rattle.score.specs.Rows.{row_words, most_rows};
ghost use Rattle.text.specs.Text.{line_of, text_of, field_of};
ghost use Rattle.values.specs.Inner.{field_bytes};
ghost use Rattle.writer.specs.Writing.{names, row_lines, names_bytes, row_bytes, text_bytes, write_refusal, outcome, write_of};

use score::limits::within_limits;
use score::refusal::Refusal;
use score::rows::{MOST_ROWS, ROW_WORDS, row_at, wrong_rows};
use text::pieces::{LF, SPACE};
use text::word::{WORD_DIGITS, put_word};
use values::FIELD;

// The line of names, in row order. The reader's table spells them too, and both are proved to be the names of one definition: made of the table,
// the line would want a loop that goes from place to place, and its length beside it.
const NAMES_LINE: [u8; 36] = *b"note timbre morph harmonics restart\n";

// The bytes of a row's line.
const ROW_LINE: usize = ROW_WORDS * FIELD;

// The line of names, in the place of as many bytes.
fn put_names(text: &mut [u8])
    requires { length text.old ≡ names_bytes }
    ensures { text.new ≡ line_of names }
{
    text.copy_from_slice(&NAMES_LINE);
}

// A word and the byte after it, in the place of as many bytes.
fn put_field(word: u32, after: u8, text: &mut [u8])
    requires { length text.old ≡ field_bytes }
    ensures { text.new ≡ field_of word ++ after ∷ [] }
{
    put_word(word, &mut text[..WORD_DIGITS]);
    text[WORD_DIGITS] = after;
}

// A row's line, in the place of as many bytes. Here and in `put_rows` by places: once `chunks_exact_mut` is over, a proof knows how long the text
// is, and no byte of it.
fn put_line(row: [u32; ROW_WORDS], text: &mut [u8])
    requires { length text.old ≡ row_bytes }
    ensures { text.new ≡ line_of (map field_of row) }
{
    for k in 0..ROW_WORDS {
        let after = if k + 1 < ROW_WORDS { SPACE } else { LF };
        let at = k * FIELD;
        put_field(row[k], after, &mut text[at..at + FIELD]);
    }
}

// The lines of the first `count` rows, in the place of as many bytes.
fn put_rows(rows: &[u32], count: usize, text: &mut [u8])
    requires { (count * row_words ≤ length rows.now) × (length text.old ≡ count * row_bytes) }
    ensures { text.new ≡ text_of (row_lines count rows.now) }
{
    for k in 0..count {
        let at = k * ROW_LINE;
        put_line(row_at(rows, k), &mut text[at..at + ROW_LINE]);
    }
}

// The bytes of the text of `count` rows.
fn text_bytes(count: usize) -> usize
    requires { count ≤ most_rows }
    ensures { result ≡ text_bytes count }
{
    NAMES_LINE.len() + count * ROW_LINE
}

// What writing refuses.
fn write_refusal(rows: &[u32], count: usize, text: &[u8]) -> Result<(), Refusal>
    ensures { result ≡ write_refusal count rows.now text.now }
{
    if wrong_rows(1, MOST_ROWS, count, rows.len()) {
        return Err(Refusal::Rows);
    }
    within_limits(rows, count)?;
    if text.len() < text_bytes(count) {
        return Err(Refusal::Paper);
    }
    Ok(())
}

// Writes the first `count` rows as a score's text: rows and count as the C interface lends them.
pub fn write(rows: &[u32], count: usize, text: &mut [u8]) -> Result<usize, Refusal>
    ensures { outcome result text.new ≡ write_of count rows.now text.old }
{
    write_refusal(rows, count, text)?;
    let bytes = text_bytes(count);
    put_names(&mut text[0..NAMES_LINE.len()]);
    put_rows(rows, count, &mut text[NAMES_LINE.len()..bytes]);
    Ok(bytes)
}
