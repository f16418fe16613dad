// Reading a text of rows: one pass tests it, and only the rows of a text that passes are stored.
#![tactic(auto)]

ghost use Rattle.std.specs.Prelude.{◌≡◌, true, false, ◌++◌, map, ◌*◌, ◌≤◌, ◌<◌, length, drop, Ok};
ghost use Rattle.score.specs.Rows.{row_words};
ghost use Rattle.text.specs.Text.{lines_of};
ghost use Rattle.names.specs.Inner.{entry_of};
ghost use Rattle.values.specs.Lines.{rows_of};
ghost use Rattle.reader.specs.Reading.{test_lines, test_count, outcome, read_text, score_table, read_of, read_edits_of};
ghost use Rattle.reader.specs.Inner.{read_lines};

use names::{Entry, Source, each_once, sources_of};
use score::refusal::Refusal;
use score::rows::{MOST_ROWS, ROW_WORDS};
use text::pieces::{LF, count_fields, piece_end};
use values::layout::Layout;
use values::{FIELD, test_line, write_row};

// An edit's words: its row, then a row's.
pub const EDIT_WORDS: usize = ROW_WORDS + 1;

// Tests the lines of values, those of a score by their limits too, and counts them. Chunks of a line's length are no plainer: that length is
// known to fit only once a line has passed.
fn test_lines(text: &[u8], layout: Layout<'_>) -> Result<usize, Refusal>
    ensures { let l = layout.entry in result ≡ test_lines l.names l.sources.now l.score 0 (lines_of text.now) }
{
    let mut rest = text;
    let mut at = 0;
    while !rest.is_empty() {
        test_line(rest, layout, at)?;
        rest = &rest[layout.names * FIELD..];
        at += 1;
    }
    Ok(at)
}

// The rows of `lines` lines. By a row's place: once `chunks_exact_mut` is over, a proof knows how many words there are, and no more.
fn write_rows(text: &[u8], layout: Layout<'_>, lines: usize, rows: &mut [u32])
    requires text_value { test_lines layout.names layout.sources.now false 0 (lines_of text.now) ≡ Ok lines }
    requires lines_in_bounds { length layout.sources.now * lines ≤ length rows.old }
    ensures { let l = layout.entry in rows.new ≡ rows_of l.sources.now (lines_of text.now) ++ drop (length l.sources.now * lines) rows.old }
{
    let width = layout.sources.len();
    let mut rest = text;
    for k in 0..lines {
        let base = width * k;
        write_row(rest, layout.sources, &mut rows[base..base + width]);
        rest = &rest[layout.names * FIELD..];
    }
}

// Tests so many rows, where `lent` words are lent: their number itself in a score alone.
#[tactic(auto, using(crate::proofs::Settling::room_for), unfolding(crate::specs::Reading::test_count))]
fn test_count(layout: Layout<'_>, count: usize, lent: usize) -> Result<(), Refusal>
    ensures { let l = layout.entry in result ≡ test_count l.score (length l.sources.now) count lent }
{
    if layout.score && !(1..=MOST_ROWS).contains(&count) {
        return Err(Refusal::Rows);
    }
    if lent / layout.sources.len() < count {
        return Err(Refusal::Space);
    }
    Ok(())
}

// The lines of values: tested, and then stored.
fn read_lines(text: &[u8], layout: Layout<'_>, rows: &mut [u32]) -> Result<usize, Refusal>
    ensures { let l = layout.entry in outcome result rows.new ≡ read_lines l.score l.names l.sources.now (lines_of text.now) rows.old }
{
    let lines = test_lines(text, layout)?;
    test_count(layout, lines, rows.len())?;
    write_rows(text, layout, lines, rows);
    Ok(lines)
}

// Reads a text by a table of N names, as a score or not. A flag says so, since it chooses two tests, of a line and of a count: a closure for
// each would be no plainer.
fn read_text<const N: usize>(
    text: &[u8],
    table: &[Entry<'_>],
    score: bool,
    rows: &mut [u32],
) -> Result<usize, Refusal>
    requires some_names { 0 < N }
    requires table_len { length table.now ≡ N }
    requires score_width { score ≡ true → N ≡ row_words }
    ensures { outcome result rows.new ≡ read_text score (map entry_of table.now) text.now rows.old }
{
    let Some(end) = piece_end(text, LF) else {
        return Err(Refusal::Names);
    };
    let line = &text[..end];
    let names = count_fields(line);
    let sources: [Source; N] = sources_of(line, table);
    if !each_once(&sources, names) {
        return Err(Refusal::Names);
    }
    let layout = Layout {
        sources: &sources,
        names,
        score,
    };
    read_lines(&text[end + 1..], layout, rows)
}

// A name that may not be absent.
fn required(spelling: &[u8]) -> Entry<'_>
    ensures { entry_of result ≡ record { spelling = spelling.now; absent = Source.Missing } }
{
    Entry {
        spelling,
        absent: Source::Missing,
    }
}

// The table of a score's names, in row order.
fn score_table() -> [Entry<'static>; ROW_WORDS]
    ensures { map entry_of result ≡ score_table }
{
    [
        required(b"note"),
        required(b"timbre"),
        required(b"morph"),
        required(b"harmonics"),
        required(b"restart"),
    ]
}

// Reads a score: its rows' words in row order, whatever the columns' order.
pub fn read(text: &[u8], rows: &mut [u32]) -> Result<usize, Refusal>
    ensures { outcome result rows.new ≡ read_of text.now rows.old }
{
    read_text::<ROW_WORDS>(text, &score_table(), true, rows)
}

// Reads edits: six words each, the row first, then the five in row order. No limit is tested. They are flat, as a score's rows are: one reader
// serves both.
pub fn read_edits(text: &[u8], edits: &mut [u32]) -> Result<usize, Refusal>
    ensures { outcome result edits.new ≡ read_edits_of text.now edits.old }
{
    let [note, timbre, morph, harmonics, restart] = score_table();
    let table = [required(b"row"), note, timbre, morph, harmonics, restart];
    read_text::<EDIT_WORDS>(text, &table, false, edits)
}
