// The limits by name, tested on words, since each edit tests all rows: as floats 4,096 of them take 26 µs, four to six times as long. No branch on
// a word, one return for each row.
ghost use Rattle.std.specs.Prelude.{◌≡◌, cond, ◌+◌, ◌-◌, ◌*◌, ◌^◌, ◌<◌, ◌≤◌, eqb, length};
ghost use Rattle.std.specs.Float.{binary32};
ghost use Rattle.std.specs.Float.Ieee.{of_bits};
ghost use Rattle.score.specs.Rows.{row_words, put_row, insert_row, remove_row};
ghost use Rattle.score.specs.Limits.{float_to, row_within, limit_refusal};
ghost use Rattle.score.specs.Inner.{row_refusal, refused_from};

use crate::refusal::Refusal;
use crate::rows::{HARMONICS, MORPH, NOTE, RESTART, ROW_WORDS, TIMBRE, row_at};

// The word of 120.
const NOTE_HIGH: u32 = 0x42f00000;

// The word of 1.
const UNIT_HIGH: u32 = 0x3f800000;

// A word, with that of -0 taken for that of +0.
fn plain(w: u32) -> u32
    ensures { result ≡ cond (eqb w 0x80000000) 0 w }
{
    if w == 0x80000000 { 0 } else { w }
}

// The float of a word is from 0 to that of the word `high`: floats from +0 up stand in the order of their words, and the words of
// the negative ones and of every NaN lie above.
fn float_to(w: u32, high: u32) -> bool
    requires { high < 0x7f800000 }
    ensures { result ≡ float_to (of_bits binary32 high) w }
{
    plain(w) <= high
}

// Each word of a row is within its name's limit.
pub fn row_within(row: [u32; ROW_WORDS]) -> bool
    ensures { result ≡ row_within row }
{
    float_to(row[NOTE], NOTE_HIGH)
        & (float_to(row[TIMBRE], UNIT_HIGH)
            & (float_to(row[MORPH], UNIT_HIGH)
                & (float_to(row[HARMONICS], UNIT_HIGH) & (row[RESTART] <= 1))))
}

// What `Refusal::Limit` says of a row that is row k of a score.
fn row_limits(row: [u32; ROW_WORDS], k: usize) -> Result<(), Refusal>
    ensures { result ≡ row_refusal k row }
{
    if row_within(row) {
        Ok(())
    } else {
        Err(Refusal::Limit(k))
    }
}

// The same of `count` rows, the first of which is row `first` of the score. Not inlined: the loop would stand in the library once for each stretch
// of rows that a call tests.
#[inline(never)]
fn limits_from(rows: &[u32], count: usize, first: usize) -> Result<(), Refusal>
    requires rows_room { count * row_words ≤ length rows.now }
    requires places { first + count < 2 ^ 64 }
    ensures { result ≡ refused_from first count rows.now }
{
    for k in 0..count {
        row_limits(row_at(rows, k), first + k)?;
    }
    Ok(())
}

// What it says of the first `count` rows.
pub fn within_limits(rows: &[u32], count: usize) -> Result<(), Refusal>
    requires { count * row_words ≤ length rows.now }
    ensures { result ≡ limit_refusal count rows.now }
{
    limits_from(rows, count, 0)
}

// The same with a row's words in the place of row k, without a copy of the rows. This and the next two are for three calls, whose enum stands in a
// crate above; one function for them would be told which rows stand before, whether a row comes, and which stand behind, and do no less.
pub fn within_limits_with(
    rows: &[u32],
    count: usize,
    k: usize,
    row: [u32; ROW_WORDS],
) -> Result<(), Refusal>
    requires { (k < count) × (count * row_words ≤ length rows.now) }
    ensures { result ≡ limit_refusal count (put_row rows.now k row) }
{
    let next = k + 1;
    limits_from(rows, k, 0)?;
    row_limits(row, k)?;
    limits_from(&rows[next * ROW_WORDS..], count - next, next)
}

// The same with a row's words put in as row p.
pub fn within_limits_inserted(
    rows: &[u32],
    count: usize,
    p: usize,
    row: [u32; ROW_WORDS],
) -> Result<(), Refusal>
    requires { (p ≤ count) × ((count + 1) * row_words ≤ length rows.now) }
    ensures { result ≡ limit_refusal (count + 1) (insert_row count rows.now p row) }
{
    limits_from(rows, p, 0)?;
    row_limits(row, p)?;
    limits_from(&rows[p * ROW_WORDS..], count - p, p + 1)
}

// The same with row p taken out.
pub fn within_limits_removed(rows: &[u32], count: usize, p: usize) -> Result<(), Refusal>
    requires { (p < count) × (count * row_words ≤ length rows.now) }
    ensures { result ≡ limit_refusal (count - 1) (remove_row count rows.now p) }
{
    let next = p + 1;
    limits_from(rows, p, 0)?;
    limits_from(&rows[next * ROW_WORDS..], count - next, p)
}
