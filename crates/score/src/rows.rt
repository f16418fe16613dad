// A score's rows: words one row after the other, as the C interface lends them, and a count of rows beside them. That the count's rows, row k or a
// new row lie among the words is a clause in each function: a struct of words and count would want two forms, to read and to write.
ghost use Rattle.std.specs.Prelude.{◌≡◌, ◌+◌, ◌*◌, ◌≤◌, ◌<◌, length};
ghost use Rattle.lists.specs.Lists.{same};
ghost use Rattle.score.specs.Rows.{row_words, most_rows, wrong_rows, row_at, put_row, insert_row, remove_row, restarts};

use lists::{part, put_part, shift_down, shift_up};

// A row's words.
pub const ROW_WORDS: usize = 5;

// The most rows of a score.
pub const MOST_ROWS: usize = 4096;

// The places of a row's words: a row stays an array of words, as the C interface lends it.
pub const NOTE: usize = 0;

pub const TIMBRE: usize = 1;

pub const MORPH: usize = 2;

pub const HARMONICS: usize = 3;

pub const RESTART: usize = 4;

// Whether a count is not from `least` to `largest`, or so many row words are too few for it. `largest` is bounded, so that the words of as many
// rows are a number.
pub fn wrong_rows(least: usize, largest: usize, count: usize, rows: usize) -> bool
    requires { largest ≤ most_rows }
    ensures { result ≡ wrong_rows least largest count rows }
{
    !(least..=largest).contains(&count) || rows < count * ROW_WORDS
}

// The words of row k.
pub fn row_at(rows: &[u32], k: usize) -> [u32; ROW_WORDS]
    requires { k * row_words + row_words ≤ length rows.now }
    ensures { result ≡ row_at rows.now k }
{
    part(rows, k)
}

// A row's words in the place of row k's.
pub fn put_row(rows: &mut [u32], k: usize, row: [u32; ROW_WORDS])
    requires { k * row_words + row_words ≤ length rows.old }
    ensures { rows.new ≡ put_row rows.old k row }
{
    put_part(rows, k, row);
}

// A row's words put between n rows, in place p: the rows from there on move up.
pub fn insert_row(rows: &mut [u32], n: usize, p: usize, row: [u32; ROW_WORDS])
    requires { (p ≤ n) × ((n + 1) * row_words ≤ length rows.old) }
    ensures { rows.new ≡ insert_row n rows.old p row }
{
    shift_up(rows, ROW_WORDS, p, n);
    put_row(rows, p, row);
}

// Row p of n rows taken out: the rows behind it move down.
pub fn remove_row(rows: &mut [u32], n: usize, p: usize)
    requires { (p < n) × (n * row_words ≤ length rows.old) }
    ensures { rows.new ≡ remove_row n rows.old p }
{
    shift_down(rows, ROW_WORDS, p, n);
}

// Whether row k has these words.
#[tactic(auto, using(crate::proofs::Same::same_is))]
pub fn same_row(rows: &[u32], k: usize, row: [u32; ROW_WORDS]) -> bool
    requires { k * row_words + row_words ≤ length rows.now }
    ensures { result ≡ same (row_at rows.now k) row }
{
    row_at(rows, k) == row
}

// Whether a row restarts.
pub fn restarts(row: [u32; ROW_WORDS]) -> bool
    ensures { result ≡ restarts row }
{
    row[RESTART] == 1
}
