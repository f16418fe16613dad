// A table of names and a text's first line: where each word of a row comes from.
#![tactic(auto)]

ghost use Rattle.std.specs.Prelude.{◌≡◌, map, length};
ghost use Rattle.text.specs.Text.{fields_of};
ghost use Rattle.names.specs.Sources.{source_of, sources_of, readable, is_column, each_once};
ghost use Rattle.names.specs.Inner.{entry_of};

use std::array;
use text::pieces::column_of;

// Where a word of a row comes from.
#[derive(Clone, Copy)]
pub enum Source {
    // A column of the text.
    Column(usize),
    // The word that an absent name stands for.
    Word(u32),
    // Nowhere: a name is absent that may not be, and the text is refused.
    Missing,
}

impl Source {
    // A line of `count` fields has it.
    fn readable(&self, count: usize) -> bool
        ensures { result ≡ readable count self.now }
    {
        match *self {
            Source::Column(column) => column < count,
            Source::Word(_) => true,
            Source::Missing => false,
        }
    }

    // It is a column.
    fn is_column(&self) -> bool
        ensures { result ≡ is_column self.now }
    {
        matches!(self, Source::Column(_))
    }
}

// A name of a table: as a text has it, and where its word comes from if the first line lacks it. Of today's names none may be absent.
#[derive(Clone, Copy)]
pub struct Entry<'a> {
    pub spelling: &'a [u8],
    pub absent: Source,
}

// The source of a name's word, by a line of names: its column, or what its absence means.
fn source_of(line: &[u8], entry: Entry<'_>) -> Source
    ensures { result ≡ source_of (fields_of line.now) (entry_of entry.entry) }
{
    match column_of(line, entry.spelling) {
        Some(column) => Source::Column(column),
        None => entry.absent,
    }
}

// The sources of a table's words, by a line of names. The table is a slice, and a clause says its length: an array of N entries, which hold
// references, is not covered by the borrow checker.
pub fn sources_of<const N: usize>(line: &[u8], table: &[Entry<'_>]) -> [Source; N]
    requires { length table.now ≡ N }
    ensures { result ≡ sources_of (map entry_of table.now) (fields_of line.now) }
{
    array::from_fn(|k| source_of(line, table[k]))
}

// A line of `count` fields holds each name of a table once, or lacks one that may be absent, by the sources of the table's words.
pub fn each_once(sources: &[Source], count: usize) -> bool
    ensures { result ≡ each_once count sources.now }
{
    let columns = sources.iter().filter(|source| source.is_column()).count();
    sources.iter().all(|source| source.readable(count)) && columns == count
}
