// Where the words of a row come from: the lines of a text have them.
ghost use Rattle.std.specs.Prelude.{◌≡◌, true, ◌<◌, length};
ghost use Rattle.score.specs.Rows.{row_words};
ghost use Rattle.names.specs.Sources.{each_readable};

use names::Source;

// The sources of a row's words, how many names stand on the first line, and whether the text is a score: a line of so many words has each of the
// sources, and a score has five.
#[derive(Clone, Copy)]
pub struct Layout<'a> {
    pub sources: &'a [Source],
    pub names: usize,
    pub score: bool,
    pub ghost some_words: { 0 < length sources.now },
    pub ghost some_names: { 0 < names },
    pub ghost found: { each_readable names sources.now ≡ true },
    pub ghost five_words: { score ≡ true → length sources.now ≡ row_words },
}
