// The whole rendering of a score and the edits after it, on the program's instrument.
ghost use Rattle.std.specs.Prelude.{◌≡◌, ◌+◌, ◌*◌, ◌≤◌, [], length, map, take};
ghost use Rattle.score.specs.Rows.{row_words};
ghost use Rattle.arrayvec.specs.ArrayVec.{array_vec_len};
ghost use Rattle.rows.specs.Rows.{setup_by, words_of, SamePlaces};
ghost use Rattle.retakes.specs.Retakes.{reel};
ghost use Rattle.inputs.specs.Inputs.{bytes_of_bank, Within};
ghost use Rattle.outputs.specs.Files.{file_in, files_of};
ghost use Rattle.outputs.specs.Lines.{most_line};
ghost use Rattle.retake_lib.specs.Program.{setup_with, setup_of, edit_from, edits_from, blank, output, played};
ghost use Rattle.retake_lib.specs.Edits.{EditDone, EditsDone, Room};

use crate::{FILE_ROOM, PRINTED_ROOM, print};
use arrayvec::ArrayVec;
use inputs::{Inputs, MOST_ROWS};
use oscillator::bank::BANK_LENGTH;
use outputs::files::{OutputFile, fill_files};
use outputs::lines::{MOST_LINE, put_answer, put_heading};
use reader::EDIT_WORDS;
use rows::{Patch, Settings, Take};
use score::rows::ROW_WORDS;
use voice::{KEPT_WORDS, WAVETABLE};

// Hz
const RATE: u32 = 48000;

pub const FRAMES: usize = 24;

// The program's instrument, rate and frames.
const SETTINGS: Settings = Settings {
    instrument: WAVETABLE,
    rate: RATE,
    frames: FRAMES,
};

// An edit by its six words, and its line. The rows, their count and the take stand side by side, as the calls of `take` take them.
fn edit(
    patch: Patch<'_>,
    words: [u32; EDIT_WORDS],
    rows: &mut [u32],
    n: usize,
    take: &mut Take<'_>,
    printed: &mut ArrayVec<u8, PRINTED_ROOM>,
)
    requires { array_vec_len printed.old + most_line ≤ PRINTED_ROOM }
    ensures same_places { SamePlaces take.old take.new }
    ensures done { EditDone (setup_by patch.entry) (edit_from words)
        (reel n rows.old (words_of take.old)) (reel n rows.new (words_of take.new)) printed.old.items printed.new.items }
    ensures len { array_vec_len printed.new ≤ array_vec_len printed.old + most_line }
{
    let [position, note, timbre, morph, harmonics, restart] = words;
    let row = [note, timbre, morph, harmonics, restart];
    let answer = take::edit(patch, rows, n, position as usize, row, take);
    let mut line = [0; MOST_LINE];
    let end = put_answer(position, answer, &mut line, 0);
    print(&line[..end], printed);
}

// Edits, one after the other, and their lines.
fn edit_all(
    patch: Patch<'_>,
    edits: &[[u32; EDIT_WORDS]],
    rows: &mut [u32],
    n: usize,
    take: &mut Take<'_>,
    printed: &mut ArrayVec<u8, PRINTED_ROOM>,
)
    requires { array_vec_len printed.old + length edits.now * most_line ≤ PRINTED_ROOM }
    ensures same_places { SamePlaces take.old take.new }
    ensures done { EditsDone (setup_by patch.entry) (map edit_from edits.now)
        (reel n rows.old (words_of take.old)) (reel n rows.new (words_of take.new)) printed.old.items printed.new.items }
{
    for words in edits {
        edit(patch, *words, rows, n, take, printed);
    }
}

// The files of a take.
fn put_files_in(take: &Take<'_>, files: &mut [OutputFile<FILE_ROOM>; 2])
    requires out_in_bounds { length take.now.out.now * 4 ≤ FILE_ROOM }
    requires aux_in_bounds { length take.now.aux.now * 4 ≤ FILE_ROOM }
    ensures { map file_in files.new ≡ files_of take.now.out.now take.now.aux.now }
{
    fill_files(take.out, take.aux, files);
}

// The rendering, the heading, the edits with their lines, and the files of what they left. The edits are words and a count, as the reader leaves
// them.
fn play_take(
    patch: Patch<'_>,
    edits: &[u32],
    count: usize,
    rows: &mut [u32],
    n: usize,
    take: &mut Take<'_>,
    printed: &mut ArrayVec<u8, PRINTED_ROOM>,
    files: &mut [OutputFile<FILE_ROOM>; 2],
)
    requires room { Room count edits.now n patch.settings.frames (words_of take.old) }
    requires empty { printed.old.items ≡ [] }
    ensures same_places { SamePlaces take.old take.new }
    ensures output { output printed.new.items (map file_in files.new)
        ≡ played (setup_by patch.entry) n rows.old (words_of take.old) (edits_from count edits.now) }
{
    // A score that was read is never refused here.
    let _ = take::render(patch, rows, n, take);
    let mut line = [0; MOST_LINE];
    let end = put_heading(&mut line);
    print(&line[..end], printed);
    let (edits, _) = edits.as_chunks();
    edit_all(patch, &edits[..count], rows, n, take, printed);
    put_files_in(take, files);
}

// The same of n rows, into a take that is all 0.
fn play_rows(
    bank: &[i16],
    given: &Inputs,
    printed: &mut ArrayVec<u8, PRINTED_ROOM>,
    files: &mut [OutputFile<FILE_ROOM>; 2],
)
    requires within { Within given.now }
    requires empty { printed.old.items ≡ [] }
    ensures { output printed.new.items (map file_in files.new) ≡ played (setup_with bank.now) given.now.count
        (take (given.now.count * row_words) given.now.rows) (blank given.now.count) (edits_from given.now.edit_count given.now.edits) }
{
    let n = given.count;
    let mut rows = given.rows;
    let mut out = [0; MOST_ROWS * FRAMES];
    let mut aux = [0; MOST_ROWS * FRAMES];
    let mut kept = [0; MOST_ROWS * KEPT_WORDS];
    let patch = Patch {
        settings: SETTINGS,
        bank,
        map: b"",
    };
    let samples = n * FRAMES;
    let words = n * KEPT_WORDS;
    let used = n * ROW_WORDS;
    let mut take = Take {
        out: &mut out[..samples],
        aux: &mut aux[..samples],
        kept: &mut kept[..words],
    };
    play_take(
        patch,
        &given.edits,
        given.edit_count,
        &mut rows[..used],
        n,
        &mut take,
        printed,
        files,
    );
}

// The same from the bank's bytes.
pub fn play(
    bank: &[u8],
    given: &Inputs,
    printed: &mut ArrayVec<u8, PRINTED_ROOM>,
    files: &mut [OutputFile<FILE_ROOM>; 2],
)
    requires bank_len { length bank.now ≡ bytes_of_bank }
    requires within { Within given.now }
    requires empty { printed.old.items ≡ [] }
    ensures { output printed.new.items (map file_in files.new) ≡ played (setup_of bank.now) given.now.count
        (take (given.now.count * row_words) given.now.rows) (blank given.now.count) (edits_from given.now.edit_count given.now.edits) }
{
    let mut samples = [0i16; BANK_LENGTH];
    formats::samples_of(bank, &mut samples);
    play_rows(&samples, given, printed, files);
}
