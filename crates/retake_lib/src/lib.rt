// The program `retake`: what it prints, and which files it writes, by the bytes of the three files that it reads.
#![tactic(auto)]

ghost use Rattle.std.specs.Prelude.{◌≡◌, ◌+◌, ◌≤◌, ◌++◌, length, take, IsUtf8};
ghost use Rattle.arrayvec.specs.ArrayVec.{array_vec_len};
ghost use Rattle.inputs.specs.Inputs.{most_text, bytes_of_bank};
ghost use Rattle.retake_lib.specs.Program.{program, output_in, turned};
ghost use Rattle.retake_lib.specs.Lent.{ReadInto};

mod playing;

use arrayvec::ArrayVec;
use inputs::{BANK_BYTES, MOST_EDITS, MOST_ROWS, MOST_TEXT};
use outputs::files::OutputFile;
use outputs::lines::{MOST_LINE, put_refusal};
use playing::FRAMES;
use score::refusal::Refusal;

// The bytes that a text and a bank are read into: one more than the most that is taken, so that a longer file is noticed.
pub const TEXT_ROOM: usize = MOST_TEXT + 1;

pub const BANK_ROOM: usize = BANK_BYTES + 1;

// The most bytes that are printed: a heading and the lines of the most edits.
pub const PRINTED_ROOM: usize = MOST_LINE + MOST_EDITS * MOST_LINE;

// The most bytes of a file: the samples of the most rows.
pub const FILE_ROOM: usize = MOST_ROWS * FRAMES * 4;

// What a run writes: lines on standard output, and its two files, if it comes so far.
#[derive(Clone, Drop)]
pub struct Written {
    pub printed: ArrayVec<u8, PRINTED_ROOM>,
    pub files: Option<[OutputFile<FILE_ROOM>; 2]>,
}

// A line behind what was printed. That there is room is a clause: how much is left changes with every line.
fn print(line: &[u8], printed: &mut ArrayVec<u8, PRINTED_ROOM>)
    requires { array_vec_len printed.old + length line.now ≤ PRINTED_ROOM }
    ensures bytes { printed.new.items ≡ printed.old.items ++ line.now }
    ensures len { array_vec_len printed.new ≡ array_vec_len printed.old + length line.now }
{
    // There is room, so nothing is refused.
    let _ = printed.try_extend_from_slice(line);
}

// What is written after a refusal.
fn turned(refusal: Refusal) -> Written
    ensures { output_in result ≡ turned refusal }
{
    let mut printed = ArrayVec::new();
    let mut line = [0; MOST_LINE];
    let end = put_refusal(refusal.number(), refusal.place(), &mut line, 0);
    print(&line[..end], &mut printed);
    Written {
        printed,
        files: None,
    }
}

// The program: by the bytes of `score.txt`, `edits.txt` and `bank.bin`, what is printed, which is text, and the files that are written.
// Three slices and no struct: each is handed on once, to a test of its own. Lines and files are put in their places, and by value only at the
// end: handed on so from call to call, and where this is inlined, they are copied each time.
#[inline(never)]
pub fn run(score: &[u8], edits: &[u8], bank: &[u8]) -> Written
    ensures output { output_in result ≡ program score.now edits.now bank.now }
    ensures text { IsUtf8 result.printed.items }
{
    let given = match inputs::read(score, edits, bank.len()) {
        Ok(given) => given,
        Err(refusal) => return turned(refusal),
    };
    let mut printed = ArrayVec::new();
    let mut files = [OutputFile::new(), OutputFile::new()];
    playing::play(bank, &given, &mut printed, &mut files);
    Written {
        printed,
        files: Some(files),
    }
}

// The same by the first bytes of three buffers, as many as were read into each.
pub fn run_read(
    score: &[u8],
    score_bytes: usize,
    edits: &[u8],
    edits_bytes: usize,
    bank: &[u8],
    bank_bytes: usize,
) -> Written
    requires read_into { ReadInto score.now score_bytes most_text }
    requires read_into_2 { ReadInto edits.now edits_bytes most_text }
    requires read_into_3 { ReadInto bank.now bank_bytes bytes_of_bank }
    ensures { output_in result ≡ program (take score_bytes score.now) (take edits_bytes edits.now) (take bank_bytes bank.now) }
{
    run(
        &score[..score_bytes],
        &edits[..edits_bytes],
        &bank[..bank_bytes],
    )
}
