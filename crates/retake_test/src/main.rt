// Runs the program's library on the cases of standard input, and writes what each run prints, and the length and the sums of its files.
// A case is a score's text up to `~`, then the edits' text up to the byte that says which bank goes with it: `=` a full one, `<` one that
// is a byte short, `>` one that is a byte too long, `!` none. An LF after that byte belongs to no text. Each of the five bytes ends a text of
// either kind. Each word is a print of its own, and one that the system does not take is let go.
// The cases, in their order: an LF before the score's text; document 01's example; no edits; refused edits among others; names in another
// order; rows that hold; 128 rows and 32 edits; the score refused by 10 (three ways), 6, 11 (two), 9, 12, 11, 10 and 12 for its length; the
// edits by 10 (three), 11, 12, 11, 12 for their length; the bank (three); which of two or three refusals comes first; a score's text that `=`
// ends; and edits that `~` ends.
#![tactic(auto)]

use inputs::BANK_BYTES;
use outputs::files::OutputFile;
use retake_lib::{BANK_ROOM, FILE_ROOM};
use trial::{fill, read_input, sum_of};

const INPUT_ROOM: usize = 65536;

// What the program is handed: the bytes of its three files.
#[derive(Clone, Copy)]
struct Case<'a> {
    score: &'a [u8],
    edits: &'a [u8],
    bank: &'a [u8],
}

// As much of the bank as the last byte of a case asks for, where it is one of the five.
fn bank_for(how: u8, bank: &[u8; BANK_ROOM]) -> Option<&[u8]> {
    match how {
        b'=' => Some(&bank[..BANK_BYTES]),
        b'<' => Some(&bank[..BANK_BYTES - 1]),
        b'>' => Some(bank),
        b'!' | b'~' => Some(b""),
        _ => None,
    }
}

// The files' length and sums.
fn show_files(rt: &impl Print, files: &[OutputFile<FILE_ROOM>; 2]) {
    let [out, aux] = files;
    let _ = print!(rt; "files");
    let _ = print!(rt; " {}", out.bytes.len());
    for file in [out, aux] {
        let _ = print!(rt; " {}", sum_of(&file.bytes));
    }
    let _ = println!(rt);
}

fn run(rt: &impl Print, case: Case<'_>) {
    let written = retake_lib::run(case.score, case.edits, case.bank);
    let _ = rt.write_all(&written.printed);
    if let Some(files) = &written.files {
        show_files(rt, files);
    }
    let _ = println!(rt);
}

// A score's text, without the LF behind the case before it.
fn score_text(text: &[u8], first: bool) -> &[u8] {
    if first {
        return text;
    }
    text.strip_prefix(b"\n").unwrap_or(text)
}

// Each case in its turn: every second text is the edits of the one before it.
fn run_all(rt: &impl Print, input: &[u8], bank: &[u8; BANK_ROOM]) {
    let mut score: &[u8] = b"";
    for (k, text) in input.split_inclusive(|b| b"~=<>!".contains(b)).enumerate() {
        let Some((how, text)) = text.split_last() else {
            return;
        };
        if k % 2 == 0 {
            score = score_text(text, k == 0);
        } else if let Some(bank) = bank_for(*how, bank) {
            let edits = text;
            run(rt, Case { score, edits, bank });
        }
    }
}

fn main(rt: HostRuntime) {
    let mut input = [0u8; INPUT_ROOM];
    let size = read_input(&rt, &mut input);
    let mut bank = [0u8; BANK_ROOM];
    fill(1, &mut bank);
    run_all(&rt, &input[..size], &bank);
}
