// The program in a folder: it reads the three files there, prints, and writes the two files that it is handed. What is printed and
// written is `retake_lib::run_read` of the bytes that were read; here they are only moved.
#![tactic(auto)]

use files::reading::read_file;
use files::writing::{NewFile, write_two};
use retake_lib::{BANK_ROOM, TEXT_ROOM};

// Reads, prints and writes in the folder in which the program was started.
pub fn run(rt: &(impl std::rt::Files + Print + Eprint)) {
    let mut score = [0u8; TEXT_ROOM];
    let mut edits = [0u8; TEXT_ROOM];
    let mut bank = [0u8; BANK_ROOM];
    let score_bytes = read_file(rt, b"score.txt", &mut score);
    let edits_bytes = read_file(rt, b"edits.txt", &mut edits);
    let bank_bytes = read_file(rt, b"bank.bin", &mut bank);
    let written = retake_lib::run_read(&score, score_bytes, &edits, edits_bytes, &bank, bank_bytes);
    let _ = rt.write_all(&written.printed);
    if let Some([out, aux]) = &written.files {
        // No `From`: neither type is of this crate.
        let first = NewFile {
            name: out.name,
            bytes: &out.bytes,
        };
        let second = NewFile {
            name: aux.name,
            bytes: &aux.bytes,
        };
        write_two(rt, first, second);
    }
}
