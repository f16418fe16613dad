// Runs the program in a folder of its own, over and over, and writes what each run prints, and what the folder then holds of `out.f32`,
// `aux.f32` and the files beside them: how many bytes and their sum, or that there is no such file.
// The runs, in their order: nothing is there; no bank; document 01's example; the same over older and longer files; no edits; over older
// files, a score of 8,193 bytes and of 8,192, edits of 8,193 and of 8,192, and a bank that is a byte long and a byte short; the last with
// no files there; over older files, with a folder in the way of a new file; and once that is gone.
// Each word is a print of its own, and one that the system does not take is let go. A file that can't be written is named on
// standard error, and the runs go on.
#![tactic(auto)]

use files::reading::read_file;
use inputs::{BANK_BYTES, MOST_TEXT};
use retake_lib::{BANK_ROOM, TEXT_ROOM};
use std::fs;
use std::rt::Files;
use trial::{fill, sum_of};

// The bytes of the line of names of edits.txt.
const NAMES: usize = 40;

// A text, and the same with zeros behind it, up to one byte more than is taken.
#[derive(Clone, Copy)]
struct Text<'a> {
    own: &'a [u8],
    long: &'a [u8; TEXT_ROOM],
}

// Writes a file, in the place of one that is there.
fn write_file(rt: &(impl Files + Eprint), name: &str, bytes: &[u8]) {
    if let Err(e) = fs::write(rt, name, bytes) {
        let _ = eprintln!(rt; "{name}: {e}");
    }
}

// Removes a file, if it is there.
fn remove(rt: &impl Files, name: &str) {
    let _ = fs::remove_file(rt, name);
}

// A file's name, and its bytes and their sum, or that there is none.
fn show(rt: &(impl Files + Print), name: &str) {
    let _ = rt.print(name);
    if fs::open(rt, name).is_err() {
        let _ = println!(rt; " none");
        return;
    }
    let mut bytes = [0u8; 16384];
    let n = read_file(rt, name.as_bytes(), &mut bytes);
    let _ = print!(rt; " {n}");
    let _ = print!(rt; " {}", sum_of(&bytes[..n]));
    let _ = println!(rt);
}

// Runs the program, and shows what there is then.
fn run(rt: &(impl Files + Print + Eprint), what: &str) {
    let _ = rt.print(what);
    let _ = println!(rt);
    folder::run(rt);
    for name in ["out.f32", "aux.f32", "out.f32.new", "aux.f32.new"] {
        show(rt, name);
    }
    let _ = println!(rt);
}

// Older files, longer than those of a run.
fn put_older(rt: &(impl Files + Eprint)) {
    write_file(rt, "out.f32", &[1; 1000]);
    write_file(rt, "aux.f32", &[2; 2000]);
}

// A text of the two lengths about the most, and then as it was.
fn run_texts(rt: &(impl Files + Print + Eprint), name: &str, text: Text<'_>) {
    let Text { own, long } = text;
    write_file(rt, name, long);
    run(rt, "a text of 8,193 bytes");
    write_file(rt, name, &long[..MOST_TEXT]);
    run(rt, "a text of 8,192 bytes");
    write_file(rt, name, own);
}

// A bank that is too long and one that is too short, and then a full one.
fn run_banks(rt: &(impl Files + Print + Eprint), bank: &[u8; BANK_ROOM]) {
    write_file(rt, "bank.bin", bank);
    run(rt, "a bank of 50,689 bytes");
    write_file(rt, "bank.bin", &bank[..BANK_BYTES - 1]);
    run(rt, "a bank of 50,687 bytes");
    remove(rt, "out.f32");
    remove(rt, "aux.f32");
    run(rt, "the same with no files");
    write_file(rt, "bank.bin", &bank[..BANK_BYTES]);
}

// The example, over older files too, and with no edits.
fn run_example(rt: &(impl Files + Print + Eprint), edits: Text<'_>) {
    let Text { own, long } = edits;
    run(rt, "the example");
    put_older(rt);
    run(rt, "the example over older files");
    write_file(rt, "edits.txt", &long[..NAMES]);
    run(rt, "no edits");
    write_file(rt, "edits.txt", own);
}

// A folder is in the way of a new file.
fn run_blocked(rt: &(impl Files + Print + Eprint)) {
    put_older(rt);
    let _ = fs::create_dir(rt, "aux.f32.new");
    run(rt, "a folder in the way");
    let _ = fs::remove_dir(rt, "aux.f32.new");
    run(rt, "the folder gone");
}

// The runs up to those that are refused.
fn run_accepted(
    rt: &(impl Files + Print + Eprint),
    score: Text<'_>,
    edits: Text<'_>,
    bank: &[u8; BANK_ROOM],
) {
    remove(rt, "score.txt");
    remove(rt, "edits.txt");
    run(rt, "nothing");
    write_file(rt, "score.txt", score.own);
    write_file(rt, "edits.txt", edits.own);
    run(rt, "no bank");
    write_file(rt, "bank.bin", &bank[..BANK_BYTES]);
    run_example(rt, edits);
}

// The runs over older files.
fn run_refused(
    rt: &(impl Files + Print + Eprint),
    score: Text<'_>,
    edits: Text<'_>,
    bank: &[u8; BANK_ROOM],
) {
    put_older(rt);
    run_texts(rt, "score.txt", score);
    run_texts(rt, "edits.txt", edits);
    run_banks(rt, bank);
    run_blocked(rt);
}

fn main(rt: HostRuntime) {
    let mut score = [0u8; TEXT_ROOM];
    let mut edits = [0u8; TEXT_ROOM];
    let mut bank = [0u8; BANK_ROOM];
    let score_bytes = read_file(&rt, b"score.txt", &mut score);
    let edits_bytes = read_file(&rt, b"edits.txt", &mut edits);
    fill(1, &mut bank);
    let score = Text {
        own: &score[..score_bytes],
        long: &score,
    };
    let edits = Text {
        own: &edits[..edits_bytes],
        long: &edits,
    };
    run_accepted(&rt, score, edits, &bank);
    run_refused(&rt, score, edits, &bank);
}
