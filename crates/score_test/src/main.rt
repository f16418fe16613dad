// Reads the texts of standard input, and long ones that it makes itself, and writes what each reading left; and the tidy texts of scores.
// A text of standard input ends at the byte that says how it is read: `~` as a score into 20 words, `<` as one into 14, `>` as one into 20 that
// are then written into 130 bytes, `@` as edits into 18.
// An LF after that byte belongs to no text.
// Each word is a print of its own, and one that the system does not take is let go.
#![tactic(auto)]

ghost use Rattle.std.specs.Prelude.{◌≤◌};

use arrayvec::ArrayVec;
use score::refusal::Refusal;
use trial::{read_input, say_two};

// What stands in lent words before a call.
const FILL: u32 = 0xaaaaaaaa;

const NAMES: [u8; 36] = *b"note timbre morph harmonics restart\n";

const VALUES: [u8; 45] = *b"42700000 3f000000 3f000000 3f000000 00000000\n";

// The names and 4,098 lines.
const LONG_TEXT: usize = 36 + 45 * 4098;

// Writes a refusal's two numbers.
fn say_refusal(rt: &impl Print, refusal: Refusal) {
    say_two(
        rt,
        b"refused",
        refusal.number() as u64,
        refusal.place() as u64,
    );
}

// The answer's line; after a success each lent word, after a refusal whether they all are as they were.
fn show(rt: &impl Print, answer: Result<usize, Refusal>, words: &[u32]) {
    match answer {
        Ok(count) => {
            let _ = print!(rt; "read");
            let _ = print!(rt; " {count}");
            for word in words {
                let _ = print!(rt; " {word:08x}");
            }
        }
        Err(refusal) => {
            say_refusal(rt, refusal);
            let kept = words.iter().all(|&word| word == FILL);
            let how = if kept { "kept" } else { "changed" };
            let _ = print!(rt; " {how}");
        }
    }
    let _ = println!(rt);
}

// The answer's line, and then the lent bytes.
fn show_text(rt: &impl Print, answer: Result<usize, Refusal>, text: &[u8]) {
    match answer {
        Ok(bytes) => {
            let _ = print!(rt; "written");
            let _ = print!(rt; " {bytes}");
        }
        Err(refusal) => say_refusal(rt, refusal),
    }
    let _ = println!(rt);
    let _ = rt.write_all(text);
    let _ = println!(rt);
}

// Reads a score into so many words, and shows them.
fn read<const WORDS: usize>(rt: &impl Print, text: &[u8])
    requires { WORDS ≤ 20 }
{
    let mut rows = [FILL; WORDS];
    let answer = reader::read(text, &mut rows);
    show(rt, answer, &rows);
}

// Reads edits, and shows them.
fn read_edits(rt: &impl Print, text: &[u8]) {
    let mut edits = [FILL; 18];
    let answer = reader::read_edits(text, &mut edits);
    show(rt, answer, &edits);
}

// Reads a score, writes it, and shows the lent text.
fn tidy(rt: &impl Print, text: &[u8]) {
    let mut rows = [FILL; 20];
    match reader::read(text, &mut rows) {
        Ok(count) => {
            let mut tidied = [b'.'; 130];
            let wrote = writer::write(&rows, count, &mut tidied);
            show_text(rt, wrote, &tidied);
        }
        refused => show(rt, refused, &rows),
    }
}

// Reads a text as the byte behind it says; a byte that ends no text says nothing.
fn run(rt: &impl Print, text: &[u8], how: u8) {
    match how {
        b'~' => read::<20>(rt, text),
        b'<' => read::<14>(rt, text),
        b'>' => tidy(rt, text),
        b'@' => read_edits(rt, text),
        _ => {}
    }
}

// Each text in its turn. An LF at the start of the first stands behind no text's last byte.
fn run_all(rt: &impl Print, input: &[u8]) {
    for (k, text) in input.split_inclusive(|b| b"~<>@".contains(b)).enumerate() {
        let text = if k > 0 {
            text.strip_prefix(b"\n").unwrap_or(text)
        } else {
            text
        };
        if let Some((how, text)) = text.split_last() {
            run(rt, text, *how);
        }
    }
}

// A score of `lines` equal lines and then `tail`, as far as there is room. It is lent, since it is large.
fn long_text(text: &mut ArrayVec<u8, LONG_TEXT>, lines: usize, tail: &[u8]) {
    let _ = text.try_extend_from_slice(&NAMES);
    for _ in 0..lines {
        let _ = text.try_extend_from_slice(&VALUES);
    }
    let _ = text.try_extend_from_slice(tail);
}

// Reads such a score into so many words, and shows the last six of them; all after a refusal.
fn long<const WORDS: usize>(rt: &impl Print, lines: usize, tail: &[u8])
    requires { WORDS ≤ 20481 }
{
    let mut text = ArrayVec::new();
    long_text(&mut text, lines, tail);
    let mut words = [FILL; WORDS];
    let words = &mut words[..];
    let answer = reader::read(&text, words);
    let from = if answer.is_ok() {
        WORDS.saturating_sub(6)
    } else {
        0
    };
    show(rt, answer, &words[from..]);
}

// Writes the most rows that a score can have into so many bytes, and shows the last 50 of them.
fn write_long<const BYTES: usize>(rt: &impl Print)
    requires { BYTES ≤ 184360 }
{
    let rows = [0u32; 20480];
    let mut text = [b'.'; BYTES];
    let text = &mut text[..];
    let answer = writer::write(&rows, 4096, text);
    show_text(rt, answer, &text[BYTES.saturating_sub(50)..]);
}

fn main(rt: HostRuntime) {
    let mut input = [0u8; 32768];
    let size = read_input(&rt, &mut input);
    run_all(&rt, &input[..size]);
    // Into words for all rows that a score can have, and one more; and into one word less than those rows need.
    long::<20481>(&rt, 4097, b"");
    long::<20481>(&rt, 4097, b"42700000 3f000000 3f000000 3f000000 0000000g\n");
    long::<20481>(&rt, 4097, b"42700000 3f000000 3f000000 3f000000 00000002\n");
    long::<20481>(&rt, 4095, b"42700000 3f000000 3f000000 3f000000 00000002\n");
    long::<20479>(&rt, 4096, b"");
    long::<20481>(&rt, 4096, b"");
    // Into one byte less than their text needs, as many, and four more.
    write_long::<184355>(&rt);
    write_long::<184356>(&rt);
    write_long::<184360>(&rt);
}
