// Replays the Rust's answers: renders the scores of its input, edits them, puts rows in and takes rows out, and prints what the file `stdout`
// holds, which the original made (compare/driver/src/bin/answers.rs says how).
//
// The input has words, low byte first: the number of scores, and for each score instrument, rate, frames, seed, rows n and calls m; n rows of
// five words; m calls of seven words: the kind (0 edit, 1 insertion, 2 removal), the position, and the row's five words (zeros for a removal).
// The bank and the map of a score come from its seed. What is lent has room for more rows than the score has.
// A word that the input does not have is 0. A score that is too large is not played, nor what stands behind it.
// Each word is a print of its own, and one that the system does not take is let go.
#![tactic(auto)]

ghost use Rattle.std.specs.Prelude.{◌≤◌};

use oscillator::bank::BANK_LENGTH;
use refusals::Call;
use rows::{Patch, Report, Settings};
use score::refusal::Refusal;
use score::rows::ROW_WORDS;
use std::slice;
use terrain::MAP_LENGTH;
use trial::{fill_tables, read_input, say_two, sum_of};
use utils::engine::MOST_FRAMES;
use voice::{KEPT_WORDS, TERRAIN_WITH_MAP};

const MOST_ROWS: usize = 64;

const MOST_CALLS: usize = 8;

const MOST_BYTES: usize = 65536;

// What stands in a row word, a sample and a kept word before anything is written there: a NaN's pattern, outside every limit.
const JUNK: u32 = 0xffffffff;

// ---- The input

// The words that are still to come, in bytes.
type Input<'a> = slice::Iter<'a, [u8; 4]>;

// The next word, as a number.
fn number(word: Option<&[u8; 4]>) -> u32 {
    word.map_or(0, |bytes| u32::from_le_bytes(*bytes))
}

// The next words.
fn next<const N: usize>(input: &mut Input<'_>) -> [u32; N] {
    let mut words = [0; N];
    for word in &mut words {
        *word = number(input.next());
    }
    words
}

// The next words as a call, and whether the row count follows it. A kind above 2 is done as a removal that it does not follow.
fn next_call(input: &mut Input<'_>) -> (Call, bool) {
    let [kind, position] = next::<2>(input);
    let position = position as usize;
    let row = next(input);
    match kind {
        0 => (Call::Edit(position, row), true),
        1 => (Call::Insert(position, row), true),
        2 => (Call::Remove(position), true),
        _ => (Call::Remove(position), false),
    }
}

// What a score is played with. Its rows and its calls come behind it.
#[derive(Clone, Copy)]
struct Score {
    settings: Settings,
    seed: u32,
    rows: usize,
    calls: usize,
}

// The next words as a score, where there are any and it is not too large.
fn next_score(input: &mut Input<'_>) -> Option<Score> {
    if input.as_slice().is_empty() {
        return None;
    }
    let [instrument, rate, frames, seed, rows, calls] = next::<6>(input);
    let settings = Settings {
        instrument,
        rate,
        frames: frames as usize,
    };
    let score = Score {
        settings,
        seed,
        rows: rows as usize,
        calls: calls as usize,
    };
    if score.rows > MOST_ROWS || settings.frames > MOST_FRAMES || score.calls > MOST_CALLS {
        return None;
    }
    Some(score)
}

// ---- The lent words

const ROW_ROOM: usize = MOST_ROWS * ROW_WORDS;

const SAMPLE_ROOM: usize = MOST_ROWS * MOST_FRAMES;

const KEPT_ROOM: usize = MOST_ROWS * KEPT_WORDS;

type Words = trial::Words<ROW_ROOM, SAMPLE_ROOM, KEPT_ROOM>;

// The rows that come next in the input, and junk behind them.
fn next_rows(input: &mut Input<'_>, rows: usize) -> [u32; ROW_ROOM] {
    let mut words = [JUNK; ROW_ROOM];
    for row in words.chunks_exact_mut(ROW_WORDS).take(rows) {
        row.copy_from_slice(&next::<ROW_WORDS>(input));
    }
    words
}

// Writes what the take of a number of rows comes to.
fn say_take(rt: &impl Print, words: &Words, count: usize, frames: usize) {
    let samples = count.saturating_mul(frames);
    let out = sum_of_first(&words.out, samples);
    let aux = sum_of_first(&words.aux, samples);
    let kept = sum_of_first(&words.kept, count.saturating_mul(KEPT_WORDS));
    for sum in [out, aux, kept] {
        let _ = print!(rt; " {sum}");
    }
    let _ = println!(rt);
}

// A number that tells the first n words from others, or all of them where there are fewer.
fn sum_of_first(words: &[u32], n: usize) -> u64 {
    sum_of(words.get(..n).unwrap_or(words))
}

// ---- The lines

// Writes the numbers of a call's success, or the two of its refusal.
fn say_answer(rt: &impl Print, answer: Result<Report, Refusal>) {
    match answer {
        Ok(Report { rows, holds: h }) => {
            for n in [
                rows,
                h.held,
                h.phase,
                h.wave_position,
                h.level,
                h.map,
                h.bank,
            ] {
                let _ = print!(rt; " {n}");
            }
        }
        Err(refusal) => say_two(
            rt,
            b" refused",
            refusal.number() as u64,
            refusal.place() as u64,
        ),
    }
}

// Writes a call's name, and its position where it has one.
fn say_call(rt: &impl Print, call: Call) {
    let name = call.name();
    let _ = print!(rt; "{name}");
    if let Some(position) = call.position() {
        let _ = print!(rt; " {position}");
    }
}

// The row count after a call on a score of `count` rows. There is room for 64.
fn count_after(call: Call, count: usize, answer: Result<Report, Refusal>) -> usize
    ensures { count ≤ 64 → result ≤ 64 }
{
    match (answer, call) {
        (Ok(_), Call::Insert(_, _)) if count < MOST_ROWS => count + 1,
        (Ok(_), Call::Remove(_)) => count.saturating_sub(1),
        _ => count,
    }
}

// Does a call on a score that has `count` rows by then, and writes its name and its answer. Gives the row count after it.
fn perform(
    rt: &impl Print,
    patch: Patch<'_>,
    call: Call,
    words: &mut Words,
    count: usize,
) -> usize {
    let answer = words.call(patch, count, call);
    say_call(rt, call);
    say_answer(rt, answer);
    count_after(call, count, answer)
}

// Renders a score, and does the calls that come next in the input: a line for each, and one for the take that they leave where there were any.
fn play(rt: &impl Print, input: &mut Input<'_>, score: Score, patch: Patch<'_>) {
    let frames = score.settings.frames;
    let mut words = Words {
        rows: next_rows(input, score.rows),
        out: [JUNK; SAMPLE_ROOM],
        aux: [JUNK; SAMPLE_ROOM],
        kept: [JUNK; KEPT_ROOM],
    };
    let mut count = perform(rt, patch, Call::Render, &mut words, score.rows);
    say_take(rt, &words, count, frames);
    for _ in 0..score.calls {
        let (call, counts) = next_call(input);
        let after = perform(rt, patch, call, &mut words, count);
        let _ = println!(rt);
        if counts {
            count = after;
        }
    }
    if score.calls > 0 {
        let _ = print!(rt; "take");
        say_take(rt, &words, count, frames);
    }
}

// Plays a score with the bank and the map of its seed.
fn play_seeded(rt: &impl Print, input: &mut Input<'_>, score: Score) {
    let mut bank = [0i16; BANK_LENGTH];
    let mut map = [0u8; MAP_LENGTH];
    fill_tables(score.seed, &mut bank, &mut map);
    let settings = score.settings;
    let with_map = settings.instrument == TERRAIN_WITH_MAP;
    let patch = Patch {
        settings,
        bank: &bank,
        map: if with_map { &map } else { b"" },
    };
    play(rt, input, score, patch);
}

fn main(rt: HostRuntime) {
    let mut bytes = [0u8; MOST_BYTES];
    let got = read_input(&rt, &mut bytes);
    // a word that is cut is none
    bytes[got / 4 * 4..].fill(0);
    let (words, _) = bytes.as_chunks();
    let mut input = words.iter();
    let [count] = next::<1>(&mut input);
    for _ in 0..count {
        let Some(score) = next_score(&mut input) else {
            return;
        };
        play_seeded(&rt, &mut input, score);
    }
}
