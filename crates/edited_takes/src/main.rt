// Lists of edits, insertions and removals on every instrument, and what the calls refuse. A line for each call: its kind, what it answered, and
// which of the lent words (rows, out, aux, kept) are as they should be.
// Each word is a print of its own, and one that the system does not take is let go.
#![tactic(auto)]

ghost use Rattle.std.specs.Prelude.{◌≤◌};

use arrayvec::ArrayVec;
use oscillator::bank::BANK_LENGTH;
use refusals::Call;
use rows::{Patch, Report, Settings};
use score::refusal::Refusal;
use score::rows::ROW_WORDS;
use terrain::MAP_LENGTH;
use trial::{fill_tables, perform, say_two};
use voice::KEPT_WORDS;

// ---- Calls

// What stands in lent words before anything is written there: a NaN's pattern, outside every limit.
const JUNK: u32 = 0xffffffff;

// Writes a call's line: its kind, what it answered, and the names of those of the lent words that are as they should be.
fn say_line(
    rt: &impl Print,
    call: Call,
    answer: Result<Report, Refusal>,
    right: [(&str, bool); 4],
) {
    let name = call.name();
    let _ = print!(rt; "{name}");
    match answer {
        Ok(report) => say_two(rt, b" done", report.rows as u64, report.holds.held as u64),
        Err(refusal) => say_two(
            rt,
            b" refused",
            refusal.number() as u64,
            refusal.place() as u64,
        ),
    }
    for (name, right) in right {
        if right {
            let _ = print!(rt; " {name}");
        }
    }
    let _ = println!(rt);
}

// ---- Lists
//
// Lists of calls on one instrument. After each call the lent words are compared, word by word, with what they should be: up to the row count the
// score that the call makes and its fresh rendering into other words, and past it what stood there. After a refused call all words should be
// what stood there.

const RATE: u32 = 48000;

const FRAMES: usize = 6;

// The rows that there is room for.
const ROOM: usize = 10;

// Notes 32, 60 and 120, and the word after 32's.
const LOW: u32 = 0x42000000;

const LOW_UP: u32 = 0x42000001;

const MID: u32 = 0x42700000;

const TOP: u32 = 0x42f00000;

// Timbres, morphs and harmonics: -0, 1/8 and a little more, 1/4, 1/2, and 1 with the words at its sides.
const MINUS: u32 = 0x80000000;

const EIGHTH: u32 = 0x3e000000;

const EIGHTH_UP: u32 = 0x3e000002;

const QUARTER: u32 = 0x3e800000;

const HALF: u32 = 0x3f000000;

const BELOW: u32 = 0x3f7fffff;

const ONE: u32 = 0x3f800000;

const ABOVE: u32 = 0x3f800001;

const SCORE: [[u32; ROW_WORDS]; 8] = [
    [MID, 0, QUARTER, BELOW, 0],
    [LOW, HALF, QUARTER, HALF, 0],
    [MID, EIGHTH, QUARTER, HALF, 1],
    [MID, HALF, QUARTER, HALF, 0],
    [MID, HALF, QUARTER, HALF, 0],
    [MID, HALF, QUARTER, HALF, 0],
    [MID, HALF, QUARTER, HALF, 0],
    [TOP, ONE, ONE, HALF, 0],
];

// A list on all rows of the score.
const LONG: [Call; 46] = [
    Call::Render,
    // edits: to a restart, to the end, of the same words, of the last row
    Call::Edit(0, [LOW, 0, QUARTER, BELOW, 0]),
    Call::Edit(4, [LOW, HALF, QUARTER, HALF, 0]),
    Call::Edit(4, [LOW, HALF, QUARTER, HALF, 0]),
    Call::Edit(4, [MID, HALF, QUARTER, HALF, 0]),
    Call::Edit(7, [TOP, ONE, ONE, ONE, 0]),
    // to the same state; the last two by row 0's restart, which changes nothing
    Call::Edit(0, [LOW, MINUS, QUARTER, BELOW, 0]),
    Call::Edit(0, [LOW, MINUS, QUARTER, ONE, 0]),
    Call::Edit(0, [LOW_UP, MINUS, QUARTER, ONE, 0]),
    Call::Edit(0, [LOW_UP, MINUS, QUARTER, ONE, 1]),
    Call::Edit(0, [LOW_UP, MINUS, QUARTER, ONE, 0]),
    // a restart taken out and put back
    Call::Edit(2, [MID, EIGHTH, QUARTER, HALF, 0]),
    Call::Edit(2, [MID, EIGHTH, QUARTER, HALF, 1]),
    // refused: 8 before 9, and 9
    Call::Edit(8, [MID, ABOVE, QUARTER, HALF, 0]),
    Call::Edit(7, [MID, ABOVE, QUARTER, HALF, 0]),
    Call::Edit(3, [MID, HALF, QUARTER, HALF, 2]),
    // behind a row that restarts, a copy of it: the state is at once the same
    Call::Insert(3, [MID, EIGHTH, QUARTER, HALF, 1]),
    Call::Remove(3),
    // nearly a copy: the state is soon the same
    Call::Insert(3, [MID, EIGHTH_UP, QUARTER, HALF, 1]),
    Call::Edit(3, [MID, EIGHTH, QUARTER, HALF, 1]),
    Call::Edit(3, [MID, EIGHTH_UP, QUARTER, HALF, 1]),
    Call::Remove(3),
    // in the middle: to a restart, just before it, to the end
    Call::Insert(1, [LOW, HALF, HALF, HALF, 0]),
    Call::Remove(1),
    Call::Insert(2, [LOW, HALF, HALF, HALF, 0]),
    Call::Remove(2),
    Call::Insert(5, [LOW, HALF, HALF, HALF, 0]),
    Call::Remove(5),
    // at 0, before a row that does not restart and before one that does
    Call::Insert(0, [LOW, HALF, HALF, HALF, 0]),
    Call::Remove(0),
    Call::Insert(0, [MID, 0, QUARTER, HALF, 1]),
    Call::Insert(0, [LOW, HALF, HALF, HALF, 0]),
    Call::Remove(0),
    // refused: 8 before 9, and 9
    Call::Insert(10, [MID, ABOVE, QUARTER, HALF, 0]),
    Call::Insert(9, [MID, ABOVE, QUARTER, HALF, 0]),
    Call::Insert(2, [MID, HALF, QUARTER, HALF, 2]),
    Call::Remove(9),
    // at the count, into the last place; refused after that: 8 before 13, and 13 before 9
    Call::Insert(9, [LOW, HALF, HALF, HALF, 0]),
    Call::Insert(11, [MID, ABOVE, QUARTER, HALF, 0]),
    Call::Insert(10, [MID, ABOVE, QUARTER, HALF, 0]),
    // with no spare place, and down again from the end
    Call::Edit(8, [TOP, ONE, ONE, HALF, 0]),
    Call::Remove(9),
    Call::Remove(4),
    Call::Remove(0),
    Call::Remove(6),
    Call::Insert(6, [LOW, 0, 0, 0, 1]),
];

// A list on the first two rows. The second removal is of the only row.
const SHORT: [Call; 7] = [
    Call::Render,
    Call::Remove(0),
    Call::Remove(0),
    Call::Insert(0, [MID, 0, QUARTER, HALF, 0]),
    Call::Remove(1),
    Call::Insert(1, [MID, 0, QUARTER, HALF, 1]),
    Call::Edit(0, [TOP, HALF, HALF, HALF, 0]),
];

// The rows of a score.
type Score = ArrayVec<[u32; ROW_WORDS], ROOM>;

const ROW_ROOM: usize = ROOM * ROW_WORDS;

const SAMPLE_ROOM: usize = ROOM * FRAMES;

const KEPT_ROOM: usize = ROOM * KEPT_WORDS;

type Words = trial::Words<ROW_ROOM, SAMPLE_ROOM, KEPT_ROOM>;

// The words of some rows, and junk behind them.
fn row_words(score: &[[u32; ROW_WORDS]]) -> [u32; ROW_ROOM] {
    let mut words = [JUNK; ROW_ROOM];
    for (word, value) in words.iter_mut().zip(score.iter().flatten()) {
        *word = *value;
    }
    words
}

// What an accepted call makes of a score.
fn change(score: &mut Score, call: Call) {
    match call {
        Call::Render => {}
        Call::Edit(position, row) => {
            if let Some(place) = score.get_mut(position) {
                *place = row;
            }
        }
        Call::Insert(position, row) => {
            if position <= score.len() {
                let _ = score.try_insert(position, row);
            }
        }
        Call::Remove(position) => {
            let _ = score.pop_at(position);
        }
    }
}

// A fresh rendering, into words that no list starts with.
fn fresh(patch: Patch<'_>, score: &Score) -> Words {
    let mut words = Words {
        rows: row_words(score),
        out: [0x12345678; SAMPLE_ROOM],
        aux: [0x7fc00001; SAMPLE_ROOM],
        kept: [0x80000000; KEPT_ROOM],
    };
    let _ = words.call(patch, score.len(), Call::Render);
    words
}

// Whether a run has the first k words of `fresh`, and those of `old` behind them.
fn joined(words: &[u32], k: usize, fresh: &[u32], old: &[u32]) -> bool {
    words
        .iter()
        .eq(fresh.iter().take(k).chain(old.iter().skip(k)))
}

// A call and its line.
fn turn(rt: &impl Print, patch: Patch<'_>, call: Call, score: &mut Score, words: &mut Words) {
    let old = *words;
    let answer = words.call(patch, score.len(), call);
    if answer.is_ok() {
        change(score, call);
    }
    let new = fresh(patch, score);
    let n = if answer.is_ok() { score.len() } else { 0 };
    let samples = n * FRAMES;
    let right = [
        (
            "rows",
            joined(&words.rows, n * ROW_WORDS, &new.rows, &old.rows),
        ),
        ("out", joined(&words.out, samples, &new.out, &old.out)),
        ("aux", joined(&words.aux, samples, &new.aux, &old.aux)),
        (
            "kept",
            joined(&words.kept, n * KEPT_WORDS, &new.kept, &old.kept),
        ),
    ];
    say_line(rt, call, answer, right);
}

// The calls of a table, on the score's first rows. The others stand behind them.
fn list(rt: &impl Print, patch: Patch<'_>, count: usize, table: &[Call])
    requires { count ≤ 8 }
{
    let rows = SCORE;
    let mut score = ArrayVec::new();
    let _ = score.try_extend_from_slice(&rows[..count]);
    let mut words = Words {
        rows: row_words(&rows),
        out: [JUNK; SAMPLE_ROOM],
        aux: [JUNK; SAMPLE_ROOM],
        kept: [JUNK; KEPT_ROOM],
    };
    for call in table {
        turn(rt, patch, *call, &mut score, &mut words);
    }
}

// The lists on an instrument.
fn play(rt: &impl Print, instrument: u32, bank: &[i16], map: &[u8]) {
    let _ = print!(rt; "instrument");
    let _ = print!(rt; " {instrument}");
    let _ = println!(rt);
    let settings = Settings {
        instrument,
        rate: RATE,
        frames: FRAMES,
    };
    let patch = Patch {
        settings,
        bank,
        map,
    };
    list(rt, patch, SCORE.len(), &LONG);
    list(rt, patch, 2, &SHORT);
}

// ---- Refusals
//
// What the calls refuse. Each line of a table says what is handed to the four calls, with a score whose row 1 is outside a limit. From line to
// line the faults are put right in the order of the tests, so that each number is seen before those that come after it. In the last line row 1
// itself is edited and taken out, which is accepted. The lent words are compared with what they were.

// The instrument, rate and frames; how many samples of the bank and bytes of the map are lent; the row count; how many row words and words of
// out, aux and kept are lent; the position. A tuple, so that each line of the table is one line.
type Line = ((u32, u32, usize), [usize; 2], usize, [usize; 4], usize);

const LINES: [Line; 31] = [
    // 1 to 5, for both sides of what is tested
    ((4, 31999, 0), [25343, 1], 0, [14, 17, 17, 38], 4),
    ((3, 31999, 0), [25343, 1], 0, [14, 17, 17, 38], 4),
    ((3, 192001, 0), [25343, 1], 0, [14, 17, 17, 38], 4),
    ((3, 32000, 0), [25343, 1], 0, [14, 17, 17, 38], 4),
    ((3, 192000, 129), [25343, 1], 0, [14, 17, 17, 38], 4),
    ((3, 48000, 1), [25343, 1], 0, [14, 17, 17, 38], 4),
    ((3, 48000, 128), [25345, 1], 0, [14, 17, 17, 38], 4),
    ((3, 48000, 6), [25344, 1], 0, [14, 17, 17, 38], 4),
    ((2, 48000, 6), [25344, 0], 0, [14, 17, 17, 38], 4),
    ((2, 48000, 6), [25344, 4095], 0, [14, 17, 17, 38], 4),
    ((2, 48000, 6), [25344, 4097], 0, [14, 17, 17, 38], 4),
    ((0, 48000, 6), [25344, 4096], 0, [14, 17, 17, 38], 4),
    // 6: no row, too many, too few row words; an insertion into 4,096 rows; a removal of the only row
    ((0, 48000, 6), [25344, 0], 0, [14, 17, 17, 38], 4),
    ((0, 48000, 6), [25344, 0], 4097, [20485, 17, 17, 38], 4),
    ((0, 48000, 6), [25344, 0], 3, [14, 17, 17, 38], 4),
    ((0, 48000, 6), [25344, 0], 4096, [20480, 17, 17, 38], 4),
    ((0, 48000, 6), [25344, 0], 1, [5, 5, 5, 12], 4),
    // 7, also for the largest count of an insertion and the smallest of a removal
    ((0, 48000, 6), [25344, 0], 4095, [20475, 17, 17, 38], 4),
    ((0, 48000, 6), [25344, 0], 2, [10, 11, 12, 26], 4),
    ((0, 48000, 6), [25344, 0], 3, [15, 17, 18, 39], 4),
    ((0, 48000, 6), [25344, 0], 3, [15, 18, 17, 39], 4),
    ((0, 48000, 6), [25344, 0], 3, [15, 18, 18, 38], 4),
    // 8 above the count and at it, where an insertion has no spare place: 13
    ((0, 48000, 6), [25344, 0], 3, [15, 18, 18, 39], 4),
    ((0, 48000, 6), [25344, 0], 3, [15, 18, 18, 39], 3),
    ((0, 48000, 6), [25344, 0], 3, [19, 24, 24, 52], 3),
    ((0, 48000, 6), [25344, 0], 3, [20, 23, 24, 52], 3),
    ((0, 48000, 6), [25344, 0], 3, [20, 24, 23, 52], 3),
    ((0, 48000, 6), [25344, 0], 3, [20, 24, 24, 51], 3),
    // 9, at the bad row's place in the score that the call makes
    ((0, 48000, 6), [25344, 0], 3, [20, 24, 24, 52], 3),
    ((0, 48000, 6), [25344, 0], 3, [20, 24, 24, 52], 0),
    ((0, 48000, 6), [25344, 0], 3, [20, 24, 24, 52], 1),
];

// The settings of a line, with as much of the bank and the map as it lends.
fn patch_of<'a>(line: Line, bank: &'a [i16], map: &'a [u8]) -> Patch<'a> {
    let ((instrument, rate, frames), [samples, bytes], _, _, _) = line;
    let settings = Settings {
        instrument,
        rate,
        frames,
    };
    Patch {
        settings,
        bank: &bank[..samples.min(bank.len())],
        map: &map[..bytes.min(map.len())],
    }
}

// A call that is handed what a line says, and its line.
fn attempt(rt: &impl Print, call: Call, line: Line, bank: &[i16], map: &[u8]) {
    let (_, _, count, [row_words, outs, auxs, keeps], _) = line;
    let mut rows = [0u32; 20485];
    rows[6] = 0x3f800001;
    let old_rows = rows;
    let mut out = [JUNK; 24];
    let mut aux = [JUNK; 24];
    let mut kept = [JUNK; 52];
    let answer = perform(
        patch_of(line, bank, map),
        &mut rows[..row_words.min(20485)],
        count,
        call,
        &mut out[..outs.min(24)],
        &mut aux[..auxs.min(24)],
        &mut kept[..keeps.min(52)],
    );
    let same = [
        ("rows", rows == old_rows),
        ("out", out == [JUNK; 24]),
        ("aux", aux == [JUNK; 24]),
        ("kept", kept == [JUNK; 52]),
    ];
    say_line(rt, call, answer, same);
}

// The four calls, with each line of the table, and with a bank and a map that have an element too many.
fn attempts(rt: &impl Print) {
    let bank = [0i16; BANK_LENGTH + 1];
    let map = [0u8; MAP_LENGTH + 1];
    let row = [0x42700000, 0, 0, 0, 0];
    for line in LINES {
        let (_, _, _, _, at) = line;
        for call in [
            Call::Render,
            Call::Edit(at, row),
            Call::Insert(at, row),
            Call::Remove(at),
        ] {
            attempt(rt, call, line, &bank, &map);
        }
    }
}

fn main(rt: HostRuntime) {
    let mut bank = [0i16; BANK_LENGTH];
    let mut map = [0u8; MAP_LENGTH];
    fill_tables(1, &mut bank, &mut map);
    play(&rt, 0, &bank, b"");
    play(&rt, 1, &bank, b"");
    play(&rt, 2, &bank, &map);
    play(&rt, 3, &bank, b"");
    attempts(&rt);
}
