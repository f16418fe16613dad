// Calls the C functions by position, with arguments that tell them apart, and prints what they return, what they write to `first`, `second`
// and `counts`, and every lent word and byte. A contract speaks of a parameter by its name, C binds it by its place: two parameters that change
// places show here.
// Each word is a print of its own, and one that the system does not take is let go.
#![tactic(auto)]

use oscillator::bank::BANK_LENGTH;
use refusals::Call;
use score::rows::ROW_WORDS;
use std::fmt::Display;
use terrain::MAP_LENGTH;
use voice::{KEPT_WORDS, OSCILLATOR, TERRAIN_WITH_MAP, WAVETABLE};

// What stands in a result before a call writes it: a number, since C hands places that hold numbers.
const UNWRITTEN: u64 = 77;

const FRAMES: u32 = 4;

// States that no rendering leaves. From the first, with the row of `held` and the one behind it, the phase is held in 2 frames, x in 1, y in 3,
// z in 6, any of them in 7.
const HELD_WAVETABLE: [u32; KEPT_WORDS] = [
    0x40600000, 0x40000000, 0x40400000, 0x3f800000, 0x41040000, 0x41080000, 0x40000000, 0x3f800000,
    0x40000000, 0x43340000, 0x3c000000, 0x447a0000, 0x44fa0000,
];

// The map in 2 readings, the bank in 10.
const HELD_TERRAIN: [u32; KEPT_WORDS] = [
    0x3f800000, 0, 0x3d000000, 0x3f000000, 0x461c4000, 0x40c00000, 0, 0, 0, 0, 0, 0, 0,
];

// The phase in 5 frames, the waveform in 3 of these.
const HELD_OSCILLATOR: [u32; KEPT_WORDS] = [
    0x40d00000, 0x3a800000, 0x3c000000, 0x43480000, 0x42c80000, 0x43480000, 0x43960000, 0, 0, 0, 0,
    0, 0,
];

// What the calls of a score are lent beside its words, with the types that C hands.
#[derive(Clone, Copy)]
struct Patch<'a> {
    instrument: u32,
    rate: u32,
    bank: &'a [i16],
    map: &'a [u8],
}

// The words of a score of three rows and of its take, with room for a row more.
type Words = trial::Words<20, 16, 52>;

// What a C function writes beside the words: numbers alone, as C takes them.
#[derive(Clone, Copy)]
struct Results {
    first: u64,
    second: u64,
    counts: [u64; 5],
}

// One function for each of C's, which take one by one what stands here in three structs. Those of an edit and an insertion are two, as C's are.
fn render(words: &mut Words, patch: Patch<'_>, count: u64, results: &mut Results) -> u32 {
    retake_c::retake_render(
        patch.instrument,
        patch.rate,
        FRAMES,
        patch.bank,
        patch.map,
        &words.rows,
        count,
        &mut words.out,
        &mut words.aux,
        &mut words.kept,
        &mut results.first,
        &mut results.second,
        &mut results.counts,
    )
}

fn edit(
    words: &mut Words,
    patch: Patch<'_>,
    count: u64,
    position: u64,
    row: [u32; ROW_WORDS],
    results: &mut Results,
) -> u32 {
    let [note, timbre, morph, harmonics, restart] = row;
    retake_c::retake_edit(
        patch.instrument,
        patch.rate,
        FRAMES,
        patch.bank,
        patch.map,
        &mut words.rows,
        count,
        position,
        note,
        timbre,
        morph,
        harmonics,
        restart,
        &mut words.out,
        &mut words.aux,
        &mut words.kept,
        &mut results.first,
        &mut results.second,
        &mut results.counts,
    )
}

fn insert(
    words: &mut Words,
    patch: Patch<'_>,
    count: u64,
    position: u64,
    row: [u32; ROW_WORDS],
    results: &mut Results,
) -> u32 {
    let [note, timbre, morph, harmonics, restart] = row;
    retake_c::retake_insert(
        patch.instrument,
        patch.rate,
        FRAMES,
        patch.bank,
        patch.map,
        &mut words.rows,
        count,
        position,
        note,
        timbre,
        morph,
        harmonics,
        restart,
        &mut words.out,
        &mut words.aux,
        &mut words.kept,
        &mut results.first,
        &mut results.second,
        &mut results.counts,
    )
}

fn remove(
    words: &mut Words,
    patch: Patch<'_>,
    count: u64,
    position: u64,
    results: &mut Results,
) -> u32 {
    retake_c::retake_remove(
        patch.instrument,
        patch.rate,
        FRAMES,
        patch.bank,
        patch.map,
        &mut words.rows,
        count,
        position,
        &mut words.out,
        &mut words.aux,
        &mut words.kept,
        &mut results.first,
        &mut results.second,
        &mut results.counts,
    )
}

// Calls, with a score of `count` rows.
fn perform(
    words: &mut Words,
    patch: Patch<'_>,
    count: u64,
    call: Call,
    results: &mut Results,
) -> u32 {
    match call {
        Call::Render => render(words, patch, count, results),
        Call::Edit(position, row) => edit(words, patch, count, position as u64, row, results),
        Call::Insert(position, row) => insert(words, patch, count, position as u64, row, results),
        Call::Remove(position) => remove(words, patch, count, position as u64, results),
    }
}

// Calls, and writes a line of what was returned and written to the results, the rows that the call may change, and the take.
fn turn(rt: &impl Print, words: &mut Words, patch: Patch<'_>, count: u64, call: Call) {
    let mut results = Results {
        first: UNWRITTEN,
        second: UNWRITTEN,
        counts: [UNWRITTEN; 5],
    };
    let number = perform(words, patch, count, call, &mut results);
    let name = call.name();
    say_values(rt, name, number, results.first, results.second);
    say_numbers(rt, &results.counts);
    if !matches!(call, Call::Render) {
        say_words(rt, "rows", &words.rows);
    }
    say_words(rt, "out", &words.out);
    say_words(rt, "aux", &words.aux);
    say_words(rt, "kept", &words.kept);
}

// Writes a call's name, and what it returned and wrote to its two results.
fn say_values(rt: &impl Print, name: &str, number: u32, first: u64, second: u64) {
    let _ = rt.print(name);
    for value in [u64::from(number), first, second] {
        let _ = print!(rt; " {value}");
    }
}

// Writes each number with a space before it, and ends the line.
fn say_numbers<T: Display>(rt: &impl Print, numbers: &[T]) {
    for number in numbers {
        let _ = print!(rt; " {number}");
    }
    let _ = println!(rt);
}

// Writes a line of words.
fn say_words(rt: &impl Print, text: &str, words: &[u32]) {
    let _ = rt.print(text);
    say_numbers(rt, words);
}

fn read(rt: &impl Print, text: &[u8], rows: &mut [u32]) {
    let mut first = UNWRITTEN;
    let mut second = UNWRITTEN;
    let number = retake_c::retake_read_score(text, rows, &mut first, &mut second);
    say_values(rt, "read", number, first, second);
    let _ = println!(rt);
    say_words(rt, "rows", rows);
}

fn write(rt: &impl Print, rows: &[u32], count: u64, text: &mut [u8]) {
    let mut first = UNWRITTEN;
    let mut second = UNWRITTEN;
    let number = retake_c::retake_write_score(rows, count, text, &mut first, &mut second);
    say_values(rt, "write", number, first, second);
    let _ = println!(rt);
    let _ = println!(rt; "text");
    let _ = rt.write_all(text);
    let _ = println!(rt);
}

// The score that was read, rendered and changed: an accepted edit, one past the end, one outside a limit; an accepted insertion, and one with no
// room left; an accepted removal, and one past the end. Last an edit of row 1 from such a state: positions are held, of each kind another number.
fn play(
    rt: &impl Print,
    patch: Patch<'_>,
    read: [u32; 20],
    row: [u32; ROW_WORDS],
    state: [u32; KEPT_WORDS],
) {
    let mut words = Words {
        rows: read,
        out: [1; 16],
        aux: [2; 16],
        kept: [3; 52],
    };
    let [note, timbre, morph, _, restart] = row;
    let outside = [note, timbre, morph, 0x3f800001, restart];
    let spliced = [0x42300000, 0x3e800000, 0x3f200000, 0x3f600000, 0];
    let held = [0x42480000, 0x3f000000, 0x3f400000, 0x3f800000, 0];
    let calls = [
        (3, Call::Render),
        (3, Call::Edit(1, row)),
        (3, Call::Edit(5, row)),
        (3, Call::Edit(2, outside)),
        (3, Call::Insert(1, spliced)),
        (4, Call::Insert(2, spliced)),
        (4, Call::Remove(0)),
        (3, Call::Remove(3)),
    ];
    for (count, call) in calls {
        turn(rt, &mut words, patch, count, call);
    }
    words.kept[..KEPT_WORDS].copy_from_slice(&state);
    turn(rt, &mut words, patch, 3, Call::Edit(1, held));
}

// The row words after an accepted text and a refused one.
fn read_texts(rt: &impl Print) -> [u32; 20] {
    let mut rows = [0xffffffff; 20];
    read(
        rt,
        b"harmonics restart note morph timbre
3f19999a 00000000 42700000 3dcccccd 3e99999a
3e19999a 00000001 42400000 3f4ccccd 3f59999a
3ecccccd 00000000 427c0000 3e4ccccd 3f266666
",
        &mut rows,
    );
    read(
        rt,
        b"note timbre morph harmonics restart
42700000 00000000 3f000000 3f800000 00000000
42700000 00000000 3f000000 3f800000 00000002
",
        &mut rows,
    );
    rows
}

// A text that is longer than its score needs; a row outside its limits, and too short a text for it; and a text one byte too short.
fn write_texts(rt: &impl Print, rows: &[u32]) {
    let mut text = [b'.'; 175];
    write(rt, rows, 3, &mut text);
    write(rt, rows, 4, &mut text);
    let mut short = [b'.'; 170];
    write(rt, rows, 3, &mut short);
}

// A bank whose samples go up and down: 7919 i mod 32749.
fn fill_waves(bank: &mut [i16; BANK_LENGTH]) {
    for (i, sample) in bank.iter_mut().enumerate() {
        *sample = (i * 7919 % 32749) as i16;
    }
}

fn main(rt: HostRuntime) {
    let rows = read_texts(&rt);
    write_texts(&rt, &rows);
    let mut bank = [0; BANK_LENGTH];
    fill_waves(&mut bank);
    let map = [90u8; MAP_LENGTH];
    let wavetable = Patch {
        instrument: WAVETABLE,
        rate: 48000,
        bank: &bank,
        map: b"",
    };
    let row = [0x42600000, 0x3f400000, 0x3e800000, 0x3f000000, 1];
    play(&rt, wavetable, rows, row, HELD_WAVETABLE);
    let terrain = Patch {
        instrument: TERRAIN_WITH_MAP,
        rate: 44100,
        bank: &bank,
        map: &map,
    };
    let row = [0x42500000, 0x3f100000, 0x3ec00000, 0x3f700000, 0];
    play(&rt, terrain, rows, row, HELD_TERRAIN);
    let oscillator = Patch {
        instrument: OSCILLATOR,
        rate: 96000,
        bank: &bank,
        map: b"",
    };
    let row = [0x42200000, 0x3e200000, 0x3f300000, 0x3ea00000, 0];
    play(&rt, oscillator, rows, row, HELD_OSCILLATOR);
}
