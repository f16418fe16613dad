// The C functions of the static library, declared in include/retake.h. Each returns 0 or the number of its refusal and writes its values to
// `first` and `second`: the row count and 0 (reader), the byte count and 0 (writer), the rows rendered and `held` (rendering, edit, insertion,
// removal), the place and 0 (a refusal). Rendering, edit, insertion and removal also write the five counts of what was held, zeros on a refusal.
// The score and its take stand at the start of the lent words; `count` says how many rows it has.
// Refusals are numbers here, and what is lent comes one by one with no struct: the C interface needs it. An edit and an insertion are two
// functions with the same parameters, as the header has them.
#![tactic(auto)]

ghost use Rattle.std.specs.Prelude.{◌≡◌, ◌∷◌, []};
ghost use Rattle.score.specs.Numbers.{refused};
ghost use Rattle.reader.specs.Reading.{read_of};
ghost use Rattle.reader.specs.Reading as reading;
ghost use Rattle.writer.specs.Writing.{write_of};
ghost use Rattle.writer.specs.Writing as writing;
ghost use Rattle.rows.specs.Rows.{setup, setup_by, lent};
ghost use Rattle.refusals.specs.declared.Call.TheVariants.{Render, Edit, Insert, Remove};
ghost use Rattle.take.specs.Take.{result_of, call_of};
ghost use Rattle.retake_c.specs.Calls.{given, given_of, counts_in, settings, filled, of_reading, of_writing, called, of_call};

use rows::{Patch, Report, Settings, Take};
use score::refusal::Refusal;

// Writes the place of a refusal and 0. Gives its number.
fn refuse(refusal: Refusal, first: &mut u64, second: &mut u64) -> u32
    ensures { given result first.new second.new ≡ given_of (refused refusal) }
{
    *first = refusal.place() as u64;
    *second = 0;
    refusal.number()
}

// Writes the count that reading or writing a text comes to, and 0, or its refusal. Gives its number.
#[tactic(auto, unfolding(reader::specs::Reading::result_of, writer::specs::Writing::result_of))]
fn give_count(answer: Result<usize, Refusal>, first: &mut u64, second: &mut u64) -> u32
    ensures read { given result first.new second.new ≡ given_of (reading.result_of answer) }
    ensures written { given result first.new second.new ≡ given_of (writing.result_of answer) }
{
    match answer {
        Ok(count) => {
            *first = count as u64;
            *second = 0;
            0
        }
        Err(refusal) => refuse(refusal, first, second),
    }
}

// The five counts of an answer, zeros of a refusal. No `From`: neither an array nor a `Result` is a type of this crate.
fn counts_of(answer: Result<Report, Refusal>) -> [u64; 5]
    ensures { result ≡ counts_in answer }
{
    match answer {
        Ok(report) => [
            report.holds.phase as u64,
            report.holds.wave_position as u64,
            report.holds.level as u64,
            report.holds.map as u64,
            report.holds.bank as u64,
        ],
        Err(_) => [0; 5],
    }
}

// Writes the rows that a call over a score and a take rendered and what it held, with the counts, or its refusal. Gives its number.
#[tactic(auto, unfolding(take::specs::Take::result_of))]
fn give_report(
    answer: Result<Report, Refusal>,
    first: &mut u64,
    second: &mut u64,
    counts: &mut [u64; 5],
) -> u32
    ensures value { given result first.new second.new ≡ given_of (result_of answer) }
    ensures counts_after { counts.new ≡ counts_in answer }
{
    *counts = counts_of(answer);
    match answer {
        Ok(report) => {
            *first = report.rows as u64;
            *second = report.holds.held as u64;
            0
        }
        Err(refusal) => refuse(refusal, first, second),
    }
}

// What a call is lent beside the rows, put together from what C hands one by one.
fn patch_of<'a>(
    instrument: u32,
    rate: u32,
    frames: u32,
    bank: &'a [i16],
    map: &'a [u8],
) -> Patch<'a>
    ensures { setup_by result ≡ setup (settings instrument rate frames) bank.now map.now }
{
    let settings = Settings {
        instrument,
        rate,
        frames: frames as usize,
    };
    Patch {
        settings,
        bank,
        map,
    }
}

// Reads a score's text into row words.
#[unsafe(no_mangle)]
pub extern "C" fn retake_read_score(
    text: &[u8],
    rows: &mut [u32],
    first: &mut u64,
    second: &mut u64,
) -> u32
    ensures { filled (given result first.new second.new) rows.new
        ≡ of_reading (read_of text.now rows.old) }
{
    let answer = reader::read(text, rows);
    give_count(answer, first, second)
}

// Writes row words as a score's text.
#[unsafe(no_mangle)]
pub extern "C" fn retake_write_score(
    rows: &[u32],
    count: u64,
    text: &mut [u8],
    first: &mut u64,
    second: &mut u64,
) -> u32
    ensures { filled (given result first.new second.new) text.new
        ≡ of_writing (write_of count rows.now text.old) }
{
    let answer = writer::write(rows, count as usize, text);
    give_count(answer, first, second)
}

// Renders a whole score into a take.
#[unsafe(no_mangle)]
pub extern "C" fn retake_render(
    instrument: u32,
    rate: u32,
    frames: u32,
    bank: &[i16],
    map: &[u8],
    rows: &[u32],
    count: u64,
    out: &mut [u32],
    aux: &mut [u32],
    kept: &mut [u32],
    first: &mut u64,
    second: &mut u64,
    counts: &mut [u64; 5],
) -> u32
    ensures { called (given result first.new second.new) counts.new rows.now
        (lent out.new aux.new kept.new)
        ≡ of_call (call_of (setup (settings instrument rate frames) bank.now map.now) count rows.now
        (lent out.old aux.old kept.old) Render) }
{
    let patch = patch_of(instrument, rate, frames, bank, map);
    let mut take = Take { out, aux, kept };
    let answer = take::render(patch, rows, count as usize, &mut take);
    give_report(answer, first, second, counts)
}

// Puts five words into a row and renders what depends on it.
#[unsafe(no_mangle)]
pub extern "C" fn retake_edit(
    instrument: u32,
    rate: u32,
    frames: u32,
    bank: &[i16],
    map: &[u8],
    rows: &mut [u32],
    count: u64,
    position: u64,
    note: u32,
    timbre: u32,
    morph: u32,
    harmonics: u32,
    restart: u32,
    out: &mut [u32],
    aux: &mut [u32],
    kept: &mut [u32],
    first: &mut u64,
    second: &mut u64,
    counts: &mut [u64; 5],
) -> u32
    ensures { called (given result first.new second.new) counts.new rows.new
        (lent out.new aux.new kept.new)
        ≡ of_call (call_of (setup (settings instrument rate frames) bank.now map.now) count rows.old
        (lent out.old aux.old kept.old) (Edit position (note ∷ timbre ∷ morph ∷ harmonics ∷ restart ∷ []))) }
{
    let edited = [note, timbre, morph, harmonics, restart];
    let patch = patch_of(instrument, rate, frames, bank, map);
    let mut take = Take { out, aux, kept };
    let answer = take::edit(
        patch,
        rows,
        count as usize,
        position as usize,
        edited,
        &mut take,
    );
    give_report(answer, first, second, counts)
}

// Puts a row of five words in between the others, moves the later ones up, and renders what depends on it.
#[unsafe(no_mangle)]
pub extern "C" fn retake_insert(
    instrument: u32,
    rate: u32,
    frames: u32,
    bank: &[i16],
    map: &[u8],
    rows: &mut [u32],
    count: u64,
    position: u64,
    note: u32,
    timbre: u32,
    morph: u32,
    harmonics: u32,
    restart: u32,
    out: &mut [u32],
    aux: &mut [u32],
    kept: &mut [u32],
    first: &mut u64,
    second: &mut u64,
    counts: &mut [u64; 5],
) -> u32
    ensures { called (given result first.new second.new) counts.new rows.new
        (lent out.new aux.new kept.new)
        ≡ of_call (call_of (setup (settings instrument rate frames) bank.now map.now) count rows.old
        (lent out.old aux.old kept.old) (Insert position (note ∷ timbre ∷ morph ∷ harmonics ∷ restart ∷ []))) }
{
    let inserted = [note, timbre, morph, harmonics, restart];
    let patch = patch_of(instrument, rate, frames, bank, map);
    let mut take = Take { out, aux, kept };
    let answer = take::insert(
        patch,
        rows,
        count as usize,
        position as usize,
        inserted,
        &mut take,
    );
    give_report(answer, first, second, counts)
}

// Takes a row out, moves the later ones down, and renders what depends on that.
#[unsafe(no_mangle)]
pub extern "C" fn retake_remove(
    instrument: u32,
    rate: u32,
    frames: u32,
    bank: &[i16],
    map: &[u8],
    rows: &mut [u32],
    count: u64,
    position: u64,
    out: &mut [u32],
    aux: &mut [u32],
    kept: &mut [u32],
    first: &mut u64,
    second: &mut u64,
    counts: &mut [u64; 5],
) -> u32
    ensures { called (given result first.new second.new) counts.new rows.new
        (lent out.new aux.new kept.new)
        ≡ of_call (call_of (setup (settings instrument rate frames) bank.now map.now) count rows.old
        (lent out.old aux.old kept.old) (Remove position)) }
{
    let patch = patch_of(instrument, rate, frames, bank, map);
    let mut take = Take { out, aux, kept };
    let answer = take::remove(patch, rows, count as usize, position as usize, &mut take);
    give_report(answer, first, second, counts)
}
