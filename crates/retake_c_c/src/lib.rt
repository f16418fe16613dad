// The static library for hosts, `libretake_c.a`: what C calls. Each function is the one of `retake_c` under the same name, with the same clauses,
// which include/retake.h declares and explains.
// The twins of `retake_c` are whole functions with clauses of their own: C links a static library, which no crate can depend on, and `c_calls` needs
// these functions from a crate that it can depend on.
#![tactic(auto)]

ghost use Rattle.std.specs.Prelude.{◌≡◌, ◌∷◌, []};
ghost use Rattle.reader.specs.Reading.{read_of};
ghost use Rattle.writer.specs.Writing.{write_of};
ghost use Rattle.rows.specs.Rows.{setup, lent};
ghost use Rattle.refusals.specs.declared.Call.TheVariants.{Render, Edit, Insert, Remove};
ghost use Rattle.take.specs.Take.{call_of};
ghost use Rattle.retake_c.specs.Calls.{given, settings, filled, of_reading, of_writing, called, of_call};

// Reads a score's text into row words.
#[unsafe(no_mangle)]
pub extern "C" fn retake_read_score(
    text: &[u8],
    rows: &mut [u32],
    first: &mut u64,
    second: &mut u64,
) -> u32
    ensures { filled (given result first.new second.new) rows.new
        ≡ of_reading (read_of text.now rows.old) }
{
    retake_c::retake_read_score(text, rows, first, second)
}

// Writes row words as a score's text.
#[unsafe(no_mangle)]
pub extern "C" fn retake_write_score(
    rows: &[u32],
    count: u64,
    text: &mut [u8],
    first: &mut u64,
    second: &mut u64,
) -> u32
    ensures { filled (given result first.new second.new) text.new
        ≡ of_writing (write_of count rows.now text.old) }
{
    retake_c::retake_write_score(rows, count, text, first, second)
}

// Renders a whole score into a take.
#[unsafe(no_mangle)]
pub extern "C" fn retake_render(
    instrument: u32,
    rate: u32,
    frames: u32,
    bank: &[i16],
    map: &[u8],
    rows: &[u32],
    count: u64,
    out: &mut [u32],
    aux: &mut [u32],
    kept: &mut [u32],
    first: &mut u64,
    second: &mut u64,
    counts: &mut [u64; 5],
) -> u32
    ensures { called (given result first.new second.new) counts.new rows.now
        (lent out.new aux.new kept.new)
        ≡ of_call (call_of (setup (settings instrument rate frames) bank.now map.now) count rows.now
        (lent out.old aux.old kept.old) Render) }
{
    retake_c::retake_render(
        instrument, rate, frames, bank, map, rows, count, out, aux, kept, first, second, counts,
    )
}

// Puts five words into a row and renders what depends on it.
#[unsafe(no_mangle)]
pub extern "C" fn retake_edit(
    instrument: u32,
    rate: u32,
    frames: u32,
    bank: &[i16],
    map: &[u8],
    rows: &mut [u32],
    count: u64,
    position: u64,
    note: u32,
    timbre: u32,
    morph: u32,
    harmonics: u32,
    restart: u32,
    out: &mut [u32],
    aux: &mut [u32],
    kept: &mut [u32],
    first: &mut u64,
    second: &mut u64,
    counts: &mut [u64; 5],
) -> u32
    ensures { called (given result first.new second.new) counts.new rows.new
        (lent out.new aux.new kept.new)
        ≡ of_call (call_of (setup (settings instrument rate frames) bank.now map.now) count rows.old
        (lent out.old aux.old kept.old) (Edit position (note ∷ timbre ∷ morph ∷ harmonics ∷ restart ∷ []))) }
{
    retake_c::retake_edit(
        instrument, rate, frames, bank, map, rows, count, position, note, timbre, morph, harmonics,
        restart, out, aux, kept, first, second, counts,
    )
}

// Puts a row of five words in between the others, moves the later ones up, and renders what depends on it.
#[unsafe(no_mangle)]
pub extern "C" fn retake_insert(
    instrument: u32,
    rate: u32,
    frames: u32,
    bank: &[i16],
    map: &[u8],
    rows: &mut [u32],
    count: u64,
    position: u64,
    note: u32,
    timbre: u32,
    morph: u32,
    harmonics: u32,
    restart: u32,
    out: &mut [u32],
    aux: &mut [u32],
    kept: &mut [u32],
    first: &mut u64,
    second: &mut u64,
    counts: &mut [u64; 5],
) -> u32
    ensures { called (given result first.new second.new) counts.new rows.new
        (lent out.new aux.new kept.new)
        ≡ of_call (call_of (setup (settings instrument rate frames) bank.now map.now) count rows.old
        (lent out.old aux.old kept.old) (Insert position (note ∷ timbre ∷ morph ∷ harmonics ∷ restart ∷ []))) }
{
    retake_c::retake_insert(
        instrument, rate, frames, bank, map, rows, count, position, note, timbre, morph, harmonics,
        restart, out, aux, kept, first, second, counts,
    )
}

// Takes a row out, moves the later ones down, and renders what depends on that.
#[unsafe(no_mangle)]
pub extern "C" fn retake_remove(
    instrument: u32,
    rate: u32,
    frames: u32,
    bank: &[i16],
    map: &[u8],
    rows: &mut [u32],
    count: u64,
    position: u64,
    out: &mut [u32],
    aux: &mut [u32],
    kept: &mut [u32],
    first: &mut u64,
    second: &mut u64,
    counts: &mut [u64; 5],
) -> u32
    ensures { called (given result first.new second.new) counts.new rows.new
        (lent out.new aux.new kept.new)
        ≡ of_call (call_of (setup (settings instrument rate frames) bank.now map.now) count rows.old
        (lent out.old aux.old kept.old) (Remove position)) }
{
    retake_c::retake_remove(
        instrument, rate, frames, bank, map, rows, count, position, out, aux, kept, first, second,
        counts,
    )
}
