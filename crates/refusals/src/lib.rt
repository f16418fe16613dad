// What the calls refuse, and in which order they test.
#![tactic(auto)]

ghost use Rattle.std.specs.Prelude.{◌≡◌, ◌*◌, ◌≤◌, false, cond, length, Err};
ghost use Rattle.utils.specs.Rendered.{most_frames};
ghost use Rattle.score.specs.Rows.{row_words, most_rows};
ghost use Rattle.score.specs.Limits.{limit_refusal};
ghost use Rattle.score.specs.Numbers.{accepted};
ghost use Rattle.rows.specs.Rows.{setup_by, lent};
ghost use Rattle.refusals.specs.Calls.{count_after, rows_after, name_of, position_of, position, least_count, largest_count};
ghost use Rattle.refusals.specs.Refusals.{map_length_of, wrong_position, full, short_take, settings_refusal, lengths_refusal, score_refusal, refusal_of};

use oscillator::bank::BANK_LENGTH;
use rows::{Patch, Settings};
use score::limits::{
    within_limits, within_limits_inserted, within_limits_removed, within_limits_with,
};
use score::refusal::Refusal;
use score::rows::{MOST_ROWS, ROW_WORDS, wrong_rows};
use terrain::MAP_LENGTH;
use utils::engine::MOST_FRAMES;
use voice::{KEPT_WORDS, OSCILLATOR, TERRAIN_WITH_MAP};

const LOWEST_RATE: u32 = 32000;

const HIGHEST_RATE: u32 = 192000;

// A call over a score and a take: whole rendering, other words for a row, a row put in, or a row taken out.
#[derive(Clone, Copy)]
pub enum Call {
    Render,
    Edit(usize, [u32; ROW_WORDS]),
    Insert(usize, [u32; ROW_WORDS]),
    Remove(usize),
}

impl Call {
    // The fewest rows that it takes.
    #[tactic(auto, unfolding(crate::specs::Calls::least_count))]
    fn least_count(self) -> usize
        ensures { result ≡ least_count self }
    {
        match self {
            Call::Remove(_) => 2,
            _ => 1,
        }
    }

    // The most rows that it takes.
    #[tactic(auto, unfolding(crate::specs::Calls::largest_count))]
    fn largest_count(self) -> usize
        ensures value { result ≡ largest_count self }
        ensures most { result ≤ most_rows }
    {
        match self {
            Call::Insert(_, _) => MOST_ROWS - 1,
            _ => MOST_ROWS,
        }
    }

    // What it is called.
    #[tactic(auto, unfolding(crate::specs::Calls::name_of))]
    pub fn name(self) -> &'static str
        ensures { result.now ≡ name_of self }
    {
        match self {
            Call::Render => "render",
            Call::Edit(_, _) => "edit",
            Call::Insert(_, _) => "insert",
            Call::Remove(_) => "remove",
        }
    }

    // The row that it is about; a whole rendering is about none.
    #[tactic(auto, unfolding(crate::specs::Calls::position_of, crate::specs::Calls::position))]
    pub fn position(self) -> Option<usize>
        ensures { result ≡ position_of self }
    {
        match self {
            Call::Render => None,
            Call::Edit(k, _) => Some(k),
            Call::Insert(p, _) | Call::Remove(p) => Some(p),
        }
    }

    // Test 8: a position is below the row count; that of an insertion may equal it.
    #[tactic(auto, unfolding(crate::specs::Calls::position, crate::specs::Refusals::wrong_position))]
    fn position_refusal(self, count: usize) -> Result<(), Refusal>
        ensures { result ≡ cond (wrong_position count self) (Err (Refusal.Position (position self))) accepted }
    {
        match self {
            Call::Edit(k, _) if k >= count => Err(Refusal::Position(k)),
            Call::Insert(p, _) if p > count => Err(Refusal::Position(p)),
            Call::Remove(p) if p >= count => Err(Refusal::Position(p)),
            _ => Ok(()),
        }
    }

    // Whether a score's words are within their limits once the call has changed it.
    #[tactic(auto, unfolding(crate::specs::Calls::count_after, crate::specs::Calls::rows_after, crate::specs::Refusals::wrong_position))]
    fn within_limits(self, rows: &[u32], count: usize) -> Result<(), Refusal>
        requires position { wrong_position count self ≡ false }
        requires rows_room { (count_after count self * row_words ≤ length rows.now) × (count * row_words ≤ length rows.now) }
        ensures { result ≡ limit_refusal (count_after count self) (rows_after count rows.now self) }
    {
        match self {
            Call::Render => within_limits(rows, count),
            Call::Edit(k, row) => within_limits_with(rows, count, k, row),
            Call::Insert(p, row) => within_limits_inserted(rows, count, p, row),
            Call::Remove(p) => within_limits_removed(rows, count, p),
        }
    }
}

// The length of an instrument's map: 0 where it has none, as the C interface lends it.
fn map_length(instrument: u32) -> usize
    ensures { result ≡ map_length_of instrument }
{
    if instrument == TERRAIN_WITH_MAP {
        MAP_LENGTH
    } else {
        0
    }
}

// The first of 1 to 5 that holds. The instrument is the number that the C interface hands, and this is where it is tested.
#[tactic(auto, unfolding(crate::specs::Refusals::settings_refusal))]
fn settings_refusal(patch: Patch<'_>) -> Result<(), Refusal>
    ensures { result ≡ settings_refusal (setup_by patch.entry) }
{
    let Settings {
        instrument,
        rate,
        frames,
    } = patch.settings;
    if instrument > OSCILLATOR {
        return Err(Refusal::Instrument);
    }
    if !(LOWEST_RATE..=HIGHEST_RATE).contains(&rate) {
        return Err(Refusal::Rate);
    }
    if frames == 0 || frames > MOST_FRAMES {
        return Err(Refusal::Block);
    }
    if patch.bank.len() != BANK_LENGTH {
        return Err(Refusal::Bank);
    }
    if patch.map.len() != map_length(instrument) {
        return Err(Refusal::Map);
    }
    Ok(())
}

// A take that is lent to be read.
#[derive(Clone, Copy)]
struct SharedTake<'a> {
    out: &'a [u32],
    aux: &'a [u32],
    kept: &'a [u32],
}

impl SharedTake<'_> {
    // Whether it is too short for n rows.
    fn is_short(self, n: usize, frames: usize) -> bool
        requires { (n ≤ most_rows) × (frames ≤ most_frames) }
        ensures { result ≡ short_take n frames
            (length self.entry.out.now) (length self.entry.aux.now) (length self.entry.kept.now) }
    {
        self.out.len() < n * frames
            || self.aux.len() < n * frames
            || self.kept.len() < n * KEPT_WORDS
    }
}

// The first of 6 and 7 that holds. That the frames are few is a clause from here on: `settings_refusal` has tested it.
#[tactic(auto, unfolding(crate::specs::Refusals::lengths_refusal))]
fn lengths_refusal(
    patch: Patch<'_>,
    rows: &[u32],
    count: usize,
    take: SharedTake<'_>,
    call: Call,
) -> Result<(), Refusal>
    requires { patch.settings.frames ≤ most_frames }
    ensures { result ≡ lengths_refusal (setup_by patch.entry) count rows.now
        (lent take.entry.out.now take.entry.aux.now take.entry.kept.now) call }
{
    if wrong_rows(call.least_count(), call.largest_count(), count, rows.len()) {
        return Err(Refusal::Rows);
    }
    if take.is_short(count, patch.settings.frames) {
        return Err(Refusal::Take);
    }
    Ok(())
}

// Whether a call puts a row in, and some buffer has no place for one row more.
#[tactic(auto, unfolding(crate::specs::Refusals::full, crate::specs::Calls::largest_count))]
fn full(patch: Patch<'_>, rows: &[u32], count: usize, take: SharedTake<'_>, call: Call) -> bool
    requires { (patch.settings.frames ≤ most_frames) × (count ≤ largest_count call) }
    ensures { result ≡ full (setup_by patch.entry) count rows.now
        (lent take.entry.out.now take.entry.aux.now take.entry.kept.now) call }
{
    match call {
        Call::Insert(_, _) => {
            let more = count + 1;
            rows.len() < more * ROW_WORDS || take.is_short(more, patch.settings.frames)
        }
        _ => false,
    }
}

// What a call refuses: the first refusal of the tests, in the table's order.
// The parts of a `rows::Take` are lent to be written, so a take that is only read comes as its three parts.
#[inline(always)]
pub fn check(
    patch: Patch<'_>,
    rows: &[u32],
    count: usize,
    out: &[u32],
    aux: &[u32],
    kept: &[u32],
    call: Call,
) -> Result<(), Refusal>
    ensures { result ≡ refusal_of (setup_by patch.entry) count rows.now (lent out.now aux.now kept.now) call }
{
    let take = SharedTake { out, aux, kept };
    settings_refusal(patch)?;
    lengths_refusal(patch, rows, count, take, call)?;
    call.position_refusal(count)?;
    if full(patch, rows, count, take, call) {
        return Err(Refusal::Full);
    }
    call.within_limits(rows, count)
}
