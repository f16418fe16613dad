// Rows of a take: what a row begins with, what is kept of it, and where a run of rows ends. Nothing here goes by the voice.
#![tactic(auto)]

ghost use Rattle.std.specs.Prelude.{◌≡◌, ◌+◌, ◌*◌, ◌≤◌, ◌<◌, length};
ghost use Rattle.lists.specs.Lists.{put, same};
ghost use Rattle.score.specs.Rows.{row_words, most_rows};
ghost use Rattle.voice.specs.Voice.{kept_count, voice_of, state_of};
ghost use Rattle.rows.specs.Rows.{fresh_by, kept_at, before_row, kept_room, parameters_of, start_of, stops_of};
ghost use Rattle.rows.specs.Ends.{end_of};

use score::rows::{HARMONICS, MORPH, NOTE, ROW_WORDS, TIMBRE};
use utils::engine::EngineParameters;
use utils::holds::Holds;
use voice::{KEPT_WORDS, State, voice_of};

// What stays the same from row to row: the instrument's number, the rate in Hz, and the frames of a row.
// The instrument stays a number, as the C interface hands it: each call tests it.
#[derive(Clone, Copy)]
pub struct Settings {
    pub instrument: u32,
    pub rate: u32,
    pub frames: usize,
}

// What a call is lent beside the rows: the settings, the bank and the map. No map is a slice of length 0, as the C interface lends it.
#[derive(Clone, Copy)]
pub struct Patch<'a> {
    pub settings: Settings,
    pub bank: &'a [i16],
    pub map: &'a [u8],
}

// A take, as the C interface lends it: the samples, and the words kept after each row, each as one slice for all rows.
#[derive(Drop)]
pub struct Take<'a> {
    pub out: &'a mut [u32],
    pub aux: &'a mut [u32],
    pub kept: &'a mut [u32],
}

// How many rows were rendered, and what they held; by default no row.
#[derive(Clone, Copy, Default)]
pub struct Report {
    pub rows: usize,
    pub holds: Holds,
}

impl Settings {
    // What a row's words tell the voice.
    #[tactic(auto, unfolding(crate::specs::Rows::parameters_of))]
    pub fn parameters(self, row: [u32; ROW_WORDS]) -> EngineParameters
        ensures { result ≡ parameters_of self.rate row }
    {
        EngineParameters {
            note: words::of_word(row[NOTE]),
            timbre: words::of_word(row[TIMBRE]),
            morph: words::of_word(row[MORPH]),
            harmonics: words::of_word(row[HARMONICS]),
            a0_normalized: utils::engine::a0(self.rate),
        }
    }

    // The fresh state of the instrument.
    fn fresh_start(self) -> State
        ensures { result ≡ fresh_by self }
    {
        voice_of(self.instrument).fresh(utils::engine::a0(self.rate))
    }

    // The words of the state before row k: those kept after the row before it, and at row 0 those of the fresh state.
    #[tactic(auto, using(crate::proofs::Before::later_before), unfolding(crate::specs::Rows::before_row))]
    pub fn words_before(self, kept: &[u32], k: usize) -> [u32; KEPT_WORDS]
        requires { (k ≤ most_rows) × (k * kept_count ≤ length kept.now) }
        ensures { result ≡ before_row (fresh_by self) kept.now k }
    {
        if k == 0 {
            return self.fresh_start().kept_words();
        }
        lists::part(kept, k - 1)
    }

    // The state that a row begins with, by the words of the state before it.
    #[tactic(auto, unfolding(crate::specs::Rows::start_of))]
    pub fn start(self, row: [u32; ROW_WORDS], before: [u32; KEPT_WORDS]) -> State
        ensures { result ≡ start_of (fresh_by self) row (state_of (voice_of self.instrument) before) }
    {
        if score::rows::restarts(row) {
            return self.fresh_start();
        }
        voice_of(self.instrument).state_of(&before)
    }

    // The kept words of n rows with a place made for row p, where the words of the state before it then stand.
    #[tactic(auto, using(crate::proofs::Before::room_made))]
    pub fn make_room(self, kept: &mut [u32], n: usize, p: usize)
        requires p_le_n { (p ≤ n) × (n < most_rows) }
        requires kept_count_in_bounds { (n + 1) * kept_count ≤ length kept.old }
        ensures { kept.new ≡ kept_room (fresh_by self) n kept.old p }
    {
        let before = self.words_before(kept, p);
        lists::shift_up(kept, KEPT_WORDS, p, n);
        lists::put_part(kept, p, before);
    }
}

impl Take<'_> {
    // The words of the state before row k, by the words that this take keeps. `make_room` is lent such words alone, and asks the settings itself.
    pub fn words_before(&self, settings: Settings, k: usize) -> [u32; KEPT_WORDS]
        requires { (k ≤ most_rows) × (k * kept_count ≤ length self.now.kept.now) }
        ensures { result ≡ before_row (fresh_by settings) self.now.kept.now k }
    {
        settings.words_before(self.kept, k)
    }
}

// A row's words, kept after row k; whether they are those that stood there. They are compared as arrays, whose length is known, and no loop is left.
#[tactic(auto, using(score::proofs::Same::same_is))]
pub fn keep(new: [u32; KEPT_WORDS], k: usize, kept: &mut [u32]) -> bool
    requires k_lt_most_rows { k < most_rows }
    requires kept_count_in_bounds { k * kept_count + kept_count ≤ length kept.old }
    ensures value { result ≡ same (kept_at kept.old k) new }
    ensures kept_after { kept.new ≡ put kept.old (k * kept_count) new }
{
    let old = lists::part::<KEPT_WORDS>(kept, k);
    lists::put_part(kept, k, new);
    old == new
}

// Whether a run stops before row j of n, told whether the words before it are those that it had where it came from. That so many rows lie among the
// words is a clause, as in `score::rows`.
#[tactic(auto, unfolding(crate::specs::Rows::stops_of))]
pub fn stops(rows: &[u32], n: usize, j: usize, same: bool) -> bool
    requires j_le_n { (j ≤ n) × (n ≤ most_rows) }
    requires row_words_in_bounds { n * row_words ≤ length rows.now }
    ensures { result ≡ stops_of n rows.now j same }
{
    j == n || score::rows::restarts(score::rows::row_at(rows, j)) || same
}

// Where a stretch that ended before row `end` ends once row j of n is reached: there, or a row further, or None where the run stops.
#[tactic(auto, unfolding(crate::specs::Ends::end_of))]
pub fn next_end(rows: &[u32], n: usize, j: usize, end: usize, same: bool) -> Option<usize>
    requires j_le_n { (j ≤ n) × (n ≤ most_rows) }
    requires row_words_in_bounds { n * row_words ≤ length rows.now }
    ensures { result ≡ end_of n rows.now j end same }
{
    if j != end {
        return Some(end);
    }
    if stops(rows, n, j, same) {
        return None;
    }
    Some(j + 1)
}
