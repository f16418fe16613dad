// Whole rendering of a score, and edits, insertions and removals of its rows, over lent words: the calls, with their refusals. The lent words
// may be longer than the score; `count` says how many rows it has. They stand side by side, as the C interface lends them: a rendering is lent rows
// to read, the other calls rows to write, so a struct of rows, count and take would be two.
#![tactic(auto)]

ghost use Rattle.std.specs.Prelude.{◌≡◌, ◌+◌, ◌*◌, ◌≤◌, ◌<◌, length};
ghost use Rattle.lists.specs.Lists.{same};
ghost use Rattle.score.specs.Rows.{most_rows};
ghost use Rattle.score.specs.Numbers.{accepted};
ghost use Rattle.voice.specs.Voice.{Lent, kept_count};
ghost use Rattle.runs.specs.Inner.{SameLengths};
ghost use Rattle.rows.specs.Rows.{setup_by, words_of, SamePlaces, fresh_by, before_row, room_at, closed_at, reported};
ghost use Rattle.refusals.specs.Refusals.{refusal_of};
ghost use Rattle.take.specs.Take.{outcome, ran, done_of, call_of};
ghost use Rattle.take.specs.Inner.{Retakable, Insertable, Removable};

use refusals::Call;
use rows::{Patch, Report, Settings, Take};
use score::refusal::Refusal;
use score::rows::ROW_WORDS;
use voice::KEPT_WORDS;

// What a call refuses. A take that is lent to be written is read through `&` here, since `refusals::check` asks for its parts lent shared.
// Inlined, as are `carry_out`, `perform` and `refusals::check`: each call then knows its kind, and a refusal takes half the time.
#[inline(always)]
fn check(
    patch: Patch<'_>,
    rows: &[u32],
    count: usize,
    take: &Take<'_>,
    call: Call,
) -> Result<(), Refusal>
    ensures { result ≡ refusal_of (setup_by patch.entry) count rows.now (words_of take.now) call }
{
    refusals::check(patch, rows, count, take.out, take.aux, take.kept, call)
}

// Whole rendering of a score. As each function that is lent a take does, it ensures `SamePlaces`: through `&mut Take` parts could be exchanged.
pub fn render(
    patch: Patch<'_>,
    rows: &[u32],
    count: usize,
    take: &mut Take<'_>,
) -> Result<Report, Refusal>
    ensures same_places { SamePlaces take.old take.new }
    ensures call { outcome result rows.now (words_of take.new)
        ≡ call_of (setup_by patch.entry) count rows.now (words_of take.old) Call.Render }
{
    check(patch, rows, count, take, Call::Render)?;
    Ok(runs::run(patch, rows, count, 0, count, take))
}

// Row `position` gets other words, and what depends on it is rendered again; nothing where the words are equal.
// `Lent` and what its kind of call may count on are what an accepted call has: a type for a tested call would be made here just to be taken apart.
fn retake(
    patch: Patch<'_>,
    rows: &mut [u32],
    count: usize,
    position: usize,
    row: [u32; ROW_WORDS],
    take: &mut Take<'_>,
) -> Report
    requires lent { Lent patch.bank.now patch.map.now }
    requires retakable { Retakable patch.settings.frames count position rows.old (words_of take.old) }
    ensures same_places { SamePlaces take.old take.new }
    ensures done { ran rows.new (reported result (words_of take.new))
        ≡ done_of (setup_by patch.entry) count rows.old (words_of take.old) (Call.Edit position row) }
{
    if score::rows::same_row(rows, position, row) {
        return Report::default();
    }
    score::rows::put_row(rows, position, row);
    runs::run(patch, rows, count, position, position + 1, take)
}

// A place made for row p in a take of n rows. A row is put in at `p ≤ n` and taken out at `p < n`: a type for a place would say no more than that.
fn make_room(settings: Settings, n: usize, p: usize, take: &mut Take<'_>)
    requires p_le_n { (p ≤ n) × (n < most_rows) }
    requires out_room { (n + 1) * settings.frames ≤ length take.old.out.now }
    requires aux_room { (n + 1) * settings.frames ≤ length take.old.aux.now }
    requires kept_room { (n + 1) * kept_count ≤ length take.old.kept.now }
    ensures same_places { SamePlaces take.old take.new }
    ensures lengths { SameLengths (words_of take.old) (words_of take.new) }
    ensures room { words_of take.new ≡ room_at settings.frames (fresh_by settings) n (words_of take.old) p }
{
    lists::shift_up(take.out, settings.frames, p, n);
    lists::shift_up(take.aux, settings.frames, p, n);
    settings.make_room(take.kept, n, p);
}

// A row's words put between the others, with its place in the take made, and what depends on it rendered.
fn put_in(
    patch: Patch<'_>,
    rows: &mut [u32],
    count: usize,
    position: usize,
    row: [u32; ROW_WORDS],
    take: &mut Take<'_>,
) -> Report
    requires lent { Lent patch.bank.now patch.map.now }
    requires insertable { Insertable patch.settings.frames count position rows.old (words_of take.old) }
    ensures same_places { SamePlaces take.old take.new }
    ensures done { ran rows.new (reported result (words_of take.new))
        ≡ done_of (setup_by patch.entry) count rows.old (words_of take.old) (Call.Insert position row) }
{
    score::rows::insert_row(rows, count, position, row);
    make_room(patch.settings, count, position, take);
    runs::run(patch, rows, count + 1, position, position + 1, take)
}

// Row p of a take of n rows taken out.
fn close_room(frames: usize, n: usize, p: usize, take: &mut Take<'_>)
    requires p_lt_n { p < n }
    requires out_room { n * frames ≤ length take.old.out.now }
    requires aux_room { n * frames ≤ length take.old.aux.now }
    requires kept_room { n * kept_count ≤ length take.old.kept.now }
    ensures same_places { SamePlaces take.old take.new }
    ensures lengths { SameLengths (words_of take.old) (words_of take.new) }
    ensures closed { words_of take.new ≡ closed_at frames n (words_of take.old) p }
{
    lists::shift_down(take.out, frames, p, n);
    lists::shift_down(take.aux, frames, p, n);
    lists::shift_down(take.kept, KEPT_WORDS, p, n);
}

// Whether row p keeps the words of the state before it: then the row behind it has, once p is taken out, the state before it that it had.
fn keeps_its_state(settings: Settings, take: &Take<'_>, p: usize) -> bool
    requires { (p < most_rows) × ((p + 1) * kept_count ≤ length take.now.kept.now) }
    ensures { result
        ≡ same (before_row (fresh_by settings) take.now.kept.now (p + 1))
        (before_row (fresh_by settings) take.now.kept.now p) }
{
    take.words_before(settings, p + 1) == take.words_before(settings, p)
}

// A row taken out, and what depends on that rendered again: nothing where a run would stop before the row now there.
fn take_out(
    patch: Patch<'_>,
    rows: &mut [u32],
    count: usize,
    position: usize,
    take: &mut Take<'_>,
) -> Report
    requires lent { Lent patch.bank.now patch.map.now }
    requires removable { Removable patch.settings.frames count position rows.old (words_of take.old) }
    ensures same_places { SamePlaces take.old take.new }
    ensures done { ran rows.new (reported result (words_of take.new))
        ≡ done_of (setup_by patch.entry) count rows.old (words_of take.old) (Call.Remove position) }
{
    let same = keeps_its_state(patch.settings, take, position);
    score::rows::remove_row(rows, count, position);
    close_room(patch.settings.frames, count, position, take);
    let fewer = count - 1;
    if rows::stops(rows, fewer, position, same) {
        return Report::default();
    }
    runs::run(patch, rows, fewer, position, position + 1, take)
}

// What a call does that is not refused.
#[inline(always)]
fn carry_out(
    patch: Patch<'_>,
    rows: &mut [u32],
    count: usize,
    call: Call,
    take: &mut Take<'_>,
) -> Report
    requires { refusal_of (setup_by patch) count rows.old (words_of take.old) call ≡ accepted }
    ensures same_places { SamePlaces take.old take.new }
    ensures done { ran rows.new (reported result (words_of take.new))
        ≡ done_of (setup_by patch.entry) count rows.old (words_of take.old) call }
{
    match call {
        Call::Render => runs::run(patch, rows, count, 0, count, take),
        Call::Edit(position, row) => retake(patch, rows, count, position, row, take),
        Call::Insert(position, row) => put_in(patch, rows, count, position, row, take),
        Call::Remove(position) => take_out(patch, rows, count, position, take),
    }
}

// A call of any kind. `edit`, `insert` and `remove` are its cases; `render` is too, but reads rows that are lent shared.
#[inline(always)]
pub fn perform(
    patch: Patch<'_>,
    rows: &mut [u32],
    count: usize,
    call: Call,
    take: &mut Take<'_>,
) -> Result<Report, Refusal>
    ensures same_places { SamePlaces take.old take.new }
    ensures call { outcome result rows.new (words_of take.new)
        ≡ call_of (setup_by patch.entry) count rows.old (words_of take.old) call }
{
    check(patch, rows, count, take, call)?;
    Ok(carry_out(patch, rows, count, call, take))
}

// An edit: a row's words in the place of row `position`, and what depends on it rendered again.
pub fn edit(
    patch: Patch<'_>,
    rows: &mut [u32],
    count: usize,
    position: usize,
    row: [u32; ROW_WORDS],
    take: &mut Take<'_>,
) -> Result<Report, Refusal>
    ensures same_places { SamePlaces take.old take.new }
    ensures call { outcome result rows.new (words_of take.new)
        ≡ call_of (setup_by patch.entry) count rows.old (words_of take.old) (Call.Edit position row) }
{
    perform(patch, rows, count, Call::Edit(position, row), take)
}

// An insertion: a row put in as row `position`, the later ones moved up, and what depends on it rendered.
pub fn insert(
    patch: Patch<'_>,
    rows: &mut [u32],
    count: usize,
    position: usize,
    row: [u32; ROW_WORDS],
    take: &mut Take<'_>,
) -> Result<Report, Refusal>
    ensures same_places { SamePlaces take.old take.new }
    ensures call { outcome result rows.new (words_of take.new)
        ≡ call_of (setup_by patch.entry) count rows.old (words_of take.old) (Call.Insert position row) }
{
    perform(patch, rows, count, Call::Insert(position, row), take)
}

// A removal: row `position` taken out, the later ones moved down, and what depends on that rendered again.
pub fn remove(
    patch: Patch<'_>,
    rows: &mut [u32],
    count: usize,
    position: usize,
    take: &mut Take<'_>,
) -> Result<Report, Refusal>
    ensures same_places { SamePlaces take.old take.new }
    ensures call { outcome result rows.new (words_of take.new)
        ≡ call_of (setup_by patch.entry) count rows.old (words_of take.old) (Call.Remove position) }
{
    perform(patch, rows, count, Call::Remove(position), take)
}
