// Runs of rows: a row made from the 13 words of the state before it, written into its place, and rows one after the other. Nothing here goes by
// the voice: a row's block is a function of a state and the row.
#![tactic(auto)]

ghost use Rattle.std.specs.Prelude.{◌≡◌, ◌≤◌, ◌<◌};
ghost use Rattle.voice.specs.Voice.{Lent};
ghost use Rattle.rows.specs.Rows.{setup_by, words_of, SamePlaces, row_by, reported, run_of};
ghost use Rattle.runs.specs.Inner.{Blocks, Room, Holding, Makes, RowDone};

use rows::{Patch, Report, Take};
use score::rows::ROW_WORDS;
use utils::engine::{Block, CORNERS_LENGTH, MOST_FRAMES, RUN_LENGTH, Workspace};
use utils::holds::Holds;
use voice::KEPT_WORDS;

// A row made from its words and those of the state before it: its block into `out` and `aux`. The state after it comes as the words kept of it.
// That the bank and the map are lent is a clause, here and above: a second type beside the patch, which a call tests first, is no plainer.
fn make_row(
    patch: Patch<'_>,
    row: [u32; ROW_WORDS],
    before: [u32; KEPT_WORDS],
    work: Workspace<'_>,
    out: &mut [u32],
    aux: &mut [u32],
) -> Block<[u32; KEPT_WORDS]>
    requires lent { Lent patch.bank.now patch.map.now }
    requires places { Blocks patch.settings.frames out.old aux.old }
    ensures { Makes patch.entry.settings.frames (row_by (setup_by patch.entry) row before)
        result.holds out.new aux.new result.state }
{
    let block = blocks::render(
        patch.settings.start(row, before),
        patch.settings.parameters(row),
        patch.bank,
        patch.map,
        work,
        out,
        aux,
    );
    let state = block.state.kept_words();
    Block {
        state,
        holds: block.holds,
    }
}

// What a row held, and whether it keeps the words that stood there.
#[derive(Clone, Copy)]
struct Step {
    holds: Holds,
    same: bool,
}

// Row k, made from the words kept before it and written into its place.
fn render_row(
    patch: Patch<'_>,
    rows: &[u32],
    k: usize,
    work: Workspace<'_>,
    take: &mut Take<'_>,
) -> Step
    requires lent { Lent patch.bank.now patch.map.now }
    requires room { Room patch.settings.frames k rows.now (words_of take.old) }
    ensures same_places { SamePlaces take.old take.new }
    ensures done { RowDone (setup_by patch.entry) rows.now k (words_of take.old) result.holds result.same
        (words_of take.new) }
{
    let row = score::rows::row_at(rows, k);
    let before = take.words_before(patch.settings, k);
    let a = k * patch.settings.frames;
    let e = a + patch.settings.frames;
    let made = make_row(
        patch,
        row,
        before,
        work,
        &mut take.out[a..e],
        &mut take.aux[a..e],
    );
    let same = rows::keep(made.state, k, take.kept);
    Step {
        holds: made.holds,
        same,
    }
}

// A run of a score of n rows over the stretch from row `from` to before row `to`, and on to its stop. The arrays that it works in are made here,
// once a call.
pub fn run(
    patch: Patch<'_>,
    rows: &[u32],
    n: usize,
    from: usize,
    to: usize,
    take: &mut Take<'_>,
) -> Report
    requires lent { Lent patch.bank.now patch.map.now }
    requires holding { Holding patch.settings.frames n rows.now (words_of take.old) }
    requires from_lt_to { (from < to) × (to ≤ n) }
    ensures same_places { SamePlaces take.old take.new }
    ensures done { reported result (words_of take.new)
        ≡ run_of (setup_by patch.entry) rows.now n n from to (words_of take.old) }
{
    let mut keys = [0; MOST_FRAMES];
    let mut run_1 = [0.0; RUN_LENGTH];
    let mut run_2 = [0.0; RUN_LENGTH];
    let mut run_3 = [0.0; RUN_LENGTH];
    let mut run_4 = [0.0; RUN_LENGTH];
    let mut corners = [0.0; CORNERS_LENGTH];
    let mut end = to;
    let mut holds = Holds::default();
    for k in from..n {
        let work = Workspace {
            keys: &mut keys,
            run_1: &mut run_1,
            run_2: &mut run_2,
            run_3: &mut run_3,
            run_4: &mut run_4,
            corners: &mut corners,
        };
        let step = render_row(patch, rows, k, work, take);
        holds = holds + step.holds;
        let next = k + 1;
        match rows::next_end(rows, n, next, end, step.same) {
            Some(further) => end = further,
            None => {
                return Report {
                    rows: next - from,
                    holds,
                };
            }
        }
    }
    // A run stops at the last row at the latest.
    unreachable!()
}
