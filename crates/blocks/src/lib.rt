// The block of a row, by the voice that its state is of.
#![tactic(auto)]

ghost use Rattle.std.specs.Prelude.{◌≡◌, length};
ghost use Rattle.utils.specs.Rendered.{Places, Renders};
ghost use Rattle.voice.specs.Voice.{rendered, Lent};

use sine_oscillator::sine::sine_table;
use terrain::Ground;
use utils::engine::{Block, EngineParameters, Workspace};
use utils::units::pitch_ratios;
use voice::State;

// A voice's own block, as a block of any state.
fn among<S: Copy, F: FnOnce(S) -> State>(block: Block<S>, of: F) -> Block<State>
    requires { F.pre of block.state }
    ensures state { F.post of block.state result.state }
    ensures holds { result.holds ≡ block.holds }
{
    Block {
        state: of(block.state),
        holds: block.holds,
    }
}

// A row's block: one sample into each place of `out` and of `aux`. The arrays to work in are lent.
// Here and in each voice what is read, worked in and written stand side by side: they are lent for a call, for a run and for a row. No map is a
// map of length 0, as the C interface lends it.
pub fn render(
    state: State,
    parameters: EngineParameters,
    bank: &[i16],
    map: &[u8],
    work: Workspace<'_>,
    out: &mut [u32],
    aux: &mut [u32],
) -> Block<State>
    requires lent { Lent bank.now map.now }
    requires places { Places out.old aux.old }
    ensures { Renders (rendered bank.now map.now (length out.old) parameters state)
        (length out.old) result.state result.holds out.new aux.new }
{
    let ratios = pitch_ratios();
    match state {
        State::Wavetable(engine) => among(
            engine.render(parameters, bank, ratios, work, out, aux),
            State::Wavetable,
        ),
        State::Terrain(engine) => {
            let ground = Ground {
                sine: sine_table(),
                bank,
                map,
            };
            among(
                engine.render(parameters, &ground, ratios, work, out, aux),
                State::Terrain,
            )
        }
        State::Oscillator(oscillator) => among(
            oscillator.render(parameters, bank, ratios, work, out, aux),
            State::Oscillator,
        ),
    }
}
