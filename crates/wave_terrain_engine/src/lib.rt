// Wave terrain synthesis - a 2D function evaluated along an elliptical path of
// adjustable center and eccentricity.
//
// Engine parameters:
// - HARMONICS: terrain.
// - TIMBRE: path radius.
// - MORPH: path offset.
//
// OUT signal: direct terrain height (z).
// AUX signal: terrain height interpreted as phase distortion (sin(y+z)).
//
// Based on MIT-licensed code (c) 2021 by Emilie Gillet (emilie.o.gillet@gmail.com)
#![tactic(auto)]

ghost use Rattle.std.specs.Prelude.{◌≡◌, length};
ghost use Rattle.utils.specs.Rendered.{Places, Renders};
ghost use Rattle.wave_terrain_engine.specs.Block.{fresh, radius_of, interpolators_of, rendered};

use frames::{Interpolators, OVERSAMPLING, SCALE};
use sine_oscillator::FastSineOscillator;
use terrain::Ground;
use utils::engine::{Block, EngineParameters, Workspace, note_to_frequency};
use utils::parameter_interpolator::ParameterInterpolator;
use utils::units::PitchRatios;

mod frames;

#[derive(Clone, Copy)]
pub struct WaveTerrainEngine {
    pub path: FastSineOscillator,
    pub offset: f32,
    pub terrain_idx: f32,
}

impl WaveTerrainEngine {
    // The top of the whole layer number, without a map and with one. Document 01 has tops as constants of the voice's type: these and the edges are
    // named here again, and who uses the voice names no lower crate.
    pub const TOP: usize = terrain::TOP;

    pub const TOP_WITH_MAP: usize = terrain::TOP_WITH_MAP;

    // The last places from which a reading of the map and of the bank stays within.
    pub const MAP_EDGE: usize = terrain::MAP_EDGE;

    pub const BANK_EDGE: usize = terrain::BANK_EDGE;

    // The fresh state, each field by its name as the equation has it.
    #[tactic(auto, unfolding(words::specs::Binary32::of_bits, words::specs::Binary32::decimal))]
    pub fn init() -> WaveTerrainEngine
        ensures { result ≡ fresh }
    {
        WaveTerrainEngine {
            path: FastSineOscillator::init(),
            offset: 0.0,
            terrain_idx: 0.0,
        }
    }

    // The frames of a block, as many as `out` has words. What is read, worked in and written stands side by side, since it is lent for a call, for a
    // run and for a row; out and aux are two slices, as the C interface lends them, and so one clause says that they are as long as each other.
    pub fn render(
        self,
        parameters: EngineParameters,
        ground: &Ground<'_>,
        ratios: &PitchRatios,
        work: Workspace<'_>,
        out: &mut [u32],
        aux: &mut [u32],
    ) -> Block<WaveTerrainEngine>
        requires { Places out.old aux.old }
        ensures { Renders (rendered ground.now.bank.now ground.now.map.now ground.now.sine.now ratios.now.high ratios.now.low
            (length out.old) parameters self)
            (length out.old) result.state result.holds out.new aux.new }
    {
        let Workspace {
            keys: layers,
            run_1: path_xs,
            run_2: ys,
            run_3: xs,
            run_4: z1s,
            corners: fractions,
        } = work;
        let n = out.len();
        let f0 = note_to_frequency(ratios, parameters.note, parameters.a0_normalized);
        let path = self.path.render_quadrature(
            f0 * SCALE,
            radius_at(f0, parameters.timbre),
            OVERSAMPLING * n,
            path_xs,
            ys,
        );
        let start = self.interpolators(parameters, ground.map, n);
        let end = frames::shift(start, n, ground.map, path_xs, xs, layers, fractions);
        // The heights take the place of the path's x, and the phases that of the x of each oversample.
        let holds_0 = frames::heights(n * OVERSAMPLING, 0, ground, xs, ys, layers, path_xs);
        let holds_1 = frames::heights(n * OVERSAMPLING, 1, ground, xs, ys, layers, z1s);
        frames::sums(ys, fractions, path_xs, z1s, xs, out);
        frames::finish(ground.sine, xs, aux);
        Block {
            state: WaveTerrainEngine {
                path,
                offset: end.offset.value,
                terrain_idx: end.terrain_idx.value,
            },
            holds: holds_0 + holds_1,
        }
    }

    // Offset and layer on their way over n frames.
    #[tactic(auto, unfolding(words::specs::Binary32::of_bits, words::specs::Binary32::decimal, crate::specs::Block::interpolators_of))]
    fn interpolators(self, parameters: EngineParameters, map: &[u8], n: usize) -> Interpolators
        ensures { result ≡ interpolators_of map.now parameters self n }
    {
        let offset = ParameterInterpolator::new(self.offset, 1.9 * parameters.morph - 1.0, n);
        let count = words::float_of_u64(terrain::num_terrains(map) as u64);
        let terrain_idx = ParameterInterpolator::new(
            self.terrain_idx,
            utils::min(parameters.harmonics * 1.05, 1.0) * (count - 1.0001),
            n,
        );
        Interpolators {
            offset,
            terrain_idx,
        }
    }
}

// The radius of the path.
#[tactic(auto, unfolding(words::specs::Binary32::of_bits, words::specs::Binary32::decimal))]
fn radius_at(f0: f32, timbre: f32) -> f32
    ensures { result ≡ radius_of f0 timbre }
{
    let attenuation = utils::max(1.0 - 8.0 * f0, 0.0);

    0.1 + 0.9 * timbre * attenuation * (2.0 - attenuation)
}
