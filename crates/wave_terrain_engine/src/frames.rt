// The frames of a block, in short loops over lent runs. At each stage a value has a run of its own: a frame's two oversamples lie side by side in
// it, and `shift` and `sums` take both in one vector instruction. `shift` and `heights` are told how many entries to fill, and ask that so many be
// there:
// arrays cut to that length would be asked to be as long as each other.
// Based on MIT-licensed code (c) 2021 by Emilie Gillet (emilie.o.gillet@gmail.com)
ghost use Rattle.std.specs.Prelude.{◌≡◌, ℕ, suc, ◌+◌, ◌*◌, ◌/◌, ◌≤◌, ◌<◌, length, get_or};
ghost use Rattle.std.specs.Float.{nan};
ghost use Rattle.utils.specs.Holds.{AtMost};
ghost use Rattle.utils.specs.Frames.{state_after, sum_of, Filled};
ghost use Rattle.utils.specs.Rendered.{most_frames, run_length};
ghost use Rattle.terrain.specs.Layers.{layer_top};
ghost use Rattle.wave_terrain_engine.specs.Block.{oversampling, interpolators_next, shifted_x, between, out_of, phase_of};
ghost use Rattle.wave_terrain_engine.specs.Stages.{stage_x, stage_layer, stage_fraction, stage_height, stage_out, stage_phase, stage_aux};

use sine_oscillator::sine::sine;
use terrain::Ground;
use utils::engine::{CORNERS_LENGTH, MOST_FRAMES, RUN_LENGTH};
use utils::holds::Holds;
use utils::parameter_interpolator::ParameterInterpolator;

// Samples of the path for each frame, and their weight.
pub const OVERSAMPLING: usize = 2;

pub const SCALE: f32 = 1.0 / OVERSAMPLING as f32;

// What the frame loop interpolates: the path's offset and the layer.
#[derive(Clone, Copy)]
pub struct Interpolators {
    pub offset: ParameterInterpolator,
    pub terrain_idx: ParameterInterpolator,
}

impl Interpolators {
    // One frame on.
    pub fn next(self) -> Interpolators
        ensures { result ≡ interpolators_next self }
    {
        let offset = self.offset.next();
        let terrain_idx = self.terrain_idx.next();
        Interpolators {
            offset,
            terrain_idx,
        }
    }
}

// The path's x, moved by the offset.
#[tactic(auto, unfolding(words::specs::Binary32::of_bits, words::specs::Binary32::decimal))]
fn shifted_x(x: f32, x_offset: f32) -> f32
    ensures { result ≡ shifted_x x x_offset }
{
    x * (1.0 - x_offset.abs()) + x_offset
}

// The x of each oversample, and each frame's layer with its fraction.
#[tactic(auto, using(words::proofs::Parts::part_most, terrain::proofs::Layers::top_most))]
pub fn shift(
    start: Interpolators,
    n: usize,
    map: &[u8],
    run: &[f32; RUN_LENGTH],
    xs: &mut [f32; RUN_LENGTH],
    layers: &mut [u32; MOST_FRAMES],
    fractions: &mut [f32; CORNERS_LENGTH],
) -> Interpolators
    requires { n ≤ most_frames }
    ensures value { result ≡ state_after interpolators_next n start }
    ensures filled { Filled (stage_x run.now start) nan xs.new (n * oversampling) }
    ensures filled_2 { Filled (stage_layer (layer_top map.now) start) 0 layers.new n }
    ensures filled_3 { Filled (stage_fraction (layer_top map.now) start) nan fractions.new n }
{
    let top = terrain::layer_top(map);
    let mut s = start;
    for i in 0..n {
        s = s.next();
        let x_offset = s.offset.value;
        let ij = i * OVERSAMPLING;
        xs[ij] = shifted_x(run[ij], x_offset);
        xs[ij + 1] = shifted_x(run[ij + 1], x_offset);
        let layer = words::held_part(s.terrain_idx.value, top);
        layers[i] = layer.whole as u32;
        fractions[i] = layer.fraction;
    }
    s
}

// The height at each of n oversamples, `up` layers above its frame's layer; what comes back is what the readings held.
#[tactic(auto, using(terrain::proofs::Layers::top_most, utils::proofs::Runs::filling_none))]
pub fn heights(
    n: usize,
    up: usize,
    ground: &Ground<'_>,
    xs: &[f32; RUN_LENGTH],
    ys: &[f32; RUN_LENGTH],
    layers: &[u32; MOST_FRAMES],
    zs: &mut [f32; RUN_LENGTH],
) -> Holds
    requires n_le_run_length { n ≤ run_length }
    requires by_index { (j : ℕ) → j < n → get_or layers.now (j / oversampling) 0 + up ≤ layer_top ground.now.map.now + 1 }
    ensures at_most { AtMost n result }
    ensures value { result ≡ sum_of suc (λ (j : ℕ). (stage_height ground.now xs.now ys.now layers.now up j).holds) n 0 }
    ensures filled { Filled (λ (j : ℕ). (stage_height ground.now xs.now ys.now layers.now up j).value) nan zs.new n }
{
    let mut holds = Holds::default();
    for j in 0..n {
        let layer = layers[j / OVERSAMPLING] as usize;
        let z = ground.terrain(xs[j], ys[j], layer + up);
        zs[j] = z.value;
        holds = holds.and_reading(z.held);
    }
    holds
}

// From one height to the next layer's, as the source writes it out.
fn between_at(z0s: &[f32; RUN_LENGTH], z1s: &[f32; RUN_LENGTH], j: usize, fraction: f32) -> f32
    requires { j < run_length }
    ensures { result ≡ between (get_or z0s.now j nan) (get_or z1s.now j nan) fraction }
{
    let z0 = z0s[j];
    let z1 = z1s[j];

    z0 + (z1 - z0) * fraction
}

// A frame's out sample, by z of its two oversamples.
#[tactic(auto, using(crate::proofs::Constants::scale_half), unfolding(words::specs::Binary32::of_bits, words::specs::Binary32::decimal))]
fn out_sample(z: f32, z_2: f32) -> f32
    ensures { result ≡ out_of z z_2 }
{
    SCALE * (0.0 + z + z_2)
}

// The phase of a frame's aux sample, by y and z of its two oversamples.
#[tactic(auto, using(crate::proofs::Constants::scale_half), unfolding(words::specs::Binary32::of_bits, words::specs::Binary32::decimal))]
fn aux_phase(y: f32, z: f32, y_2: f32, z_2: f32) -> f32
    ensures { result ≡ phase_of y z y_2 z_2 }
{
    1.0 + 0.5 * SCALE * (0.0 + (y + z) + (y_2 + z_2))
}

// Each frame's out word, and the phase of its aux.
#[tactic(auto, using(utils::proofs::Runs::filling_none))]
pub fn sums(
    ys: &[f32; RUN_LENGTH],
    fractions: &[f32; CORNERS_LENGTH],
    z0s: &[f32; RUN_LENGTH],
    z1s: &[f32; RUN_LENGTH],
    phases: &mut [f32; RUN_LENGTH],
    out: &mut [u32],
)
    requires { length out.old ≤ most_frames }
    ensures filled { Filled (stage_phase ys.now fractions.now z0s.now z1s.now) nan phases.new (length out.old) }
    ensures filled_2 { Filled (stage_out ys.now fractions.now z0s.now z1s.now) 0 out.new (length out.old) }
{
    for i in 0..out.len() {
        let ij = i * OVERSAMPLING;
        let z = between_at(z0s, z1s, ij, fractions[i]);
        let z_2 = between_at(z0s, z1s, ij + 1, fractions[i]);
        phases[i] = aux_phase(ys[ij], z, ys[ij + 1], z_2);
        out[i] = words::to_word(out_sample(z, z_2));
    }
}

// Each frame's aux word.
#[tactic(auto, using(utils::proofs::Runs::filling_none, utils::proofs::Runs::filling_more))]
pub fn finish(table: &[f32; 641], phases: &[f32; RUN_LENGTH], aux: &mut [u32])
    requires { length aux.old ≤ most_frames }
    ensures { Filled (stage_aux table.now phases.now) 0 aux.new (length aux.old) }
{
    for i in 0..aux.len() {
        aux[i] = words::to_word(sine(table, phases[i]));
    }
}
