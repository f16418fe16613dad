// Wavetable oscillator.
//
// Four banks of 8x8 waveforms, accessed by row and column, with or without interpolation.
//
// Engine parameters:
// - HARMONICS: bank selection. 4 interpolated banks followed by the same 4 banks, in reverse order, without interpolation.
// - TIMBRE: row index. Within a row, the waves are sorted by spectral brightness.
// - MORPH: column index.
//
// AUX signal: low-fi (5-bit) output.
// Based on MIT-licensed code (c) 2016 by Emilie Gillet (emilie.o.gillet@gmail.com)
#![tactic(auto)]

ghost use Rattle.std.specs.Prelude.{◌≡◌, length};
ghost use Rattle.utils.specs.Rendered.{Places, Renders};
ghost use Rattle.oscillator.specs.Bank.{bank_length};
ghost use Rattle.wavetable_engine.specs.Wavetable.{fresh, clamp_by, quantised, set_up, rendered};

use oscillator::bank::BANK_LENGTH;
use oscillator::wavetable_oscillator::Differentiator;
use utils::engine::{Block, EngineParameters, Workspace};
use utils::parameter_interpolator::ParameterInterpolator;
use utils::units::PitchRatios;

mod frames;

// The state, in the order of its kept words.
#[derive(Clone, Copy)]
pub struct WavetableEngine {
    pub phase: f32,
    pub x_pre_lp: f32,
    pub y_pre_lp: f32,
    pub z_pre_lp: f32,
    pub x_lp: f32,
    pub y_lp: f32,
    pub z_lp: f32,
    pub previous_x: f32,
    pub previous_y: f32,
    pub previous_z: f32,
    pub previous_f0: f32,
    pub diff_out: Differentiator,
}

// What a block works out before its frames.
#[derive(Clone, Copy)]
pub struct SetUp {
    pub x_pre_lp: f32,
    pub y_pre_lp: f32,
    pub z_pre_lp: f32,
    pub lp_coefficient: f32,
    pub start: frames::Positions,
}

// x, made steeper around 0.5 and held between 0 and 1.
#[tactic(auto, unfolding(words::specs::Binary32::of_bits, words::specs::Binary32::decimal))]
fn clamp(x: f32, amount: f32) -> f32
    ensures { result ≡ clamp_by x amount }
{
    utils::clamp((x - 0.5) * amount, -0.5, 0.5) + 0.5
}

// A position, drawn towards a whole number by the quantization.
#[tactic(auto, unfolding(words::specs::Binary32::of_bits, words::specs::Binary32::decimal, crate::specs::Wavetable::quantised))]
fn quantise(x: f32, quantization: f32) -> f32
    ensures { result ≡ quantised x quantization }
{
    let x_integral = words::whole_float(x);
    let x_fractional = x - x_integral;

    x_integral + (x_fractional + quantization * (clamp(x_fractional, 16.0) - x_fractional))
}

impl WavetableEngine {
    // The highest whole parts of the positions, as constants of the voice's type: document 01 has them so.
    pub const PHASE_TOP: usize = oscillator::bank::PHASE_TOP;

    pub const X_TOP: usize = 7;

    pub const Y_TOP: usize = 7;

    pub const Z_TOP: usize = 6;

    // The fresh state, each field by its name as the equation has it. `a0_normalized` is 55 divided by the rate.
    #[tactic(auto, unfolding(words::specs::Binary32::of_bits, words::specs::Binary32::decimal))]
    pub fn init(a0_normalized: f32) -> WavetableEngine
        ensures { result ≡ fresh a0_normalized }
    {
        WavetableEngine {
            phase: 0.0,
            x_pre_lp: 0.0,
            y_pre_lp: 0.0,
            z_pre_lp: 0.0,
            x_lp: 0.0,
            y_lp: 0.0,
            z_lp: 0.0,
            previous_x: 0.0,
            previous_y: 0.0,
            previous_z: 0.0,
            previous_f0: a0_normalized,
            diff_out: Differentiator {
                lp: 0.0,
                previous: 0.0,
            },
        }
    }

    // What a block of `size` frames works out before them.
    #[tactic(auto, unfolding(words::specs::Binary32::of_bits, words::specs::Binary32::decimal, crate::specs::Wavetable::set_up))]
    fn set_up(self, parameters: EngineParameters, ratios: &PitchRatios, size: usize) -> SetUp
        ensures { result ≡ set_up ratios.now.high ratios.now.low size parameters self }
    {
        let f0 = utils::engine::note_to_frequency(
            ratios,
            parameters.note,
            parameters.a0_normalized,
        );

        let x = utils::one_pole(self.x_pre_lp, parameters.timbre * 6.9999, 0.2);
        let y = utils::one_pole(self.y_pre_lp, parameters.morph * 6.9999, 0.2);
        let z = utils::one_pole(self.z_pre_lp, parameters.harmonics * 6.9999, 0.05);

        let quantization = utils::clamp(z - 3.0, 0.0, 1.0);
        let lp_coefficient = utils::clamp(2.0 * f0 * (4.0 - 3.0 * quantization), 0.01, 0.1);

        SetUp {
            x_pre_lp: x,
            y_pre_lp: y,
            z_pre_lp: z,
            lp_coefficient,
            start: frames::Positions {
                phase: self.phase,
                x_lp: self.x_lp,
                y_lp: self.y_lp,
                z_lp: self.z_lp,
                x_modulation: ParameterInterpolator::new(
                    self.previous_x,
                    quantise(x, quantization),
                    size,
                ),
                y_modulation: ParameterInterpolator::new(
                    self.previous_y,
                    quantise(y, quantization),
                    size,
                ),
                z_modulation: ParameterInterpolator::new(
                    self.previous_z,
                    quantise(z, quantization),
                    size,
                ),
                f0_modulation: ParameterInterpolator::new(self.previous_f0, f0, size),
            },
        }
    }

    // A block: one sample into each place of `out` and of `aux`. The pitch tables and the arrays to work in are lent. The bank is a slice, as the C
    // interface lends it; the stages take it as an array.
    pub fn render(
        self,
        parameters: EngineParameters,
        bank: &[i16],
        ratios: &PitchRatios,
        work: Workspace<'_>,
        out: &mut [u32],
        aux: &mut [u32],
    ) -> Block<WavetableEngine>
        requires bank_len { length bank.now ≡ bank_length }
        requires places { Places out.old aux.old }
        ensures { Renders (rendered bank.now ratios.now.high ratios.now.low (length out.old) parameters self)
            (length out.old) result.state result.holds out.new aux.new }
    {
        let Workspace {
            keys,
            run_1: xs,
            run_2: ys,
            run_3: zs,
            run_4: phases,
            corners,
        } = work;
        let bank = <&[i16; BANK_LENGTH]>::try_from(bank).unwrap();
        let size = out.len();
        let m = self.set_up(parameters, ratios, size);
        let start = m.start;
        let w = frames::walk(start, m.lp_coefficient, size, keys, xs, ys, zs, phases);
        waves::read_all(bank, size, keys, phases, corners);
        // The folded corners take the place of the phases, and the samples that of x.
        waves::fold_all(size, xs, ys, zs, corners, phases);
        let diff_out = frames::differentiate_all(
            self.diff_out,
            start.f0_modulation,
            size,
            phases,
            xs,
        );
        frames::words_all(xs, out, aux);
        let end = w.state;
        Block {
            state: WavetableEngine {
                phase: end.phase,
                x_pre_lp: m.x_pre_lp,
                y_pre_lp: m.y_pre_lp,
                z_pre_lp: m.z_pre_lp,
                x_lp: end.x_lp,
                y_lp: end.y_lp,
                z_lp: end.z_lp,
                previous_x: end.x_modulation.value,
                previous_y: end.y_modulation.value,
                previous_z: end.z_modulation.value,
                previous_f0: end.f0_modulation.value,
                diff_out,
            },
            holds: w.holds,
        }
    }
}
