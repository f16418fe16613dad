// Integrated wavetable synthesis: the plain oscillator, along the first waves of the bank.
//
// Engine parameters:
// - TIMBRE: waveform. It goes along the waves.
// - MORPH and HARMONICS: not used.
//
// AUX signal: none, zeros.
// Based on MIT-licensed code (c) 2016 by Emilie Gillet (emilie.o.gillet@gmail.com)

#![tactic(auto)]

ghost use Rattle.std.specs.Prelude.{◌≡◌, length};
ghost use Rattle.utils.specs.Rendered.{Places, Renders};
ghost use Rattle.oscillator.specs.Bank.{bank_length};
ghost use Rattle.wavetable_oscillator.specs.Oscillator.{targets_of, begun, rendered, fresh};

use oscillator::bank::BANK_LENGTH;
use oscillator::wavetable_oscillator::Differentiator;
use utils::engine::{Block, EngineParameters, Workspace};
use utils::parameter_interpolator::ParameterInterpolator;
use utils::units::PitchRatios;

mod frames;

// The waves that it goes along: the first of the bank.
const NUM_WAVES: usize = 64;

const NUM_WAVES_F: f32 = NUM_WAVES as f32;

// The source's MAX_FREQUENCY, in cycles a frame.
const MAX_FREQUENCY: f32 = 0.25;

// The state, in the order of its kept words.
#[derive(Clone, Copy)]
pub struct WavetableOscillator {
    pub phase: f32,
    pub frequency: f32,
    pub amplitude: f32,
    pub waveform: f32,
    pub lp: f32,
    pub differentiator: Differentiator,
}

// Where a block's parameters go to.
#[derive(Clone, Copy)]
pub struct Targets {
    pub frequency: f32,
    pub amplitude: f32,
    pub waveform: f32,
}

// The same by a row's parameters: amplitude 1, attenuated towards high frequencies, with the scale of the readings approximated in it.
fn targets_of(parameters: EngineParameters, ratios: &PitchRatios) -> Targets
    ensures { result ≡ targets_of ratios.now.high ratios.now.low parameters }
{
    let f0 = utils::engine::note_to_frequency(ratios, parameters.note, parameters.a0_normalized);
    let frequency = utils::clamp(f0, 0.0000001, MAX_FREQUENCY);

    Targets {
        frequency,
        amplitude: 1.0 * (1.0 - 2.0 * frequency) * (1.0 / (frequency * 131072.0)),
        waveform: parameters.timbre * (NUM_WAVES_F - 1.0001),
    }
}

impl WavetableOscillator {
    // The highest whole parts of its positions, as constants of the voice's type: document 01 has tops so.
    pub const WAVEFORM_TOP: usize = NUM_WAVES - 2;

    pub const PHASE_TOP: usize = oscillator::bank::PHASE_TOP;

    // The fresh state: zeros, each field by its name as the equation has it.
    #[tactic(auto, unfolding(words::specs::Binary32::of_bits, words::specs::Binary32::decimal))]
    pub fn init() -> WavetableOscillator
        ensures { result ≡ fresh }
    {
        WavetableOscillator {
            phase: 0.0,
            frequency: 0.0,
            amplitude: 0.0,
            waveform: 0.0,
            lp: 0.0,
            differentiator: Differentiator {
                lp: 0.0,
                previous: 0.0,
            },
        }
    }

    // What the first of `size` frames begins with.
    #[tactic(auto, unfolding(crate::specs::Oscillator::begun))]
    fn begin(self, targets: Targets, size: usize) -> frames::Positions
        ensures { result ≡ begun size targets self }
    {
        frames::Positions {
            phase: self.phase,
            frequency_modulation: ParameterInterpolator::new(
                self.frequency,
                targets.frequency,
                size,
            ),
            amplitude_modulation: ParameterInterpolator::new(
                self.amplitude,
                targets.amplitude,
                size,
            ),
            waveform_modulation: ParameterInterpolator::new(self.waveform, targets.waveform, size),
        }
    }

    // A block: one sample into each place of `out`, and zeros into `aux`. The pitch tables and the arrays to work in are lent. The bank is a slice,
    // as the C interface lends it; the stages take it as an array.
    pub fn render(
        self,
        parameters: EngineParameters,
        bank: &[i16],
        ratios: &PitchRatios,
        work: Workspace<'_>,
        out: &mut [u32],
        aux: &mut [u32],
    ) -> Block<WavetableOscillator>
        requires bank_len { length bank.now ≡ bank_length }
        requires places { Places out.old aux.old }
        ensures { Renders (rendered bank.now ratios.now.high ratios.now.low (length out.old) parameters self)
            (length out.old) result.state result.holds out.new aux.new }
    {
        let Workspace {
            keys,
            run_1: phases,
            run_2: waveforms,
            run_3: cutoffs,
            run_4: amplitudes,
            corners: lps,
        } = work;
        let bank = <&[i16; BANK_LENGTH]>::try_from(bank).unwrap();
        let size = out.len();
        let targets = targets_of(parameters, ratios);
        let start = self.begin(targets, size);
        let end = frames::walk(start, size, phases, waveforms, cutoffs, amplitudes);
        let holds = frames::part_all(size, phases, waveforms, keys);
        let differentiator = self.differentiator;
        let filters = frames::Filters {
            lp: self.lp,
            differentiator,
        };
        let last = frames::filter_all(filters, bank, size, keys, phases, waveforms, cutoffs, lps);
        frames::words_all(amplitudes, lps, out, aux);
        let differentiator_after = last.differentiator;
        Block {
            state: WavetableOscillator {
                phase: end.phase,
                frequency: end.frequency_modulation.value,
                amplitude: end.amplitude_modulation.value,
                waveform: end.waveform_modulation.value,
                lp: last.lp,
                differentiator: differentiator_after,
            },
            holds,
        }
    }
}
