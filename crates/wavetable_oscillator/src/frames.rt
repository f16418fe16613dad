// What goes from frame to frame: the positions, the filters, and the words.
// Each stage asks that `size` be at most 128 frames: a type of its own for that number would be no plainer than the one clause.
ghost use Rattle.std.specs.Prelude.{◌≡◌, ◌+◌, ◌*◌, ◌≤◌, length, get_or};
ghost use Rattle.std.specs.Float.{nan, binary32};
ghost use Rattle.std.specs.Float.Ieee.{to_bits};
ghost use Rattle.words.specs.Binary32.{decimal};
ghost use Rattle.utils.specs.Frames.{Filled};
ghost use Rattle.utils.specs.Rendered.{most_frames, Places};
ghost use Rattle.oscillator.specs.Bank.{wave_length, phase_top};
ghost use Rattle.wavetable_oscillator.specs.Oscillator.{waveform_top, moved, filtered, sample_of};
ghost use Rattle.wavetable_oscillator.specs.Stages.{WalkedBy, PartedBy, reading_at, KeysFit, FilteredBy};

use oscillator::bank::{BANK_LENGTH, TABLE_SIZE_F, WAVE_LENGTH};
use oscillator::wavetable_oscillator::{Differentiator, advance, cutoff, interpolate_wave};
use utils::engine::{CORNERS_LENGTH, MOST_FRAMES, RUN_LENGTH};
use utils::holds::Holds;
use utils::parameter_interpolator::ParameterInterpolator;

// The source's `scale`, where `approximate_scale` is true.
const SCALE: f32 = 1.0;

// The phase, and the three parameters on their way.
#[derive(Clone, Copy)]
pub struct Positions {
    pub phase: f32,
    pub frequency_modulation: ParameterInterpolator,
    pub amplitude_modulation: ParameterInterpolator,
    pub waveform_modulation: ParameterInterpolator,
}

// The differentiator, and the low-pass filter behind it.
#[derive(Clone, Copy)]
pub struct Filters {
    pub lp: f32,
    pub differentiator: Differentiator,
}

impl Positions {
    // The positions one frame on.
    #[tactic(auto, unfolding(crate::specs::Oscillator::moved))]
    fn next(self) -> Positions
        ensures { result ≡ moved self }
    {
        let frequency_modulation = self.frequency_modulation.next();
        let amplitude_modulation = self.amplitude_modulation.next();
        let waveform_modulation = self.waveform_modulation.next();
        Positions {
            phase: advance(self.phase, frequency_modulation.value),
            frequency_modulation,
            amplitude_modulation,
            waveform_modulation,
        }
    }
}

// The positions of `size` frames: the phase in samples of a wave, the waveform, the filters' coefficient and the amplitude of each. Each goes into
// an array of its own, so that a loop reads entries that lie side by side.
pub fn walk(
    start: Positions,
    size: usize,
    phases: &mut [f32; RUN_LENGTH],
    waveforms: &mut [f32; RUN_LENGTH],
    cutoffs: &mut [f32; RUN_LENGTH],
    amplitudes: &mut [f32; RUN_LENGTH],
) -> Positions
    requires { size ≤ most_frames }
    ensures { WalkedBy start size result phases.new waveforms.new cutoffs.new amplitudes.new }
{
    let mut s = start;
    for i in 0..size {
        s = s.next();
        phases[i] = s.phase * TABLE_SIZE_F;
        waveforms[i] = s.waveform_modulation.value;
        cutoffs[i] = cutoff(s.frequency_modulation.value);
        amplitudes[i] = s.amplitude_modulation.value;
    }
    s
}

// Where the bank is read at a whole phase of a wave.
fn key(wave: usize, phase: usize) -> u32
    requires { (wave ≤ waveform_top) × (phase ≤ phase_top) }
    ensures { result ≡ wave * wave_length + phase }
{
    (wave * WAVE_LENGTH + phase) as u32
}

// Where `size` frames read, by their phases and waveforms, in whose places their fractions are left.
pub fn part_all(
    size: usize,
    phases: &mut [f32; RUN_LENGTH],
    waveforms: &mut [f32; RUN_LENGTH],
    keys: &mut [u32; MOST_FRAMES],
) -> Holds
    requires { size ≤ most_frames }
    ensures { PartedBy phases.old waveforms.old size result phases.new waveforms.new keys.new }
{
    let mut holds = Holds::default();
    for i in 0..size {
        let w = words::held_part(waveforms[i], crate::WavetableOscillator::WAVEFORM_TOP);
        let p = words::held_part(phases[i], crate::WavetableOscillator::PHASE_TOP);
        keys[i] = key(w.whole, p.whole);
        waveforms[i] = w.fraction;
        phases[i] = p.fraction;
        holds = holds.and_frame(p.held, w.held, false);
    }
    holds
}

// A frame's reading: two waves at a phase, and between them by the waveform's fraction, written out as the source has it.
#[tactic(auto, unfolding(words::specs::Binary32::of_bits, words::specs::Binary32::decimal, crate::specs::Stages::reading_at))]
fn read(bank: &[i16; BANK_LENGTH], key: usize, p_fractional: f32, waveform_fractional: f32) -> f32
    requires { key ≤ waveform_top * wave_length + phase_top }
    ensures { result ≡ reading_at bank.now key p_fractional waveform_fractional }
{
    let x0 = interpolate_wave(bank, key, p_fractional);
    let x1 = interpolate_wave(bank, key + WAVE_LENGTH, p_fractional);
    (x0 + (x1 - x0) * waveform_fractional) * SCALE
}

impl Filters {
    // The filters one frame on.
    #[tactic(auto, unfolding(crate::specs::Oscillator::filtered))]
    fn next(self, cutoff: f32, x: f32) -> Filters
        ensures { result ≡ filtered cutoff x self }
    {
        let d = self.differentiator.process(cutoff, x);
        let differentiator = d.next;
        Filters {
            lp: utils::one_pole(self.lp, d.sample, cutoff),
            differentiator,
        }
    }
}

// The readings of `size` frames, filtered. What a frame reads comes in the arrays that `walk` and `part_all` left.
pub fn filter_all(
    start: Filters,
    bank: &[i16; BANK_LENGTH],
    size: usize,
    keys: &[u32; MOST_FRAMES],
    phases: &[f32; RUN_LENGTH],
    waveforms: &[f32; RUN_LENGTH],
    cutoffs: &[f32; RUN_LENGTH],
    lps: &mut [f32; CORNERS_LENGTH],
) -> Filters
    requires few_frames { size ≤ most_frames }
    requires keys_fit { KeysFit keys.now size }
    ensures { FilteredBy bank.now keys.now phases.now waveforms.now cutoffs.now start size result lps.new }
{
    let mut f = start;
    for i in 0..size {
        let x = read(bank, keys[i] as usize, phases[i], waveforms[i]);
        f = f.next(cutoffs[i], x);
        lps[i] = f.lp;
    }
    f
}

// The samples as words, each added to an out of 0, and an aux of zeros.
pub fn words_all(
    amplitudes: &[f32; RUN_LENGTH],
    lps: &[f32; CORNERS_LENGTH],
    out: &mut [u32],
    aux: &mut [u32],
)
    requires { Places out.old aux.old }
    ensures filled { Filled (λ j. to_bits binary32 (sample_of (get_or amplitudes.now j nan) (get_or lps.now j nan))) 0 out.new (length out.old) }
    ensures filled_2 { Filled (λ j. to_bits binary32 (decimal 0 0)) 0 aux.new (length out.old) }
{
    for i in 0..out.len() {
        out[i] = words::to_word(0.0 + amplitudes[i] * lps[i]);
        aux[i] = 0;
    }
}
