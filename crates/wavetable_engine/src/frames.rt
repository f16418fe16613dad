// What goes from frame to frame: the positions, the differentiator, and the words.
// Each stage asks that `size` be at most 128 frames: a type of its own for that number would be no plainer than the one clause.
ghost use Rattle.std.specs.Prelude.{◌≡◌, ◌≤◌, length, get_or};
ghost use Rattle.std.specs.Float.{nan, binary32};
ghost use Rattle.std.specs.Float.Ieee.{to_bits};
ghost use Rattle.utils.specs.Holds.{plus, AtMost, most_count};
ghost use Rattle.utils.specs.Frames.{Filled};
ghost use Rattle.utils.specs.Rendered.{most_frames, Places};
ghost use Rattle.wavetable_engine.specs.Wavetable.{moved, parts_of, holds_of, gain_of, lofi};
ghost use Rattle.wavetable_engine.specs.Stages.{PartsFit, key_of, WalkedBy, sample_of, differentiating};

use oscillator::bank::TABLE_SIZE_F;
use oscillator::wavetable_oscillator::{Differentiator, advance, cutoff};
use utils::engine::{Block, MOST_FRAMES, RUN_LENGTH};
use utils::holds::Holds;
use utils::parameter_interpolator::ParameterInterpolator;
use words::Part;

// The phase, the smoothed x, y and z, and the four parameters on their way.
#[derive(Clone, Copy)]
pub struct Positions {
    pub phase: f32,
    pub x_lp: f32,
    pub y_lp: f32,
    pub z_lp: f32,
    pub x_modulation: ParameterInterpolator,
    pub y_modulation: ParameterInterpolator,
    pub z_modulation: ParameterInterpolator,
    pub f0_modulation: ParameterInterpolator,
}

// The positions' parts.
#[derive(Clone, Copy)]
pub struct Parts {
    pub x: Part,
    pub y: Part,
    pub z: Part,
    pub phase: Part,
}

impl Positions {
    // The positions one frame on.
    #[tactic(auto, unfolding(crate::specs::Wavetable::moved))]
    fn next(self, lp_coefficient: f32) -> Positions
        ensures { result ≡ moved lp_coefficient self }
    {
        let f0_modulation = self.f0_modulation.next();
        let x_modulation = self.x_modulation.next();
        let y_modulation = self.y_modulation.next();
        let z_modulation = self.z_modulation.next();
        Positions {
            phase: advance(self.phase, f0_modulation.value),
            x_lp: utils::one_pole(self.x_lp, x_modulation.value, lp_coefficient),
            y_lp: utils::one_pole(self.y_lp, y_modulation.value, lp_coefficient),
            z_lp: utils::one_pole(self.z_lp, z_modulation.value, lp_coefficient),
            x_modulation,
            y_modulation,
            z_modulation,
            f0_modulation,
        }
    }

    // Where a frame reads.
    #[tactic(auto, using(oscillator::proofs::Sizes::period_float), unfolding(words::specs::Binary32::of_bits, words::specs::Binary32::decimal, crate::specs::Wavetable::parts_of))]
    fn parts(self) -> Parts
        ensures { result ≡ parts_of self }
    {
        Parts {
            x: words::held_part(self.x_lp, crate::WavetableEngine::X_TOP),
            y: words::held_part(self.y_lp, crate::WavetableEngine::Y_TOP),
            z: words::held_part(self.z_lp, crate::WavetableEngine::Z_TOP),
            phase: words::held_part(self.phase * TABLE_SIZE_F, crate::WavetableEngine::PHASE_TOP),
        }
    }
}

impl Parts {
    // The four whole parts in one number, since the lent `keys` have one word for each frame.
    fn key(self) -> u32
        requires { PartsFit self }
        ensures { result ≡ key_of self }
    {
        (self.x.whole + self.y.whole * 8 + self.z.whole * 64 + self.phase.whole * 512) as u32
    }
}

// The holds of the frames before, and those of a frame: phase, wave position and level.
#[tactic(auto, unfolding(crate::specs::Wavetable::holds_of))]
fn with_held(holds: Holds, p: Parts) -> Holds
    requires { AtMost most_count (plus holds (holds_of p)) }
    ensures { result ≡ plus holds (holds_of p) }
{
    holds.and_frame(p.phase.held, p.x.held | p.y.held, p.z.held)
}

// Where `size` frames read: the whole parts of each in one number, and the four fractions. Each goes into an array of its own, so that the loops
// that read them vectorise.
pub fn walk(
    start: Positions,
    lp_coefficient: f32,
    size: usize,
    keys: &mut [u32; MOST_FRAMES],
    xs: &mut [f32; RUN_LENGTH],
    ys: &mut [f32; RUN_LENGTH],
    zs: &mut [f32; RUN_LENGTH],
    phases: &mut [f32; RUN_LENGTH],
) -> Block<Positions>
    requires { size ≤ most_frames }
    ensures { WalkedBy lp_coefficient start size result keys.new xs.new ys.new zs.new phases.new }
{
    let mut s = start;
    let mut holds = Holds::default();
    for i in 0..size {
        s = s.next(lp_coefficient);
        let p = s.parts();
        keys[i] = p.key();
        xs[i] = p.x.fraction;
        ys[i] = p.y.fraction;
        zs[i] = p.z.fraction;
        phases[i] = p.phase.fraction;
        holds = with_held(holds, p);
    }
    Block { state: s, holds }
}

// What makes up for the integration of the waves.
#[tactic(auto, unfolding(words::specs::Binary32::of_bits, words::specs::Binary32::decimal, crate::specs::Wavetable::gain_of))]
fn gain(f0: f32) -> f32
    ensures { result ≡ gain_of f0 }
{
    (1.0 / (f0 * 131072.0)) * (0.95 - f0)
}

// The readings of `size` frames made samples.
pub fn differentiate_all(
    diff_out: Differentiator,
    f0: ParameterInterpolator,
    size: usize,
    mixes: &[f32; RUN_LENGTH],
    samples: &mut [f32; RUN_LENGTH],
) -> Differentiator
    requires { size ≤ most_frames }
    ensures value { result ≡ (differentiating mixes.now size (record { diff_out = diff_out; f0 = f0 })).diff_out }
    ensures filled { Filled (λ j. sample_of (get_or mixes.now j nan) (differentiating mixes.now j (record { diff_out = diff_out; f0 = f0 }))) nan samples.new size }
{
    let mut d = diff_out;
    let mut f = f0;
    for i in 0..size {
        f = f.next();
        let s = d.process(cutoff(f.value), mixes[i]);
        samples[i] = s.sample * gain(f.value);
        d = s.next;
    }
    d
}

// A sample in 5 bits.
#[tactic(auto, unfolding(words::specs::Binary32::of_bits, words::specs::Binary32::decimal, crate::specs::Wavetable::lofi))]
fn lofi(x: f32) -> f32
    ensures { result ≡ lofi x }
{
    words::whole_i32_float(x * 32.0) / 32.0
}

// The samples as words, and again in 5 bits.
pub fn words_all(samples: &[f32; RUN_LENGTH], out: &mut [u32], aux: &mut [u32])
    requires { Places out.old aux.old }
    ensures filled { Filled (λ j. to_bits binary32 (get_or samples.now j nan)) 0 out.new (length out.old) }
    ensures filled_2 { Filled (λ j. to_bits binary32 (lofi (get_or samples.now j nan))) 0 aux.new (length out.old) }
{
    for i in 0..out.len() {
        let x = samples[i];
        out[i] = words::to_word(x);
        aux[i] = words::to_word(lofi(x));
    }
}
