// The source's `sine_oscillator.rs`: simple sine oscillator (wavetable), in module `sine` with its table, + fast sine oscillator (magic circle).
// Based on MIT-licensed code (c) 2016 by Emilie Gillet (emilie.o.gillet@gmail.com)
#![tactic(auto)]

ghost use Rattle.std.specs.Prelude.{◌≡◌, ◌≤◌, ◌++◌, length, drop};
ghost use Rattle.utils.specs.Frames.{state_after, each_of};
ghost use Rattle.utils.specs.Rendered.{run_length};
ghost use Rattle.sine_oscillator.specs.Path.{path_fresh, fast2_sin, limited_frequency, limited_amplitude, on_circle};
ghost use Rattle.sine_oscillator.specs.Path.{quadrature_of, quadrature_next, quadrature_out, quadrature_out2, path_run, path_run2, path_after};

use utils::engine::RUN_LENGTH;
use utils::parameter_interpolator::ParameterInterpolator;

pub mod sine;

#[derive(Clone, Copy)]
pub struct FastSineOscillator {
    // Oscillator state.
    pub x: f32,
    pub y: f32,

    // For interpolation of parameters.
    pub epsilon: f32,
    pub amplitude: f32,
}

impl FastSineOscillator {
    // The fresh state, each field by its name as the equation has it.
    #[tactic(auto, unfolding(words::specs::Binary32::of_bits, words::specs::Binary32::decimal))]
    pub fn init() -> FastSineOscillator
        ensures { result ≡ path_fresh }
    {
        FastSineOscillator {
            x: 1.0,
            y: 0.0,
            epsilon: 0.0,
            amplitude: 0.0,
        }
    }

    // Sine and cosine, n samples of each, into the front of two lent runs: as slices they would be asked to be as long as each other. The oscillator
    // that comes back goes on from there.
    #[tactic(auto, unfolding(crate::specs::Path::path_after))]
    pub fn render_quadrature(
        self,
        frequency: f32,
        amplitude: f32,
        n: usize,
        out: &mut [f32; RUN_LENGTH],
        out_2: &mut [f32; RUN_LENGTH],
    ) -> FastSineOscillator
        requires { n ≤ run_length }
        ensures value { result ≡ path_after self frequency amplitude n }
        ensures out_after { out.new ≡ path_run self frequency amplitude n ++ drop n out.old }
        ensures out_2_after { out_2.new ≡ path_run2 self frequency amplitude n ++ drop n out_2.old }
    {
        let q = Quadrature::new(self, frequency, amplitude, n).fill(&mut out[..n], &mut out_2[..n]);
        FastSineOscillator {
            x: q.x,
            y: q.y,
            epsilon: q.epsilon.value,
            amplitude: q.am.value,
        }
    }
}

// What `render_quadrature` carries from sample to sample.
#[derive(Clone, Copy)]
struct Quadrature {
    x: f32,
    y: f32,
    epsilon: ParameterInterpolator,
    am: ParameterInterpolator,
}

impl Quadrature {
    // Where `render_quadrature` starts.
    #[tactic(auto, unfolding(crate::specs::Path::quadrature_of))]
    fn new(s: FastSineOscillator, frequency: f32, amplitude: f32, n: usize) -> Quadrature
        ensures { result ≡ quadrature_of s frequency amplitude n }
    {
        let norm = s.x * s.x + s.y * s.y;
        let f = limited_frequency(frequency);
        let a = limited_amplitude(frequency, amplitude);
        let epsilon = ParameterInterpolator::new(s.epsilon, fast_2_sin(f), n);
        let am = ParameterInterpolator::new(s.amplitude, a, n);
        Quadrature {
            x: on_circle(norm, s.x),
            y: on_circle(norm, s.y),
            epsilon,
            am,
        }
    }

    // One sample on.
    fn next(self) -> Quadrature
        ensures { result ≡ quadrature_next self }
    {
        let epsilon = self.epsilon.next();
        let e = epsilon.value;
        let x = self.x + e * self.y;
        let y = self.y - e * x;
        let am = self.am.next();
        Quadrature { x, y, epsilon, am }
    }

    // A sample into each place of both.
    fn fill(self, out: &mut [f32], out_2: &mut [f32]) -> Quadrature
        requires { length out_2.old ≡ length out.old }
        ensures value { result ≡ state_after quadrature_next (length out.old) self }
        ensures out_after { out.new ≡ each_of quadrature_next quadrature_out (length out.old) self }
        ensures out_2_after { out_2.new ≡ each_of quadrature_next quadrature_out2 (length out.old) self }
    {
        let mut q = self;
        for i in 0..out.len() {
            q = q.next();
            let amplitude = q.am.value;
            out[i] = q.x * amplitude;
            out_2[i] = q.y * amplitude;
        }
        q
    }
}

// The frequency, held at a quarter. Not `f32::min`, which answers a quarter for a NaN too.
#[tactic(auto, unfolding(words::specs::Binary32::of_bits, words::specs::Binary32::decimal))]
fn limited_frequency(frequency: f32) -> f32
    ensures { result ≡ limited_frequency frequency }
{
    if frequency >= 0.25 { 0.25 } else { frequency }
}

// The amplitude, which fades towards that.
#[tactic(auto, unfolding(words::specs::Binary32::of_bits, words::specs::Binary32::decimal))]
fn limited_amplitude(frequency: f32, amplitude: f32) -> f32
    ensures { result ≡ limited_amplitude frequency amplitude }
{
    if frequency >= 0.25 {
        0.0
    } else {
        amplitude * (1.0 - frequency * 4.0)
    }
}

// A coordinate of a point of this norm, brought back to the circle.
fn on_circle(norm: f32, v: f32) -> f32
    ensures { result ≡ on_circle norm v }
{
    if norm <= 0.5 || norm >= 2.0 {
        v * utils::rsqrt::fast_rsqrt_carmack(norm)
    } else {
        v
    }
}

#[tactic(auto, unfolding(crate::specs::Path::fast2_sin, words::specs::Binary32::of_bits, words::specs::Binary32::decimal))]
fn fast_2_sin(f: f32) -> f32
    ensures { result ≡ fast2_sin f }
{
    // In theory, epsilon = 2 sin(pi f)
    // Here, to avoid the call to sinf, we use a 3rd order polynomial
    // approximation, which looks like a Taylor expansion, but with a
    // correction term to give a good trade-off between average error
    // (1.13 cents) and maximum error (7.33 cents) when generating sinewaves
    // in the 16 Hz to 16kHz range (with sr = 48kHz).
    let f_pi = f * 3.14159265358979323846264338327950288;
    f_pi * (2.0 - (2.0 * 0.96 / 6.0) * f_pi * f_pi)
}
