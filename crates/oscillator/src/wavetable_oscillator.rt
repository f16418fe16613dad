// Integrated wavetable synthesis: what the voices that read waves share, phase and coefficient, the differentiator, and the readings of a table.
// Based on MIT-licensed code (c) 2016 by Emilie Gillet (emilie.o.gillet@gmail.com)
ghost use Rattle.std.specs.Prelude.{◌≡◌, ◌+◌, ◌<◌, length, pos, Float};
ghost use Rattle.oscillator.specs.Readings.{advanced, cutoff_of, differentiated, float_of_i16, float_of_u8, entry_at, interpolate_wave, interpolate_wave_hermite, interpolate_integrated_wave};

use crate::bank::TABLE_SIZE_F;

// The phase one frame on.
#[tactic(auto, unfolding(words::specs::Binary32::of_bits, words::specs::Binary32::decimal))]
pub fn advance(phase: f32, f0: f32) -> f32
    ensures { result ≡ advanced phase f0 }
{
    let next = phase + f0;
    if next >= 1.0 { next - 1.0 } else { next }
}

// The coefficient of the filters that a reading goes through.
#[tactic(auto, using(crate::proofs::Sizes::period_float), unfolding(crate::specs::Readings::cutoff_of, words::specs::Binary32::of_bits, words::specs::Binary32::decimal))]
pub fn cutoff(f0: f32) -> f32
    ensures { result ≡ cutoff_of f0 }
{
    utils::min(TABLE_SIZE_F * f0, 1.0)
}

#[derive(Clone, Copy)]
pub struct Differentiator {
    pub lp: f32,
    pub previous: f32,
}

// A sample, and the differentiator that the next one is made with.
#[derive(Clone, Copy)]
pub struct Differentiated {
    pub next: Differentiator,
    pub sample: f32,
}

impl Differentiator {
    pub fn process(self, coefficient: f32, s: f32) -> Differentiated
        ensures { result ≡ differentiated self coefficient s }
    {
        let lp = utils::one_pole(self.lp, s - self.previous, coefficient);
        Differentiated {
            next: Differentiator { lp, previous: s },
            sample: lp,
        }
    }
}

// What a table of waves can hold: numbers that have a float. Not `Into<f32>`, whose clause is a relation and names no float.
pub trait Entry: Copy {
    // The float of an entry, and what stands past a table's end, where nothing reads.
    ghost value: { Self → Float };

    ghost zero: { Self };

    fn to_f32(self) -> f32
        ensures { result ≡ value self };
}

impl Entry for u8 {
    ghost value = { float_of_u8 };

    ghost zero = { 0 };

    fn to_f32(self) -> f32 {
        self as f32
    }
}

impl Entry for i16 {
    ghost value = { float_of_i16 };

    ghost zero = { pos 0 };

    fn to_f32(self) -> f32 {
        self as f32
    }
}

// An entry of a table, as a float.
fn float_at<T: Entry>(table: &[T], i: usize) -> f32
    requires { i < length table.now }
    ensures { result ≡ entry_at T.value T.zero table.now i }
{
    table[i].to_f32()
}

// Linear interpolation between two entries. The line between two readings is written out here and in each other reading, as the source has it.
#[tactic(auto, unfolding(crate::specs::Readings::interpolate_wave))]
pub fn interpolate_wave<T: Entry>(table: &[T], index_integral: usize, index_fractional: f32) -> f32
    requires { index_integral + 1 < length table.now }
    ensures { result ≡ interpolate_wave T.value T.zero table.now index_integral index_fractional }
{
    let a = float_at(table, index_integral);
    let b = float_at(table, index_integral + 1);
    let t = index_fractional;

    a + (b - a) * t
}

// Hermite interpolation over four entries, between the second and the third.
#[tactic(auto, unfolding(crate::specs::Readings::interpolate_wave_hermite, words::specs::Binary32::of_bits, words::specs::Binary32::decimal))]
pub fn interpolate_wave_hermite<T: Entry>(
    table: &[T],
    index_integral: usize,
    index_fractional: f32,
) -> f32
    requires { index_integral + 3 < length table.now }
    ensures { result ≡ interpolate_wave_hermite T.value T.zero table.now index_integral index_fractional }
{
    let xm1 = float_at(table, index_integral);
    let x0 = float_at(table, index_integral + 1);
    let x1 = float_at(table, index_integral + 2);
    let x2 = float_at(table, index_integral + 3);
    let c = (x1 - xm1) * 0.5;
    let v = x0 - x1;
    let w = c + v;
    let a = w + v + (x2 - x0) * 0.5;
    let b_neg = w + a;
    let f = index_fractional;

    (((a * f) - b_neg) * f + c) * f + x0
}

// Linear interpolation between the differences of three entries.
#[tactic(auto, unfolding(crate::specs::Readings::interpolate_integrated_wave))]
pub fn interpolate_integrated_wave<T: Entry>(
    table: &[T],
    index_integral: usize,
    index_fractional: f32,
) -> f32
    requires { index_integral + 2 < length table.now }
    ensures { result ≡ interpolate_integrated_wave T.value T.zero table.now index_integral index_fractional }
{
    let a = float_at(table, index_integral);
    let b = float_at(table, index_integral + 1);
    let c = float_at(table, index_integral + 2);
    let t = index_fractional;

    (b - a) + (c - b - b + a) * t
}
