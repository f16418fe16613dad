// Utility functions: the source's `utils`, with what the voices share of `engine/mod.rs`.
#![tactic(auto)]

ghost use Rattle.std.specs.Prelude.{◌≡◌, ◌≤◌, length};
ghost use Rattle.utils.specs.Utils.{clamp_of, min_of, max_of, one_pole, interpolate_wrap};

pub mod engine;
pub mod holds;
pub mod parameter_interpolator;
pub mod rsqrt;
pub mod units;

// x between low and high. NaN and -0 pass through. Not `f32::clamp`, which asks its caller that low is not above high.
pub fn clamp(x: f32, low: f32, high: f32) -> f32
    ensures { result ≡ clamp_of x low high }
{
    if x < low {
        low
    } else if x > high {
        high
    } else {
        x
    }
}

// The smaller of two floats, or the one that is no NaN. Not `f32::min`, whose contract leaves open which of 0 and -0 it answers.
pub fn min(x: f32, y: f32) -> f32
    ensures { result ≡ min_of x y }
{
    if y.is_nan() {
        x
    } else if x < y {
        x
    } else {
        y
    }
}

// The larger of two floats, or the one that is no NaN. Not `f32::max`, which leaves the same open.
pub fn max(x: f32, y: f32) -> f32
    ensures { result ≡ max_of x y }
{
    if y.is_nan() {
        x
    } else if x > y {
        x
    } else {
        y
    }
}

// One step of a one-pole low-pass filter: `out` moved towards `in_`.
pub fn one_pole(out: f32, in_: f32, coefficient: f32) -> f32
    ensures { result ≡ one_pole out in_ coefficient }
{
    out + coefficient * (in_ - out)
}

// A table of one period and more, read at a phase, with linear interpolation, which is written out in each reading, as the source has it.
#[tactic(auto, using(words::proofs::Parts::part_most))]
pub fn interpolate_wrap(table: &[f32], index: f32, size: f32) -> f32
    requires { 2 ≤ length table.now }
    ensures { result ≡ interpolate_wrap table.now index size }
{
    let wrapped = clamp(index - words::whole_i32_float(index), 0.0, 1.0);
    let part = words::held_part(wrapped * size, table.len() - 2);
    let index_integral = part.whole;
    let a = table[index_integral];
    let b = table[index_integral + 1];

    a + (b - a) * part.fraction
}
