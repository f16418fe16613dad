// Fast reciprocal of square-root routines.
// Based on MIT-licensed code (c) 2014 by Olivier Gillet (ol.gillet@gmail.com)
ghost use Rattle.std.specs.Prelude.{◌≡◌};
ghost use Rattle.utils.specs.Utils.{fast_rsqrt_carmack};

// Inverse square root approximation as implemented by John Carmack.
#[tactic(auto, using(words::proofs::Floats::plus_word_most, std::proofs::lemmas::Float::not_nan_f32_bits), unfolding(crate::specs::Utils::fast_rsqrt_carmack, words::specs::Binary32::of_bits, words::specs::Binary32::decimal))]
pub fn fast_rsqrt_carmack(x: f32) -> f32
    ensures { result ≡ fast_rsqrt_carmack x }
{
    if x > 0.0 {
        let y = f32::from_bits(0x5f3759df - x.to_bits() / 2);
        let x2 = x * 0.5;

        y * (1.5 - (x2 * y * y))
    } else {
        f32::INFINITY
    }
}
