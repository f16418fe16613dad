// The float helpers for C: their answers for one word after the other, to be compared with the Rust's over all words.
#![tactic(auto)]

ghost use Rattle.std.specs.Prelude.{◌≡◌, length};
ghost use Rattle.helpers_c.specs.Helpers.{answer_at, answers_from};

use sine_oscillator::sine::{sine, sine_table};
use utils::engine::{a0, note_to_frequency};
use utils::rsqrt::fast_rsqrt_carmack;
use utils::units::pitch_ratios;

// The rate of the frequencies.
const RATE: u32 = 48000;

// The answer of helper `which` at a float: 0 the float's word, 1 whole part, 2 the same as a float, 3 through i32, 4 abs,
// 5 fast_rsqrt_carmack, 6 sine, else note_to_frequency at 48,000 Hz. Floats as words. C hands the number, and this match alone reads it: an enum
// would be made of it only to be matched here.
#[tactic(auto, unfolding(crate::specs::Helpers::answer_at))]
fn answer(which: u32, x: f32) -> u64
    ensures { result ≡ answer_at which x }
{
    match which {
        0 => words::to_word(x) as u64,
        1 => words::whole(x),
        2 => words::to_word(words::whole_float(x)) as u64,
        3 => words::to_word(words::whole_i32_float(x)) as u64,
        4 => words::to_word(x.abs()) as u64,
        5 => words::to_word(fast_rsqrt_carmack(x)) as u64,
        6 => words::to_word(sine(sine_table(), x)) as u64,
        _ => words::to_word(note_to_frequency(pitch_ratios(), x, a0(RATE))) as u64,
    }
}

// Its answers, one for each lent place, for the floats of the words from `from` on. `w` goes on by itself: it wraps, and no range does.
#[unsafe(no_mangle)]
pub extern "C" fn helper_answers(which: u32, from: u32, answers: &mut [u64])
    ensures { answers.new ≡ answers_from which (length answers.old) from }
{
    let mut w = from;
    for place in answers.iter_mut() {
        *place = answer(which, words::of_word(w));
        w = w.wrapping_add(1);
    }
}
