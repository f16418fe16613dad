// Words and floats: a float's word, a word's float, whole parts, and whole numbers as floats.
#![tactic(auto)]

ghost use Rattle.std.specs.Prelude.{◌≡◌, ◌+◌, ◌≤◌, ◌<◌, min, cond};
ghost use Rattle.std.specs.Float.{binary32};
ghost use Rattle.std.specs.Float.Ieee.{to_bits, of_bits, to_unsigned, to_signed, of_int, neg, lt};
ghost use Rattle.words.specs.Binary32.{◌⊕◌, ◌⊖◌, of_count};
ghost use Rattle.words.specs.Parts.{whole_float, whole_i32_float, part_of};
ghost use Rattle.words.specs.Inner.{half, Small};

use std::num::{
    f32_from_bits_with_nan, f32_to_bits_with_nan, nearest_i64_to_f32, nearest_u64_to_f32,
};

// Whole parts by a word's three fields.
mod fields;

// The word of a float. Any NaN gives 7fc00000.
pub fn to_word(x: f32) -> u32
    ensures { result ≡ to_bits binary32 x }
{
    f32_to_bits_with_nan(x)
}

// The float of a word. Every NaN's word gives the one NaN.
pub fn of_word(w: u32) -> f32
    ensures { result ≡ of_bits binary32 w }
{
    f32_from_bits_with_nan(w)
}

// The whole part of a float, toward zero. NaN and what is below 0 give 0; it saturates. It goes by the three fields of the float's word, as
// specs/Fields has it; `std::num::saturating_f32_to_u64` goes by way of f64, and takes 40 instructions from a float's word to the answer, where
// this takes 30.
pub fn whole(x: f32) -> u64
    ensures { result ≡ to_unsigned 64 x }
{
    fields::Fields::from(to_word(x)).unsigned_whole()
}

// The whole part of a float as an i32, toward zero. NaN gives 0; it saturates at both ends. By the fields too: `std::num::saturating_f32_to_i32`
// takes 45 instructions, where this takes 35.
pub fn whole_i32(x: f32) -> i32
    ensures { result ≡ to_signed 31 x }
{
    fields::Fields::from(to_word(x)).signed_whole()
}

// A whole number as a float, rounded once. Below 2 to the power 24 it is exact, and the processor has an instruction for it: 4 in all, where the
// library's rounding takes 23.
pub fn float_of_u64(n: u64) -> f32
    ensures { result ≡ of_count n }
{
    if n < 16777216 {
        n as f32
    } else {
        nearest_u64_to_f32(n)
    }
}

// The same for an i32. A zero is +0.
pub fn float_of_i32(n: i32) -> f32
    ensures { result ≡ of_int binary32 n }
{
    if -16777216 < n && n < 16777216 {
        n as f32
    } else {
        nearest_i64_to_f32(n as i64)
    }
}

// x between a half and a half past `top`: a float whose whole part is that of x, held at `top`.
fn held_between(x: f32, top: usize) -> f32
    requires { top ≤ 8388607 }
    ensures result_value { to_unsigned 64 result ≡ min (to_unsigned 64 x) top }
    ensures small { Small result }
{
    let bound = float_of_u64(top as u64) + 0.5;
    x.max(0.5).min(bound)
}

// The whole part of a float, as a float: below 2 to the power 23 by `small_whole`.
#[tactic(auto, using(crate::proofs::WholeParts::whole_below), unfolding(crate::specs::Binary32::of_bits))]
pub fn whole_float(x: f32) -> f32
    ensures { result ≡ whole_float x }
{
    if x < 8388608.0 {
        fields::small_whole(held_between(x, 8388607)) as f32
    } else {
        float_of_u64(whole(x))
    }
}

// A whole number n, as a float, with the sign of x. A zero is +0.
fn signed(x: f32, n: f32) -> f32
    ensures { result ≡ cond (lt x (of_bits binary32 0)) (of_bits binary32 0 ⊖ n) n }
{
    if x < 0.0 { 0.0 - n } else { n }
}

// The whole part of a float as an i32, as a float: below 2 to the power 23 in size by `small_whole`.
#[tactic(auto, using(crate::proofs::HeldWhole::signed_float), unfolding(crate::specs::Binary32::of_bits))]
pub fn whole_i32_float(x: f32) -> f32
    ensures { result ≡ whole_i32_float x }
{
    let m = x.abs();
    if m < 8388608.0 {
        signed(x, whole_float(m))
    } else {
        float_of_i32(whole_i32(x))
    }
}

// A position: its whole part, its fraction, and whether the whole part was held at its top: a flag and no Option, since a held position has both of
// these too.
#[derive(Clone, Copy)]
pub struct Part {
    pub whole: usize,
    pub fraction: f32,
    pub held: bool,
}

// A position whose whole part is held at a `top` below 8388607, by `small_whole`.
#[tactic(auto, using(crate::proofs::HeldWhole::held_test), unfolding(crate::specs::Parts::part_of))]
fn near_part(x: f32, top: usize) -> Part
    requires { top < 8388607 }
    ensures { result ≡ part_of top x }
{
    let n = fields::small_whole(held_between(x, top));
    Part {
        whole: n as usize,
        fraction: x - n as f32,
        held: x >= float_of_u64((top + 1) as u64),
    }
}

// The same for any `top`.
#[tactic(auto, unfolding(crate::specs::Parts::part_of))]
fn far_part(x: f32, top: usize) -> Part
    ensures { result ≡ part_of top x }
{
    let n = whole(x) as usize;
    let m = n.min(top);
    Part {
        whole: m,
        fraction: x - float_of_u64(m as u64),
        held: n > top,
    }
}

// A position whose whole part is held at `top`.
pub fn held_part(x: f32, top: usize) -> Part
    ensures { result ≡ part_of top x }
{
    if top < 8388607 {
        near_part(x, top)
    } else {
        far_part(x, top)
    }
}
