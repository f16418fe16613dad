// What the engines share: the source's `engine/mod.rs`.
// Based on MIT-licensed code (c) 2016 by Emilie Gillet (emilie.o.gillet@gmail.com)
ghost use Rattle.std.specs.Prelude.{◌≡◌};
ghost use Rattle.utils.specs.Units.{a0_of, note_to_frequency};

use crate::holds::Holds;
use crate::units::PitchRatios;

// The most frames of a block.
pub const MOST_FRAMES: usize = 128;

// The lengths of the arrays that are lent to a voice to work in: two samples of a path for each frame, and eight corners.
pub const RUN_LENGTH: usize = 2 * MOST_FRAMES;

pub const CORNERS_LENGTH: usize = 8 * MOST_FRAMES;

// The arrays that a voice is lent to work in for a block: a key for each frame, four runs and the corners. Whoever lends them makes them side by
// side, and not in one struct, where the compiler does not know that they lie apart, and a loop that reads one and writes another is no longer
// vectorised.
#[derive(Drop)]
pub struct Workspace<'a> {
    pub keys: &'a mut [u32; MOST_FRAMES],
    pub run_1: &'a mut [f32; RUN_LENGTH],
    pub run_2: &'a mut [f32; RUN_LENGTH],
    pub run_3: &'a mut [f32; RUN_LENGTH],
    pub run_4: &'a mut [f32; RUN_LENGTH],
    pub corners: &'a mut [f32; CORNERS_LENGTH],
}

// The state of a voice after a block, and what was held.
#[derive(Clone, Copy)]
pub struct Block<S> {
    pub state: S,
    pub holds: Holds,
}

// The parameters of a block.
#[derive(Clone, Copy)]
pub struct EngineParameters {
    // Pitch in semitones, 0 to 120.
    pub note: f32,
    // Sweeps the spectral content from dark/sparse to bright/dense, 0 to 1.
    pub timbre: f32,
    // Lateral timbral variations, 0 to 1.
    pub morph: f32,
    // Frequency spread or the balance between the various constituents of the tone, 0 to 1.
    pub harmonics: f32,
    // Normalized frequency of A0 (55 Hz) for pitch calculations.
    pub a0_normalized: f32,
}

// The normalized frequency of A0 at a rate in Hz.
#[tactic(auto, unfolding(words::specs::Binary32::of_bits, words::specs::Binary32::decimal))]
pub fn a0(rate: u32) -> f32
    ensures { result ≡ a0_of rate }
{
    55.0 / words::float_of_u64(rate as u64)
}

// The frequency of a note, in cycles a frame.
#[tactic(auto, unfolding(crate::specs::Units::note_to_frequency, words::specs::Binary32::of_bits, words::specs::Binary32::decimal))]
pub fn note_to_frequency(ratios: &PitchRatios, midi_note: f32, a0_normalized: f32) -> f32
    ensures { result ≡ note_to_frequency ratios.now.high ratios.now.low midi_note a0_normalized }
{
    let note = crate::clamp(midi_note - 9.0, -128.0, 127.0);

    a0_normalized * 0.25 * crate::units::semitones_to_ratio(ratios, note)
}
