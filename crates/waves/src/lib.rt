// The eight corner readings of a frame, and their fold. `size` stands beside the arrays: slices cut to it would be asked to be as long as each
// other.
// Based on MIT-licensed code (c) 2016 by Emilie Gillet (emilie.o.gillet@gmail.com)
#![tactic(auto)]

ghost use Rattle.std.specs.Prelude.{◌≡◌, ◌+◌, ◌*◌, ◌/◌, ◌%◌, ◌≤◌, ◌<◌, [], ◌∷◌, length};
ghost use Rattle.std.specs.Float.{nan};
ghost use Rattle.utils.specs.Frames.{Filled};
ghost use Rattle.utils.specs.Rendered.{most_frames, corners_length};
ghost use Rattle.oscillator.specs.Bank.{bank_length, waves, wave_length, table_size};
ghost use Rattle.waves.specs.Waves.{spread, wave, fold_level, corners_at, mix, fold_x, fold_y, fold_z};
ghost use Rattle.waves.specs.Stages.{KeysFit, LevelFits, places_of_level, read_at, read_level, CornersRead, stored, loaded, mix_at};

use oscillator::bank::{BANK_LENGTH, WAVE_LENGTH, WAVES};
use oscillator::wavetable_oscillator::interpolate_wave_hermite;
use utils::engine::{CORNERS_LENGTH, MOST_FRAMES, RUN_LENGTH};

// How far apart the neighbours of level 3 lie in the bank, along x and along y.
const SPREAD: usize = 101;

const SPREAD_Y: usize = 8 * SPREAD % WAVES;

// Where the four waves of a level start.
#[derive(Clone, Copy)]
pub struct Level {
    pub x0y0: usize,
    pub x1y0: usize,
    pub x0y1: usize,
    pub x1y1: usize,
}

// Where the eight waves of a frame start, by its key: its whole x, y and z as x + 8 y + 64 z.
#[derive(Clone, Copy)]
pub struct Places {
    pub key: u32,
    pub z0: Level,
    pub z1: Level,
    ghost z0_value: { z0 ≡ places_of_level (key % 8) (key / 8 % 8) (fold_level (key / 64)) },
    ghost z1_value: { z1 ≡ places_of_level (key % 8) (key / 8 % 8) (fold_level (key / 64 + 1)) },
}

// Levels 4 to 7 are 3 to 0 again.
#[tactic(auto, unfolding(crate::specs::Waves::fold_level))]
fn fold_level(z: usize) -> usize
    requires { z < 8 }
    ensures value { result ≡ fold_level z }
    ensures upper_bound { result < 4 }
{
    if z >= 4 { 7 - z } else { z }
}

// How far the waves of neighbours along x lie apart. One function for each axis: one for both would be handed both distances, and its name would
// no longer say which way.
fn along_x(level: usize) -> usize
    ensures { result ≡ spread level }
{
    if level == 3 { SPREAD } else { 1 }
}

// And along y.
fn along_y(level: usize) -> usize
    ensures { result ≡ 8 * spread level % waves }
{
    if level == 3 { SPREAD_Y } else { 8 }
}

// The wave number of a corner.
#[tactic(auto, using(crate::proofs::Waves::wave_low, crate::proofs::Waves::wave_top))]
fn wave(x: usize, y: usize, level: usize) -> usize
    requires { (x < 8) × ((y < 8) × (level < 4)) }
    ensures { result ≡ wave x y level }
{
    if level == 3 {
        ((x + y * 8) * SPREAD) % WAVES
    } else {
        x + y * 8 + level * 64
    }
}

// The wave that lies `step` further on. Both are below the number of waves, so a test does for the remainder.
fn further(wave: usize, step: usize) -> usize
    requires { (wave < waves) × (step < waves) }
    ensures { result ≡ (wave + step) % waves }
{
    if wave + step >= WAVES {
        wave + step - WAVES
    } else {
        wave + step
    }
}

// The places of a level's four waves around x, y.
#[tactic(auto, using(crate::proofs::Waves::wave_below, crate::proofs::Waves::wave_along_x, crate::proofs::Waves::wave_along_y, crate::proofs::Waves::spread_below), unfolding(crate::specs::Stages::places_of_level))]
fn level_at(x: usize, y: usize, level: usize) -> Level
    requires { (x < 8) × ((y < 8) × (level < 4)) }
    ensures { result ≡ places_of_level x y level }
{
    let x0y0 = wave(x, y, level);
    let x0y1 = further(x0y0, along_y(level));
    let x1y0 = further(x0y0, along_x(level));
    let x1y1 = further(x0y1, along_x(level));
    Level {
        x0y0: x0y0 * WAVE_LENGTH,
        x1y0: x1y0 * WAVE_LENGTH,
        x0y1: x0y1 * WAVE_LENGTH,
        x1y1: x1y1 * WAVE_LENGTH,
    }
}

// The places of a key, which is x + 8 y + 64 z: below 448, since z is below 7.
fn places_at(key: u32) -> Places
    requires { key < 448 }
    ensures { result.key ≡ key }
{
    let x = (key % 8) as usize;
    let y = (key / 8 % 8) as usize;
    let z = (key / 64) as usize;
    Places {
        key,
        z0: level_at(x, y, fold_level(z)),
        z1: level_at(x, y, fold_level(z + 1)),
    }
}

// The places of a key: those at hand where it has not changed.
fn places_for(at_hand: Places, key: u32) -> Places
    requires { key < 448 }
    ensures { result.key ≡ key }
{
    if key == at_hand.key {
        at_hand
    } else {
        places_at(key)
    }
}

// A phase in samples of a wave: its whole part and its fraction. No `Part`: what was held is counted by then, and the whole part lies in a wave.
#[derive(Clone, Copy)]
struct Phase {
    whole: usize,
    fraction: f32,
    ghost fits: { whole < table_size },
}

// The readings of two waves at a phase.
fn read_row(bank: &[i16; BANK_LENGTH], a: usize, b: usize, p: Phase) -> [f32; 2]
    requires { (a + wave_length ≤ bank_length) × (b + wave_length ≤ bank_length) }
    ensures { result ≡ read_at bank.now (a + p.whole) p.fraction ∷ read_at bank.now (b + p.whole) p.fraction ∷ [] }
{
    let x0 = interpolate_wave_hermite(bank, a + p.whole, p.fraction);
    let x1 = interpolate_wave_hermite(bank, b + p.whole, p.fraction);
    [x0, x1]
}

// The four readings of a level, by y and x.
fn read_level(bank: &[i16; BANK_LENGTH], s: Level, p: Phase) -> [[f32; 2]; 2]
    requires { LevelFits s }
    ensures { result ≡ read_level bank.now s p.whole p.fraction }
{
    let y0 = read_row(bank, s.x0y0, s.x1y0, p);
    let y1 = read_row(bank, s.x0y1, s.x1y1, p);
    [y0, y1]
}

// The eight corner readings, by z, y and x.
fn read_corners(bank: &[i16; BANK_LENGTH], s: Places, p: Phase) -> [[[f32; 2]; 2]; 2]
    ensures { result ≡ corners_at bank.now p.whole p.fraction (s.key % 8) (s.key / 8 % 8) (s.key / 64) }
{
    let z0 = read_level(bank, s.z0, p);
    let z1 = read_level(bank, s.z1, p);
    [z0, z1]
}

// The corners into eight places of the lent list, one by one: a copy_from_slice of the flattened corners takes more instructions a frame.
#[tactic(auto, unfolding(crate::specs::Stages::stored))]
fn store(c: [[[f32; 2]; 2]; 2], at: usize, corners: &mut [f32])
    requires { at + 7 < length corners.old }
    ensures { corners.new ≡ stored corners.old at c }
{
    corners[at] = c[0][0][0];
    corners[at + 1] = c[0][0][1];
    corners[at + 2] = c[0][1][0];
    corners[at + 3] = c[0][1][1];
    corners[at + 4] = c[1][0][0];
    corners[at + 5] = c[1][0][1];
    corners[at + 6] = c[1][1][0];
    corners[at + 7] = c[1][1][1];
}

// The corner readings of `size` frames. A frame's key is that of its places and 512 times its whole phase. The corners lie flat, eight to a frame:
// a struct that is lent, as `Workspace` is, gets no generated proof with an array of arrays in it. What is written is a slice: an array would ask
// for places past those of the frames.
pub fn read_all(
    bank: &[i16; BANK_LENGTH],
    size: usize,
    keys: &[u32; MOST_FRAMES],
    phases: &[f32; RUN_LENGTH],
    corners: &mut [f32],
)
    requires places { (size ≤ most_frames) × (size * 8 ≤ length corners.old) }
    requires keys_fit { KeysFit keys.now size }
    ensures { CornersRead bank.now keys.now phases.now corners.new size }
{
    let mut s = places_at(0);
    for i in 0..size {
        let key = keys[i];
        s = places_for(s, key % 512);
        let p = Phase {
            whole: (key / 512) as usize,
            fraction: phases[i],
        };
        let c = read_corners(bank, s, p);
        store(c, i * 8, corners);
    }
}

// The corners out of eight places of the list. They come to be nested by z, y and x, so a copy of the eight would be a step more.
#[tactic(auto, unfolding(crate::specs::Stages::loaded))]
fn load(corners: &[f32; CORNERS_LENGTH], at: usize) -> [[[f32; 2]; 2]; 2]
    requires { at + 7 < corners_length }
    ensures { result ≡ loaded corners.now at }
{
    [
        [
            [corners[at], corners[at + 1]],
            [corners[at + 2], corners[at + 3]],
        ],
        [
            [corners[at + 4], corners[at + 5]],
            [corners[at + 6], corners[at + 7]],
        ],
    ]
}

// Between two readings, as the source writes it out.
fn mix(a: f32, b: f32, t: f32) -> f32
    ensures { result ≡ mix a b t }
{
    a + (b - a) * t
}

// The corners folded along x. One function for each axis, since each takes an array of one dimension less.
fn fold_x(c: [[[f32; 2]; 2]; 2], t: f32) -> [[f32; 2]; 2]
    ensures { result ≡ fold_x c t }
{
    [
        [
            mix(c[0][0][0], c[0][0][1], t),
            mix(c[0][1][0], c[0][1][1], t),
        ],
        [
            mix(c[1][0][0], c[1][0][1], t),
            mix(c[1][1][0], c[1][1][1], t),
        ],
    ]
}

// And along y.
fn fold_y(c: [[f32; 2]; 2], t: f32) -> [f32; 2]
    ensures { result ≡ fold_y c t }
{
    [mix(c[0][0], c[0][1], t), mix(c[1][0], c[1][1], t)]
}

// And along z.
fn fold_z(c: [f32; 2], t: f32) -> f32
    ensures { result ≡ fold_z c t }
{
    mix(c[0], c[1], t)
}

// The folded corners of `size` frames.
pub fn fold_all(
    size: usize,
    xs: &[f32; RUN_LENGTH],
    ys: &[f32; RUN_LENGTH],
    zs: &[f32; RUN_LENGTH],
    corners: &[f32; CORNERS_LENGTH],
    mixes: &mut [f32],
)
    requires { (size ≤ most_frames) × (size ≤ length mixes.old) }
    ensures { Filled (mix_at xs.now ys.now zs.now corners.now) nan mixes.new size }
{
    for i in 0..size {
        let c = load(corners, i * 8);
        mixes[i] = fold_z(fold_y(fold_x(c, xs[i]), ys[i]), zs[i]);
    }
}
