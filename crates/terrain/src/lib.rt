// The terrains: how many there are, and their height at a point.
// Based on MIT-licensed code (c) 2021 by Emilie Gillet (emilie.o.gillet@gmail.com)
#![tactic(auto)]

ghost use Rattle.std.specs.Prelude.{◌≡◌, ◌+◌, ◌≤◌, min, length};
ghost use Rattle.words.specs.Binary32.{◌⊖◌};
ghost use Rattle.words.specs.Parts.{whole_part, whole_float};
ghost use Rattle.terrain.specs.Layers.{Lent, Lent-prop, num_terrains, layer_top};
ghost use Rattle.terrain.specs.CutOff.{cut_off};
ghost use Rattle.terrain.specs.Held.{start_of, reading_of};
ghost use Rattle.terrain.specs.Heights.{map_length, start_in, map_table, bank_table, squash_of, terrain0, terrain1, terrain2, terrain3, terrain4, terrain_lookup, terrain_lookup_wt, unheld, terrain_of};

use oscillator::bank::{TABLE_SIZE_F, WAVE_LENGTH};
use oscillator::wavetable_oscillator::{interpolate_integrated_wave, interpolate_wave};
use sine_oscillator::sine::sine;
use utils::holds::Surface;

// What heights are read off, lent: the sine's table, a bank, and a map or none.
// A map that is not there is a slice of length 0, since the C interface lends it so.
#[derive(Clone, Copy)]
pub struct Ground<'a> {
    pub sine: &'a [f32; 641],
    pub bank: &'a [i16],
    pub map: &'a [u8],
    ghost lent: { Lent bank.now map.now } by { Lent-prop bank.now map.now },
}

// A height, and on what its reading was held, if it was.
#[derive(Clone, Copy)]
pub struct Height {
    pub value: f32,
    pub held: Option<Surface>,
}

// Where a reading starts, and on what it was held there.
#[derive(Clone, Copy)]
struct Place {
    flat: usize,
    held: Option<Surface>,
}

// A coordinate of a reading: its whole part, as far as that decides, and its fraction. No `Part`: it is cut off above every edge, and only its
// place on the surface says whether it was held.
#[derive(Clone, Copy)]
struct Coordinate {
    whole: usize,
    fraction: f32,
}

// Rows and columns of a map.
const TERRAIN_SIZE: usize = 64;

// The bytes of a map.
pub const MAP_LENGTH: usize = TERRAIN_SIZE * TERRAIN_SIZE;

// Half of the columns that a reading can start in.
const COORD_SCALE: f32 = (TERRAIN_SIZE - 2) as f32 * 0.5;

// Waves of each of the three terrains in the bank.
const NUM_WAVES: usize = 64;

const LAST_WAVE: f32 = (NUM_WAVES - 1) as f32;

// The top of the whole layer number, without a map and with one.
pub const TOP: usize = 6;

pub const TOP_WITH_MAP: usize = 7;

// The last places from which a reading of the map and of the bank stays within.
pub const MAP_EDGE: usize = 4030;

pub const BANK_EDGE: usize = 25209;

// Where whole parts stop if a reading would leave its table: x and y of the map, and the bank's wave and sample.
const MAP_REACH: usize = 62;

const WAVE_REACH: usize = 62;

const SAMPLE_REACH: usize = 128;

// Where the whole part of a coordinate is cut off: above every edge.
const CUT_OFF: usize = 65535;

// The Sine function only works for a positive argument.
// Thus, all calls to Sine include a positive offset of the argument!
const K: f32 = 4.0;

#[tactic(auto, unfolding(words::specs::Binary32::of_bits, words::specs::Binary32::decimal))]
fn squash(x: f32, a: f32) -> f32
    ensures { result ≡ squash_of x a }
{
    let xa = x * a;

    xa / (1.0 + xa.abs())
}

// Layers 0 to 4, by formula.
#[tactic(auto, unfolding(words::specs::Binary32::of_bits, words::specs::Binary32::decimal, crate::specs::Heights::terrain0))]
fn terrain_0(table: &[f32; 641], x: f32, y: f32) -> f32
    ensures { result ≡ terrain0 table.now x y }
{
    (squash(sine(table, K + x * 1.273), 2.0) - sine(table, K + y * (x + 1.571) * 0.637)) * 0.57
}

#[tactic(auto, unfolding(words::specs::Binary32::of_bits, words::specs::Binary32::decimal, crate::specs::Heights::terrain1))]
fn terrain_1(table: &[f32; 641], x: f32, y: f32) -> f32
    ensures { result ≡ terrain1 table.now x y }
{
    let xy = x * y;
    sine(
        table,
        K + sine(table, K + (x + y) * 0.637) / (0.2 + xy * xy) * 0.159,
    )
}

#[tactic(auto, unfolding(words::specs::Binary32::of_bits, words::specs::Binary32::decimal, crate::specs::Heights::terrain2))]
fn terrain_2(table: &[f32; 641], x: f32, y: f32) -> f32
    ensures { result ≡ terrain2 table.now x y }
{
    let xy = x * y;
    sine(
        table,
        K + sine(table, K + 2.387 * xy) / (0.350 + xy * xy) * 0.159,
    )
}

#[tactic(auto, unfolding(words::specs::Binary32::of_bits, words::specs::Binary32::decimal, crate::specs::Heights::terrain3))]
fn terrain_3(table: &[f32; 641], x: f32, y: f32) -> f32
    ensures { result ≡ terrain3 table.now x y }
{
    let xy = x * y;
    let xys = (x - 0.25) * (y + 0.25);
    sine(table, K + xy / (2.0 + (5.0 * xys).abs()) * 6.366)
}

#[tactic(auto, unfolding(words::specs::Binary32::of_bits, words::specs::Binary32::decimal, crate::specs::Heights::terrain4))]
fn terrain_4(table: &[f32; 641], x: f32, y: f32) -> f32
    ensures { result ≡ terrain4 table.now x y }
{
    sine(
        table,
        0.159 / (0.170 + (y - 0.25).abs()) + 0.477 / (0.350 + ((x + 0.5) * (y + 1.5)).abs()) + K,
    )
}

// The fraction is taken against the true whole part.
#[tactic(auto, using(crate::proofs::Places::whole_cut, crate::proofs::Places::fraction_within))]
fn coordinate_at(x: f32) -> Coordinate
    ensures whole_value { result.whole ≡ min (whole_part x) cut_off }
    ensures fraction_value { result.fraction ≡ x ⊖ whole_float x }
{
    let part = words::held_part(x, CUT_OFF);
    if part.held {
        Coordinate {
            whole: part.whole,
            fraction: x - words::whole_float(x),
        }
    } else {
        Coordinate {
            whole: part.whole,
            fraction: part.fraction,
        }
    }
}

// Where a reading of the map starts: past the edge x and y are held apart.
#[tactic(auto, using(crate::proofs::Places::start_past, crate::proofs::Places::start_within))]
fn map_place(x: usize, y: usize) -> Place
    requires x_cut { x ≤ cut_off }
    requires y_cut { y ≤ cut_off }
    ensures { start_of result ≡ start_in map_table x y }
{
    let flat = TERRAIN_SIZE * y + x;
    if flat > MAP_EDGE {
        Place {
            flat: TERRAIN_SIZE * y.min(MAP_REACH) + x.min(MAP_REACH),
            held: Some(Surface::Map),
        }
    } else {
        Place { flat, held: None }
    }
}

// Where a reading of the bank starts: past the edge x and y are held apart, in the terrain that `number` picks.
#[tactic(auto, using(crate::proofs::Places::start_past, crate::proofs::Places::start_within))]
fn bank_place(number: usize, x: usize, y: usize) -> Place
    requires few { number ≤ 2 }
    requires x_cut { x ≤ cut_off }
    requires y_cut { y ≤ cut_off }
    ensures { start_of result ≡ start_in (bank_table number) x y }
{
    let first = NUM_WAVES * WAVE_LENGTH * number;
    let flat = first + WAVE_LENGTH * x + y;
    if flat > BANK_EDGE {
        Place {
            flat: first + WAVE_LENGTH * x.min(WAVE_REACH) + y.min(SAMPLE_REACH),
            held: Some(Surface::Bank),
        }
    } else {
        Place { flat, held: None }
    }
}

// The map's height at a point. From near to far the line is written out, here and for the bank, as the source has it.
#[tactic(auto, using(crate::proofs::Edges::map_inside))]
fn terrain_lookup(map: &[u8], x: f32, y: f32) -> Height
    requires { length map.now ≡ map_length }
    ensures { reading_of result ≡ terrain_lookup map.now x y }
{
    let cx = coordinate_at((x + 1.0) * COORD_SCALE);
    let cy = coordinate_at((y + 1.0) * COORD_SCALE);
    let place = map_place(cx.whole, cy.whole);
    let near = interpolate_wave(map, place.flat, cx.fraction);
    let far = interpolate_wave(map, place.flat + TERRAIN_SIZE, cx.fraction);
    Height {
        value: (near + (far - near) * cy.fraction) * (1.0 / 128.0),
        held: place.held,
    }
}

// A height by formula, on which nothing is held.
fn unheld(value: f32) -> Height
    ensures { reading_of result ≡ unheld value }
{
    Height { value, held: None }
}

impl Ground<'_> {
    // Lookup from the wavetable data re-interpreted as a terrain. :facepalm:
    // `number` picks one of the three terrains in the bank.
    #[tactic(auto, using(crate::proofs::Edges::bank_inside))]
    fn terrain_lookup_wt(&self, x: f32, y: f32, number: usize) -> Height
        requires { number ≤ 2 }
        ensures { reading_of result ≡ terrain_lookup_wt self.now.bank.now x y number }
    {
        let sample = coordinate_at((y + 1.0) * 0.5 * TABLE_SIZE_F);
        let wt = coordinate_at((x + 1.0) * 0.5 * LAST_WAVE);
        let place = bank_place(number, wt.whole, sample.whole);
        let near = interpolate_integrated_wave(self.bank, place.flat, sample.fraction);
        let far = interpolate_integrated_wave(self.bank, place.flat + WAVE_LENGTH, sample.fraction);
        Height {
            value: (near + (far - near) * wt.fraction) * (1.0 / 1024.0),
            held: place.held,
        }
    }

    // The height of a layer: 0 to 7, and 8 with a map.
    // The layer is a number, since it is the whole part of a float on its way, and the next one up is read too.
    #[tactic(auto, using(crate::proofs::Layers::map_there, crate::proofs::Layers::map_layer_lem), unfolding(crate::specs::Heights::terrain_of))]
    pub fn terrain(&self, x: f32, y: f32, terrain_index: usize) -> Height
        requires { terrain_index ≤ layer_top self.now.map.now + 1 }
        ensures { reading_of result ≡ terrain_of self.now.sine.now self.now.bank.now self.now.map.now x y terrain_index }
    {
        match terrain_index {
            0 => unheld(terrain_0(self.sine, x, y)),
            1 => unheld(terrain_1(self.sine, x, y)),
            2 => unheld(terrain_2(self.sine, x, y)),
            3 => unheld(terrain_3(self.sine, x, y)),
            4 => unheld(terrain_4(self.sine, x, y)),
            // One arm, as in the source: a reading that is called at one place is compiled into the loop over the heights.
            5..=7 => self.terrain_lookup_wt(x, y, 7 - terrain_index),
            _ => terrain_lookup(self.map, x, y),
        }
    }
}

// How many terrains there are.
pub fn num_terrains(map: &[u8]) -> usize
    ensures { result ≡ num_terrains map.now }
{
    if map.is_empty() { 8 } else { 9 }
}

// The top of the whole layer number.
pub fn layer_top(map: &[u8]) -> usize
    ensures { result ≡ layer_top map.now }
{
    if map.is_empty() { TOP } else { TOP_WITH_MAP }
}
