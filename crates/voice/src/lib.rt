// The state of a voice and its kept words, for every voice.
#![tactic(auto)]

ghost use Rattle.std.specs.Prelude.{◌≡◌};
ghost use Rattle.voice.specs.Voice.{voice_of, fresh_state, kept_words, wavetable_of, terrain_of, oscillator_of, state_of};

use oscillator::wavetable_oscillator::Differentiator;
use sine_oscillator::FastSineOscillator;
use wave_terrain_engine::WaveTerrainEngine;
use wavetable_engine::WavetableEngine;
use wavetable_oscillator::WavetableOscillator;

// The instruments. Each is a number, as the C interface hands it; `voice_of` makes the enum of it.
pub const WAVETABLE: u32 = 0;

pub const TERRAIN: u32 = 1;

pub const TERRAIN_WITH_MAP: u32 = 2;

pub const OSCILLATOR: u32 = 3;

// The words that are kept of a state.
pub const KEPT_WORDS: usize = 13;

#[derive(Clone, Copy)]
pub enum Voice {
    Wavetable,
    Terrain,
    Oscillator,
}

#[derive(Clone, Copy)]
pub enum State {
    Wavetable(WavetableEngine),
    Terrain(WaveTerrainEngine),
    Oscillator(WavetableOscillator),
}

// Which voice an instrument plays. A number that is no instrument's is refused before a voice is asked for, so this is no TryFrom: it never fails.
#[tactic(auto, unfolding(crate::specs::Voice::voice_of))]
pub fn voice_of(instrument: u32) -> Voice
    ensures { result ≡ voice_of instrument }
{
    match instrument {
        WAVETABLE => Voice::Wavetable,
        TERRAIN => Voice::Terrain,
        TERRAIN_WITH_MAP => Voice::Terrain,
        OSCILLATOR => Voice::Oscillator,
        _ => Voice::Wavetable,
    }
}

impl Voice {
    // The fresh state. `a0` is 55 divided by the rate.
    #[tactic(auto, unfolding(crate::specs::Voice::fresh_state))]
    pub fn fresh(self, a0: f32) -> State
        ensures { result ≡ fresh_state self a0 }
    {
        match self {
            Voice::Wavetable => State::Wavetable(WavetableEngine::init(a0)),
            Voice::Terrain => State::Terrain(WaveTerrainEngine::init()),
            Voice::Oscillator => State::Oscillator(WavetableOscillator::init()),
        }
    }

    // The state by kept words. They do not say which voice they are of, so this is no From.
    #[tactic(auto, unfolding(crate::specs::Voice::state_of))]
    pub fn state_of(self, kept: &[u32; KEPT_WORDS]) -> State
        ensures { result ≡ state_of self kept.now }
    {
        match self {
            Voice::Wavetable => State::Wavetable(wavetable_of(kept)),
            Voice::Terrain => State::Terrain(terrain_of(kept)),
            Voice::Oscillator => State::Oscillator(oscillator_of(kept)),
        }
    }
}

impl State {
    // The words that are kept of it. A method and no From: its name says which words, where `into` would only say that they are words.
    pub fn kept_words(self) -> [u32; KEPT_WORDS]
        ensures { result ≡ kept_words self }
    {
        match self {
            State::Wavetable(w) => wavetable_words(w),
            State::Terrain(t) => terrain_words(t),
            State::Oscillator(o) => oscillator_words(o),
        }
    }
}

// The words of a wavetable state.
#[tactic(auto, unfolding(crate::specs::Voice::kept_words))]
fn wavetable_words(s: WavetableEngine) -> [u32; KEPT_WORDS]
    ensures { result ≡ kept_words (State.Wavetable s) }
{
    [
        words::to_word(s.phase),
        words::to_word(s.x_pre_lp),
        words::to_word(s.y_pre_lp),
        words::to_word(s.z_pre_lp),
        words::to_word(s.x_lp),
        words::to_word(s.y_lp),
        words::to_word(s.z_lp),
        words::to_word(s.previous_x),
        words::to_word(s.previous_y),
        words::to_word(s.previous_z),
        words::to_word(s.previous_f0),
        words::to_word(s.diff_out.lp),
        words::to_word(s.diff_out.previous),
    ]
}

// The words of a terrain state.
#[tactic(auto, unfolding(crate::specs::Voice::kept_words))]
fn terrain_words(s: WaveTerrainEngine) -> [u32; KEPT_WORDS]
    ensures { result ≡ kept_words (State.Terrain s) }
{
    [
        words::to_word(s.path.x),
        words::to_word(s.path.y),
        words::to_word(s.path.epsilon),
        words::to_word(s.path.amplitude),
        words::to_word(s.offset),
        words::to_word(s.terrain_idx),
        0,
        0,
        0,
        0,
        0,
        0,
        0,
    ]
}

// The words of a plain oscillator's state.
#[tactic(auto, unfolding(crate::specs::Voice::kept_words))]
fn oscillator_words(s: WavetableOscillator) -> [u32; KEPT_WORDS]
    ensures { result ≡ kept_words (State.Oscillator s) }
{
    [
        words::to_word(s.phase),
        words::to_word(s.frequency),
        words::to_word(s.amplitude),
        words::to_word(s.waveform),
        words::to_word(s.lp),
        words::to_word(s.differentiator.lp),
        words::to_word(s.differentiator.previous),
        0,
        0,
        0,
        0,
        0,
        0,
    ]
}

// The wavetable state by kept words.
#[tactic(auto, unfolding(crate::specs::Voice::wavetable_of))]
fn wavetable_of(kept: &[u32; KEPT_WORDS]) -> WavetableEngine
    ensures { result ≡ wavetable_of kept.now }
{
    WavetableEngine {
        phase: words::of_word(kept[0]),
        x_pre_lp: words::of_word(kept[1]),
        y_pre_lp: words::of_word(kept[2]),
        z_pre_lp: words::of_word(kept[3]),
        x_lp: words::of_word(kept[4]),
        y_lp: words::of_word(kept[5]),
        z_lp: words::of_word(kept[6]),
        previous_x: words::of_word(kept[7]),
        previous_y: words::of_word(kept[8]),
        previous_z: words::of_word(kept[9]),
        previous_f0: words::of_word(kept[10]),
        diff_out: Differentiator {
            lp: words::of_word(kept[11]),
            previous: words::of_word(kept[12]),
        },
    }
}

// The terrain state by kept words.
#[tactic(auto, unfolding(crate::specs::Voice::terrain_of))]
fn terrain_of(kept: &[u32; KEPT_WORDS]) -> WaveTerrainEngine
    ensures { result ≡ terrain_of kept.now }
{
    WaveTerrainEngine {
        path: FastSineOscillator {
            x: words::of_word(kept[0]),
            y: words::of_word(kept[1]),
            epsilon: words::of_word(kept[2]),
            amplitude: words::of_word(kept[3]),
        },
        offset: words::of_word(kept[4]),
        terrain_idx: words::of_word(kept[5]),
    }
}

// The plain oscillator's state by kept words.
#[tactic(auto, unfolding(crate::specs::Voice::oscillator_of))]
fn oscillator_of(kept: &[u32; KEPT_WORDS]) -> WavetableOscillator
    ensures { result ≡ oscillator_of kept.now }
{
    WavetableOscillator {
        phase: words::of_word(kept[0]),
        frequency: words::of_word(kept[1]),
        amplitude: words::of_word(kept[2]),
        waveform: words::of_word(kept[3]),
        lp: words::of_word(kept[4]),
        differentiator: Differentiator {
            lp: words::of_word(kept[5]),
            previous: words::of_word(kept[6]),
        },
    }
}
