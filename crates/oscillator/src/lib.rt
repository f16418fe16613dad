// The source's `wavetable_oscillator.rs`, and the bank that its readings read.

#![tactic(auto)]

pub mod bank;
pub mod wavetable_oscillator;
