// The bank of waves: the measures of what is lent.

// A period of a wave.
pub const TABLE_SIZE: usize = 128;

pub const TABLE_SIZE_F: f32 = TABLE_SIZE as f32;

// The highest whole phase, in samples of a period.
pub const PHASE_TOP: usize = TABLE_SIZE - 1;

// A wave in the bank: its first samples stand once more after its last.
pub const WAVE_LENGTH: usize = TABLE_SIZE + 4;

pub const WAVES: usize = 192;

pub const BANK_LENGTH: usize = WAVES * WAVE_LENGTH;
