// What was held: counts that go from a reading up to the answer of a call, and are summed on the way.
ghost use Rattle.std.specs.Prelude.{◌≡◌};
ghost use Rattle.utils.specs.Holds.{of_frame, of_reading, plus, AtMost, most_count};

use std::ops::Add;

#[derive(Clone, Copy, Default)]
pub struct Holds {
    // Frames of the wavetable voice and of the plain oscillator with any hold, readings of the terrain voice that were held.
    pub held: usize,
    // Frames whose phase was held.
    pub phase: usize,
    // Frames whose wave position was held: x or y, or the plain oscillator's waveform.
    pub wave_position: usize,
    // Frames whose level, z, was held.
    pub level: usize,
    // Readings of the map that were held.
    pub map: usize,
    // Readings of the bank as a terrain that were held.
    pub bank: usize,
}

// What a reading of the terrain voice reads.
#[derive(Clone, Copy)]
pub enum Surface {
    Map,
    Bank,
}

// What a frame counts, by the kinds that it held.
#[tactic(auto, unfolding(crate::specs::Holds::of_frame))]
pub fn of_frame(phase: bool, wave_position: bool, level: bool) -> Holds
    ensures { result ≡ of_frame phase wave_position level }
{
    Holds {
        held: usize::from(phase | wave_position | level),
        phase: usize::from(phase),
        wave_position: usize::from(wave_position),
        level: usize::from(level),
        map: 0,
        bank: 0,
    }
}

// The holds of two together, where the counts have room.
impl Add for Holds {
    type Output = Holds;

    ghost can_add = { λ a b. AtMost most_count (plus a b) };

    ghost add_gives = { λ a b sum. sum ≡ plus a b };

    #[tactic(auto, unfolding(crate::specs::Holds::plus))]
    fn add(self, other: Holds) -> Holds {
        Holds {
            held: self.held + other.held,
            phase: self.phase + other.phase,
            wave_position: self.wave_position + other.wave_position,
            level: self.level + other.level,
            map: self.map + other.map,
            bank: self.bank + other.bank,
        }
    }
}

impl Holds {
    // These, and what a frame counts by the kinds that it held. Nearly every frame holds nothing: a test whose branch is predicted then costs
    // less than the additions.
    #[tactic(auto, using(crate::proofs::Sums::adds_nothing))]
    pub fn and_frame(self, phase: bool, wave_position: bool, level: bool) -> Holds
        requires { AtMost most_count (plus self (of_frame phase wave_position level)) }
        ensures { result ≡ plus self (of_frame phase wave_position level) }
    {
        let any = phase || wave_position || level;
        if any {
            self + of_frame(phase, wave_position, level)
        } else {
            self
        }
    }

    // These, and what a reading counts by the surface on which it was held.
    #[tactic(auto, using(crate::proofs::Sums::plus_none))]
    pub fn and_reading(self, held: Option<Surface>) -> Holds
        requires { AtMost most_count (plus self (of_reading held)) }
        ensures { result ≡ plus self (of_reading held) }
    {
        match held {
            None => self,
            Some(Surface::Map) => {
                self + Holds {
                    held: 1,
                    map: 1,
                    ..Holds::default()
                }
            }
            Some(Surface::Bank) => {
                self + Holds {
                    held: 1,
                    bank: 1,
                    ..Holds::default()
                }
            }
        }
    }
}
