// What a call refuses.
ghost use Rattle.std.specs.Prelude.{◌≡◌, Some};
ghost use Rattle.score.specs.Numbers.{number_of, place_of, printed};

use std::fmt;

// A refusal, with the place that it carries.
#[derive(Clone, Copy, PartialEq, Eq, Debug)]
pub enum Refusal {
    // Not 0 wavetable, 1 terrain, 2 terrain with map, 3 plain oscillator.
    Instrument,
    // Outside 32,000 to 192,000 Hz.
    Rate,
    // Frames 0 or above 128.
    Block,
    // A bank's length is not 25,344.
    Bank,
    // A map's length is not the instrument's.
    Map,
    // A count of 0 or above 4,096, or fewer row words than 5 times it.
    Rows,
    // A take is too short for the rows.
    Take,
    // The edited or removed row is not below the row count; or an insertion is above it.
    Position(usize),
    // A row has a word outside its name's limit.
    Limit(usize),
    // The first line does not hold the names, or no LF ends it.
    Names,
    // A line does not hold a word for each name.
    Value(usize),
    // Fewer lent words than the rows need.
    Space,
    // An insertion with no spare place in some buffer.
    Full,
    // A lent text that is shorter than the score needs.
    Paper,
}

impl Refusal {
    // Its number in the table.
    pub fn number(self) -> u32
        ensures { result ≡ number_of self }
    {
        match self {
            Refusal::Instrument => 1,
            Refusal::Rate => 2,
            Refusal::Block => 3,
            Refusal::Bank => 4,
            Refusal::Map => 5,
            Refusal::Rows => 6,
            Refusal::Take => 7,
            Refusal::Position(_) => 8,
            Refusal::Limit(_) => 9,
            Refusal::Names => 10,
            Refusal::Value(_) => 11,
            Refusal::Space => 12,
            Refusal::Full => 13,
            Refusal::Paper => 14,
        }
    }

    // Its place: 0 where it carries none, as the documents and the C interface have it.
    pub fn place(self) -> usize
        ensures { result ≡ place_of self }
    {
        match self {
            Refusal::Position(place) | Refusal::Limit(place) | Refusal::Value(place) => place,
            _ => 0,
        }
    }
}

impl fmt::Display for Refusal {
    ghost output = { λ r. Some (printed r) };

    // The number and the place, one space between.
    fn fmt<W: fmt::Write>(&self, f: &mut fmt::Formatter<W>) -> fmt::Result {
        write!(f, "{} {}", self.number(), self.place())
    }
}
