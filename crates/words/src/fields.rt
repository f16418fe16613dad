// The three fields of a binary32 word, and whole parts by these, in the order of IEEE 754-2019, 3.4: sign S, biased exponent E, trailing
// significand field T.
ghost use Rattle.std.specs.Prelude.{◌≡◌, ◌+◌, ◌<◌};
ghost use Rattle.std.specs.Float.Ieee.{to_unsigned};
ghost use Rattle.words.specs.Inner.{Small};
ghost use Rattle.words.specs.Fields.{sign_of, biased_exponent, trailing_significand, not_a_number, whole_magnitude, unsigned_whole, signed_whole};

// The bias: E is the exponent plus the bias.
const BIAS: u32 = 127;

// E where the last bit of the significand is worth 1: it has 23 bits behind its leading one.
const UNIT_EXPONENT: u32 = BIAS + 23;

// The fields S, E and T. T has 23 bits.
#[derive(Clone, Copy)]
pub struct Fields {
    pub sign: u32,
    pub biased: u32,
    pub trailing: u32,
    ghost few: { trailing < 8388608 },
}

// Of a word: S is its first bit, E the next 8, and T the last 23.
impl From<u32> for Fields {
    ghost from_gives = { λ word f. (f.sign ≡ sign_of word) × ((f.biased ≡ biased_exponent word) × (f.trailing ≡ trailing_significand word)) };

    fn from(word: u32) -> Fields {
        Fields {
            sign: word / 0x80000000,
            biased: word / 0x800000 % 0x100,
            trailing: word % 0x800000,
        }
    }
}

impl Fields {
    // Whether E and T are a NaN's.
    fn not_a_number(self) -> bool
        ensures { result ≡ not_a_number self.biased self.trailing }
    {
        self.biased == 255 && self.trailing != 0
    }

    // The significand as a whole number: its implicit leading bit, then T.
    fn significand(self) -> u32
        ensures { result ≡ 8388608 + self.trailing }
    {
        0x800000 + self.trailing
    }

    // The whole part of the magnitude: the significand shifted as the exponent says.
    #[tactic(auto, unfolding(crate::specs::Fields::whole_magnitude))]
    fn whole_magnitude(self) -> u64
        requires { self.biased < 191 }
        ensures { result ≡ whole_magnitude self.biased self.trailing }
    {
        let m = self.significand() as u64;
        if self.biased < BIAS {
            0
        } else if self.biased <= UNIT_EXPONENT {
            m >> (UNIT_EXPONENT - self.biased)
        } else {
            m << (self.biased - UNIT_EXPONENT)
        }
    }

    // The unsigned whole part.
    #[tactic(auto, unfolding(crate::specs::Fields::unsigned_whole))]
    pub fn unsigned_whole(self) -> u64
        ensures { result ≡ unsigned_whole self.sign self.biased self.trailing }
    {
        if self.sign == 1 {
            0
        } else if self.biased < BIAS + 64 {
            self.whole_magnitude()
        } else if self.not_a_number() {
            0
        } else {
            u64::MAX
        }
    }

    // The whole part to i32.
    #[tactic(auto, unfolding(crate::specs::Fields::signed_whole))]
    pub fn signed_whole(self) -> i32
        ensures { result ≡ signed_whole self.sign self.biased self.trailing }
    {
        if self.biased < BIAS + 31 {
            let n = self.whole_magnitude() as i32;
            if self.sign == 1 { -n } else { n }
        } else if self.not_a_number() {
            0
        } else if self.sign == 1 {
            i32::MIN
        } else {
            i32::MAX
        }
    }
}

// The whole part of a float from a half to below 2 to the power 23, without a test: by `whole` in its place a rendering takes 4 to 15 percent
// longer. The sign is 0, so all before T is E, which is from 126 to 149: the significand is shifted down by 1 to 24 places, and by 24, below 1,
// nothing is left of it.
#[tactic(auto, using(crate::proofs::SmallWhole::small_no_nan, crate::proofs::SmallWhole::small_whole))]
pub fn small_whole(y: f32) -> u32
    requires { Small y }
    ensures { result ≡ to_unsigned 64 y }
{
    let word = y.to_bits();
    let f = Fields {
        sign: 0,
        biased: word / 0x800000,
        trailing: word % 0x800000,
    };
    f.significand() >> (UNIT_EXPONENT - f.biased)
}
