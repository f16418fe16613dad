// Texts, numbers, words and samples as the program `retake` puts them: numbers in decimal, and words and samples as bytes, low byte first.
#![tactic(auto)]

ghost use Rattle.std.specs.Prelude.{◌≡◌, ◌+◌, ◌*◌, ◌≤◌, ◌++◌, length, decimal};
ghost use Rattle.arrayvec.specs.ArrayVec.{array_vec_len};
ghost use Rattle.formats.specs.Formats.{Written, most_digits, low_first, samples_of};

use arrayvec::ArrayVec;
use itoa::Buffer;

// The most digits of a number.
pub const MOST_DIGITS: usize = 20;

// A text from byte `at` on; where it ends.
pub fn put_text(text: &[u8], bytes: &mut [u8], at: usize) -> usize
    requires { at + length text.now ≤ length bytes.old }
    ensures { Written text.now bytes.old at bytes.new result }
{
    let end = at + text.len();
    bytes[at..end].copy_from_slice(text);
    end
}

// A number in decimal, from byte `at` on; where it ends.
pub fn put_decimal(n: u64, text: &mut [u8], at: usize) -> usize
    requires { at + most_digits ≤ length text.old }
    ensures written { Written (decimal n) text.old at text.new result }
    ensures len { result ≤ at + most_digits }
{
    let mut digits = Buffer::new();
    put_text(digits.format(n).as_bytes(), text, at)
}

// Words as bytes, low byte first, behind bytes. That they fit is a clause, here and where files are made of them: a slice's length is in no type.
pub fn push_words<const N: usize>(words: &[u32], bytes: &mut ArrayVec<u8, N>)
    requires { array_vec_len bytes.old + length words.now * 4 ≤ N }
    ensures { bytes.new.items ≡ bytes.old.items ++ low_first words.now }
{
    for word in words {
        // There is room, so nothing is refused.
        let _ = bytes.try_extend_from_slice(&word.to_le_bytes());
    }
}

// Bytes as samples, low byte first. By index: once `iter_mut` zipped with chunks of two is over, a proof knows how many samples there are, and
// no more.
pub fn samples_of(bytes: &[u8], samples: &mut [i16])
    requires { length bytes.now ≡ length samples.old * 2 }
    ensures { samples.new ≡ samples_of bytes.now }
{
    for i in 0..samples.len() {
        samples[i] = i16::from_le_bytes([bytes[i * 2], bytes[i * 2 + 1]]);
    }
}
