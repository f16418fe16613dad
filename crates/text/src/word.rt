// Words as a text has them: eight hexadecimal digits, read in either letter case and written in lower case.
ghost use Rattle.std.specs.Prelude.{◌≡◌, true, ◌<◌, length};
ghost use Rattle.text.specs.Text.{is_digit, digit_of, word_digits, is_word, word_of, lower_digit, field_of};

// A word's digits.
pub const WORD_DIGITS: usize = 8;

// A field is a word: by `&`, since `all` branches on each byte, and with it reading a text takes three times as long.
pub fn is_word(field: &[u8]) -> bool
    ensures { result ≡ is_word field.now }
{
    if field.len() != WORD_DIGITS {
        return false;
    }
    let mut digits = true;
    for byte in field {
        digits &= byte.is_ascii_hexdigit();
    }
    digits
}

// A digit's value: a letter's low four bits start at 1, and only letters are 64 or more. `to_digit` branches on each digit, and with it reading
// a text takes six times as long.
fn digit(byte: u8) -> u32
    requires { is_digit byte ≡ true }
    ensures { result ≡ digit_of byte }
{
    (byte % 16 + byte / 64 * 9) as u32
}

// The word that a field writes, each digit at its place. `u32::from_str_radix` is no plainer: it takes a text of any length and a sign, and may
// fail.
pub fn word_of(field: &[u8]) -> u32
    requires { is_word field.now ≡ true }
    ensures { result ≡ word_of field.now }
{
    let mut word = 0;
    for (k, byte) in field.iter().enumerate() {
        word += digit(*byte) << (4 * (WORD_DIGITS - 1 - k));
    }
    word
}

// The digit of a value, in lower case.
fn lower_digit(value: u32) -> u8
    requires { value < 16 }
    ensures { result ≡ lower_digit value }
{
    char::from_digit(value, 16).unwrap() as u8
}

// A word, in the place of eight bytes, its last digit first: as an array they would be copied there once more. Formatting as `{:08x}` is no
// plainer: it may fail, and writes to a buffer with a position. By index: once `iter_mut().rev()` is over, a proof knows how many bytes there are,
// and no more.
pub fn put_word(word: u32, text: &mut [u8])
    requires { length text.old ≡ word_digits }
    ensures { text.new ≡ field_of word }
{
    let mut left = word;
    for k in (0..WORD_DIGITS).rev() {
        text[k] = lower_digit(left % 16);
        left /= 16;
    }
}
