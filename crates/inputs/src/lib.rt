// What the program reads: the score's text, the edits' text and the bank, and the first refusal of the three.
#![tactic(auto)]

ghost use Rattle.std.specs.Prelude.{◌≡◌, IfOk};
ghost use Rattle.inputs.specs.Inputs.{test_length, test_bank, inputs_of, Within};

use oscillator::bank::BANK_LENGTH;
use reader::EDIT_WORDS;
use score::refusal::Refusal;
use score::rows::ROW_WORDS;

// The most bytes of a text.
pub const MOST_TEXT: usize = 8192;

pub const MOST_ROWS: usize = 128;

pub const MOST_EDITS: usize = 32;

// The bytes of a full bank.
pub const BANK_BYTES: usize = BANK_LENGTH * 2;

// Rows and edits that were read: how many, and their words. The reader and the calls take words in a row and a count beside them.
#[derive(Clone, Copy)]
pub struct Inputs {
    pub count: usize,
    pub rows: [u32; MOST_ROWS * ROW_WORDS],
    pub edit_count: usize,
    pub edits: [u32; MOST_EDITS * EDIT_WORDS],
}

// A text that is too long is refused before anything in it.
#[tactic(auto, unfolding(crate::specs::Inputs::test_length))]
fn test_length(text: &[u8]) -> Result<(), Refusal>
    ensures { result ≡ test_length text.now }
{
    if text.len() > MOST_TEXT {
        return Err(Refusal::Space);
    }
    Ok(())
}

// A bank of another length than a full one is refused.
#[tactic(auto, unfolding(crate::specs::Inputs::test_bank))]
fn test_bank(bank: usize) -> Result<(), Refusal>
    ensures { result ≡ test_bank bank }
{
    if bank != BANK_BYTES {
        return Err(Refusal::Bank);
    }
    Ok(())
}

// Reads the score, then the edits; the bank is told by its length.
pub fn read(score: &[u8], edits: &[u8], bank: usize) -> Result<Inputs, Refusal>
    ensures value { result ≡ inputs_of score.now edits.now bank }
    ensures within { IfOk result (λ given. Within given) }
{
    let mut rows = [0; MOST_ROWS * ROW_WORDS];
    let mut words = [0; MOST_EDITS * EDIT_WORDS];
    test_length(score)?;
    let count = reader::read(score, &mut rows)?;
    test_length(edits)?;
    let edit_count = reader::read_edits(edits, &mut words)?;
    test_bank(bank)?;
    Ok(Inputs {
        count,
        rows,
        edit_count,
        edits: words,
    })
}
