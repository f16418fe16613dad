// The lines that the program prints. They are put together piece by piece: by its contract `write!` may refuse a text for which there is room.
// That there is room is a clause of each: how much is left changes with every line.
ghost use Rattle.std.specs.Prelude.{◌+◌, ◌≤◌, ◌++◌, length, decimal};
ghost use Rattle.outputs.specs.Lines.{heading, counts_line, refused_line, edit_line, most_line};
ghost use Rattle.formats.specs.Formats.{Written, most_digits};

use formats::{MOST_DIGITS, put_decimal, put_text};
use rows::Report;
use score::refusal::Refusal;

// The most bytes of a line: three numbers, each with a byte after it.
pub const MOST_LINE: usize = 3 * (MOST_DIGITS + 1);

// A number in decimal and a text behind it, from byte `at` on; where they end.
fn put_number(n: u64, text: &[u8], printed: &mut [u8], at: usize) -> usize
    requires { at + most_digits + length text.now ≤ length printed.old }
    ensures written { Written (decimal n ++ text.now) printed.old at printed.new result }
    ensures len { result ≤ at + most_digits + length text.now }
{
    let behind = put_decimal(n, printed, at);
    put_text(text, printed, behind)
}

// The line of an accepted edit.
fn put_counts(row: u32, report: Report, printed: &mut [u8], at: usize) -> usize
    requires { at + most_line ≤ length printed.old }
    ensures written { Written (counts_line row report.rows report.holds.held) printed.old at printed.new result }
    ensures len { result ≤ at + most_line }
{
    let first = put_number(row as u64, b" ", printed, at);
    let second = put_number(report.rows as u64, b" ", printed, first);
    put_number(report.holds.held as u64, b"\n", printed, second)
}

// The line of a refusal.
pub fn put_refusal(number: u32, place: usize, printed: &mut [u8], at: usize) -> usize
    requires { at + most_line ≤ length printed.old }
    ensures written { Written (refused_line number place) printed.old at printed.new result }
    ensures len { result ≤ at + most_line }
{
    let first = put_text(b"refused ", printed, at);
    let second = put_number(number as u64, b" ", printed, first);
    put_number(place as u64, b"\n", printed, second)
}

// The line of an edit.
#[tactic(auto, unfolding(crate::specs::Lines::edit_line))]
pub fn put_answer(row: u32, answer: Result<Report, Refusal>, printed: &mut [u8], at: usize) -> usize
    requires { at + most_line ≤ length printed.old }
    ensures written { Written (edit_line row answer) printed.old at printed.new result }
    ensures len { result ≤ at + most_line }
{
    match answer {
        Ok(report) => put_counts(row, report, printed, at),
        Err(refusal) => put_refusal(refusal.number(), refusal.place(), printed, at),
    }
}

// The line above those of the edits.
pub fn put_heading(printed: &mut [u8]) -> usize
    requires { most_line ≤ length printed.old }
    ensures written { Written heading printed.old 0 printed.new result }
    ensures len { result ≤ most_line }
{
    put_text(b"row rendered held\n", printed, 0)
}
