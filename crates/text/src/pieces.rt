// The pieces into which a byte cuts a text: lines by LF, fields by spaces.
ghost use Rattle.std.specs.Prelude.{◌≡◌, [], ◌+◌, ◌≤◌, ◌<◌, length, get_or, unwrap_or, IfSome};
ghost use Rattle.text.specs.Text.{split, fields_of, column_of};

pub const LF: u8 = 10;

pub const SPACE: u8 = b' ';

// Where the first `cut` stands, which ends the first piece: none where that piece is the whole text.
pub fn piece_end(text: &[u8], cut: u8) -> Option<usize>
    ensures value { unwrap_or result (length text.now) ≡ length (get_or (split cut text.now) 0 []) }
    ensures inside { IfSome result (λ end. end < length text.now) }
{
    text.iter().position(|byte| *byte == cut)
}

// The number of fields of a line.
pub fn count_fields(line: &[u8]) -> usize
    ensures { (result ≡ length (fields_of line.now)) × (result ≤ length line.now + 1) }
{
    line.split(|byte| *byte == SPACE).count()
}

// The column of a name on a line, if one has it.
pub fn column_of(line: &[u8], name: &[u8]) -> Option<usize>
    ensures { result ≡ column_of name.now (fields_of line.now) }
{
    line.split(|byte| *byte == SPACE)
        .position(|field| name == field)
}
