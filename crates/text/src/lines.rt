// A line of a keyword and its fields at an offset of a text, for every kind of line.
ghost use Rattle.std.specs.Prelude.{◌≡◌, [], ◌≤◌, length};
ghost use Rattle.text.specs.LineRead.{most_fields, field_of, fields_of, code_at, codes_from, line_read_at};

use decimal::{field, past, signed_field};

// The most fields of a line.
pub const MOST_FIELDS: usize = 8;

// A line of the kind that was asked for: the offset of the line behind it, and the values of its fields, with 0 behind them. A signed value is
// kept 2^31 higher.
#[derive(Clone, Copy)]
pub struct LineRead {
    pub next: usize,
    pub values: [u32; MOST_FIELDS],
}

// The value of a field at `at`: a signed one where its letter is `s`.
fn value(text: &[u8], at: usize, letter: u8) -> Option<(u32, usize)>
    ensures { result ≡ code_at (field_of letter) text.now at }
{
    if letter == b's' {
        return signed_field(text, at);
    }
    field(text, at)
}

// What follows the keyword: a field for each letter, and LF.
fn fields_from(text: &[u8], at: usize, letters: &[u8]) -> Option<LineRead>
    requires { length letters.now ≤ most_fields }
    ensures { result ≡ codes_from (fields_of letters.now) text.now at [] }
{
    let mut values = [0u32; MOST_FIELDS];
    let mut p = at;
    for (i, letter) in letters.iter().enumerate() {
        let (x, e) = value(text, p, *letter)?;
        values[i] = x;
        p = e;
    }
    let next = past(text, p, b"\n")?;
    Some(LineRead { next, values })
}

// The line at `at`, where one of the word is asked for, with a field for each letter: `n` for a number, `s` for a signed one.
pub(crate) fn parse_line(text: &[u8], at: usize, word: &[u8], letters: &[u8]) -> Option<LineRead>
    requires { length letters.now ≤ most_fields }
    ensures { result ≡ line_read_at word.now (fields_of letters.now) text.now at }
{
    fields_from(text, past(text, at, word)?, letters)
}
