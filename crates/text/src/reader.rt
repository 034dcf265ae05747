// A reader: the lent text and the offset of the next line.
ghost use Rattle.std.specs.Prelude.{◌≡◌, ◌≤◌, ◌<◌, length};
ghost use Rattle.grammar.specs.Size.{max_text};
ghost use Rattle.text.specs.LineRead.{most_fields, fields_of, line_read_at};
ghost use Rattle.text.specs.Run.{run_at};

use crate::lines::{LineRead, parse_line};
use crate::runs::{Run, parse_run};

#[derive(Clone, Copy)]
pub struct Reader<'a> {
    pub text: &'a [u8],
    pub at: usize,
}

// The line that the reader stands at, where one of the word is asked for, with a field for each letter: `n` for a number, `s` for a signed
// one. For the crates of this repository, which ask for at most eight fields: hence the `requires`.
pub fn line<'a, 'b, 'c>(r: Reader<'a>, word: &'b [u8], letters: &'c [u8]) -> Option<LineRead>
    requires { length letters.now ≤ most_fields }
    ensures { result ≡ line_read_at word.now (fields_of letters.now) r.entry.text.now r.entry.at }
{
    parse_line(r.text, r.at, word, letters)
}

// The line at `at` of a text: the reader is made here, so a caller needs none.
pub fn line_at(text: &[u8], at: usize, word: &[u8], letters: &[u8]) -> Option<LineRead>
    requires { length letters.now ≤ most_fields }
    ensures { result ≡ line_read_at word.now (fields_of letters.now) text.now at }
{
    line(Reader { text, at }, word, letters)
}

// The run of lines that the reader stands at, of the word and with a field for each letter; the bound is of the field of that index. For the
// crates of this repository, whose texts are of a size that is read and whose lines have that field: hence the `requires`.
pub fn run<'a, 'b, 'c>(
    r: Reader<'a>,
    word: &'b [u8],
    letters: &'c [u8],
    field: usize,
    bound: u32,
) -> Run
    requires { (length r.text.now ≤ max_text) × (length letters.now ≤ most_fields) × (field < most_fields) }
    ensures { result ≡ run_at word.now (fields_of letters.now) field bound r.entry.text.now r.entry.at }
{
    parse_run(r.text, r.at, word, letters, field, bound)
}

// The run from `at` on: the reader is made here, so a caller needs none.
pub fn run_at(text: &[u8], at: usize, word: &[u8], letters: &[u8], field: usize, bound: u32) -> Run
    requires { (length text.now ≤ max_text) × (length letters.now ≤ most_fields) × (field < most_fields) }
    ensures { result ≡ run_at word.now (fields_of letters.now) field bound text.now at }
{
    run(Reader { text, at }, word, letters, field, bound)
}
