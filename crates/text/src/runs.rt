// A run of lines of a kind from an offset of a text on.
ghost use Rattle.std.specs.Prelude.{◌≡◌, ◌≤◌, ◌<◌, length};
ghost use Rattle.grammar.specs.Size.{max_text};
ghost use Rattle.text.specs.LineRead.{most_fields, fields_of};
ghost use Rattle.text.specs.Run.{below_more, run_at};

use crate::lines::parse_line;

// How many lines there are, how many of them come before the first whose value of one field is not below a bound, and the offset of the first
// line that is none of the kind.
#[derive(Clone, Copy)]
pub struct Run {
    pub count: u32,
    pub below: u32,
    pub next: usize,
}

// Behind `count` lines, of which `below` come before the first whose value is not below the bound: how many do with one of this value more.
fn one_more(count: u32, below: u32, value: u32, bound: u32) -> u32
    requires { (below ≤ count) × (count ≤ max_text) }
    ensures { result ≡ below_more bound count below value }
{
    if below < count {
        return below;
    }
    if value < bound { count + 1 } else { count }
}

// The lines of the word from `at` on, with a field for each letter: `n` for a number, `s` for a signed one. The bound is of the field of that
// index.
pub(crate) fn parse_run(
    text: &[u8],
    at: usize,
    word: &[u8],
    letters: &[u8],
    field: usize,
    bound: u32,
) -> Run
    requires { (length text.now ≤ max_text) × (length letters.now ≤ most_fields) × (field < most_fields) }
    ensures { result ≡ run_at word.now (fields_of letters.now) field bound text.now at }
{
    let mut count: u32 = 0;
    let mut below: u32 = 0;
    let mut i = at;
    while let Some(line) = parse_line(text, i, word, letters) {
        below = one_more(count, below, line.values[field], bound);
        count += 1;
        i = line.next;
    }
    Run {
        count,
        below,
        next: i,
    }
}
