// A word at an offset of a text: a keyword, the comma or the LF.
ghost use Rattle.std.specs.Prelude.{◌≡◌};
ghost use Rattle.decimal.specs.Word.{word_at};

// The offset past the word, where it stands at `at`.
pub fn past(text: &[u8], at: usize, word: &[u8]) -> Option<usize>
    ensures { result ≡ word_at word.now text.now at }
{
    let rest = text.get(at..).unwrap_or(&[]);
    if rest.starts_with(word) {
        Some(at + word.len())
    } else {
        None
    }
}
