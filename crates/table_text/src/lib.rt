// The table program's text: a weights line, rule lines, a horizon line, and nothing more.
#![tactic(auto)]

ghost use Rattle.std.specs.Prelude.{◌≡◌};
ghost use Rattle.table_text.specs.TableText.{table_text};

use rule_lines::read_rules;
use rules::{Refusal, RuleList, ZONES};
use text::{MAX_TEXT, line_at};

// What was read.
#[derive(Clone, Copy)]
pub struct TableText {
    pub weights: [u32; ZONES],
    pub list: RuleList,
    pub horizon: u32,
}

// The text read whole: 17, then 16 at the first line that is not the one expected.
pub fn table_text(text: &[u8]) -> Result<TableText, Refusal>
    ensures { result ≡ table_text text.now }
{
    if text.len() > MAX_TEXT {
        return Err(Refusal::TextSize);
    }
    let first = line_at(text, 0, b"weights", b"nnnnnnnn").ok_or(Refusal::Line(1))?;
    let read = read_rules(text, first.next, 2);
    if let Some(refusal) = read.refusal {
        return Err(refusal);
    }
    let last = line_at(text, read.next, b"horizon", b"n").ok_or(Refusal::Line(read.line))?;
    if last.next < text.len() {
        return Err(Refusal::Line(read.line + 1));
    }
    let weights = first.values;
    let list = read.list;
    Ok(TableText {
        weights,
        list,
        horizon: last.values[0],
    })
}
