// The monitor program's text read whole.
ghost use Rattle.std.specs.Prelude.{◌≡◌};
ghost use Rattle.monitor_text.specs.MonitorText.{monitor_text};

use crate::NODES;
use decimal::signed_value;
use rule_lines::read_rules;
use rules::{Refusal, RuleList};
use text::{MAX_TEXT, line_at, run_at};

// What was read: the chart, the rules, and the offset of the first point line.
#[derive(Clone, Copy)]
pub struct MonitorText {
    pub centre: i32,
    pub sigma: u32,
    pub list: RuleList,
    pub points: usize,
}

// The text read whole, every point line included: 17, then 16 at the first line that is not the one expected, then 19 at the first point
// whose node is over the last one.
pub fn monitor_text(text: &[u8]) -> Result<MonitorText, Refusal>
    ensures { result ≡ monitor_text text.now }
{
    if text.len() > MAX_TEXT {
        return Err(Refusal::TextSize);
    }
    let first = line_at(text, 0, b"chart", b"sn").ok_or(Refusal::Line(1))?;
    let read = read_rules(text, first.next, 2);
    if let Some(refusal) = read.refusal {
        return Err(refusal);
    }
    let points = read.next;
    let run = run_at(text, points, b"point", b"ns", 0, NODES);
    let count = run.count;
    if run.next < text.len() {
        return Err(Refusal::Line(read.line + count));
    }
    let good = run.below;
    if good < count {
        return Err(Refusal::Node(read.line + good));
    }
    let list = read.list;
    Ok(MonitorText {
        centre: signed_value(first.values[0]),
        sigma: first.values[1],
        list,
        points,
    })
}
