// The table program's percentile lines.
ghost use Rattle.std.specs.Prelude.{◌+◌, ◌≤◌};
ghost use Rattle.write.specs.Writes.{HasRoom, AtMost, Writes};
ghost use Rattle.table_lines.specs.PercentLine.{bracket_fields, percent_line, percent_lines};
ghost use Rattle.table_lines.specs.PercentLine.{bracket_room, percent_room, percents_room};

use bracket::Bracket;
use summary::Summary;
use write::Writer;

// Where a percentile lies.
#[tactic(auto, using(write::proofs::FieldLaws::field_short))]
fn put_bracket(w: &mut Writer, found: Bracket)
    requires { HasRoom w.old bracket_room }
    ensures wrote { Writes w.old (bracket_fields found) w.new }
    ensures upper_bound { AtMost w.old bracket_room w.new }
{
    match found {
        Bracket::At(n) => w.named(b",at", n as u64),
        Bracket::Between { low, high } => {
            w.named(b",between", low as u64);
            w.field(high as u64);
        }
        Bracket::Open(low) => w.named(b",open", low as u64),
        Bracket::Beyond(h) => w.named(b",beyond", h as u64),
    }
}

// The line of a percent and where its percentile lies.
#[tactic(auto, using(write::proofs::FieldLaws::field_short))]
pub fn put_percent(w: &mut Writer, percent: u32, found: Bracket)
    requires { HasRoom w.old percent_room }
    ensures wrote { Writes w.old (percent_line percent found) w.new }
    ensures upper_bound { AtMost w.old percent_room w.new }
{
    w.named(b"q", percent as u64);
    put_bracket(w, found);
    w.byte(b'\n');
}

// The lines of the percents 5, 25, 50, 75, 95.
pub(crate) fn put_percents(w: &mut Writer, summary: Summary)
    requires { HasRoom w.old percents_room }
    ensures wrote { Writes w.old (percent_lines summary) w.new }
    ensures upper_bound { AtMost w.old percents_room w.new }
{
    put_percent(w, 5, summary.p5);
    put_percent(w, 25, summary.p25);
    put_percent(w, 50, summary.p50);
    put_percent(w, 75, summary.p75);
    put_percent(w, 95, summary.p95);
}
