// The lines of a text's points, read again one by one, each charted by the monitor of its node.
ghost use Rattle.std.specs.Prelude.{◌+◌, ◌*◌, ◌≤◌, length};
ghost use Rattle.rules.specs.Bounds.{max_rules};
ghost use Rattle.rules.specs.Check.{active_rules};
ghost use Rattle.rules.specs.InBounds.{AllInBounds};
ghost use Rattle.monitor.specs.Zone.{min_sigma, max_sigma};
ghost use Rattle.write.specs.Wrote.{Wrote};
ghost use Rattle.grammar.specs.Size.{max_text};
ghost use Rattle.monitor_text.specs.Readings.{node_count, OnBench};
ghost use Rattle.monitor_text.specs.MonitorText.{points_at};
ghost use Rattle.monitor_lines.specs.MonitorLines.{point_room, total_room};
ghost use Rattle.monitor_report.specs.Points.{bench_bytes};
ghost use Rattle.monitor_report.specs.Nodes.{taken_chart};

use crate::nodes::{chart_point, fresh_node, put_totals};
use decimal::signed_value;
use monitor::Chart;
use monitor_lines::put_point;
use monitor_text::NODES;
use rules::RuleList;
use text::line_at;
use write::Writer;

// The lines of the points from `at` on, and the nodes' totals, from the buffer's start.
pub(crate) fn put_points(
    out: &mut [u8],
    text: &[u8],
    at: usize,
    list: RuleList,
    chart: Chart,
) -> usize
    requires len_le_max_rules { (list.len ≤ max_rules) × AllInBounds (active_rules list) }
    requires min_sigma_le_sigma { (min_sigma ≤ chart.sigma) × (chart.sigma ≤ max_sigma) }
    requires text_len_bound { length text.now ≤ max_text }
    requires on_bench { OnBench (points_at text.now at) }
    requires node_count_in_bounds { point_room * length (points_at text.now at) + total_room * node_count ≤ length out.old }
    ensures { Wrote out.old 0 out.new result
        (bench_bytes (taken_chart (active_rules list) chart.centre chart.sigma) (points_at text.now at)) }
{
    let mut nodes = [fresh_node(); NODES as usize];
    let mut i = at;
    let mut w = Writer::new(out, 0);
    while let Some(read) = line_at(text, i, b"point", b"ns") {
        let node = read.values[0];
        let zone = chart.zone_at(signed_value(read.values[1]));
        let point = chart_point(node, nodes[node as usize], list, zone);
        let line = point.line;
        let next_node = point.next;
        put_point(&mut w, line);
        nodes[node as usize] = next_node;
        i = read.next;
    }
    put_totals(&mut w, nodes);
    w.end()
}
