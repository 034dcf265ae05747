// One core of the bench: its monitor, its points and its signals; and the last lines, one for each node that has points.
ghost use Rattle.std.specs.Prelude.{◌≡◌, true, ◌+◌, ◌*◌, ◌<◌, ◌≤◌, length};
ghost use Rattle.rules.specs.Bounds.{zone_count, max_rules, max_number};
ghost use Rattle.rules.specs.Check.{active_rules};
ghost use Rattle.rules.specs.InBounds.{AllInBounds};
ghost use Rattle.window.specs.State.{valid_state};
ghost use Rattle.write.specs.Writes.{HasRoom, AtMost, Writes};
ghost use Rattle.monitor_text.specs.Readings.{node_count};
ghost use Rattle.monitor_lines.specs.MonitorLines.{total_room};
ghost use Rattle.monitor_report.specs.Points.{total_lines};
ghost use Rattle.monitor_report.specs.Nodes.{fresh_node, node_taken, total_of, totals_of};

use monitor::{Monitor, Taken};
use monitor_lines::{PointLine, TotalLine, put_total};
use monitor_text::NODES;
use rules::RuleList;
use write::Writer;

// What is kept of a node: its monitor, and how many points and signals it had.
#[derive(Clone, Copy)]
pub(crate) struct Node {
    pub(crate) monitor: Monitor,
    pub(crate) points: u32,
    pub(crate) signals: u32,
}

// What a point of a node says, and the node behind it.
#[derive(Clone, Copy)]
pub(crate) struct NodePoint {
    pub(crate) line: PointLine,
    pub(crate) next: Node,
}

// A node with no points.
pub(crate) fn fresh_node() -> Node
    ensures { result ≡ fresh_node }
{
    Node {
        monitor: Monitor::fresh(),
        points: 0,
        signals: 0,
    }
}

// The next point of node number k.
pub(crate) fn chart_point(k: u32, node: Node, list: RuleList, zone: u32) -> NodePoint
    requires len_le_max_rules { (list.len ≤ max_rules) × AllInBounds (active_rules list) × (zone < zone_count) }
    requires count_lt_max_number { (node.monitor.count < max_number) × (node.points < max_number) × (node.signals < max_number) }
    requires state_value { valid_state node.monitor.count (active_rules list) node.monitor.state ≡ true }
    ensures { result ≡ node_taken (active_rules list) k node zone }
{
    let monitor = node.monitor;
    let count = monitor.count + 1;
    let points = node.points + 1;
    let signals = node.signals;
    match monitor.take(list, zone) {
        Taken::Quiet(next) => NodePoint {
            line: PointLine::Quiet {
                node: k,
                count,
                period: points,
            },
            next: Node {
                monitor: next,
                points,
                signals,
            },
        },
        Taken::Signal(mask) => NodePoint {
            line: PointLine::Signal {
                node: k,
                count,
                mask,
                period: points,
            },
            next: Node {
                monitor: Monitor::fresh(),
                points,
                signals: signals + 1,
            },
        },
    }
}

// The total of node number k: no line where it has no points.
fn put_node(w: &mut Writer, k: u32, node: Node)
    requires { HasRoom w.old total_room }
    ensures wrote { Writes w.old (total_lines (total_of k node)) w.new }
    ensures upper_bound { AtMost w.old total_room w.new }
{
    if node.points == 0 {
        return;
    }
    put_total(
        w,
        TotalLine {
            node: k,
            points: node.points,
            signals: node.signals,
        },
    );
}

// The totals of the nodes, in their order.
pub(crate) fn put_totals(w: &mut Writer, nodes: [Node; NODES as usize])
    requires { HasRoom w.old (total_room * node_count) }
    ensures { Writes w.old (total_lines (totals_of nodes node_count)) w.new }
{
    for (k, node) in nodes.iter().enumerate() {
        put_node(w, k as u32, *node);
    }
}
