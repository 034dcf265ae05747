// The monitor program's lines: one for each point, and one for each node.
ghost use Rattle.write.specs.Writes.{HasRoom, AtMost, Writes};
ghost use Rattle.monitor_lines.specs.MonitorLines.{point_bytes, point_room, total_line, total_room};

use write::Writer;

// `signal`, four fields of 32 bits, LF: the longest line of a point.
pub const POINT_ROOM: usize = 6 + 4 * write::SHORT_FIELD + 1;

// `total`, three fields of 32 bits, LF.
pub const TOTAL_ROOM: usize = 5 + 3 * write::SHORT_FIELD + 1;

// What a point's line says: its node, its count since the node's last clearing, for a signal the mask of the rules that hold, and its period.
#[derive(Clone, Copy)]
pub enum PointLine {
    Quiet {
        node: u32,
        count: u32,
        period: u32,
    },
    Signal {
        node: u32,
        count: u32,
        mask: u32,
        period: u32,
    },
}

// The line `quiet,node,n,period` or `signal,node,n,mask,period`.
#[tactic(auto, using(write::proofs::FieldLaws::field_short))]
pub fn put_point(w: &mut Writer, line: PointLine)
    requires { HasRoom w.old point_room }
    ensures wrote { Writes w.old (point_bytes line) w.new }
    ensures upper_bound { AtMost w.old point_room w.new }
{
    match line {
        PointLine::Quiet {
            node,
            count,
            period,
        } => {
            w.named(b"quiet", node as u64);
            w.field(count as u64);
            w.field(period as u64);
        }
        PointLine::Signal {
            node,
            count,
            mask,
            period,
        } => {
            w.named(b"signal", node as u64);
            w.field(count as u64);
            w.field(mask as u64);
            w.field(period as u64);
        }
    }
    w.byte(b'\n');
}

// What a node's last line says: the node, its points and its signals.
#[derive(Clone, Copy)]
pub struct TotalLine {
    pub node: u32,
    pub points: u32,
    pub signals: u32,
}

// The line `total,node,points,signals`.
#[tactic(auto, using(write::proofs::FieldLaws::field_short))]
pub fn put_total(w: &mut Writer, line: TotalLine)
    requires { HasRoom w.old total_room }
    ensures wrote { Writes w.old (total_line line.node line.points line.signals) w.new }
    ensures upper_bound { AtMost w.old total_room w.new }
{
    w.named(b"total", line.node as u64);
    w.field(line.points as u64);
    w.field(line.signals as u64);
    w.byte(b'\n');
}
