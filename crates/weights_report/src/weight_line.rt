// The weights program's line.
ghost use Rattle.std.specs.Prelude.{◌+◌, ◌*◌, ◌≤◌, length};
ghost use Rattle.decimal.specs.Fields.{fields};
ghost use Rattle.write.specs.Wrote.{Wrote};
ghost use Rattle.write.specs.Writes.{HasRoom, AtMost, Writes};
ghost use Rattle.write.specs.Field.{short_field};
ghost use Rattle.weights_report.specs.WeightLine.{weight_line, weights_room};

use rules::ZoneWeights;
use write::Writer;

// `weights`, a field of 32 bits for each zone, LF.
pub const WEIGHTS_ROOM: usize = 7 + rules::ZONES * write::SHORT_FIELD + 1;

// A field for each of the numbers, one behind the other.
#[tactic(auto, using(write::proofs::FieldLaws::field_short))]
fn put_fields(w: &mut Writer, numbers: &[u32])
    requires { HasRoom w.old (short_field * length numbers.now) }
    ensures wrote { Writes w.old (fields numbers.now) w.new }
    ensures upper_bound { AtMost w.old (short_field * length numbers.now) w.new }
{
    for n in numbers {
        w.field(*n as u64);
    }
}

// The line `weights,w0,w1,w2,w3,w4,w5,w6,w7`, with which a table text begins.
pub fn put_weights(out: &mut [u8], at: usize, w: ZoneWeights) -> usize
    requires { at + weights_room ≤ length out.old }
    ensures wrote { Wrote out.old at out.new result (weight_line w) }
    ensures upper_bound { result ≤ at + weights_room }
{
    let weights: [u32; rules::ZONES] = w.into();
    let mut line = Writer::new(out, at);
    line.bytes(b"weights");
    put_fields(&mut line, &weights);
    line.byte(b'\n');
    line.end()
}
