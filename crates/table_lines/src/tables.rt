// All that the table program prints.
ghost use Rattle.std.specs.Prelude.{◌≤◌, length};
ghost use Rattle.runlength.specs.Scale.{units_per_one};
ghost use Rattle.runlength.specs.Chain.{cdf_of};
ghost use Rattle.write.specs.Wrote.{Wrote};
ghost use Rattle.table_lines.specs.LargestHorizon.{max_rows};
ghost use Rattle.table_lines.specs.TableLines.{table_bytes, table_room};

use crate::percents::put_percents;
use crate::row_lines::{put_arl, put_header, put_rows, put_standings};
use summary::Summary;
use write::Writer;

// The table program's output, from the buffer's start: a table's summary, and its rows up to the horizon.
pub fn put_table(
    out: &mut [u8],
    summary: Summary,
    horizon: usize,
    pmf: &[u64],
    survival: &[u64],
) -> usize
    requires table_room_in_bounds { table_room ≤ length out.old }
    requires horizon_le_max_rows { horizon ≤ max_rows }
    requires horizon_in_bounds { (horizon ≤ length pmf.now) × (horizon ≤ length survival.now) }
    requires horizon_bound { cdf_of pmf.now horizon ≤ units_per_one }
    ensures wrote { Wrote out.old 0 out.new result
        (table_bytes summary horizon pmf.now survival.now) }
    ensures upper_bound { result ≤ table_room }
{
    let figures = summary.figures;
    let mut w = Writer::new(out, 0);
    put_standings(&mut w, figures.state_count);
    put_header(&mut w);
    put_rows(&mut w, horizon, pmf, survival);
    put_arl(
        &mut w,
        figures.mean_whole,
        figures.mean_fraction,
        summary.error_bound,
    );
    put_percents(&mut w, summary);
    w.end()
}
