// What the monitor program prints for a text.
ghost use Rattle.std.specs.Prelude.{◌≡◌};
ghost use Rattle.write.specs.Printed.{report, report_of, printed_bytes, OutputIs};
ghost use Rattle.monitor_report.specs.MonitorReport.{monitor_printed};

use crate::MONITOR_SIZE;
use crate::points::put_points;
use monitor::Chart;
use rules::Refusal;
use write::put_answer;

// The monitor program's lines for a text, in the lent buffer; or the refusal, with the buffer as it was: 17; 16; 19; then 2, 3, 4; then 1,
// also where there are no points.
pub fn monitor_report(text: &[u8], out: &mut [u8; MONITOR_SIZE]) -> Result<usize, Refusal>
    ensures { report result out.new ≡ report_of (monitor_printed text.now) out.old }
{
    let read = monitor_text::monitor_text(text)?;
    read.list.check()?;
    let chart = Chart {
        centre: read.centre,
        sigma: read.sigma,
    };
    if !chart.sigma_fits() {
        return Err(Refusal::Sigma);
    }
    Ok(put_points(out, text, read.points, read.list, chart))
}

// The monitor program's output, from the buffer's start; what is behind it is kept.
pub fn monitor_output(text: &[u8], out: &mut [u8; MONITOR_SIZE]) -> usize
    ensures { OutputIs out.old out.new result (printed_bytes (monitor_printed text.now)) }
{
    let answer = monitor_report(text, out);
    put_answer(out, answer)
}
