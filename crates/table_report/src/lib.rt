// The table program: what it prints for a text.
#![tactic(auto)]

ghost use Rattle.std.specs.Prelude.{◌≡◌};
ghost use Rattle.write.specs.Printed.{report, report_of, printed_bytes, OutputIs};
ghost use Rattle.table_lines.specs.LargestHorizon.{report_horizon};
ghost use Rattle.table_report.specs.TableReport.{table_printed};

use rules::Refusal;
use summary::table_summary;
use table_lines::MAX_ROWS;
use write::put_answer;

// Room for the table program's lines at its largest horizon.
pub const TABLE_SIZE: usize = table_lines::TABLE_ROOM;

// A horizon over the largest is refused as 0 is.
fn report_horizon(h: u32) -> u32
    ensures { result ≡ report_horizon h }
{
    if h <= MAX_ROWS { h } else { 0 }
}

// The table program's lines for a text, in the lent buffer; or the refusal, with the buffer as it was: 17; 16; then the table's own, with 9
// also for a horizon over 4,096.
pub fn table_report(text: &[u8], out: &mut [u8; TABLE_SIZE]) -> Result<usize, Refusal>
    ensures { report result out.new ≡ report_of (table_printed text.now) out.old }
{
    let read = table_text::table_text(text)?;
    let horizon = report_horizon(read.horizon);
    let mut pmf = [0u64; MAX_ROWS as usize];
    let mut survival = [0u64; MAX_ROWS as usize];
    match table_summary(read.list, read.weights, horizon, &mut pmf, &mut survival) {
        Ok(summary) => Ok(table_lines::put_table(out, summary, horizon as usize, &pmf, &survival)),
        Err(refusal) => Err(refusal),
    }
}

// The table program's output, from the buffer's start; what is behind it is kept.
pub fn table_output(text: &[u8], out: &mut [u8; TABLE_SIZE]) -> usize
    ensures { OutputIs out.old out.new result (printed_bytes (table_printed text.now)) }
{
    let answer = table_report(text, out);
    put_answer(out, answer)
}
