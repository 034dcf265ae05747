// The table program: a text on standard input, its run-length table on standard output.
#![tactic(auto)]

ghost use Rattle.write.specs.Printed.{printed_bytes, OutputIs};
ghost use Rattle.table_report.specs.TableReport.{table_printed};

use output::Failure;
use table_report::{TABLE_SIZE, table_output};

fn main(rt: HostRuntime) -> Result<(), Failure> {
    let mut report = [0u8; TABLE_SIZE];
    output::run(
        &mut rt.stdin(),
        &mut rt.stdout(),
        &mut report,
        |text: &[u8], report: &mut [u8; TABLE_SIZE]| -> usize
            ensures { OutputIs report.old report.new result (printed_bytes (table_printed text.now)) }
        { table_output(text, report) },
    )
}
