// The monitor program: a text on standard input; on standard output a line for each of its points, and a total for each node.
#![tactic(auto)]

ghost use Rattle.write.specs.Printed.{printed_bytes, OutputIs};
ghost use Rattle.monitor_report.specs.MonitorReport.{monitor_printed};

use monitor_report::{MONITOR_SIZE, monitor_output};
use output::Failure;

fn main(rt: HostRuntime) -> Result<(), Failure> {
    let mut report = [0u8; MONITOR_SIZE];
    output::run(
        &mut rt.stdin(),
        &mut rt.stdout(),
        &mut report,
        |text: &[u8], report: &mut [u8; MONITOR_SIZE]| -> usize
            ensures { OutputIs report.old report.new result (printed_bytes (monitor_printed text.now)) }
        { monitor_output(text, report) },
    )
}
