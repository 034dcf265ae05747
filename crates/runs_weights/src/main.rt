// The weights program: a shift on standard input, the weights line of a core that is so shifted on standard output.
#![tactic(auto)]

ghost use Rattle.write.specs.Printed.{printed_bytes, OutputIs};
ghost use Rattle.weights_report.specs.WeightsReport.{weights_printed};

use output::Failure;
use weights_report::{WEIGHTS_SIZE, weights_output};

fn main(rt: HostRuntime) -> Result<(), Failure> {
    let mut report = [0u8; WEIGHTS_SIZE];
    output::run(
        &mut rt.stdin(),
        &mut rt.stdout(),
        &mut report,
        |text: &[u8], report: &mut [u8; WEIGHTS_SIZE]| -> usize
            ensures { OutputIs report.old report.new result (printed_bytes (weights_printed text.now)) }
        { weights_output(text, report) },
    )
}
