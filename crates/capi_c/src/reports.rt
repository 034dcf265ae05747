// The programs' reports, exported.
ghost use Rattle.std.specs.Prelude.{◌≡◌};
ghost use Rattle.table_report.specs.TableReport.{table_printed};
ghost use Rattle.monitor_report.specs.MonitorReport.{monitor_printed};
ghost use Rattle.weights_report.specs.WeightsReport.{weights_printed};
ghost use Rattle.capi.specs.ReportCall.{ReportCall};

// The table program's lines for a text: `table_report::table_report`. Answers 0, with the lines in `out` and their number of bytes in `bytes`; or
// answers the refusal and alters nothing.
#[unsafe(no_mangle)]
pub extern "C" fn catrovindy_table_report(
    text: &[u8],
    out: &mut [u8; table_report::TABLE_SIZE],
    bytes: &mut [u64; 1],
) -> u64
    ensures { ReportCall (table_printed text.now) out.old bytes.old out.new bytes.new result }
{
    capi::catrovindy_table_report(text, out, bytes)
}

// The monitor program's lines for a text: `monitor_report::monitor_report`. Answers 0, with the lines in `out` and their number of bytes in `bytes`;
// or answers the refusal and alters nothing.
#[unsafe(no_mangle)]
pub extern "C" fn catrovindy_monitor_report(
    text: &[u8],
    out: &mut [u8; monitor_report::MONITOR_SIZE],
    bytes: &mut [u64; 1],
) -> u64
    ensures { ReportCall (monitor_printed text.now) out.old bytes.old out.new bytes.new result }
{
    capi::catrovindy_monitor_report(text, out, bytes)
}

// The weights program's line for a text: `weights_report::weights_report`. Answers 0, with the line in `out` and its number of bytes in `bytes`; or
// answers the refusal and alters nothing.
#[unsafe(no_mangle)]
pub extern "C" fn catrovindy_weights_report(
    text: &[u8],
    out: &mut [u8; weights_report::WEIGHTS_SIZE],
    bytes: &mut [u64; 1],
) -> u64
    ensures { ReportCall (weights_printed text.now) out.old bytes.old out.new bytes.new result }
{
    capi::catrovindy_weights_report(text, out, bytes)
}
