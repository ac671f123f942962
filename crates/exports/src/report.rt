// The report for callers in C and Rust.
ghost use Rattle.report_theory.specs.Report.{report as report_of};
ghost use Rattle.report_theory.specs.Buffer.{Printed};

use report_text::REPORT;

// Writes the report of a trace file, any bytes at all, and answers its length.
#[unsafe(no_mangle)]
pub extern "C" fn musselrung_report(file: &[u8], out: &mut [u8; REPORT]) -> usize
    ensures { Printed (report_of file.now) out.old result out.new }
{
    report_text::report(file, out)
}
