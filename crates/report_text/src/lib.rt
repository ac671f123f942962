// The report's bytes (rules T1 and T2), written into a lent buffer. A client gets `report`, for any bytes at
// all, and `report_input`, for a program that stops reading when its buffer is full (rule F5); their contracts
// cite `report` of crate report_theory, a definition of the file's bytes.
#![tactic(auto)]

mod hits;
mod text;

ghost use Rattle.std.specs.Prelude.{Ok};
ghost use Rattle.file_theory.specs.RoundTrip.{GoodTrace};
ghost use Rattle.report_theory.specs.Report.{report_for, report as report_of};
ghost use Rattle.report_theory.specs.Buffer.{Wrote, Printed};
ghost use Rattle.report_theory.specs.Input.{InputPrinted};

use hits::Hits;
use rules::{CAPACITIES, REFERENCES};
use text::{LINE, put, write_ending, write_refused};

// The bytes of an input that are looked at: two counts, as many values as the limits allow, and one byte more.
pub const INPUT: usize = 5 + 2 * CAPACITIES + 2 * REFERENCES;

// Room for the longest report: a line for each capacity, and the first and the last line.
pub const REPORT: usize = 64 + LINE * CAPACITIES;

// The report of an accepted trace.
fn write_trace(out: &mut [u8; REPORT], capacities: &[u16], references: &[u16]) -> usize
    requires { GoodTrace (record { caps = capacities.now; refs = references.now }) }
    ensures { Wrote 0
        (report_for (Ok (record { caps = capacities.now; refs = references.now })))
        out.old result out.new }
{
    let hits = Hits::of(references);
    let mut at = put(out, 0, "capacity lru lfu opt\n");
    for &capacity in capacities {
        at = hits.write_line(out, at, capacity);
    }
    write_ending(out, at, references.len() as u32)
}

// The report of a file, any bytes at all: how many bytes of the buffer it takes. What stood behind them stays.
pub fn report(file: &[u8], out: &mut [u8; REPORT]) -> usize
    ensures { Printed (report_of file.now) out.old result out.new }
{
    let mut capacities = [0u16; CAPACITIES];
    let mut references = [0u16; REFERENCES];
    match file::read(file, &mut capacities, &mut references) {
        Ok(counts) => write_trace(
            out,
            &capacities[..counts.capacities],
            &references[..counts.references],
        ),
        Err(refusal) => write_refused(out, refusal),
    }
}

// The report of a whole input, of which the first `n` bytes of the buffer came before the buffer was full or the
// input ended. The whole buffer is taken, and not its first bytes: that it has this length is what the promise needs.
pub fn report_input(input: &[u8; INPUT], n: usize, out: &mut [u8; REPORT]) -> usize
    ensures { InputPrinted input.now n out.old result out.new }
{
    report(&input[..n.min(INPUT)], out)
}
