// Prints the report of the trace file on standard input: reads, calls, writes. What a report is and how much of
// a longer input has to be read is promised in crate report_text. No promise can name the bytes of standard
// input and output; the one here is for each reader and writer whose bytes it can name.
#![tactic(auto)]

ghost use Rattle.std.specs.Prelude.{◌≡◌, IfOk, IfSome, OnOk, length, take};
ghost use Rattle.std.specs.Io.KnownBytes.{Appends};
ghost use Rattle.report_theory.specs.Report.{report};

use report_text::{INPUT, REPORT};
use std::io;
use std::io::{Read, Write};

// Reads until the buffer is full or the input ends, and answers how many bytes came. `read_exact` does not say
// what came of an input that ends before, and `read_to_end` takes memory from the heap.
fn fill<R: Read>(reader: &mut R, buffer: &mut [u8]) -> io::Result<usize>
    ensures { IfOk result (λ n. IfSome (R.remaining reader.old) (λ input.
        take n buffer.new ≡ take (length buffer.new) input)) }
{
    let mut n = 0;
    while n < buffer.len() {
        match reader.read(&mut buffer[n..])? {
            0 => return Ok(n),
            more => n += more,
        }
    }
    Ok(n)
}

// Writes the report of all that the reader has left, and nothing else.
fn write_report<R: Read, W: Write>(reader: &mut R, writer: &mut W) -> io::Result<()>
    ensures { OnOk result (IfSome (R.remaining reader.old) (λ input.
        Appends (W.contents writer.old) (W.contents writer.new) (report input))) }
{
    let mut input = [0u8; INPUT];
    let n = fill(reader, &mut input)?;
    let mut out = [0u8; REPORT];
    let m = report_text::report_input(&input, n, &mut out);
    writer.write_all(&out[..m])
}

fn main(rt: HostRuntime) -> io::Result<()> {
    write_report(&mut rt.stdin(), &mut rt.stdout())
}
