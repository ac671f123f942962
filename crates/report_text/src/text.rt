// The texts of a report, written into the lent buffer from a place on: each function answers the place behind what it wrote. A
// line that was a text of its own, by the kit's arrayvec and itoa, and was put there then, took three and a half times the
// instructions; and these digits rest on no library but std.
ghost use Rattle.std.specs.Prelude.{◌≡◌, [], ◌∷◌, ◌+◌, ◌≤◌, ◌<◌, length};
ghost use Rattle.rules.specs.Refusals.{refusal_number};
ghost use Rattle.report_theory.specs.Text.{decimal};
ghost use Rattle.report_theory.specs.Report.{
  line as line_of,
  ending as ending_of,
  refused_line as refused_line_of,
};
ghost use Rattle.report_theory.specs.Buffer.{Wrote};
ghost use Rattle.report_theory.specs.Pieces.{number_then};

use crate::REPORT;
use rules::Refusal;

// No line is longer: four numbers of ten digits, three spaces and a newline.
pub const LINE: usize = 44;

fn write_byte(out: &mut [u8], at: usize, b: u8) -> usize
    requires { at < length out.old }
    ensures { Wrote at (b ∷ []) out.old result out.new }
{
    out[at] = b;
    at + 1
}

// Puts a text into a buffer from a place on, and answers the place behind it. A struct that holds the buffer and the
// place is no plainer: each function that is passed it would have to name its loan.
#[tactic(auto, unfolding(report_theory::specs::Buffer::written))]
pub(crate) fn put(out: &mut [u8], at: usize, text: &str) -> usize
    requires { at + length text.now ≤ length out.old }
    ensures { Wrote at text.now out.old result out.new }
{
    let end = at + text.len();
    out[at..end].copy_from_slice(text.as_bytes());
    end
}

// Digits by recursion, as in the definition: those of the tenth first.
fn write_decimal(out: &mut [u8], at: usize, n: u32) -> usize
    requires { at + length (decimal n) ≤ length out.old }
    ensures { Wrote at (decimal n) out.old result out.new }
{
    if n < 10 {
        write_byte(out, at, 48 + n as u8)
    } else {
        let next = write_decimal(out, at, n / 10);
        write_byte(out, next, 48 + (n % 10) as u8)
    }
}

// A number and the byte behind it.
fn write_number(out: &mut [u8], at: usize, n: u32, behind: u8) -> usize
    requires { at + length (decimal n) + 1 ≤ length out.old }
    ensures { Wrote at (number_then n behind) out.old result out.new }
{
    let next = write_decimal(out, at, n);
    write_byte(out, next, behind)
}

// The line of a capacity: its hits under the three policies.
pub(crate) fn write_line(
    out: &mut [u8],
    at: usize,
    capacity: u32,
    lru: u32,
    lfu: u32,
    opt: u32,
) -> usize
    requires { at + length (line_of capacity lru lfu opt) ≤ length out.old }
    ensures { Wrote at (line_of capacity lru lfu opt) out.old result out.new }
{
    let after_capacity = write_number(out, at, capacity, b' ');
    let after_lru = write_number(out, after_capacity, lru, b' ');
    let after_lfu = write_number(out, after_lru, lfu, b' ');
    write_number(out, after_lfu, opt, b'\n')
}

// The last line.
pub(crate) fn write_ending(out: &mut [u8], at: usize, references: u32) -> usize
    requires { at + length (ending_of references) ≤ length out.old }
    ensures { Wrote at (ending_of references) out.old result out.new }
{
    let next = put(out, at, "references ");
    write_number(out, next, references, b'\n')
}

// The one line of a refused file.
pub(crate) fn write_refused(out: &mut [u8; REPORT], refusal: Refusal) -> usize
    ensures { Wrote 0 (refused_line_of (refusal_number refusal)) out.old result out.new }
{
    let at = put(out, 0, "refused ");
    write_number(out, at, u32::from(refusal.number()), b'\n')
}
