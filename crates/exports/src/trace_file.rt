// The file reader for callers in C and Rust.
ghost use Rattle.rules.specs.Told.{told};
ghost use Rattle.file_theory.specs.Decoding.{trace_in};
ghost use Rattle.exports.specs.File.{FileTold};

use rules::{CAPACITIES, REFERENCES, tell};

// Reads a trace file into two lent tables, with the counts of their values in a third. The value is 0, or the refusal's
// place.
#[unsafe(no_mangle)]
pub extern "C" fn musselrung_read(
    file: &[u8],
    capacities: &mut [u16; CAPACITIES],
    references: &mut [u16; REFERENCES],
    counts: &mut [usize; 2],
    value: &mut usize,
) -> u32
    ensures { FileTold (trace_in file.now)
        capacities.old references.old counts.old (told result value.new)
        capacities.new references.new counts.new }
{
    match file::read(file, capacities, references) {
        Ok(read) => {
            counts[0] = read.capacities;
            counts[1] = read.references;
            tell(Ok(0), value)
        }
        Err(refusal) => tell(Err(refusal), value),
    }
}
