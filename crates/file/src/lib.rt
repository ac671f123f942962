// The trace file reader (rules F1 to F5, order O5). A client gets `read`, for any bytes at all, and
// `read_references` for the part that starts at the reference section; their contracts cite `trace_in` and
// `references_in` (crate file_theory). Nothing is written before all is checked, so a refusal leaves the lent
// tables alone.
#![tactic(auto)]

mod scan;

ghost use Rattle.file_theory.specs.Decoding.{references_in, trace_in};
ghost use Rattle.file_theory.specs.Promises.{PartRead, FileRead};

use file_theory::Counts;
use rules::{CAPACITIES, REFERENCES, Refusal};
use scan::{bytes_left, copy_values, first_bad_page, rising, section};

// The part of a file that starts at its reference section (rule F3): its references in the table and their number as
// the answer, or a refusal and the table as it was.
#[tactic(auto, using(file_theory::specs::Answers::part_refusals))]
pub fn read_references(part: &[u8], table: &mut [u16; REFERENCES]) -> Result<usize, Refusal>
    ensures { PartRead (references_in part.now) table.old result table.new }
{
    let (values, behind) = section(part, REFERENCES, Refusal::TooManyReferences)?;
    bytes_left(behind)?;
    first_bad_page(values)?;
    Ok(copy_values(values, table))
}

// A whole trace file, any bytes at all: its capacities and references in the two tables, which C lends, and their counts as
// the answer, or a refusal and the tables as they were (rules F4, A3). The capacities are written last: only then is
// all checked. Inlined, since a call of its own took half as long again where the first bytes are refused.
#[inline]
pub fn read(
    file: &[u8],
    capacities: &mut [u16; CAPACITIES],
    references: &mut [u16; REFERENCES],
) -> Result<Counts, Refusal>
    ensures { FileRead (trace_in file.now)
        capacities.old references.old result
        capacities.new references.new }
{
    let (values, behind) = section(file, CAPACITIES, Refusal::BadCapacities)?;
    if !rising(values) {
        return Err(Refusal::BadCapacities);
    }
    let references = read_references(behind, references)?;
    let capacities = copy_values(values, capacities);
    Ok(Counts {
        capacities,
        references,
    })
}
