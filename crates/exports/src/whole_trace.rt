// Whole traces, and the list of a trace, for callers in C and Rust.
ghost use Rattle.std.specs.Prelude.{map, ◌≡◌};
ghost use Rattle.rules.specs.Told.{told};
ghost use Rattle.exports.specs.Told.{told_with};
ghost use Rattle.exports.specs.Trace.{CountTold, ListTold, page_number};

use rules::{CAPACITIES, Page, Refusal, tell};

// An answer that gives back nothing but lent memory: the value beside a 0 is 0.
fn tell_answer(answer: Result<(), Refusal>, value: &mut usize) -> u32
    ensures { told result value.new ≡ told_with answer 0 }
{
    tell(answer.map(|()| 0), value)
}

// Counts the hits of a trace at each capacity from 1 to `k` into the first `k` entries of `hits`. The value is 0, or the
// refusal's place.
#[unsafe(no_mangle)]
pub extern "C" fn musselrung_count(
    trace: &[u16],
    policy: u32,
    k: usize,
    hits: &mut [u32],
    value: &mut usize,
) -> u32
    ensures { CountTold trace.now policy k
        hits.old hits.new (told result value.new) }
{
    let answer = count::count(trace, rules::byte_of(policy), k, hits);
    tell_answer(answer, value)
}

// The page numbers of places. Written out: of an array's `map` the proof that these are the numbers did not close.
pub(crate) fn page_numbers(shown: [Page; CAPACITIES]) -> [u16; CAPACITIES]
    ensures { result ≡ map page_number shown }
{
    let mut numbers = [0u16; CAPACITIES];
    for i in 0..CAPACITIES {
        numbers[i] = shown[i].0;
    }
    numbers
}

// The list of a trace after its first `t` references: its places, and as the value how many are in use, or the refusal's
// place.
#[unsafe(no_mangle)]
pub extern "C" fn musselrung_list(
    trace: &[u16],
    policy: u32,
    k: usize,
    t: usize,
    places: &mut [u16; CAPACITIES],
    value: &mut usize,
) -> u32
    ensures { ListTold trace.now policy k t
        places.old places.new (told result value.new) }
{
    match count::list(trace, rules::byte_of(policy), k, t) {
        Ok(listing) => {
            *places = page_numbers(listing.places);
            tell(Ok(listing.length), value)
        }
        Err(refusal) => tell(Err(refusal), value),
    }
}
