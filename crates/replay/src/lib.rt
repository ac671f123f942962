// How another crate uses `session`: a trace is replayed through one, reference by reference, and the hits at all capacities
// are summed up from the depths that came. The session and its tables are local; the trace is their history, and session's
// promises say what its answers and its tables are for a history. The answer is that of `count` for the same trace.
#![tactic(auto)]

ghost use Rattle.replay.specs.Replayed.{Replayed};
ghost use Rattle.replay.specs.Steps.{Referable, Followed};
ghost use Rattle.session.specs.Lent.{lent_of};

use kept::DEPTHS;
use rules::{CAPACITIES, PAGES, Page, REFERENCES, Refusal};
use session::Session;

// Replays a trace under LRU or LFU, and writes the hits at each capacity from 1 to `k` into the first `k` entries of `hits`. Any
// number is answered for a policy. Refusals 2 and 4 are tested here, as any client of a session that counts a trace has to.
pub fn replay(trace: &[u16], policy: u8, k: usize, hits: &mut [u32]) -> Result<(), Refusal>
    ensures { Replayed trace.now policy k hits.old hits.new result }
{
    let mut places = [0; CAPACITIES];
    let mut depths = [0; DEPTHS];
    let mut counts = [0; PAGES as usize];
    let mut s = session::start(policy, k, &mut places, &mut depths, &mut counts)?;
    if REFERENCES < trace.len() {
        return Err(Refusal::TooManyReferences);
    }
    if hits.len() < k {
        return Err(Refusal::ShortTable);
    }
    refer_all(&mut s, trace, &mut places, &mut depths, &mut counts)?;
    kept::fill(&depths, k, hits);
    Ok(())
}

// The trace's references, up to the first that is refused. There is room for all of them, so that one is no page; its place
// is its index. The tables are in parts, as a session takes them.
fn refer_all(
    s: &mut Session,
    trace: &[u16],
    places: &mut [u32; CAPACITIES],
    depths: &mut [u32; DEPTHS],
    counts: &mut [u16; PAGES as usize],
) -> Result<(), Refusal>
    requires { Referable trace.now (lent_of s.old places.old depths.old counts.old) }
    ensures { Followed trace.now
        (lent_of s.old places.old depths.old counts.old)
        (lent_of s.new places.new depths.new counts.new) result }
{
    for (i, &page) in trace.iter().enumerate() {
        if session::refer(s, Page(page), places, depths, counts).is_err() {
            return Err(Refusal::BadPage(i));
        }
    }
    Ok(())
}
