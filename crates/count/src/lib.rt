// Counting whole traces, and the list of a trace. A trace is lent and read by index; any trace, policy, limit and table is
// answered. What the promises say stands in specs/Count.antt (which refusal and place, which hits) and specs/Listing.antt
// (which list).
#![tactic(auto)]

ghost use Rattle.count.specs.Count.{Counted};
ghost use Rattle.count.specs.Listing.{Showing};

mod checks;
mod runs;

use kept::Listing;
use rules::Refusal;

// Counts the hits of a trace at each capacity from 1 to `k`, all in one pass, into the first `k` entries of `hits`. The policy is
// a number, any number, as in `list`: one that no policy has is refused.
pub fn count(trace: &[u16], policy: u8, k: usize, hits: &mut [u32]) -> Result<(), Refusal>
    ensures { Counted trace.now policy k hits.old hits.new result }
{
    let policy = checks::limits(policy, k, trace.len())?;
    if hits.len() < k {
        return Err(Refusal::ShortTable);
    }
    checks::all_pages(trace)?;
    let run = runs::run_policy(trace, policy, k, trace.len());
    kept::fill(&run.depths, k, hits);
    Ok(())
}

// The list of a trace after its first `t` references; the rest of the trace is OPT's future. A refusal shows no list.
pub fn list(trace: &[u16], policy: u8, k: usize, t: usize) -> Result<Listing, Refusal>
    ensures { Showing trace.now policy k t result }
{
    let policy = checks::limits(policy, k, trace.len())?;
    checks::all_pages(trace)?;
    if trace.len() < t {
        return Err(Refusal::PastTheTrace);
    }
    let run = runs::run_policy(trace, policy, k, t);
    let length = run.length;
    let places = kept::show(&run.list, length);
    Ok(Listing { length, places })
}
