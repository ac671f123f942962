// How often each depth came: a table with a place for each depth from 0, which stands for "not in the list".
ghost use Rattle.kept.specs.Filled.{filled};
ghost use Rattle.kept.specs.Tally.{up_to};
ghost use Rattle.rules.specs.Limits.{capacities};
ghost use Rattle.std.specs.Prelude.{min, ◌≤◌, length, sum as «sum_of», ◌≡◌};

use crate::in_use;
use rules::CAPACITIES;

pub const DEPTHS: usize = CAPACITIES + 1;

// How many references had a depth from 1 to `c`.
#[tactic(auto, using(crate::specs::Tally::up_to_sum))]
pub fn sum(depths: &[u32; DEPTHS], c: usize) -> usize
    ensures { result ≡ up_to depths.now (min c capacities) }
{
    let last = in_use(c, CAPACITIES);
    total(&depths[1..last + 1])
}

// The counts together, in a wider type: so many of 32 bits fit. By `as`, since std has no `From` of 32 bits for `usize`.
fn total(counts: &[u32]) -> usize
    requires { length counts.now ≤ capacities }
    ensures { result ≡ «sum_of» counts.now }
{
    counts.iter().map(|&count| count as usize).sum()
}

// Fills a hit table: the sum at each capacity from 1 to `k`, into the first `k` entries. One sum runs over the depths and is
// written down at each, so that a depth is read once, whatever `k`. The sums of a run fit, but memory may hold any counts.
pub fn fill(depths: &[u32; DEPTHS], k: usize, hits: &mut [u32])
    ensures { hits.new ≡ filled depths.now k hits.old }
{
    let last = in_use(in_use(k, hits.len()), CAPACITIES);
    let mut total = 0u32;
    for c in 0..last {
        total = total.wrapping_add(depths[c + 1]);
        hits[c] = total;
    }
}
