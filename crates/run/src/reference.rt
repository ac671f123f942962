// References to all that is kept of a run, by the policy's number: the loop and the step that whole traces and sessions share, a
// session with one page at a time. They take any memory and any numbers, so nobody has to have checked them. The step is
// called in one place only, so that the compiler can put it into the loop.
ghost use Rattle.std.specs.Prelude.{◌-◌, ◌≡◌, get_or};
ghost use Rattle.kept.specs.Entries.{entry as «entry_of», always};
ghost use Rattle.run.specs.Referred.{count_in, count_stored, Ranking, Tallied, Ranked, Referred};
ghost use Rattle.run.specs.ReferredAll.{run_memory, ReferredAll};
ghost use Rattle.rules.specs.Policies.{policy_number};

use crate::counting::count_depth;
use kept::{DEPTHS, entry};
use rules::{CAPACITIES, PAGES, Policy};
use step::{Step, place, shift};

// How often a page was referenced; a number that is no page never was.
#[tactic(auto, unfolding(crate::specs::Referred::count_in))]
fn count_of(counts: &[u16; PAGES as usize], page: u16) -> u16
    ensures { result ≡ count_in counts.now page }
{
    counts.get(usize::from(page)).copied().unwrap_or(0)
}

// Keeps the count of a page, and of nothing else.
#[tactic(auto, unfolding(crate::specs::Referred::count_stored))]
fn keep_count(counts: &mut [u16; PAGES as usize], page: u16, count: u16)
    ensures { counts.new ≡ count_stored page count counts.old }
{
    if page < PAGES {
        counts[page as usize] = count;
    }
}

// A reference: its page, how near it is itself, counted from the trace's end, and how near the next one to the page is. OPT
// alone is told the last two.
#[derive(Clone, Copy, Debug, PartialEq, Eq)]
struct Reference {
    page: u16,
    near: u16,
    next: u16,
}

// The rank of the referenced page: now, and from this reference on.
#[derive(Clone, Copy, Debug, PartialEq, Eq)]
struct Ranks {
    now: u16,
    then: u16,
}

// LFU ranks by the count, and keeps one more; OPT was told both. One test of the policy does for all three: OPT under strong
// locality took 13.3 ns a reference, and 14.1 with a test for each.
fn ranks_of(policy: Policy, reference: Reference, counts: &mut [u16; PAGES as usize]) -> Ranks
    ensures { Ranking (policy_number policy) reference.page reference.near reference.next
        counts.old counts.new result }
{
    match policy {
        Policy::Lfu => {
            let count = count_of(counts, reference.page);
            let one_more = count.saturating_add(1);
            keep_count(counts, reference.page, one_more);
            Ranks {
                now: count,
                then: one_more,
            }
        }
        Policy::Lru | Policy::Opt => Ranks {
            now: reference.near,
            then: reference.next,
        },
    }
}

// Under LRU the list shifts, and no rank is asked for.
fn refer_unranked(
    page: u16,
    n: usize,
    k: usize,
    places: &mut [u32; CAPACITIES],
    depths: &mut [u32; DEPTHS],
) -> Step
    ensures { Tallied always k («entry_of» (λ p. 0) page) («entry_of» (λ p. 0) page) n
        places.old depths.old places.new depths.new result }
{
    let s = shift(places, n, k, entry(0, page));
    count_depth(depths, s.depth);
    s
}

// Under LFU and OPT the page is placed by its rank.
fn refer_ranked(
    policy: Policy,
    reference: Reference,
    n: usize,
    k: usize,
    places: &mut [u32; CAPACITIES],
    depths: &mut [u32; DEPTHS],
    counts: &mut [u16; PAGES as usize],
) -> Step
    ensures { Ranked (policy_number policy) reference.page reference.near reference.next n k
        places.old depths.old counts.old
        places.new depths.new counts.new result }
{
    let ranks = ranks_of(policy, reference, counts);
    let old = entry(ranks.now, reference.page);
    let new = entry(ranks.then, reference.page);
    let s = place(places, n, k, old, new);
    count_depth(depths, s.depth);
    s
}

// A reference to a page, in a list of `n` places that may grow to `k`.
fn refer(
    policy: Policy,
    reference: Reference,
    n: usize,
    k: usize,
    places: &mut [u32; CAPACITIES],
    depths: &mut [u32; DEPTHS],
    counts: &mut [u16; PAGES as usize],
) -> Step
    ensures { Referred (policy_number policy) reference.page reference.near reference.next n k
        places.old depths.old counts.old
        places.new depths.new counts.new result }
{
    match policy {
        Policy::Lru => refer_unranked(reference.page, n, k, places, depths),
        Policy::Lfu | Policy::Opt => refer_ranked(policy, reference, n, k, places, depths, counts),
    }
}

// What was found ahead for the reference `i`, or 0 where nothing was looked for.
fn next_at(nexts: &[u16], i: usize) -> u16
    ensures { result ≡ get_or nexts.now i 0 }
{
    nexts.get(i).copied().unwrap_or(0)
}

// How many references are left from the reference `i` on: no more than `left`, so it fits.
fn left_at(left: u16, i: usize) -> u16
    ensures { result ≡ left - i }
{
    usize::from(left).saturating_sub(i) as u16
}

// References to pages, one after the other, in a list of `n` places that may grow to `k`: each depth is counted, and the
// answer is the last one. Where the policy looks ahead, `left` is how many references the trace has from the first of these
// on, and `nexts` has each one's next rank. A number that no policy has is taken as OPT's. What
// is kept is lent in its parts, as C lends a session.
pub fn refer_all(
    policy: u8,
    k: usize,
    pages: &[u16],
    nexts: &[u16],
    left: u16,
    n: &mut usize,
    places: &mut [u32; CAPACITIES],
    depths: &mut [u32; DEPTHS],
    counts: &mut [u16; PAGES as usize],
) -> usize
    ensures { ReferredAll policy k pages.now nexts.now left
        (run_memory n.old places.old depths.old counts.old)
        (run_memory n.new places.new depths.new counts.new) result }
{
    let policy = Policy::try_from(policy).unwrap_or(Policy::Opt);
    let mut length = *n;
    let mut depth = 0;
    for (i, &page) in pages.iter().enumerate() {
        let reference = Reference {
            page,
            near: left_at(left, i),
            next: next_at(nexts, i),
        };
        let s = refer(policy, reference, length, k, places, depths, counts);
        length = s.length;
        depth = s.depth;
    }
    *n = length;
    depth
}
