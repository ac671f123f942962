// The hits of a trace under the three policies, counted, and read off at a capacity.
ghost use Rattle.std.specs.Prelude.{◌≡◌, ◌+◌, ◌≤◌, length};
ghost use Rattle.rules.specs.Policies.{policy_number};
ghost use Rattle.file_theory.specs.RoundTrip.{GoodReferences};
ghost use Rattle.report_theory.specs.Lines.{Holds, hits_in, longest_line, table_line};
ghost use Rattle.report_theory.specs.Buffer.{Wrote};
ghost use Rattle.report_text.specs.Tables.{AllHold};

use crate::text::write_line;
use rules::{CAPACITIES, Policy};

// Entry C - 1 of a table is a policy's hits at C frames (rule A4).
#[derive(Drop)]
pub(crate) struct Hits {
    lru: [u32; CAPACITIES],
    lfu: [u32; CAPACITIES],
    opt: [u32; CAPACITIES],
}

impl Hits {
    // Each policy is counted once, for every capacity at a time.
    pub(crate) fn of(references: &[u16]) -> Hits
        requires { GoodReferences references.now }
        ensures { AllHold references.now result.lru result.lfu result.opt }
    {
        let mut hits = Hits {
            lru: [0; CAPACITIES],
            lfu: [0; CAPACITIES],
            opt: [0; CAPACITIES],
        };
        count(references, Policy::Lru, &mut hits.lru);
        count(references, Policy::Lfu, &mut hits.lfu);
        count(references, Policy::Opt, &mut hits.opt);
        hits
    }

    // The line of a capacity, which takes no more room than the longest.
    #[tactic(auto, using(report_theory::specs::Lines::line_short))]
    pub(crate) fn write_line(&self, out: &mut [u8], at: usize, capacity: u16) -> usize
        requires { at + longest_line ≤ length out.old }
        ensures line { Wrote at (table_line self.now.lru self.now.lfu self.now.opt capacity) out.old result out.new }
        ensures room { result ≤ at + longest_line }
    {
        let lru = entry(&self.lru, capacity);
        let lfu = entry(&self.lfu, capacity);
        let opt = entry(&self.opt, capacity);
        write_line(out, at, u32::from(capacity), lru, lfu, opt)
    }
}

// The hits of one policy. Counting refuses no accepted trace.
fn count(references: &[u16], policy: Policy, hits: &mut [u32; CAPACITIES])
    requires { GoodReferences references.now }
    ensures { Holds (policy_number policy) references.now hits.new }
{
    let _ = count::count(references, u8::from(policy), CAPACITIES, hits);
}

// The hits at a capacity: none where a table has no entry, so that no caller has to carry a bound.
fn entry(table: &[u32], capacity: u16) -> u32
    ensures { result ≡ hits_in table.now capacity }
{
    let index = usize::from(capacity).checked_sub(1);
    index.and_then(|i| table.get(i)).copied().unwrap_or(0)
}
