// A run over the first references of an accepted trace: the entries of the list, and how often each depth came.
ghost use Rattle.count.specs.Runs.{Fit, Ran, Followable, LookAhead};
ghost use Rattle.kept.specs.Nexts.{nexts as «of_nexts»};
ghost use Rattle.rules.specs.Policies.{policy_number};
ghost use Rattle.std.specs.Prelude.{length, drop, ◌++◌, ◌≡◌};

use kept::DEPTHS;
use rules::{CAPACITIES, PAGES, Policy, REFERENCES};

// The array of entries and the places in use stand apart, as `run::refer_all` is lent them.
#[derive(Clone, Copy, Debug, PartialEq, Eq)]
pub struct Run {
    pub list: [u32; CAPACITIES],
    pub length: usize,
    pub depths: [u32; DEPTHS],
}

// A run under a policy. OPT looks ahead first; LRU and LFU have nothing to look up.
pub(crate) fn run_policy(trace: &[u16], policy: Policy, k: usize, t: usize) -> Run
    requires { Fit trace.now k t }
    ensures { Ran (policy_number policy) trace.now k t result }
{
    match policy {
        Policy::Lru | Policy::Lfu => follow(trace, policy, k, t, &trace[..0]),
        Policy::Opt => {
            let mut nexts = [0u16; REFERENCES];
            look_ahead(trace, &mut nexts);
            follow(trace, policy, k, t, &nexts)
        }
    }
}

// The first `t` references of an accepted trace, whose length fits 16 bits. `nexts` has each reference's next rank where the
// policy looks ahead.
fn follow(trace: &[u16], policy: Policy, k: usize, t: usize, nexts: &[u16]) -> Run
    requires { Followable trace.now (policy_number policy) k t nexts.now }
    ensures { Ran (policy_number policy) trace.now k t result }
{
    let mut list = [0u32; CAPACITIES];
    let mut depths = [0u32; DEPTHS];
    let mut counts = [0u16; PAGES as usize];
    let mut length = 0;
    run::refer_all(
        u8::from(policy),
        k,
        &trace[..t],
        nexts,
        trace.len() as u16,
        &mut length,
        &mut list,
        &mut depths,
        &mut counts,
    );
    Run {
        list,
        length,
        depths,
    }
}

// For each reference, how near the next reference to its page is, counted from the trace's end: 0 if there is none, as the
// definitions have it. They stand in an array beside the trace, which is lent as it is.
fn look_ahead(trace: &[u16], nexts: &mut [u16; REFERENCES])
    requires { LookAhead trace.now nexts.old }
    ensures { nexts.new
        ≡ «of_nexts» trace.now ++ drop (length trace.now) nexts.old }
{
    let mut coming = [0u16; PAGES as usize];
    for i in (0..trace.len()).rev() {
        let page = trace[i] as usize;
        nexts[i] = coming[page];
        coming[page] = (trace.len() - i) as u16;
    }
}
