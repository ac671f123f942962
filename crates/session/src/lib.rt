// A session: one reference at a time, under LRU or LFU, readable at any moment. Its state is a small value beside three
// tables that the caller lends, so that a reference copies no table; C lends each by a pointer of its own, so they are
// parameters and not one struct; what they hold together is a function of the session's
// history (specs/Memory.antt). No call asks anything of them: it says what it makes of any memory (specs/AnyMemory.antt).
#![tactic(auto)]

ghost use Rattle.std.specs.Prelude.{◌≡◌};
ghost use Rattle.session.specs.Answers.{Starting, Referring, OfSession};
ghost use Rattle.session.specs.Lent.{lent_of};

mod reads;
mod soundness;
mod tests;

use kept::DEPTHS;
pub use reads::{hits, list, misses, references};
use rules::{CAPACITIES, PAGES, Page, Policy, REFERENCES, Refusal, is_capacity};
pub use soundness::sound;
pub use tests::{adds_up, countable, fits};

// The part of a session that is passed by value. Its policy is a number, as lent memory may hold any.
#[derive(Clone, Copy, Debug, PartialEq, Eq)]
pub struct Session {
    pub policy: u8,
    pub k: usize,
    pub length: usize,
    pub references: usize,
}

// The policy of a number that a session takes: LRU or LFU, since OPT looks ahead.
fn session_policy(number: u8) -> Result<Policy, Refusal>
    ensures { OfSession number result }
{
    match Policy::try_from(number)? {
        Policy::Opt => Err(Refusal::BadPolicy),
        policy => Ok(policy),
    }
}

// Starts a session under a policy with a list of `k` places, in tables of any content. Any number is answered for a policy. A
// refused start gives no session and leaves the tables as they are.
pub fn start(
    policy: u8,
    k: usize,
    places: &mut [u32; CAPACITIES],
    depths: &mut [u32; DEPTHS],
    counts: &mut [u16; PAGES as usize],
) -> Result<Session, Refusal>
    ensures { Starting policy k
        places.old depths.old counts.old
        places.new depths.new counts.new result }
{
    session_policy(policy)?;
    if !is_capacity(k) {
        return Err(Refusal::BadLimit);
    }
    *places = [0; CAPACITIES];
    *depths = [0; DEPTHS];
    *counts = [0; PAGES as usize];
    Ok(Session {
        policy,
        k,
        length: 0,
        references: 0,
    })
}

// One reference. An accepted one answers its depth, or 0 if the page was not in the list; a refused one leaves everything as
// it is.
pub fn refer(
    s: &mut Session,
    page: Page,
    places: &mut [u32; CAPACITIES],
    depths: &mut [u32; DEPTHS],
    counts: &mut [u16; PAGES as usize],
) -> Result<usize, Refusal>
    ensures { Referring
        (lent_of s.old places.old depths.old counts.old) page.0
        (lent_of s.new places.new depths.new counts.new) result }
{
    if REFERENCES <= s.references {
        return Err(Refusal::SessionFull);
    }
    if PAGES <= page.0 {
        return Err(Refusal::BadPage(0));
    }
    // LRU and LFU look nothing up
    let depth = run::refer_all(
        s.policy,
        s.k,
        &[page.0],
        &[0],
        0,
        &mut s.length,
        places,
        depths,
        counts,
    );
    s.references += 1;
    Ok(depth)
}
