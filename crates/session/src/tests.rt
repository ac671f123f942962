// The tests that the exported calls make of a session that they are lent, since they cannot ask anything of it (rules X2,
// X3). A session that a start and calls gave passes them (specs/TestLaws.antt).
ghost use Rattle.std.specs.Prelude.{suc, ◌<◌, ◌≡◌};
ghost use Rattle.rules.specs.Limits.{capacities};
ghost use Rattle.session.specs.Tests.{fits as «fits_of», adds_up as «adds_up_of», countable as «countable_of», total};

use crate::{Session, session_policy};
use kept::DEPTHS;
use rules::{REFERENCES, is_capacity};

// X2: do its numbers fit?
#[tactic(auto, unfolding(crate::specs::Tests::fits))]
pub fn fits(s: Session) -> bool
    ensures { result ≡ «fits_of» s }
{
    session_policy(s.policy).is_ok()
        && is_capacity(s.k)
        && s.length <= s.k
        && s.references <= REFERENCES
}

// How often any depth came. `all_counts` is the same line over 16 bits, and `kept::sum` adds up a part of this table: one
// function for all would need a bound on what its conversion gives and on how long a list is, and be no plainer.
fn all_depths(depths: &[u32; DEPTHS]) -> usize
    ensures { result ≡ total depths.now (suc capacities) }
{
    depths.iter().map(|&count| count as usize).sum()
}

// X3: do its depths add up to its references?
#[tactic(auto, unfolding(crate::specs::Tests::adds_up))]
pub fn adds_up(s: Session, depths: &[u32; DEPTHS]) -> bool
    ensures { result ≡ «adds_up_of» s depths.now }
{
    all_depths(depths) == s.references
}

// Both: what hits and misses are told of.
pub fn countable(s: Session, depths: &[u32; DEPTHS]) -> bool
    ensures { result ≡ «countable_of» s depths.now }
{
    fits(s) && adds_up(s, depths)
}
