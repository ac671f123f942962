// The refusals that a whole trace and a list of a trace share.
ghost use Rattle.count.specs.Checks.{Limited};
ghost use Rattle.rules.specs.Refusals.{accepted, first_bad_page};
ghost use Rattle.rules.specs.Limits.{pages};
ghost use Rattle.std.specs.List.{position};
ghost use Rattle.std.specs.Prelude.{leb, ◌≡◌};

use rules::{PAGES, Policy, REFERENCES, Refusal, is_capacity};

// The policy of a number, or the first of refusals 5, 1 and 2 that applies.
pub(crate) fn limits(policy: u8, k: usize, references: usize) -> Result<Policy, Refusal>
    ensures { Limited policy k references result }
{
    let policy = Policy::try_from(policy)?;
    if !is_capacity(k) {
        return Err(Refusal::BadLimit);
    }
    if REFERENCES < references {
        return Err(Refusal::TooManyReferences);
    }
    Ok(policy)
}

// The index of the first reference that is no page.
fn first_bad(trace: &[u16]) -> Option<usize>
    ensures { result ≡ position (λ page. leb pages page) trace.now }
{
    trace.iter().position(|&page| PAGES <= page)
}

// Refusal 3, at the first reference that is no page.
#[tactic(auto, using(crate::proofs::CheckLaws::bad_at, crate::proofs::CheckLaws::good_all, crate::proofs::CheckLaws::whole_part))]
pub(crate) fn all_pages(trace: &[u16]) -> Result<(), Refusal>
    ensures { result ≡ first_bad_page 0 trace.now accepted }
{
    match first_bad(trace) {
        Some(i) => Err(Refusal::BadPage(i)),
        None => Ok(()),
    }
}
