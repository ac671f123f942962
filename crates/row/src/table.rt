// The state table (rules W6, O6, R20 to R25): what a call may do to its frame.
ghost use Rattle.std.specs.Prelude.{◌≡◌, ℕ, ◌≤◌, get_or};
ghost use Rattle.row_theory.specs.States.{busy, held_bit as «held_bit_of», held_in, table_at, verdict_of};
ghost use Rattle.row_theory.specs.Promise.{asked};

use row_theory::{ABSENT, BUSY, Event, IDLE, PerFrame};
use rules::{FRAMES, HELD, Refusal};

// The table's entry: a next state or a refusal.
#[tactic(auto, unfolding(row_theory::specs::States::table_at))]
fn next(state: u8, event: Event) -> Result<u8, Refusal>
    requires { state ≤ busy }
    ensures { result ≡ table_at state event }
{
    match (state, event) {
        (ABSENT, Event::Put) => Ok(IDLE),
        (ABSENT, _) => Err(Refusal::NotHeld),
        (_, Event::Put) => Err(Refusal::HeldAlready),
        (_, Event::Touch) => Ok(state),
        (IDLE, Event::Start) => Ok(BUSY),
        (_, Event::Start) => Err(Refusal::BusyFrame),
        (IDLE, Event::End) => Err(Refusal::IdleFrame),
        (_, Event::End) => Ok(IDLE),
        (IDLE, Event::Drop) => Ok(ABSENT),
        (_, Event::Drop) => Err(Refusal::BusyFrame),
    }
}

// The state that the call gives its frame, or the refusal (rule O6).
#[tactic(auto, using(row_theory::proofs::VerdictLaws::verdicts))]
pub(crate) fn verdict(
    states: &PerFrame,
    held: usize,
    event: Event,
    frame: u8,
) -> Result<u8, Refusal>
    requires { ((f : ℕ) → get_or states.now f 0 ≤ busy) × (held ≡ held_in states.now) }
    ensures { result ≡ verdict_of states.now (asked event frame) }
{
    if FRAMES <= frame {
        return Err(Refusal::BadFrame);
    }
    let state = states[frame as usize];
    let then = next(state, event)?;
    // A held frame takes no more room, and of an absent one the table lets only a put through.
    if state == ABSENT && HELD <= held {
        return Err(Refusal::RowFull);
    }
    Ok(then)
}

// What a frame in this state adds to the number held.
#[tactic(auto, unfolding(row_theory::specs::States::held_bit))]
pub(crate) fn held_bit(state: u8) -> usize
    ensures { result ≡ «held_bit_of» state }
{
    usize::from(state != ABSENT)
}
