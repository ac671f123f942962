// What a bank call does to its bank (rules B2, O8): its next state, the transfers that forbid a cut, its frames leaving the
// row, and its frames' gates.
ghost use Rattle.std.specs.Prelude.{◌≡◌, ◌+◌, ◌<◌, ◌≤◌, length};
ghost use Rattle.rules.specs.Limits.{frames, bank_frames};
ghost use Rattle.row_theory.specs.Promise.{Stands, memory};
ghost use Rattle.bank_theory.specs.Banks.{gated_to as «gated_to_of», busy_from as «busy_from_of»};
ghost use Rattle.bank_theory.specs.BankLending.{Leavable, DroppedOne, Dropped, Stored};

use bank_theory::{CLOSING, Gating, OFF, OPEN};
use row_theory::{BUSY, Event, IDLE, PerFrame, PerSlot};
use rules::{BANK_FRAMES, Frame, Refusal};

// The state that the call gives a bank in this state, or 30.
#[tactic(auto, unfolding(bank_theory::specs::Banks::gated_to))]
pub(crate) fn gated_to(gating: Gating, state: u8) -> Result<u8, Refusal>
    ensures { result ≡ «gated_to_of» gating state }
{
    match gating {
        Gating::Close if state == OPEN => Ok(CLOSING),
        Gating::Cut if state == CLOSING => Ok(OFF),
        Gating::Open if state != OPEN => Ok(OPEN),
        _ => Err(Refusal::WrongBankState),
    }
}

// Is a transfer under way in a bank's frames? They start at this one.
pub(crate) fn busy_from(states: &PerFrame, first: usize) -> bool
    requires { first + bank_frames ≤ frames }
    ensures { result ≡ «busy_from_of» states.now first bank_frames }
{
    states[first..first + BANK_FRAMES as usize].contains(&BUSY)
}

// A frame leaves the row if it is idle: one that is absent or busy has nothing to drop.
fn leave_one(
    slots: &mut PerSlot,
    places: &mut PerFrame,
    states: &mut PerFrame,
    front: &mut usize,
    held: &mut usize,
    frame: u8,
)
    requires { Stands (memory slots.old places.old states.old front.old held.old) × (frame < frames) }
    ensures { DroppedOne (memory slots.old places.old states.old front.old held.old) frame
        (memory slots.new places.new states.new front.new held.new) }
{
    if states[frame as usize] != IDLE {
        return;
    }
    // the drop of an idle frame is accepted
    let _ = row::call(
        slots,
        places,
        states,
        front,
        held,
        Event::Drop,
        Frame(frame),
    );
}

// A bank's frames leave the row, which squeezes nothing and leaves the front.
pub(crate) fn leave(
    slots: &mut PerSlot,
    places: &mut PerFrame,
    states: &mut PerFrame,
    front: &mut usize,
    held: &mut usize,
    first: u8,
)
    requires { Leavable (memory slots.old places.old states.old front.old held.old) first }
    ensures { Dropped (memory slots.old places.old states.old front.old held.old) first bank_frames
        (memory slots.new places.new states.new front.new held.new) }
{
    for frame in first..first + BANK_FRAMES {
        leave_one(slots, places, states, front, held, frame);
    }
}

// A bank's state becomes the gate of each of its frames.
pub(crate) fn store(gates: &mut PerFrame, first: usize, state: u8)
    requires { (first + bank_frames ≤ frames) × (length gates.old ≡ frames) }
    ensures { Stored gates.old first bank_frames state gates.new }
{
    gates[first..first + BANK_FRAMES as usize].fill(state);
}
