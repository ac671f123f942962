// The row under banks (rules B1 to B6): fresh banks, the five frame calls, the three bank calls, and the victim. The memory
// that the caller lends is a row's and, for each frame, a gate: the state of the frame's bank; its parts are parameters, as in
// `row`. This crate sees the row's
// promise alone: it calls `row`, and reads states and gates. The only premise is that row and gates are such as fresh banks
// and calls give (`StandsUnder`), and each call leaves such ones. What the calls mean, and what any sequence of them gives,
// stands in `bank_theory`.
#![tactic(auto)]

mod gating;
mod testing;

ghost use Rattle.std.specs.Prelude.{◌≡◌};
ghost use Rattle.row_theory.specs.Row.{has_mark};
ghost use Rattle.row_theory.specs.Promise.{asked, memory, row_with};
ghost use Rattle.bank_theory.specs.Banks.{of_frame, of_bank, needs_open as «needs_open_of», shut_out};
ghost use Rattle.bank_theory.specs.BankPromise.{gated_with, ReachedGates, StandsUnder, AnsweredUnder, FreshBanks, OldestOpen};
ghost use Rattle.bank_theory.specs.BankPromise.{bank_memory};
ghost use Rattle.bank_theory.specs.BankLending.{Closing};
ghost use Rattle.bank_theory.specs.declared.Gating.TheVariants.{Cut};

use bank_theory::{Gating, OFF, OPEN};
use gating::{busy_from, gated_to, leave, store};
use row_theory::{Event, PerFrame, PerSlot};
use rules::{BANK_FRAMES, BANKS, Bank, FRAMES, Frame, Refusal};
pub use testing::sound;

// Open banks over a fresh row, whatever stood in the memory (rule B1).
pub fn fresh(
    slots: &mut PerSlot,
    places: &mut PerFrame,
    states: &mut PerFrame,
    front: &mut usize,
    held: &mut usize,
    gates: &mut PerFrame,
)
    ensures { FreshBanks (bank_memory (memory slots.new places.new states.new front.new held.new) gates.new) }
{
    row::fresh(slots, places, states, front, held);
    *gates = [OPEN; FRAMES as usize];
}

// Put and start bring new content into a frame (rule B3).
fn needs_open(event: Event) -> bool
    ensures { result ≡ «needs_open_of» event }
{
    matches!(event, Event::Put | Event::Start)
}

// Is this such a call in a bank that is not open (rule B3)? A number that is no frame's is the row's to refuse.
#[tactic(auto, unfolding(bank_theory::specs::Banks::shut_out, row_theory::specs::Row::has_mark))]
fn shut(gates: &PerFrame, event: Event, frame: u8) -> bool
    ensures { result ≡ shut_out (has_mark gates.now) (asked event frame) }
{
    frame < FRAMES && gates[frame as usize] != OPEN && needs_open(event)
}

// One of the five frame calls (rules B3, O7): put and start need an open bank, all else is the row's. A refusal leaves the
// row as it was.
pub fn call(
    slots: &mut PerSlot,
    places: &mut PerFrame,
    states: &mut PerFrame,
    front: &mut usize,
    held: &mut usize,
    gates: &PerFrame,
    event: Event,
    frame: Frame,
) -> Result<u8, Refusal>
    requires { StandsUnder (bank_memory (memory slots.old places.old states.old front.old held.old) gates.now) }
    ensures { AnsweredUnder (bank_memory (memory slots.old places.old states.old front.old held.old) gates.now)
        (of_frame (asked event frame.0)) result
        (bank_memory (memory slots.new places.new states.new front.new held.new) gates.now) }
{
    if shut(gates, event, frame.0) {
        return Err(Refusal::BankNotOpen);
    }
    row::call(slots, places, states, front, held, event, frame)
}

// A cut of a closing bank: all its frames leave the row together, unless one of them is busy (rules B2, O8).
fn cut(
    slots: &mut PerSlot,
    places: &mut PerFrame,
    states: &mut PerFrame,
    front: &mut usize,
    held: &mut usize,
    gates: &mut PerFrame,
    bank: u8,
) -> Result<u8, Refusal>
    requires { Closing (bank_memory (memory slots.old places.old states.old front.old held.old) gates.old) bank }
    ensures { AnsweredUnder (bank_memory (memory slots.old places.old states.old front.old held.old) gates.old)
        (of_bank Cut bank) result
        (bank_memory (memory slots.new places.new states.new front.new held.new) gates.new) }
{
    let first = bank * BANK_FRAMES;
    if busy_from(states, first as usize) {
        return Err(Refusal::BankBusy);
    }
    leave(slots, places, states, front, held, first);
    store(gates, first as usize, OFF);
    Ok(0)
}

// One of the three bank calls: close, cut or open (rules B2, O8). A refusal leaves row and gates as they were.
pub fn gate(
    slots: &mut PerSlot,
    places: &mut PerFrame,
    states: &mut PerFrame,
    front: &mut usize,
    held: &mut usize,
    gates: &mut PerFrame,
    gating: Gating,
    bank: Bank,
) -> Result<u8, Refusal>
    requires { StandsUnder (bank_memory (memory slots.old places.old states.old front.old held.old) gates.old) }
    ensures { AnsweredUnder (bank_memory (memory slots.old places.old states.old front.old held.old) gates.old)
        (of_bank gating bank.0) result
        (bank_memory (memory slots.new places.new states.new front.new held.new) gates.new) }
{
    let b = bank.0;
    if BANKS <= b {
        return Err(Refusal::BadBank);
    }
    let first = b * BANK_FRAMES;
    let next = gated_to(gating, gates[first as usize])?;
    // a cut is the only way to off; asked of the state, what `cut` asks for is one law away
    if next == OFF {
        return cut(slots, places, states, front, held, gates, b);
    }
    store(gates, first as usize, next);
    Ok(0)
}

// The oldest idle frame in an open bank (rule B4): 26 if nothing is held, 27 if frames are held but none is such a one. The
// gates serve as marks: an open one reads 1.
pub fn victim(
    slots: &PerSlot,
    states: &PerFrame,
    gates: &PerFrame,
    front: usize,
    held: usize,
) -> Result<Frame, Refusal>
    requires { ReachedGates (row_with slots.now states.now front held) gates.now }
    ensures { OldestOpen (gated_with (row_with slots.now states.now front held) gates.now) result }
{
    row::victim_among(slots, states, gates, front, held)
}
