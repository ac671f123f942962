// The frame row (rules W1 to W7; Hoogerwoord 1992, section 1): a fresh row, the five calls, the victim, and the state of one
// frame. The row stands in memory that the caller lends: the slots, each frame's place in them, each frame's state, the front
// mark and the number held. They are parameters and not one struct, since C lends each by a pointer of its own, and a struct
// of references would need a clause for each of its fields in each function. The only premise is that the row is one that a
// fresh row and calls give (`Stands`), and each call leaves one. What the calls mean, and what any sequence of them gives,
// stands in `row_theory`: a layer above needs its specs/Promise.antt alone.
#![tactic(auto)]

mod slots;
mod table;
mod testing;

ghost use Rattle.std.specs.Prelude.{◌≡◌, find, reverse};
ghost use Rattle.row_theory.specs.Runs.{Reached};
ghost use Rattle.row_theory.specs.Row.{any_frame, has_mark, idle_among};
ghost use Rattle.row_theory.specs.Slots.{passes as «passes_of»};
ghost use Rattle.row_theory.specs.Promise.{Stands, asked, Answered, FreshRow, OldestIdle, state_in, memory, row_with};

use row_theory::{ABSENT, Event, IDLE, PerFrame, PerSlot};
use rules::{FRAMES, Frame, Refusal, SLOTS};
use slots::{EMPTY, NOWHERE, shift};
use table::{held_bit, verdict};
pub use testing::sound;

// The mark that lets `victim_among` give a frame up; any other number keeps it: lent states and gates serve as marks.
pub const GIVABLE: u8 = 1;

// One of the five calls: put, touch, start, end or drop of a frame (rules W2 to W6, O6). The answer is the slots examined by
// squeezing; a refusal examines none, and leaves the row as it was. It is part of each exported call, which knows its event: as a
// function of its own it took 176 bytes of stack where these calls take 64 to 128.
#[inline(always)]
pub fn call(
    slots: &mut PerSlot,
    places: &mut PerFrame,
    states: &mut PerFrame,
    front: &mut usize,
    held: &mut usize,
    event: Event,
    frame: Frame,
) -> Result<u8, Refusal>
    requires { Stands (memory slots.old places.old states.old front.old held.old) }
    ensures { Answered (memory slots.old places.old states.old front.old held.old) (asked event frame.0) result
        (memory slots.new places.new states.new front.new held.new) }
{
    let f = frame.0;
    let n = *held;
    let then = verdict(states, n, event, f)?;
    let examined = shift(slots, places, front, event, f);
    let was = states[f as usize];
    states[f as usize] = then;
    *held = n + held_bit(then) - held_bit(was);
    Ok(examined)
}

// A fresh row in lent memory, whatever stood there (rule W1).
pub fn fresh(
    slots: &mut PerSlot,
    places: &mut PerFrame,
    states: &mut PerFrame,
    front: &mut usize,
    held: &mut usize,
)
    ensures { FreshRow (memory slots.new places.new states.new front.new held.new) }
{
    *slots = [EMPTY; SLOTS];
    *places = [NOWHERE; FRAMES as usize];
    *states = [ABSENT; FRAMES as usize];
    *front = SLOTS;
    *held = 0;
}

// Is this a frame, idle, and with a mark of 1?
#[tactic(auto, unfolding(row_theory::specs::Slots::passes, row_theory::specs::Row::idle_among, row_theory::specs::Row::has_mark))]
fn passes(states: &PerFrame, marks: &PerFrame, frame: u8) -> bool
    ensures { result ≡ «passes_of» (idle_among (has_mark marks.now) states.now) frame }
{
    frame < FRAMES && states[frame as usize] == IDLE && marks[frame as usize] == GIVABLE
}

// The last such frame in these slots.
fn oldest(slots: &[u8], states: &PerFrame, marks: &PerFrame) -> Option<u8>
    ensures { result ≡ find («passes_of» (idle_among (has_mark marks.now) states.now)) (reverse slots.now) }
{
    slots
        .iter()
        .rev()
        .copied()
        .find(|&frame| passes(states, marks, frame))
}

// The oldest frame that is idle and whose mark is 1 (rule W7): 26 if nothing is held, 27 if frames are held but none is such
// a one. Whatever the marks, a busy frame is not given. The scan starts at the old end, so that it ends at the first frame
// that may be given up.
pub fn victim_among(
    slots: &PerSlot,
    states: &PerFrame,
    marks: &PerFrame,
    front: usize,
    held: usize,
) -> Result<Frame, Refusal>
    requires { Reached (row_with slots.now states.now front held) }
    ensures { OldestIdle (row_with slots.now states.now front held) (has_mark marks.now) result }
{
    match oldest(&slots[front..], states, marks) {
        Some(frame) => Ok(Frame(frame)),
        None if held == 0 => Err(Refusal::NothingHeld),
        None => Err(Refusal::AllBusy),
    }
}

// The oldest idle frame (rule W7). The states serve as marks: idle reads 1, so every idle frame bears one.
pub fn victim(
    slots: &PerSlot,
    states: &PerFrame,
    front: usize,
    held: usize,
) -> Result<Frame, Refusal>
    requires { Reached (row_with slots.now states.now front held) }
    ensures { OldestIdle (row_with slots.now states.now front held) any_frame result }
{
    victim_among(slots, states, states, front, held)
}

// The state of one frame, whatever its number: 0 absent, 1 idle, 2 busy, and any byte that else stands in the memory.
pub fn state_of(states: &PerFrame, frame: Frame) -> u8
    ensures { result ≡ state_in states.now frame.0 }
{
    states.get(frame.0 as usize).copied().unwrap_or(ABSENT)
}
