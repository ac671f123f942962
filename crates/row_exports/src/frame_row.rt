// The frame row for callers in C and Rust: the row stands in memory that the caller lends, in parts. No call asks anything of
// it: each tests it first (rule X5), and answers 40 and leaves it alone where it fails.
ghost use Rattle.rules.specs.Told.{told};
ghost use Rattle.row_theory.specs.Promise.{FreshRow, asked, memory};
ghost use Rattle.row_theory.specs.declared.Event.TheVariants.{Put, Touch, Start, End, Drop};
ghost use Rattle.row_exports.specs.RowTold.{RowTold, VictimTold, RowSoundTold};

use crate::telling::{tell_reply, tell_test, tell_victim};
use row_theory::{Event, PerFrame, PerSlot};
use rules::{Frame, Refusal, byte_of, tell};

// One of the five calls, told in numbers.
fn call(
    slots: &mut PerSlot,
    places: &mut PerFrame,
    states: &mut PerFrame,
    front: &mut usize,
    held: &mut usize,
    event: Event,
    frame: u32,
    value: &mut usize,
) -> u32
    ensures { RowTold (memory slots.old places.old states.old front.old held.old) (asked event frame) (told result value.new)
        (memory slots.new places.new states.new front.new held.new) }
{
    if !row::sound(slots, places, states, *front, *held) {
        return tell(Err(Refusal::Unsound), value);
    }
    let reply = row::call(
        slots,
        places,
        states,
        front,
        held,
        event,
        Frame(byte_of(frame)),
    );
    tell_reply(reply, value)
}

// A fresh row, whatever stood in the memory.
#[unsafe(no_mangle)]
pub extern "C" fn musselrung_row_fresh_parts(
    slots: &mut PerSlot,
    places: &mut PerFrame,
    states: &mut PerFrame,
    front: &mut usize,
    held: &mut usize,
)
    ensures { FreshRow (memory slots.new places.new states.new front.new held.new) }
{
    row::fresh(slots, places, states, front, held)
}

// The frame becomes idle and the most recent.
#[unsafe(no_mangle)]
pub extern "C" fn musselrung_row_put_parts(
    slots: &mut PerSlot,
    places: &mut PerFrame,
    states: &mut PerFrame,
    front: &mut usize,
    held: &mut usize,
    frame: u32,
    value: &mut usize,
) -> u32
    ensures { RowTold (memory slots.old places.old states.old front.old held.old) (asked Put frame) (told result value.new)
        (memory slots.new places.new states.new front.new held.new) }
{
    call(slots, places, states, front, held, Event::Put, frame, value)
}

// The frame becomes the most recent.
#[unsafe(no_mangle)]
pub extern "C" fn musselrung_row_touch_parts(
    slots: &mut PerSlot,
    places: &mut PerFrame,
    states: &mut PerFrame,
    front: &mut usize,
    held: &mut usize,
    frame: u32,
    value: &mut usize,
) -> u32
    ensures { RowTold (memory slots.old places.old states.old front.old held.old) (asked Touch frame) (told result value.new)
        (memory slots.new places.new states.new front.new held.new) }
{
    call(
        slots,
        places,
        states,
        front,
        held,
        Event::Touch,
        frame,
        value,
    )
}

// A transfer starts: the frame becomes busy, and stays where it is.
#[unsafe(no_mangle)]
pub extern "C" fn musselrung_row_start_parts(
    slots: &mut PerSlot,
    places: &mut PerFrame,
    states: &mut PerFrame,
    front: &mut usize,
    held: &mut usize,
    frame: u32,
    value: &mut usize,
) -> u32
    ensures { RowTold (memory slots.old places.old states.old front.old held.old) (asked Start frame) (told result value.new)
        (memory slots.new places.new states.new front.new held.new) }
{
    call(
        slots,
        places,
        states,
        front,
        held,
        Event::Start,
        frame,
        value,
    )
}

// The transfer ends: the frame becomes idle, and stays where it is.
#[unsafe(no_mangle)]
pub extern "C" fn musselrung_row_end_parts(
    slots: &mut PerSlot,
    places: &mut PerFrame,
    states: &mut PerFrame,
    front: &mut usize,
    held: &mut usize,
    frame: u32,
    value: &mut usize,
) -> u32
    ensures { RowTold (memory slots.old places.old states.old front.old held.old) (asked End frame) (told result value.new)
        (memory slots.new places.new states.new front.new held.new) }
{
    call(slots, places, states, front, held, Event::End, frame, value)
}

// The frame becomes absent.
#[unsafe(no_mangle)]
pub extern "C" fn musselrung_row_drop_parts(
    slots: &mut PerSlot,
    places: &mut PerFrame,
    states: &mut PerFrame,
    front: &mut usize,
    held: &mut usize,
    frame: u32,
    value: &mut usize,
) -> u32
    ensures { RowTold (memory slots.old places.old states.old front.old held.old) (asked Drop frame) (told result value.new)
        (memory slots.new places.new states.new front.new held.new) }
{
    call(
        slots,
        places,
        states,
        front,
        held,
        Event::Drop,
        frame,
        value,
    )
}

// The idle frame nearest the old end; asking changes nothing.
#[unsafe(no_mangle)]
pub extern "C" fn musselrung_row_victim_parts(
    slots: &PerSlot,
    places: &PerFrame,
    states: &PerFrame,
    front: usize,
    held: usize,
    value: &mut usize,
) -> u32
    ensures { VictimTold (memory slots.now places.now states.now front held)
        (told result value.new) }
{
    if row::sound(slots, places, states, front, held) {
        let victim = row::victim(slots, states, front, held);
        return tell_victim(victim, value);
    }
    tell(Err(Refusal::Unsound), value)
}

// 1 if this is a row that a fresh row and calls give, else 0.
#[unsafe(no_mangle)]
pub extern "C" fn musselrung_row_sound_parts(
    slots: &PerSlot,
    places: &PerFrame,
    states: &PerFrame,
    front: usize,
    held: usize,
) -> u32
    ensures { RowSoundTold (memory slots.now places.now states.now front held) result }
{
    tell_test(row::sound(slots, places, states, front, held))
}
