// The slots and the frames' places in them (rules W2 to W5; Hoogerwoord 1992, section 1): squeezing, taking a slot, leaving one.
ghost use Rattle.std.specs.Prelude.{◌≡◌, ◌<◌};
ghost use Rattle.rules.specs.Limits.{frames, slots as slot_count};
ghost use Rattle.rules.specs.Lists.{times};
ghost use Rattle.row_theory.specs.Lending.{Indexed, SqueezedNow, TakenSlot, LeftSlot, Seatable, SeatedNow, Shiftable, Shifted};

use row_theory::{Event, PerFrame, PerSlot};
use rules::{FRAMES, SLOTS};

// What an empty slot reads, and the place of a frame that has no slot: C lends bytes, and the rules have these numbers (X5).
pub(crate) const EMPTY: u8 = FRAMES;

pub(crate) const NOWHERE: u8 = SLOTS as u8;

// The held frames packed against the last slot, order kept; the answer is the new front (rule W3). A frame never lands below
// the slot it is read from, so nothing is written over before it is read. Slots are below 64, so the number of one fits a byte.
fn squeeze(slots: &mut PerSlot, places: &mut PerFrame) -> usize
    requires { Indexed slots.old places.old }
    ensures { SqueezedNow slots.old result slots.new places.new }
{
    let mut to = SLOTS;
    for i in (0..SLOTS).rev() {
        let frame = slots[i];
        slots[i] = EMPTY;
        if frame < FRAMES {
            to -= 1;
            slots[to] = frame;
            places[frame as usize] = to as u8;
        }
    }
    to
}

// The frame takes the slot, which becomes the front.
fn take_slot(slots: &mut PerSlot, places: &mut PerFrame, front: &mut usize, at: usize, frame: u8)
    requires { (at < slot_count) × (frame < frames) }
    ensures { TakenSlot slots.old places.old at frame
        slots.new places.new front.new }
{
    slots[at] = frame;
    places[frame as usize] = at as u8;
    *front = at;
}

// The frame's slot is emptied (rule W4).
fn leave_slot(slots: &mut PerSlot, places: &mut PerFrame, frame: u8)
    requires { Indexed slots.old places.old × (frame < frames) × (times frame slots.old ≡ 1) }
    ensures { LeftSlot slots.old frame slots.new places.new }
{
    let at = places[frame as usize];
    slots[at as usize] = EMPTY;
    places[frame as usize] = NOWHERE;
}

// Rule W2: if the front is 0, squeeze; then the front falls by one and that slot takes the frame. The answer is the slots
// examined.
fn seat(slots: &mut PerSlot, places: &mut PerFrame, front: &mut usize, frame: u8) -> u8
    requires { Seatable slots.old places.old front.old frame }
    ensures { SeatedNow slots.old front.old frame result
        slots.new places.new front.new }
{
    let at = *front;
    if at == 0 {
        let room = squeeze(slots, places);
        take_slot(slots, places, front, room - 1, frame);
        return SLOTS as u8;
    }
    take_slot(slots, places, front, at - 1, frame);
    0
}

// What an accepted call does to the slots (rules W2, W4). The answer is the slots examined.
pub(crate) fn shift(
    slots: &mut PerSlot,
    places: &mut PerFrame,
    front: &mut usize,
    event: Event,
    frame: u8,
) -> u8
    requires { Shiftable event slots.old places.old front.old frame }
    ensures { Shifted event slots.old front.old frame result
        slots.new places.new front.new }
{
    match event {
        Event::Put => seat(slots, places, front, frame),
        Event::Touch => {
            leave_slot(slots, places, frame);
            seat(slots, places, front, frame)
        }
        Event::Start => 0,
        Event::End => 0,
        Event::Drop => {
            leave_slot(slots, places, frame);
            0
        }
    }
}
