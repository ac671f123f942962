// The test of a row in lent memory (rule X5), in one pass over its slots and its frames: what the C boundary asks before it
// calls anything here, and what firmware asks after waking up. It is exact: memory passes it exactly if a fresh row and calls
// give it (proofs/TestLaws.antt of `row_theory`). The parts ask for the lengths of what they read: a contract does not know
// how long the list behind an array is, and `sound` alone is lent arrays.
ghost use Rattle.std.specs.Prelude.{ℕ, Bool, ◌≡◌, ◌<◌, length, count_by};
ghost use Rattle.rules.specs.Limits.{frames, slots as slot_count};
ghost use Rattle.rules.specs.AllBelow.{all_below};
ghost use Rattle.row_theory.specs.States.{held_in as «held_in_of»};
ghost use Rattle.row_theory.specs.Slots.{frames_in};
ghost use Rattle.row_theory.specs.RowTest.{slot_sound as «slot_sound_of», frame_sound as «frame_sound_of»};
ghost use Rattle.row_theory.specs.RowTest.{place_sound as «place_sound_of», row_sound, RowTested};
ghost use Rattle.row_theory.specs.TestParts.{Sized};
ghost use Rattle.row_theory.specs.TestSteps.{SlotTested, FrameTested, PlaceTested, RoomTested};
ghost use Rattle.row_theory.specs.Promise.{memory};

use crate::slots::{EMPTY, NOWHERE};
use row_theory::{ABSENT, BUSY, PerFrame, PerSlot};
use rules::{FRAMES, HELD, SLOTS, all_pass, pick};

// A slot that holds a frame is not below the front; any other is empty. All numbers are bytes, of which sixteen are compared
// at a time.
fn slot_sound(slots: &[u8], front: u8, slot: u8) -> bool
    requires { (length slots.now ≡ slot_count) × (slot < slot_count) }
    ensures { SlotTested slots.now front slot result }
{
    let frame = slots[slot as usize];
    pick(frame < FRAMES, front <= slot, frame == EMPTY)
}

// A slot to read, whatever the place.
fn some_slot(place: u8) -> usize
    ensures { (result < slot_count) × (place < slot_count → result ≡ place) }
{
    place as usize % SLOTS
}

// A frame that has a place stands there. A slot is read in any case: which frames are held cannot be foretold, and a wrong
// guess costs more than what it would spare.
fn place_sound(slots: &[u8], places: &[u8], frame: u8) -> bool
    requires { (length slots.now ≡ slot_count) × (length places.now ≡ frames) × (frame < frames) }
    ensures { PlaceTested slots.now places.now frame result }
{
    let place = places[frame as usize];
    let stands = slots[some_slot(place)] == frame;
    pick(place < NOWHERE, stands, true)
}

// A held frame has a place; an absent one has none.
fn frame_sound(places: &[u8], states: &[u8], frame: u8) -> bool
    requires { (length places.now ≡ frames) × (length states.now ≡ frames) × (frame < frames) }
    ensures { FrameTested places.now states.now frame result }
{
    let place = places[frame as usize];
    let state = states[frame as usize];
    if state == ABSENT {
        return place == NOWHERE;
    }
    if BUSY < state {
        return false;
    }
    place < NOWHERE
}

fn slots_sound(slots: &[u8], front: u8) -> bool
    requires { length slots.now ≡ slot_count }
    ensures { result ≡ all_below («slot_sound_of» front slots.now) slot_count }
{
    all_pass(NOWHERE, |i| slot_sound(slots, front, i))
}

fn places_sound(slots: &[u8], places: &[u8]) -> bool
    requires { (length slots.now ≡ slot_count) × (length places.now ≡ frames) }
    ensures { result ≡ all_below («place_sound_of» slots.now places.now) frames }
{
    all_pass(FRAMES, |i| place_sound(slots, places, i))
}

fn frames_sound(places: &[u8], states: &[u8]) -> bool
    requires { (length places.now ≡ frames) × (length states.now ≡ frames) }
    ensures { result ≡ all_below («frame_sound_of» places.now states.now) frames }
{
    all_pass(FRAMES, |i| frame_sound(places, states, i))
}

// How many numbers of the list pass the test. With `filter` and `count` the test of a row took twice as long.
fn how_many<F: Fn(u8) -> bool>(list: &[u8], test: F) -> usize
    requires { (x : ℕ) → x < 256 → F.pre test x }
    ensures { (p : ℕ → Bool) → ((x : ℕ) (r : Bool) → x < 256 → F.post test x r → r ≡ p x) → result ≡ count_by p list.now }
{
    let mut n = 0;
    for &x in list {
        n += usize::from(test(x));
    }
    n
}

// The number of frames held.
fn held_in(states: &[u8]) -> usize
    ensures { result ≡ «held_in_of» states.now }
{
    how_many(states, |state| state != ABSENT)
}

// The number of frames in the slots.
fn full_in(slots: &[u8]) -> usize
    ensures { result ≡ length (frames_in slots.now) }
{
    how_many(slots, |x| x < FRAMES)
}

// At most 32 frames are held, and fewer where the slot at the front is empty.
fn room_sound(slots: &[u8], front: usize, held: usize) -> bool
    requires { length slots.now ≡ slot_count }
    ensures { RoomTested slots.now front held result }
{
    if held < HELD {
        return true;
    }
    if SLOTS <= front {
        return false;
    }
    if FRAMES <= slots[front] {
        return false;
    }
    held <= HELD
}

// The parts of the test, the cheapest first. A front past 64 has failed before it is made a byte.
#[tactic(auto, unfolding(row_theory::specs::RowTest::row_sound))]
fn tested(slots: &[u8], places: &[u8], states: &[u8], front: usize, held: usize) -> bool
    requires { Sized (memory slots.now places.now states.now front held) }
    ensures { result ≡ row_sound (memory slots.now places.now states.now front held) }
{
    front <= SLOTS
        && slots_sound(slots, front as u8)
        && frames_sound(places, states)
        && places_sound(slots, places)
        && held == held_in(states)
        && held == full_in(slots)
        && room_sound(slots, front, held)
}

// Is this a row that a fresh row and calls give?
pub fn sound(
    slots: &PerSlot,
    places: &PerFrame,
    states: &PerFrame,
    front: usize,
    held: usize,
) -> bool
    ensures { RowTested (memory slots.now places.now states.now front held) result }
{
    tested(slots, places, states, front, held)
}
