// The frame row (rules W1 to W7; Hoogerwoord 1992, section 1, with N = 64 and M = 32): the kinds of value that its calls
// take. The definitions stand in specs/, the theory of call histories in proofs/; the calls are in `row`.
#![tactic(auto)]

use rules::{FRAMES, SLOTS};

// A number for each slot, and a number for each frame (rules L4, L6).
pub type PerSlot = [u8; SLOTS];

pub type PerFrame = [u8; FRAMES as usize];

// The states of a frame (rule W6). They stay numbers: C lends a byte for each frame, and a row's test reads whatever stands
// there.
pub const ABSENT: u8 = 0;

pub const IDLE: u8 = 1;

pub const BUSY: u8 = 2;

// What a call does to a frame: a column of the state table (rule W6).
#[derive(Clone, Copy, Debug, PartialEq, Eq)]
pub enum Event {
    Put,
    Touch,
    Start,
    End,
    Drop,
}
