// Banks of frames (rules B1 to B6): the states of a bank, and the kind of call that gates its power. The definitions stand in
// specs/, and the theory of call histories in proofs/; the calls are in `banks`.
#![tactic(auto)]

// The states of a bank (rule B1). They stay numbers: C lends a byte for each frame, its bank's state, and the test of banks
// reads whatever stands there.
pub const OFF: u8 = 0;

pub const OPEN: u8 = 1;

pub const CLOSING: u8 = 2;

// What a call does to the power of a bank (rule B2).
#[derive(Clone, Copy, Debug, PartialEq, Eq)]
pub enum Gating {
    Close,
    Cut,
    Open,
}
