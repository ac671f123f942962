// The frame row, and the row under banks, for callers in C and Rust: numbers and lent tables only. Nothing is decided here but
// whether the lent memory passes its test: each function hands on to a proved one and tells its answer in numbers, and its
// promise says so of any memory. A result is one number of 32 bits and what else there is to tell stands in lent memory, so
// that it comes back the same way on every machine. C calls each function by a name of its own, so calls that differ in one word
// are functions of their own; each is one call of a function that they share.
#![tactic(auto)]

mod bank_calls;
mod frame_row;
mod telling;
