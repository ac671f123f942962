// Traces, lists, sessions, files and the report for callers in C and Rust: numbers, slices and lent tables only (rows and
// banks: `row_exports`). No function asks anything of what it is lent: a session is tested first, and 40 told of one that
// fails its test (rules X1 to X4). Past that nothing is decided here: each function hands on to a proved one and tells its
// answer in numbers, and its promise says so. A result is one number of 32 bits, since wider ones are handed back in other
// ways on other machines; what else there is to say stands in a lent `value`. C passes a session in its parts and calls each
// function by a name of its own, so each puts the session together and tests it.
#![tactic(auto)]

mod report;
mod session_reads;
mod session_sound;
mod sessions;
mod trace_file;
mod whole_trace;
