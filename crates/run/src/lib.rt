// What is kept of a run, reference by reference: the one loop over references that whole traces and sessions share. A client
// gets `refer_all`, for any memory at all; its promise is a function of what it was lent (specs/ReferredAll.antt), and
// specs/RunLaws.antt says what that is where the memory is a run's.
#![tactic(auto)]

mod counting;
mod reference;

pub use reference::refer_all;
