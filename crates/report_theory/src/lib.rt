// The report as text (rules T1 and T2). No code: the definitions of specs/, and the laws of writing text into
// a buffer, for the crate that writes it.
#![tactic(auto)]
