// No code: the marked cases P1 to P15, proved of the definitions as one statement over one table.
#![tactic(auto)]
