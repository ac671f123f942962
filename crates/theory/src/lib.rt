// No code: the definitions and theorems of specs/ on which every counting crate stands.
#![tactic(auto)]
