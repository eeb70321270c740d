// Assignments of dimensions as bytes, and the least of those that satisfy one face and not another: no code, only what the counterexample is.
#![tactic(auto)]
