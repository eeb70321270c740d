// The marked examples of document 01 as one table: no code, only what is proved of the calls.
#![tactic(auto)]
