// The guarded search of the producer: no code, only what it is and what is proved of it.
#![tactic(auto)]
