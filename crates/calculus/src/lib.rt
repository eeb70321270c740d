// The calculus of judgements and steps: no code, only what the crates above are proved against.
#![tactic(auto)]
