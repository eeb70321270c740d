// Demand 3's functions as it speaks of them: each calls a public function, and its contract is what a trace says of that call (specs/Demand). Without the function, or with less in its contract, this crate is not proved.
#![tactic(auto)]

pub mod calls;
pub mod exported;
