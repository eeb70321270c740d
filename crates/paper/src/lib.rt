// The definitions of the cubical type theory paper: no code, only what boundary and forall are proved equal to.
#![tactic(auto)]
