// The clauses of a face in lent slices, and the bytes of its normal form. A clause list is a part of a lent slice of
// clauses.
#![tactic(auto)]

mod finding;
mod forming;
mod joined;
mod limits;
mod lists;
mod paired;

pub use forming::form;
