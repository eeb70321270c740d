// A chained index of a ledger's steps in a lent slice of numbers: the lowest equal step without a scan.
#![tactic(auto)]

mod bucket;
mod chain;
mod enter;
mod lowest;
mod marks;
mod pass;

pub use bucket::bucket_of;
pub use chain::find_in;
pub use enter::{enter_step, heads};
pub use marks::{finish, finished};
pub use pass::build;
