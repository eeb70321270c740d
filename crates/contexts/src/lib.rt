// Contexts on bytes, for the search: members, what is left when a face is left out, tests of the next move, and the moves that close the search.
#![tactic(auto)]

mod clashes;
mod closings;
mod context;
mod lefts;
mod members;
mod moves;
mod takes;

pub use closings::{by_absurd, by_clash, by_member, by_top, cover_step, finished};
pub use context::Context;
pub use lefts::{leave, left_out, offset};
pub use members::member;
pub use moves::{first_clash, first_compound, has};
pub use takes::take;
