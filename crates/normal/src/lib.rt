// The normal form of a face (document 01, "Normal form and repeat test").
#![tactic(auto)]

mod answers;

pub use answers::{length, normal};
