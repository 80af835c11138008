// How a set of arguments is written.
#![tactic(auto)]

pub mod arguments;
