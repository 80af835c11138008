// From a program in the rule table to the answer of a literal: argument list, forest, answer, and what they leave in the
// lent tables. The program may come from an image or from anywhere.
#![tactic(auto)]

mod answering;
mod occurrence;
pub mod sized;
