// The arguments of a program: their numbers, and tables of literal sets. specs/ has the definitions, proofs/ the theorems that
// join the published and the computed ones.
#![tactic(auto)]

pub mod numbers;
pub mod sets;
