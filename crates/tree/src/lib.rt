// Argumentation lines, dialectical trees, marks. specs/ has the definitions, proofs/ the theorems about them.
#![tactic(auto)]

pub mod candidates;
pub mod nodes;
