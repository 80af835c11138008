// Attack and defeat. specs/ has the definitions, proofs/ the theorems that join the published and the computed ones.
#![tactic(auto)]

pub mod defeaters;
pub mod kinds;
