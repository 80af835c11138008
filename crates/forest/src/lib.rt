// Dialectical trees built: the forest of a literal has the trees of its arguments and of its complement's, each written by
// the steps of crate `turns`. What is written is defined in the crate `tree`.
#![tactic(auto)]

pub mod roots;
