// Lists and tests in the definitions of every crate above. Nothing here runs: specs/ has the functions, proofs/ their laws.
#![tactic(auto)]
