// The filed form of a program and what is claimed of it. Nothing here runs: crate `filer` writes it.
#![tactic(auto)]
