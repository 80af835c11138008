// More budget, and how long a line can get. Nothing here runs.
#![tactic(auto)]
