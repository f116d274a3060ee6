// The path data of whole curves. There is nothing here that runs.
#![tactic(auto)]
