// The exact point of a curve that is given by lists of whole numbers. There is nothing here that runs.
#![tactic(auto)]
