// Unclamping a curve at its right end ("Ends that are not clamped"): what it means stands in specs/. There is nothing here that runs.
#![tactic(auto)]
