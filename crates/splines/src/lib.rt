// The theory of B-spline curves over any ordered field. There is nothing here that runs.
#![tactic(auto)]
