// Clamping the ends of a B-spline curve, over any ordered field. There is nothing here that runs.
#![tactic(auto)]
