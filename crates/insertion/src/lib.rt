// What it means to insert a knot, and laws on it. There is nothing here that runs.
#![tactic(auto)]
