// What it means to remove a knot, and laws on it. There is nothing here that runs.
#![tactic(auto)]
