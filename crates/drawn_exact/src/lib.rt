// Why the pieces that are drawn of any curve are the curve. There is nothing here that runs.
#![tactic(auto)]
