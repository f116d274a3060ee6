// Why the computed point is near the exact one. There is nothing here that runs.
#![tactic(auto)]
