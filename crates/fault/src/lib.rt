// Where bytes that are no file of their kind first break. There is nothing here that runs.
#![tactic(auto)]
