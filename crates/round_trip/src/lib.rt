// Reading and writing undo each other. There is nothing here that runs.
#![tactic(auto)]
