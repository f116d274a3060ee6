// Why "clear" is clear. There is nothing here that runs.
#![tactic(auto)]
