// The text of a job. There is nothing here that runs.
#![tactic(auto)]
