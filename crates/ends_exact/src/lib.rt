// Why clamping and unclamping keep the exact curve. There is nothing here that runs.
#![tactic(auto)]
