// The curve determines its polygon. There is nothing here that runs.
#![tactic(auto)]
