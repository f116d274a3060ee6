// What it means that the meeting points drop out: inserted again, they give the curve that keeps them. There is nothing here that runs.
#![tactic(auto)]
