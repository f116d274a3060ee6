// A span's carrying numbers are fixed by the curve on it. There is nothing here that runs.
#![tactic(auto)]
