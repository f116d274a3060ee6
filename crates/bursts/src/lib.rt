// A job fed in bursts is read as all of them joined. There is nothing here that runs.
#![tactic(auto)]
