// Where judging finds bytes broken, there is their leftmost fault. There is nothing here that runs.
#![tactic(auto)]
