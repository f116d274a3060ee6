// Why inserting, removing and compacting knots move nothing: the exact curve before and after. There is nothing here that runs.
#![tactic(auto)]
