// What a pass of compaction is, and laws on it. There is nothing here that runs.
#![tactic(auto)]
