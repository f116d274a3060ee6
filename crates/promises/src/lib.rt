// What Tsaghnobir promises, in one place: specs/Promises.antt states, proofs/Proved.antt proves. There is nothing here that runs.
#![tactic(auto)]
