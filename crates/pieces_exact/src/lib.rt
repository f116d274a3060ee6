// Why the pieces of a curve are the curve: each is the exact curve between its two knots, and they follow one another. There is nothing here that runs.
#![tactic(auto)]
