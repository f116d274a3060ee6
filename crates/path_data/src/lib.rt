// What path data of a curve's pieces is: its text, and the grammar that it is of. There is nothing here that runs.
#![tactic(auto)]
