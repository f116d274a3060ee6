// The examples worked by hand, as one list of cases with one theorem. There is nothing here that runs.
#![tactic(auto)]
