// The fraction that a float is, and how far rounding moves a cell of the triangle. There is nothing here that runs.
#![tactic(auto)]
