// Fractions as pairs of whole numbers, and why they are the rational numbers. There is nothing here that runs.
#![tactic(auto)]
