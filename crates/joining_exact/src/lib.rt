// Why the joined curve passes the check, and is the Hermite cubic of its spline points. There is nothing here that runs.
#![tactic(auto)]
