// What the cut curve is: its sizes, its knots by index, how often each value stands in it, and when cutting is refused. There is nothing here that runs.
#![tactic(auto)]
