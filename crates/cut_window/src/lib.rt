// Where a curve is cut, as far as a span: what stands round the span, and why an insertion there is one of the whole curve. There is nothing here that runs.
#![tactic(auto)]
