// Why every cut is reported: the list of spans against the exact curve. There is nothing here that runs.
#![tactic(auto)]
