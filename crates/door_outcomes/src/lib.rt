// Laws alone: what the contracts of the exports to C settle.
#![tactic(auto)]
