// Laws of ordered fields and an equation solver over them. There is nothing here that runs.
#![tactic(auto)]
