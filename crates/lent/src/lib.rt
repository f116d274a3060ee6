// Laws on lent result lists. There is nothing here that runs.
#![tactic(auto)]
