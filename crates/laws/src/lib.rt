// No code here: what holds of every record and every schedule, over the definitions that the public contracts cite.
#![tactic(auto)]
