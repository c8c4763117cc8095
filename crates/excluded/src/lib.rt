// No code here: wrong answers that the public contracts rule out, over the contracts themselves.
#![tactic(auto)]
