// No code here: what it means that a contract allows one result.
#![tactic(auto)]
