// No code here: counting, and lists that are tested or filled place by place.
#![tactic(auto)]
