// No code here: figure 1 of source 000 and source 004's validate as definitions, and what it means that an engine follows them.
#![tactic(auto)]
