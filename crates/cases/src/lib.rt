// No code here: schedules worked out by hand, as rows of one table.
#![tactic(auto)]
