// No code here: five faults of the table, each with the schedule that shows it. Four break figure 1, and one leaves the ranges.
#![tactic(auto)]
