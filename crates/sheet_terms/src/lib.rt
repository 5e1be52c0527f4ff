// What a sheet of minute prices is: its facts, its one spelling, the table of its lines, and what is written for a good one.
#![tactic(auto)]
