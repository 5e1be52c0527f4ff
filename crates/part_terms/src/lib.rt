// Parts of a day: instances that each have some of its tasks, and what becomes of a plan of the day in such a part.
#![tactic(auto)]
