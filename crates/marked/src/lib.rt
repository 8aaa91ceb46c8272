// Document 01's marked examples: nothing to run, one table to prove.
#![tactic(auto)]
