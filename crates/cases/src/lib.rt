// Definitions and theorems alone: the table of cases that the rules are held to, and the proof of it by computation.
#![tactic(auto)]
