// The balance of runs and locks: definitions and theorems about the machine. It has no code of its own.
#![tactic(auto)]
