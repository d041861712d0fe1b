// What the machine answers to scripts that were worked out by hand: theorems about the machine. It has no code of its own.
#![tactic(auto)]
