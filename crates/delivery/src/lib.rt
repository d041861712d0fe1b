// The balance of what the code hands back. It has no code of its own.
#![tactic(auto)]
