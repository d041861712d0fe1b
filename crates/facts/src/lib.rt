// Laws of truth values, numbers and tables that every crate cites. It has no code of its own.
#![tactic(auto)]
