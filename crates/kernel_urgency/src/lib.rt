// The order of urgency, and who leads a scan of the tasks.
#![tactic(auto)]

pub mod scan;
