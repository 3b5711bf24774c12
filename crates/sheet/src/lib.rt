// The sheet: where its fields stand, the lists that hold its numbers, and the checks that read,
// write, plan and report share.
#![tactic(auto)]

pub mod checks;
pub mod format;
pub mod layout;
pub mod numbers;
