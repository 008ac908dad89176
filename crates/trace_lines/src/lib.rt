// What trace prints of a call and of the session behind it: docs/TRACE.md.
#![tactic(auto)]

pub mod answers;
pub mod states;
pub mod writing;
