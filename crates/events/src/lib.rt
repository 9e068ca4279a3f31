// The sixteen events of a test run, and the rules that each keeps.
#![tactic(auto)]

pub mod event;
pub mod kinds;
pub mod line;
pub mod rules;
mod said;
