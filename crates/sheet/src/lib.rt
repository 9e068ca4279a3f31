// A run sheet read from its first line to its last, one event a call.
#![tactic(auto)]

pub mod faults;
mod lines;
mod numbers;
pub mod reader;
mod texts;
pub mod words;
